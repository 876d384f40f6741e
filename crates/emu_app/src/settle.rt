//! The command `settle`: runs recorded events on the original.

ghost use Rattle.std.specs.Prelude.{◌≡◌, ◌<◌, length};
ghost use Rattle.emu_app.specs.Answers.{Comes, SettleEnds};
ghost use Rattle.emu_app.specs.Command.{text_count};
ghost use Rattle.emu_app.specs.Fetching.{AreWithin, texts_of};
ghost use Rattle.case_texts.specs.Forms.{SaysDesign};
ghost use Rattle.case_texts.specs.Cases.{DesignSays};
ghost use Rattle.emu_app.specs.Runs.{FitsDesign, IsHistoryTrace, NoAnswer};

use crate::command::Command;
use crate::ending::{Ending, ending_of};
use crate::laws::texts_tell_runs_apart;
use crate::reading::{read_first, read_order, read_recording};
use crate::recording::Recording;
use clock_rank::Ranked;
use design_core::Design;
use domain_groups::Groups;
use emu_io::{List, Sink, StoreFault, Text};
use event_replay::settle_lines;
use settled_model::Settled;
use std::alloc::Global;

/// Reads the texts, and prints the trace of the original that they record.
pub fn settle_texts<O: Sink>(
    alloc: Global,
    top: &[u8],
    texts: &List<Text>,
    out: &mut O,
) -> Result<Ending, StoreFault>
    requires count { length texts.now ≡ text_count Command.Settle }
    requires within { AreWithin (texts_of Command.Settle texts.now) }
    ensures { SettleEnds top.now (texts_of Command.Settle texts.now) (O.written out.old) (O.written out.new) (O.faults out.old) (O.faults out.new) result }
{
    match read_first(alloc, Command::Settle, top, texts) {
        Ok(design) => settle_design(alloc, top, texts, &design, out),
        Err(why) => ending_of(why),
    }
}

/// The same, for the design that the texts say.
fn settle_design<O: Sink>(
    alloc: Global,
    top: &[u8],
    texts: &List<Text>,
    design: &Design,
    out: &mut O,
) -> Result<Ending, StoreFault>
    requires count { length texts.now ≡ text_count Command.Settle }
    requires says { SaysDesign top.now (texts_of Command.Settle texts.now) design.now }
    ensures { SettleEnds top.now (texts_of Command.Settle texts.now) (O.written out.old) (O.written out.new) (O.faults out.old) (O.faults out.new) result }
{
    match read_order(alloc, Command::Settle, top, texts, design) {
        Ok((ranked, groups)) => settle_ranked(alloc, top, texts, &ranked, &groups, out),
        Err(why) => ending_of(why),
    }
}

/// The same, for the design with its nodes in order, and the groups of its inputs.
fn settle_ranked<O: Sink>(
    alloc: Global,
    top: &[u8],
    texts: &List<Text>,
    ranked: &Ranked<'_>,
    groups: &Groups,
    out: &mut O,
) -> Result<Ending, StoreFault>
    requires count { length texts.now ≡ text_count Command.Settle }
    requires says { DesignSays top.now (texts_of Command.Settle texts.now) ranked.now.design groups.now }
    ensures { SettleEnds top.now (texts_of Command.Settle texts.now) (O.written out.old) (O.written out.new) (O.faults out.old) (O.faults out.new) result }
{
    texts_tell_runs_apart();
    match read_recording(alloc, Command::Settle, top, texts, ranked.design(), groups) {
        Ok(recording) => settle_recording(alloc, ranked, recording, out),
        Err(why) => ending_of(why),
    }
}

/// Runs recorded events on the original, and prints its trace.
pub fn settle_recording<O: Sink>(
    alloc: Global,
    ranked: &Ranked<'_>,
    recording: Recording,
    out: &mut O,
) -> Result<Ending, StoreFault>
    requires fits { FitsDesign ranked.now.design recording }
    ensures { Comes NoAnswer (IsHistoryTrace ranked.now.design recording) (O.written out.old) (O.written out.new) (O.faults out.old) (O.faults out.new) result }
{
    one_history::histories::one_history();
    settled_model::openings_fit();
    trace_law::traces::settled_traces();
    trace_law::traces::settled_trace_is_one();
    trace_law::traces::broken_traces();
    let design = ranked.design();
    design.stands();
    ranked.stands();
    let Ok(mut settled) = Settled::open(alloc, ranked, &recording.opening) else {
        return Err(StoreFault::NoMemory);
    };
    match settle_lines(alloc, &mut settled, design, &recording.events, out) {
        Ok(()) => Ok(Ending::Traced),
        Err(fault) => Err(fault),
    }
}
