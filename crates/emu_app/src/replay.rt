//! The command `replay`: runs recorded events on results.

ghost use Rattle.std.specs.Prelude.{◌≡◌, IfOk, length};
ghost use Rattle.cycle_sim.specs.Loading.{CanLoad, FreeAreZero};
ghost use Rattle.cycle_sim.specs.Tables.{HaveSizes, HaveWords, state_of};
ghost use Rattle.design_core.specs.Design.{net_count};
ghost use Rattle.domain_groups.specs.Groups.{AreOf};
ghost use Rattle.emu_machine.specs.Headline.{EventsFit};
ghost use Rattle.settled_model.specs.Opening.{Opens};
ghost use Rattle.case_texts.specs.Cases.{DesignSays};
ghost use Rattle.case_texts.specs.Forms.{SaysDesign};
ghost use Rattle.emu_app.specs.Answers.{ReplayEnds, RunEnds, TraceEnds};
ghost use Rattle.emu_app.specs.Command.{text_count};
ghost use Rattle.emu_app.specs.Fetching.{AreWithin, texts_of};
ghost use Rattle.emu_app.specs.Reading.{AllMean, ReplayedSays, case_of};
ghost use Rattle.emu_app.specs.Runs.{CanReplay, FitsDesign, KeepsNets, LoadsOpened};

use crate::answer::Answer;
use crate::command::Command;
use crate::ending::{Ending, ending_of};
use crate::laws::texts_tell_recordings_apart;
use crate::reading::{Planned, read_first, read_order, read_plan, read_recording};
use crate::recording::Recording;
use case_texts::{Unread, texts_tell_cases_apart};
use clock_rank::Ranked;
use cycle_sim::{Loaded, Machine};
use design_core::Design;
use domain_groups::Groups;
use emu_io::{List, NoMemory, Sink, StoreFault, Text};
use emu_machine::Results;
use event_replay::replay_lines;
use settled_model::{Opening, Settled};
use shape_check::{Verdict, judge_shape};
use std::alloc::Global;

/// What the texts of a board, of results and of a recording say.
#[derive(Debug, Drop)]
pub struct Replayed {
    pub plan: Planned,
    pub recording: Recording,
}

/// Reads the texts, and prints the trace of the machine that they record.
pub fn replay_texts<O: Sink>(
    alloc: Global,
    top: &[u8],
    texts: &List<Text>,
    out: &mut O,
) -> Result<Ending, StoreFault>
    requires count { length texts.now ≡ text_count Command.Replay }
    requires within { AreWithin (texts_of Command.Replay texts.now) }
    ensures { ReplayEnds top.now (texts_of Command.Replay texts.now) (O.written out.old) (O.written out.new) (O.faults out.old) (O.faults out.new) result }
{
    match read_first(alloc, Command::Replay, top, texts) {
        Ok(design) => replay_design(alloc, top, texts, &design, out),
        Err(why) => ending_of(why),
    }
}

/// The same, for the design that the texts say.
fn replay_design<O: Sink>(
    alloc: Global,
    top: &[u8],
    texts: &List<Text>,
    design: &Design,
    out: &mut O,
) -> Result<Ending, StoreFault>
    requires count { length texts.now ≡ text_count Command.Replay }
    requires within { AreWithin (texts_of Command.Replay texts.now) }
    requires says { SaysDesign top.now (texts_of Command.Replay texts.now) design.now }
    ensures { ReplayEnds top.now (texts_of Command.Replay texts.now) (O.written out.old) (O.written out.new) (O.faults out.old) (O.faults out.new) result }
{
    match read_order(alloc, Command::Replay, top, texts, design) {
        Ok((ranked, groups)) => replay_ranked(alloc, top, texts, &ranked, &groups, out),
        Err(why) => ending_of(why),
    }
}

/// The same, for the design with its nodes in order, and the groups of its inputs.
fn replay_ranked<O: Sink>(
    alloc: Global,
    top: &[u8],
    texts: &List<Text>,
    ranked: &Ranked<'_>,
    groups: &Groups,
    out: &mut O,
) -> Result<Ending, StoreFault>
    requires count { length texts.now ≡ text_count Command.Replay }
    requires within { AreWithin (texts_of Command.Replay texts.now) }
    requires says { DesignSays top.now (texts_of Command.Replay texts.now) ranked.now.design groups.now }
    ensures { ReplayEnds top.now (texts_of Command.Replay texts.now) (O.written out.old) (O.written out.new) (O.faults out.old) (O.faults out.new) result }
{
    texts_tell_cases_apart();
    texts_tell_recordings_apart();
    domain_groups::each_text_has_one_answer();
    domain_groups::recorded_events_fit();
    match read_replayed(alloc, top, texts, ranked.design(), groups) {
        Ok(replayed) => replay_case(alloc, ranked, groups, replayed, out),
        Err(why) => ending_of(why),
    }
}

/// The board, the results and the recording that the texts say.
fn read_replayed(
    alloc: Global,
    top: &[u8],
    texts: &List<Text>,
    design: &Design,
    groups: &Groups,
) -> Result<Replayed, Unread>
    requires count { length texts.now ≡ text_count Command.Replay }
    requires within { AreWithin (texts_of Command.Replay texts.now) }
    requires before { DesignSays top.now (texts_of Command.Replay texts.now) design.now groups.now }
    ensures means { AllMean Command.Replay top.now (texts_of Command.Replay texts.now) (ReplayedSays (texts_of Command.Replay texts.now) design.now) result }
    ensures fits { IfOk result (λ replayed. FitsDesign design.now replayed.recording) }
{
    let plan = read_plan(alloc, Command::Replay, top, texts)?;
    let recording = read_recording(alloc, Command::Replay, top, texts, design, groups)?;
    Ok(Replayed { plan, recording })
}

/// Runs recorded events on results that a machine can run, and prints its trace.
fn replay_case<O: Sink>(
    alloc: Global,
    ranked: &Ranked<'_>,
    groups: &Groups,
    replayed: Replayed,
    out: &mut O,
) -> Result<Ending, StoreFault>
    requires of { AreOf ranked.now.design groups.now }
    requires fits { FitsDesign ranked.now.design replayed.recording }
    requires events { EventsFit (case_of ranked.now.design groups.now replayed.plan) replayed.recording.events }
    ensures { RunEnds ranked.now.design groups.now replayed (O.written out.old) (O.written out.new) (O.faults out.old) (O.faults out.new) result }
{
    let Replayed { plan, recording } = replayed;
    match judge_shape(alloc, ranked, groups, &plan.board, &plan.results) {
        Ok(Verdict::Accepted) => replay_recording(alloc, ranked, groups, &plan, recording, out),
        Ok(Verdict::Rejected { rule, place }) => {
            Ok(Ending::Answered(Answer::Rejected { rule, place }))
        }
        Err(NoMemory) => Err(StoreFault::NoMemory),
    }
}

/// Runs recorded events on results, and prints the machine's trace.
fn replay_recording<O: Sink>(
    alloc: Global,
    ranked: &Ranked<'_>,
    groups: &Groups,
    plan: &Planned,
    recording: Recording,
    out: &mut O,
) -> Result<Ending, StoreFault>
    requires of { AreOf ranked.now.design groups.now }
    requires fits { FitsDesign ranked.now.design recording }
    requires events { EventsFit (case_of ranked.now.design groups.now plan.now) recording.events }
    requires fit { CanReplay (case_of ranked.now.design groups.now plan.now) }
    ensures { TraceEnds ranked.now.design groups.now plan.now recording (O.written out.old) (O.written out.new) (O.faults out.old) (O.faults out.new) result }
{
    one_history::histories::one_history();
    settled_model::openings_fit();
    cycle_sim::judged_can_run();
    cycle_sim::judged_can_load();
    trace_law::traces::traces_agree();
    trace_law::traces::loaded_trace_is_one();
    trace_law::traces::broken_traces();
    trace_law::traces::outputs_are_mapped();
    let design = ranked.design();
    let results = &plan.results;
    design.stands();
    ranked.stands();
    groups.stands();
    results.stand();
    let Ok(loaded) = load(alloc, ranked, results, &recording.opening) else {
        return Err(StoreFault::NoMemory);
    };
    let Ok(mut machine) = Machine::open(alloc, results, plan.board.all_wires(), loaded) else {
        return Err(StoreFault::NoMemory);
    };
    match replay_lines(alloc, &mut machine, design, results, &recording.events, out) {
        Ok(()) => Ok(Ending::Traced),
        Err(fault) => Err(fault),
    }
}

/// What the machine is loaded with: the values of the opened valuation of the original.
fn load(
    alloc: Global,
    ranked: &Ranked<'_>,
    results: &Results,
    opening: &Opening,
) -> Result<Loaded, NoMemory>
    requires opens { Opens ranked.now.design opening.now }
    requires mapped { CanLoad ranked.now.design results.now }
    requires kept { KeepsNets ranked.now.design results.now }
    ensures sizes { IfOk result (λ t. HaveSizes results.now t.held) }
    ensures words { IfOk result (λ t. HaveWords results.now t.words) }
    ensures outside { IfOk result (λ t. length t.outside ≡ net_count ranked.now.design) }
    ensures loaded { IfOk result (λ t. LoadsOpened ranked.now.design results.now opening.now (state_of t)) }
    ensures free { IfOk result (λ t. FreeAreZero results.now (state_of t)) }
{
    settled_model::openings_fit();
    trace_law::traces::opened_are_same();
    ranked.design().stands();
    ranked.stands();
    let settled = Settled::open(alloc, ranked, opening)?;
    Loaded::from_settled(alloc, &settled, ranked.design(), results)
}
