//! Slots, one after the other.

ghost use Rattle.std.specs.Prelude.{◌≡◌, ◌<◌, [], All, OnOk, get_or, length};
ghost use Rattle.design_core.specs.declared.node.NodeId.{NodeId};
ghost use Rattle.emu_machine.specs.Marks.{MarkState, marks_at, marks_step, start_marks};
ghost use Rattle.emu_machine.specs.State.{actions_of, ending};
ghost use Rattle.slot_endings.specs.Endings.{AreEndings};
ghost use Rattle.frame_marks.specs.Frames.{FrameStands, Shows, frame_state};
ghost use Rattle.frame_marks.specs.Standing.{IsNamed};
ghost use Rattle.frame_marks.specs.Starts.{AllGated, AllKept};
ghost use Rattle.frame_marks.specs.Tables.{AllOthersWait, AreTables, IsBetween};
ghost use Rattle.frame_marks.specs.Takes.{AreFree, AreMemories, GivesAll, WritesAll};

use crate::carried::send_all;
use crate::chips::{put_given, settle_all};
use crate::given::collect_given;
use crate::memories::{collect_written, put_written};
use crate::starts::{Nets, start_chips, start_memories, start_wires};
use crate::tables::{Given, MemoryMarks, Start};
use chip_pass::ChipPass;
use design_core::Design;
use emu_io::{List, NoMemory};
use emu_machine::{Action, Results, Slot};
use gate_pass::Steps;
use id_arena::Wire;
use mark_rule::{Inside, NetMarks};
use std::alloc::Global;
use std::sync::ledger::Ledger;

/// What slots are followed by: the design, the results and the wires.
#[derive(Clone, Copy, Drop)]
pub(crate) struct Plan<'a> {
    pub(crate) design: &'a Design,
    pub(crate) results: &'a Results,
    pub(crate) wires: &'a [Wire],
}

/// What the actions of a slot give, until all of them have read what they read.
#[derive(Drop)]
pub(crate) struct Gifts {
    nets: Vec<Given<NetMarks>>,
    memories: Vec<Given<MemoryMarks>>,
}

/// The slots of a frame, and for each of them the actions that end in it.
#[derive(Clone, Copy, Drop)]
pub(crate) struct Timetable<'a> {
    pub(crate) slots: &'a [Slot],
    pub(crate) endings: &'a [List<Action>],
}

/// Follows a frame from its start to its end.
pub(crate) fn follow_frame<I: Inside, L: Ledger>(
    alloc: Global,
    plan: Plan<'_>,
    frame: Timetable<'_>,
    nets: Nets<'_>,
    inside: &I,
    chips: &mut [ChipPass<'_, NetMarks>],
    memories: &mut [List<MemoryMarks>],
    carried: &mut [NetMarks],
    steps: &mut Steps<L>,
) -> Result<(), NoMemory>
    requires slots { FrameStands plan.results.now plan.wires.now frame.slots.now }
    requires endings { AreEndings plan.wires.now frame.slots.now frame.endings.now }
    requires kept { AllKept plan.results.now nets.kept.now }
    requires gated { AllGated plan.results.now nets.gated.now }
    requires tables { AreTables (frame_state plan.design.now plan.results.now plan.wires.now chips.old memories.old carried.old) }
    ensures tables { AreTables (frame_state plan.entry.design.now plan.entry.results.now plan.entry.wires.now chips.new memories.new carried.new) }
    ensures shows { OnOk result (Shows (I.inside inside.now)
        (marks_at plan.entry.design.now plan.entry.results.now plan.entry.wires.now (I.inside inside.now) frame.entry.slots.now (length frame.entry.slots.now))
        (frame_state plan.entry.design.now plan.entry.results.now plan.entry.wires.now chips.new memories.new carried.new)) }
{
    start_chips(plan, inside, nets.kept, nets.gated, chips);
    start_memories(plan, inside, memories);
    start_wires(carried);
    follow_slots(alloc, plan, frame, inside, chips, memories, carried, steps)?;
    Ok(())
}

/// Follows the slots of a frame.
fn follow_slots<I: Inside, L: Ledger>(
    alloc: Global,
    plan: Plan<'_>,
    frame: Timetable<'_>,
    inside: &I,
    chips: &mut [ChipPass<'_, NetMarks>],
    memories: &mut [List<MemoryMarks>],
    carried: &mut [NetMarks],
    steps: &mut Steps<L>,
) -> Result<(), NoMemory>
    requires slots { FrameStands plan.results.now plan.wires.now frame.slots.now }
    requires endings { AreEndings plan.wires.now frame.slots.now frame.endings.now }
    requires start { IsBetween (I.inside inside.now) (start_marks plan.design.now plan.results.now (I.inside inside.now)) (frame_state plan.design.now plan.results.now plan.wires.now chips.old memories.old carried.old) }
    ensures tables { AreTables (frame_state plan.entry.design.now plan.entry.results.now plan.entry.wires.now chips.new memories.new carried.new) }
    ensures followed { OnOk result (IsBetween (I.inside inside.now)
        (marks_at plan.entry.design.now plan.entry.results.now plan.entry.wires.now (I.inside inside.now) frame.entry.slots.now (length frame.entry.slots.now))
        (frame_state plan.entry.design.now plan.entry.results.now plan.entry.wires.now chips.new memories.new carried.new)) }
{
    let mut gifts = Gifts {
        nets: Vec::new(alloc),
        memories: Vec::new(alloc),
    };
    'slots: for t in 0..frame.slots.len() {
        do_slot(
            plan, frame, t, inside, &mut gifts, chips, memories, carried, steps,
        )?;
    }
    Ok(())
}

/// Follows a slot of a frame. The gates that wait have their turn; then all that the actions give is collected,
/// and only then put.
fn do_slot<I: Inside, L: Ledger>(
    plan: Plan<'_>,
    frame: Timetable<'_>,
    t: usize,
    inside: &I,
    gifts: &mut Gifts,
    chips: &mut [ChipPass<'_, NetMarks>],
    memories: &mut [List<MemoryMarks>],
    carried: &mut [NetMarks],
    steps: &mut Steps<L>,
) -> Result<(), NoMemory>
    requires there { t < length frame.slots.now }
    requires slots { FrameStands plan.results.now plan.wires.now frame.slots.now }
    requires endings { AreEndings plan.wires.now frame.slots.now frame.endings.now }
    requires tables { AreTables (frame_state plan.design.now plan.results.now plan.wires.now chips.old memories.old carried.old) }
    requires others { AllOthersWait plan.design.now plan.results.now (I.inside inside.now) chips.old }
    ensures tables { AreTables (frame_state plan.entry.design.now plan.entry.results.now plan.entry.wires.now chips.new memories.new carried.new) }
    ensures followed { OnOk result ((s : MarkState)
        → IsBetween (I.inside inside.now) s (frame_state plan.entry.design.now plan.entry.results.now plan.entry.wires.now chips.old memories.old carried.old)
        → IsBetween (I.inside inside.now) (marks_step plan.entry.design.now plan.entry.results.now plan.entry.wires.now (I.inside inside.now) frame.entry.slots.now t s)
        (frame_state plan.entry.design.now plan.entry.results.now plan.entry.wires.now chips.new memories.new carried.new)) }
{
    let starting = starting_in(frame, t);
    let ending = ending_in(frame, t);
    settle_all(plan, inside, chips, steps);
    collect(plan, starting, ending, chips, memories, carried, gifts)?;
    send_all(plan, chips, starting, carried);
    put_written(gifts.memories.as_slice(), memories);
    put_given(plan, inside, gifts.nets.as_slice(), chips);
    Ok(())
}

/// Collects what the actions of a slot give.
fn collect(
    plan: Plan<'_>,
    starting: &[Action],
    ending: &[Action],
    chips: &[ChipPass<'_, NetMarks>],
    memories: &[List<MemoryMarks>],
    carried: &[NetMarks],
    gifts: &mut Gifts,
) -> Result<(), NoMemory>
    requires tables { AreTables (frame_state plan.design.now plan.results.now plan.wires.now chips.now memories.now carried.now) }
    requires starting { All (IsNamed plan.results.now plan.wires.now) starting.now }
    requires ending { All (IsNamed plan.results.now plan.wires.now) ending.now }
    ensures free { OnOk result (AreFree plan.entry.results.now gifts.new.nets.items) }
    ensures given { OnOk result (GivesAll (frame_state plan.entry.design.now plan.entry.results.now plan.entry.wires.now chips.now memories.now carried.now) ending.now gifts.new.nets.items) }
    ensures there { OnOk result (AreMemories plan.entry.results.now gifts.new.memories.items) }
    ensures written { OnOk result (WritesAll (frame_state plan.entry.design.now plan.entry.results.now plan.entry.wires.now chips.now memories.now carried.now) starting.now gifts.new.memories.items) }
{
    let start = Start {
        design: plan.design,
        results: plan.results,
        wires: plan.wires,
        chips,
        memories,
        carried,
    };
    collect_given(&start, ending, &mut gifts.nets)?;
    collect_written(&start, starting, &mut gifts.memories)
}

/// The actions of a slot.
fn starting_in<'a>(frame: Timetable<'a>, t: usize) -> &'a [Action]
    requires { t < length frame.slots.now }
    ensures { result.now ≡ actions_of frame.entry.slots.now t }
{
    frame.slots[t].actions.as_slice()
}

/// The actions that end in a slot.
fn ending_in<'a>(frame: Timetable<'a>, t: usize) -> &'a [Action]
    requires { t < length frame.endings.now }
    ensures { result.now ≡ get_or frame.entry.endings.now t [] }
{
    frame.endings[t].as_slice()
}
