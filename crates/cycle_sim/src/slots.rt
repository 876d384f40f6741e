//! Slots, one after the other: nets get their values only where something reads them.

ghost use Rattle.std.specs.Prelude.{◌≡◌, ◌<◌, ℕ, Bool, List, [], Some, get_or, length, slice_get};
ghost use Rattle.std.specs.List.{list_all};
ghost use Rattle.emu_machine.specs.declared.netlist.Chip.{Chip};
ghost use Rattle.emu_machine.specs.State.{actions_of, slot_step, state_at};
ghost use Rattle.slot_endings.specs.Endings.{AreEndings};
ghost use Rattle.cycle_sim.specs.Passes.{ArePasses, ShowHeld, rows_of};
ghost use Rattle.cycle_sim.specs.Standing.{ChipStands, SlotsStand};
ghost use Rattle.cycle_sim.specs.Tables.{IsFresh, IsUnderWay, state_of, tables};
ghost use Rattle.cycle_sim.specs.Takes.{AreServed, is_direct, leaves_all, takes_no_net};

use crate::passes::settle_all;
use crate::sent::send_all;
use crate::shown::show_taken;
use crate::stored::store_all;
use crate::taken::take_all;
use crate::words::ChipWords;
use chip_pass::ChipPass;
use emu_io::List;
use emu_machine::{Action, Results, Slot};
use id_arena::{Key, Wire, WireId};

/// What slots are done by: the results and the wires.
#[derive(Clone, Copy, Drop)]
pub(crate) struct Plan<'a> {
    pub(crate) results: &'a Results,
    pub(crate) wires: &'a [Wire],
}

/// The slots of a frame, and for each of them the actions that end in it.
#[derive(Clone, Copy, Drop)]
pub(crate) struct Timetable<'a> {
    pub(crate) slots: &'a [Slot],
    pub(crate) endings: &'a [List<Action>],
}

/// Does the slots of a frame, and then gives the nets of all chips their values.
///
/// Slots whose actions read no net follow one another without a pass over the gates, so a frame that
/// takes outside values alone has one pass, however many slots it has.
pub(crate) fn do_frame(
    plan: Plan<'_>,
    frame: Timetable<'_>,
    outside: &[bool],
    held: &mut [List<bool>],
    words: &mut [ChipWords],
    carried: &mut [bool],
    passes: &mut [ChipPass<'_, bool>],
)
    requires slots { SlotsStand plan.results.now plan.wires.now (length outside.now) frame.slots.now }
    requires endings { AreEndings plan.wires.now frame.slots.now frame.endings.now }
    requires machine { IsFresh plan.results.now plan.wires.now (tables held.old words.old outside.now carried.old) passes.old }
    ensures machine { IsFresh plan.entry.results.now plan.entry.wires.now (tables held.new words.new outside.now carried.new) passes.new }
    ensures state { state_of (tables held.new words.new outside.now carried.new)
        ≡ state_at plan.entry.results.now.net plan.entry.wires.now frame.entry.slots.now (state_of (tables held.old words.old outside.now carried.old)) (length frame.entry.slots.now) }
{
    'slots: for t in 0..frame.slots.len() {
        do_slot(plan, frame, t, outside, held, words, carried, passes);
    }
    settle_all(plan.results, passes);
}

/// Does one slot of a frame, and then gives the nets of all chips their values.
pub(crate) fn do_slot_alone(
    plan: Plan<'_>,
    frame: Timetable<'_>,
    t: usize,
    outside: &[bool],
    held: &mut [List<bool>],
    words: &mut [ChipWords],
    carried: &mut [bool],
    passes: &mut [ChipPass<'_, bool>],
)
    requires there { t < length frame.slots.now }
    requires slots { SlotsStand plan.results.now plan.wires.now (length outside.now) frame.slots.now }
    requires endings { AreEndings plan.wires.now frame.slots.now frame.endings.now }
    requires machine { IsFresh plan.results.now plan.wires.now (tables held.old words.old outside.now carried.old) passes.old }
    ensures machine { IsFresh plan.entry.results.now plan.entry.wires.now (tables held.new words.new outside.now carried.new) passes.new }
    ensures state { state_of (tables held.new words.new outside.now carried.new)
        ≡ slot_step plan.entry.results.now.net plan.entry.wires.now frame.entry.slots.now t (state_of (tables held.old words.old outside.now carried.old)) }
{
    do_slot(plan, frame, t, outside, held, words, carried, passes);
    settle_all(plan.results, passes);
}

/// Does a slot of a frame. Where an action reads a net, the gates that wait have their turn first.
///
/// Registers and read nets take from the actions that end in the slot, what wires carry and words hold from
/// before it among it; then the actions that begin in it put new values on their wires and in words. The nets
/// show what was taken only when all is done.
fn do_slot(
    plan: Plan<'_>,
    frame: Timetable<'_>,
    t: usize,
    outside: &[bool],
    held: &mut [List<bool>],
    words: &mut [ChipWords],
    carried: &mut [bool],
    passes: &mut [ChipPass<'_, bool>],
)
    requires there { t < length frame.slots.now }
    requires slots { SlotsStand plan.results.now plan.wires.now (length outside.now) frame.slots.now }
    requires endings { AreEndings plan.wires.now frame.slots.now frame.endings.now }
    requires before { IsUnderWay plan.results.now plan.wires.now (tables held.old words.old outside.now carried.old) passes.old }
    ensures after { IsUnderWay plan.entry.results.now plan.entry.wires.now (tables held.new words.new outside.now carried.new) passes.new }
    ensures state { state_of (tables held.new words.new outside.now carried.new)
        ≡ slot_step plan.entry.results.now.net plan.entry.wires.now frame.entry.slots.now t (state_of (tables held.old words.old outside.now carried.old)) }
{
    let starting = starting_in(frame, t);
    let ending = ending_in(frame, t);
    serve(plan, starting, ending, passes);
    take_all(
        plan.results,
        plan.wires,
        passes,
        words,
        outside,
        carried,
        ending,
        held,
    );
    send_all(plan.wires, passes, starting, carried);
    store_all(plan.results, passes, starting, words);
    show_taken(plan.results, plan.wires, held, ending, passes);
}

/// The actions of a slot.
fn starting_in<'a>(frame: Timetable<'a>, t: usize) -> &'a [Action]
    requires { t < length frame.slots.now }
    ensures { result.now ≡ actions_of frame.entry.slots.now t }
{
    frame.slots[t].actions.as_slice()
}

/// The actions that end in a slot.
fn ending_in<'a>(frame: Timetable<'a>, t: usize) -> &'a [Action]
    requires { t < length frame.endings.now }
    ensures { result.now ≡ get_or frame.entry.endings.now t [] }
{
    frame.endings[t].as_slice()
}

/// Gives the nets of all chips the values that come to them, unless no action reads one.
fn serve(plan: Plan<'_>, starting: &[Action], ending: &[Action], passes: &mut [ChipPass<'_, bool>])
    requires chips { (c : ℕ) (chip : Chip) → slice_get plan.results.now.net c ≡ Some chip → ChipStands chip }
    requires passes { ArePasses plan.results.now passes.old }
    ensures passes { ArePasses plan.entry.results.now passes.new }
    ensures level { (held : List (List Bool)) → ShowHeld plan.entry.results.now held (rows_of passes.old) → ShowHeld plan.entry.results.now held (rows_of passes.new) }
    ensures taken { (held : List (List Bool)) → ShowHeld plan.entry.results.now held (rows_of passes.old)
        → AreServed plan.entry.results.now held (rows_of passes.new) (list_all (takes_no_net plan.entry.wires.now) ending.now) }
    ensures left { (held : List (List Bool)) → ShowHeld plan.entry.results.now held (rows_of passes.old)
        → AreServed plan.entry.results.now held (rows_of passes.new) (list_all leaves_all starting.now) }
{
    if !take_no_nets(plan.wires, ending) || !leave_all(starting) {
        settle_all(plan.results, passes);
    }
}

/// Whether what actions give in their last slot hangs on no net.
fn take_no_nets(wires: &[Wire], actions: &[Action]) -> bool
    ensures { result ≡ list_all (takes_no_net wires.now) actions.now }
{
    'actions: for action in actions {
        if !takes_no_net(wires, *action) {
            return false;
        }
    }
    true
}

/// Whether what an action gives in its last slot hangs on no net that the slot starts with.
fn takes_no_net(wires: &[Wire], action: Action) -> bool
    ensures { result ≡ takes_no_net wires.now action }
{
    match action {
        Action::Input { .. } => true,
        Action::Send { wire, .. } => !is_direct(wires, wire),
        Action::Load { .. } | Action::Write { .. } | Action::Read { .. } => false,
    }
}

/// Whether a wire has a latency of one slot.
pub(crate) fn is_direct(wires: &[Wire], wire: WireId) -> bool
    ensures { result ≡ is_direct wires.now wire.place }
{
    match wires.get(wire.place() as usize) {
        Some(ends) => ends.latency == 1,
        None => false,
    }
}

/// Whether no action puts anything on a wire or in a word.
fn leave_all(actions: &[Action]) -> bool
    ensures { result ≡ list_all leaves_all actions.now }
{
    actions.iter().all(leaves_all)
}

/// Whether an action puts nothing on a wire and nothing in a word.
fn leaves_all(action: &Action) -> bool
    ensures { result ≡ leaves_all action.now }
{
    match action {
        Action::Send { .. } | Action::Write { .. } => false,
        Action::Input { .. } | Action::Load { .. } | Action::Read { .. } => true,
    }
}
