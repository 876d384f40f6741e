//! Which actions end in which slot of a frame.

ghost use Rattle.std.specs.Prelude.{◌≡◌, ◌∷◌, [], IfOk, OnOk, replicate, slice_get};
ghost use Rattle.std.specs.Option.{option_map_or};
ghost use Rattle.emu_machine.specs.State.{slots_taken};
ghost use Rattle.slot_endings.specs.Endings.{AllEndings, AreEndings, HaveMore};

use emu_io::{List, NoMemory};
use emu_machine::{Action, Results, Slot};
use id_arena::{Key, Wire, WireId};
use std::alloc::Global;

/// For each frame and slot the actions that end in it.
#[tactic(auto, using(crate::proofs::Ending::none_first, crate::proofs::Ending::all_first))]
pub fn all_endings(
    alloc: Global,
    results: &Results,
    wires: &[Wire],
) -> Result<Vec<List<List<Action>>>, NoMemory>
    ensures { IfOk result (λ endings. AllEndings results.now wires.now endings.items) }
{
    let mut endings = Vec::new(alloc);
    'frames: for frame in results.schedule().frames.as_slice() {
        endings.push(endings_of(alloc, wires, frame.slots.as_slice())?)?;
    }
    Ok(endings)
}

/// For each slot of a frame the actions that end in it, by slot and then by place.
#[tactic(auto, using(crate::proofs::Ending::none_ending, crate::proofs::Ending::all_ending))]
pub fn endings_of(
    alloc: Global,
    wires: &[Wire],
    slots: &[Slot],
) -> Result<List<List<Action>>, NoMemory>
    ensures { IfOk result (λ endings. AreEndings wires.now slots.now endings) }
{
    let mut endings = nothing_yet(alloc, slots.len())?;
    'slots: for t in 0..slots.len() {
        add_actions(wires, t, slots[t].actions.as_slice(), &mut endings)?;
    }
    Ok(List::from_vec(endings))
}

/// An empty list for each slot.
fn nothing_yet(alloc: Global, slots: usize) -> Result<Vec<List<Action>>, NoMemory>
    ensures { IfOk result (λ endings. endings.items ≡ replicate slots []) }
{
    let mut endings = Vec::new(alloc);
    'slots: for _ in 0..slots {
        endings.push(List::new(alloc))?;
    }
    Ok(endings)
}

/// Adds each action of a slot to the slot that it ends in. One that would end after the frame is left out.
#[tactic(auto, using(crate::proofs::Ending::none_more, crate::proofs::Ending::one_more))]
fn add_actions(
    wires: &[Wire],
    t: usize,
    actions: &[Action],
    endings: &mut [List<Action>],
) -> Result<(), NoMemory>
    ensures { OnOk result (HaveMore wires.now t actions.now endings.old endings.new) }
{
    'actions: for action in actions {
        add_action(wires, t, *action, endings)?;
    }
    Ok(())
}

/// Adds an action of a slot to the slot that it ends in.
fn add_action(
    wires: &[Wire],
    t: usize,
    action: Action,
    endings: &mut [List<Action>],
) -> Result<(), NoMemory>
    ensures { OnOk result (HaveMore wires.now t (action ∷ []) endings.old endings.new) }
{
    let taken = slots_taken(wires, action) as usize;
    if taken > 0 && taken <= endings.len() && t <= endings.len() - taken {
        endings[t + taken - 1].push(action)?;
    }
    Ok(())
}

/// How many slots an action lasts.
fn slots_taken(wires: &[Wire], action: Action) -> u32
    ensures { result ≡ slots_taken wires.now action }
{
    match action {
        Action::Send { wire, .. } => latency_of(wires, wire),
        Action::Input { .. } | Action::Load { .. } | Action::Write { .. } | Action::Read { .. } =>
            1,
    }
}

/// The latency of a wire; one slot where there is no such wire.
fn latency_of(wires: &[Wire], wire: WireId) -> u32
    ensures { result ≡ option_map_or (λ ends. ends.latency) (slice_get wires.now wire.place) 1 }
{
    match wires.get(wire.place() as usize) {
        Some(ends) => ends.latency,
        None => 1,
    }
}
