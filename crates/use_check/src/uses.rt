//! A6: the least action that uses a thing again.

ghost use Rattle.std.specs.Prelude.{◌≡◌, ◌≤◌, ◌<◌, ◌∷◌, [], None, Some, IfOk, List, length, slice_get};
ghost use Rattle.design_core.specs.declared.parts.Parts.{Parts};
ghost use Rattle.design_core.specs.Influence.{Group};
ghost use Rattle.emu_machine.specs.State.{actions_of, frame_slots};
ghost use Rattle.emu_machine.specs.Acceptance.{FailsA6};
ghost use Rattle.use_check.specs.Least.{IsLeast, IsLeastUnder};
ghost use Rattle.use_check.specs.Uses.{CanUse, case_of, FailsUse, IsJudged, Tell, TellBefore};

use crate::judged::{Judged, number_parts};
use crate::tables::Tables;
use board_model::Board;
use emu_io::NoMemory;
use emu_machine::{Action, Place, Results, Slot};
use std::alloc::Global;

/// A6: in a slot no wire, register or memory is used by two actions; a `send` uses its wire in each slot in
/// which it is under way, and the register at the far end in its last one. The least action is named that
/// uses a thing in a slot in which an action before it uses it too, with that thing, a wire before a
/// register. Takes a step for each action, and for each frame one for each wire, register and memory.
pub fn find_a6(alloc: Global, board: &Board, results: &Results) -> Result<Option<Place>, NoMemory>
    requires { CanUse board.now.wires results.now }
    ensures { IfOk result (λ at. (design : Parts) (groups : List Group)
        → IsLeast (FailsA6 (case_of design groups board.now results.now)) at) }
{
    board.chips();
    results.stand();
    let starts = number_parts(alloc, results.net().chips().as_slice())?;
    let judged = Judged {
        board,
        results,
        starts,
    };
    find_use(alloc, &judged)
}

/// The same of results whose registers and memories are numbered.
fn find_use(alloc: Global, judged: &Judged) -> Result<Option<Place>, NoMemory>
    requires { IsJudged judged.now.board.now judged.now.results.now judged.now.starts }
    ensures { IfOk result (λ at. IsLeast (FailsUse judged.now.board.now.wires judged.now.results.now) at) }
{
    let frames = judged.results.schedule().frames.as_slice();
    'each: for k in 0..frames.len() {
        let mut tables = Tables::new(alloc, judged)?;
        if let Some(at) = find_in_frame(judged, &mut tables, k as u32, frames[k].slots.as_slice()) {
            return Ok(Some(at));
        }
    }
    Ok(None)
}

/// The same of the slots of one frame.
fn find_in_frame(judged: &Judged, tables: &mut Tables, frame: u32, slots: &[Slot]) -> Option<Place>
    requires judged { IsJudged judged.now.board.now judged.now.results.now judged.now.starts }
    requires blank { Tell judged.now.board.now.wires judged.now.results.now.net [] 0 tables.old.free tables.old.stamps }
    requires slots { slots.now ≡ frame_slots judged.now.results.now frame }
    ensures { IsLeastUnder (FailsUse judged.now.board.now.wires judged.now.results.now) (frame ∷ []) result }
{
    'each: for t in 0..slots.len() {
        if let Some(at) = find_in_slot(
            judged,
            tables,
            frame,
            t as u32,
            slots[t].actions.as_slice(),
        ) {
            return Some(at);
        }
    }
    None
}

/// The same of the actions of one slot. The tables tell what the actions before it use.
fn find_in_slot(
    judged: &Judged,
    tables: &mut Tables,
    frame: u32,
    slot: u32,
    actions: &[Action],
) -> Option<Place>
    requires judged { IsJudged judged.now.board.now judged.now.results.now judged.now.starts }
    requires slot { slot < 65535 }
    requires few { length actions.now ≤ 4294967295 }
    requires actions { actions.now ≡ actions_of (frame_slots judged.now.results.now frame) slot }
    requires told { TellBefore judged.now.board.now judged.now.results.now frame slot 0 tables.old.free tables.old.stamps }
    ensures least { IsLeastUnder (FailsUse judged.now.board.now.wires judged.now.results.now) (frame ∷ slot ∷ []) result }
    ensures told { result ≡ None → TellBefore judged.now.board.now judged.now.results.now frame slot (length actions.now)
        tables.new.free tables.new.stamps }
{
    'each: for j in 0..actions.len() {
        if let Some(thing) = tables.again(judged, slot, actions[j]) {
            return Some(Place::Again {
                frame,
                slot,
                action: j as u32,
                thing,
            });
        }
        tables.note(judged, slot, actions[j]);
    }
    None
}
