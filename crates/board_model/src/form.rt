//! From a JSON tree to the numbers of a board, not yet judged.
ghost use Rattle.std.specs.Prelude.{◌≡◌};
ghost use Rattle.serde_json.specs.View.{view, items_view};
ghost use Rattle.board_model.specs.Form.{latency_of, room_of, wire_of};
ghost use Rattle.board_model.specs.FormAnswers.{FormAnswers, ListAnswers};

use crate::fault::BoardFault;
use emu_io::List;
use id_arena::{ChipId, Key, Wire};
use json_members::{array_member, number_member, word_member};
use serde_json::Value;
use std::alloc::Global;

/// The most room of a chip.
const MOST_ROOM: u64 = 1_099_511_627_776;

/// The numbers that a text of the form tells.
#[derive(Debug, Drop)]
pub(crate) struct BoardForm {
    pub(crate) version: u32,
    pub(crate) rooms: List<u64>,
    pub(crate) wires: List<Wire>,
    pub(crate) slots: u32,
}

/// The numbers of a tree that has the form; `BadShape` exactly where it has not.
pub(crate) fn read_form(alloc: Global, tree: &Value) -> Result<BoardForm, BoardFault>
    ensures { FormAnswers (view tree.now) result }
{
    let Some(version) = word_member(tree, "version") else {
        return Err(BoardFault::BadShape);
    };
    let Some(slots) = word_member(tree, "slots") else {
        return Err(BoardFault::BadShape);
    };
    let Some(chips) = array_member(tree, "chips") else {
        return Err(BoardFault::BadShape);
    };
    let Some(ends) = array_member(tree, "wires") else {
        return Err(BoardFault::BadShape);
    };
    let rooms = read_rooms(alloc, chips)?;
    let wires = read_wires(alloc, ends, version)?;
    Ok(BoardForm {
        version,
        rooms,
        wires,
        slots,
    })
}

/// The rooms of the chips.
fn read_rooms(alloc: Global, chips: &[Value]) -> Result<List<u64>, BoardFault>
    ensures { ListAnswers room_of (items_view chips.now) result }
{
    let mut rooms = List::new(alloc);
    'chips: for chip in chips {
        let Some(room) = number_member(chip, "room", MOST_ROOM) else {
            return Err(BoardFault::BadShape);
        };
        rooms.push(room)?;
    }
    Ok(rooms)
}

/// The wires of a board of this version.
fn read_wires(alloc: Global, ends: &[Value], version: u32) -> Result<List<Wire>, BoardFault>
    ensures { ListAnswers (wire_of version) (items_view ends.now) result }
{
    let mut wires = List::new(alloc);
    'wires: for tree in ends {
        let Some(wire) = read_wire(tree, version) else {
            return Err(BoardFault::BadShape);
        };
        wires.push(wire)?;
    }
    Ok(wires)
}

/// One wire.
fn read_wire(tree: &Value, version: u32) -> Option<Wire>
    ensures { result ≡ wire_of version (view tree.now) }
{
    let from = word_member(tree, "from")?;
    let to = word_member(tree, "to")?;
    let latency = read_latency(tree, version)?;
    Some(Wire {
        from: ChipId::of(from),
        to: ChipId::of(to),
        latency,
    })
}

/// The latency of one wire, which is told in version 2 alone.
fn read_latency(tree: &Value, version: u32) -> Option<u32>
    ensures { result ≡ latency_of version (view tree.now) }
{
    if version == 2 {
        word_member(tree, "latency")
    } else {
        Some(1)
    }
}
