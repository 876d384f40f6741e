//! The first placement.
ghost use Rattle.std.specs.Prelude.{◌≡◌, ◌≤◌, length, IfOk};
ghost use Rattle.seed_place.specs.Rooms.{IsWithinRooms};
ghost use Rattle.seed_place.specs.Seed.{Answers, EachDesignHasOneSeed};
ghost use Rattle.seed_place.specs.Choice.{Chooses};

use crate::fault::SeedFault;
use board_model::Board;
use design_core::{Design, Placement};
use emu_io::{List, NoMemory};
use id_arena::{ChipId, ElemId, Key};
use std::alloc::Global;

/// The first placement of a design on a board, or the first element for which no chip has room.
///
/// It goes over the elements once, and for each over the chips, of which a board has at most 16.
pub fn seed(alloc: Global, design: &Design, board: &Board) -> Result<Placement, SeedFault>
    ensures answers { Answers design.now board.now.rooms result }
    ensures within { IfOk result (IsWithinRooms design.now board.now.rooms) }
{
    let mut left = rooms_of(alloc, board)?;
    let mut placement = List::new(alloc);
    'elements: for place in 0..design.elems() {
        let elem = ElemId::of(place);
        let weight = design.weight(elem);
        let chip = chip_for(left.as_slice(), elem, weight)?;
        placement.push(chip)?;
        left[chip.place() as usize] -= weight;
    }
    Ok(placement)
}

/// For every design and board: two answers of `seed` that are not want of memory are the same. So
/// whatever meets the contract of `seed` gives this placement, or this fault.
pub fn each_design_has_one_seed()
    ensures { EachDesignHasOneSeed }
{}

// The room of each chip.
fn rooms_of(alloc: Global, board: &Board) -> Result<Vec<u64>, NoMemory>
    ensures all { IfOk result (λ rooms. rooms.items ≡ board.now.rooms) }
    ensures few { IfOk result (λ rooms. length rooms.items ≤ 16) }
{
    let mut rooms = Vec::new(alloc);
    'chips: for chip in 0..board.chips() {
        rooms.push(board.room(ChipId::of(chip)))?;
    }
    Ok(rooms)
}

// The first chip of which as much room is left as the element weighs, or the fault that none is.
fn chip_for(left: &[u64], elem: ElemId, weight: u64) -> Result<ChipId, SeedFault>
    requires { length left.now ≤ 16 }
    ensures { Chooses left.now weight elem result }
{
    'chips: for (chip, room) in left.iter().enumerate() {
        if weight <= *room {
            return Ok(ChipId::of(chip as u32));
        }
    }
    Err(SeedFault::NoRoom { elem })
}
