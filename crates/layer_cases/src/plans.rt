//! Boards, their trees, and the first placement of a design.

ghost use Rattle.std.specs.Prelude.{◌≡◌, length};

use crate::designs::design_of;
use crate::fault::Fault;
use board_model::{Board, Tree, read_board, tree};
use id_arena::{ChipId, ElemId, Key};
use seed_place::{SeedFault, seed};
use std::alloc::Global;

/// The board of a text.
fn board_of(alloc: Global, text: &[u8]) -> Result<Board, Fault> {
    read_board(alloc, text).map_err(|_| Fault::NoForm)
}

/// Adds the parent and the distance of each chip in a tree, and `-` for one without a parent.
fn put_tree(alloc: Global, out: &mut Vec<u8>, board: &Board, tree: &Tree) -> Result<(), Fault>
    requires { length tree.now ≡ length board.now.rooms }
{
    for chip in 0..board.chips() {
        let told = match tree.parent(ChipId::of(chip)) {
            Some((parent, distance)) => format!(in alloc; " {}/{distance}", parent.place())?,
            None => format!(in alloc; " -")?,
        };
        out.extend_from_slice(told.as_bytes())?;
    }
    Ok(())
}

/// Adds a line for each chip as the root of its tree.
pub(crate) fn put_trees(alloc: Global, out: &mut Vec<u8>, texts: &[Vec<u8>]) -> Result<(), Fault> {
    let [text] = texts else {
        return Err(Fault::NoForm);
    };
    let board = board_of(alloc, text)?;
    for root in 0..board.chips() {
        let told = format!(in alloc; "root {root}:")?;
        out.extend_from_slice(told.as_bytes())?;
        let tree = tree(alloc, &board, ChipId::of(root))?;
        put_tree(alloc, out, &board, &tree)?;
        out.push(b'\n')?;
    }
    Ok(())
}

/// Adds the chips of elements.
fn put_placement(alloc: Global, out: &mut Vec<u8>, chips: &[ChipId]) -> Result<(), Fault> {
    out.extend_from_slice(b"chips")?;
    for chip in chips {
        let told = format!(in alloc; " {}", chip.place())?;
        out.extend_from_slice(told.as_bytes())?;
    }
    out.push(b'\n')?;
    Ok(())
}

/// Adds the first element without room.
fn put_elem(alloc: Global, out: &mut Vec<u8>, elem: ElemId) -> Result<(), Fault> {
    let told = format!(in alloc; "no room for element {}\n", elem.place())?;
    out.extend_from_slice(told.as_bytes())?;
    Ok(())
}

/// Adds the chip of each element, or the first element without room.
pub(crate) fn put_seed(alloc: Global, out: &mut Vec<u8>, texts: &[Vec<u8>]) -> Result<(), Fault> {
    let [top, design, cells, board] = texts else {
        return Err(Fault::NoForm);
    };
    let design = design_of(alloc, top, design, cells)?;
    let board = board_of(alloc, board)?;
    match seed(alloc, &design, &board) {
        Ok(placement) => put_placement(alloc, out, placement.as_slice()),
        Err(SeedFault::NoRoom { elem }) => put_elem(alloc, out, elem),
        Err(SeedFault::NoMemory) => Err(Fault::NoMemory),
    }
}
