//! From a board to the tree of a chip, first the distances and then the parents.
ghost use Rattle.std.specs.Prelude.{◌≡◌, ◌<◌, ◌+◌, ◌^◌, length, count_by, IfOk};
ghost use Rattle.std.specs.Option.{is_none};
ghost use Rattle.board_model.specs.Trees.{IsTree, TellsOf, HasDistance};
ghost use Rattle.board_model.specs.Rounds.{AreDistances, IsRound, IsLowest, goes_on, is_before, is_below};

use crate::board::Board;
use crate::branches::Tree;
use emu_io::{List, NoMemory};
use id_arena::{ChipId, Key, WireId};
use std::alloc::Global;

/// The tree of a chip over the wires in their direction, whatever their latency.
pub fn tree(alloc: Global, board: &Board, root: ChipId) -> Result<Tree, NoMemory>
    requires { root.place < length board.now.rooms }
    ensures { IfOk result (λ branches. IsTree board.now root.place branches) }
{
    let distances = distances_from(alloc, board, root)?;
    let mut branches = List::new(alloc);
    'chips: for place in 0..board.chips() {
        let chip = ChipId::of(place);
        branches.push(branch_of(board, root, &distances, chip))?;
    }
    Ok(Tree::from_branches(branches))
}

/// How many wires a shortest path from the root to each chip has.
fn distances_from(alloc: Global, board: &Board, root: ChipId) -> Result<List<Option<u32>>, NoMemory>
    requires { root.place < length board.now.rooms }
    ensures { IfOk result (λ distances. AreDistances board.now root.place distances) }
{
    let mut distances = List::from_vec(vec![in alloc; None; board.chips() as usize]?);
    distances.set(u64::from(root.place()), Some(0));
    let mut wires = 0;
    'rounds: while reach(board, wires, &mut distances) {
        wires += 1;
    }
    Ok(distances)
}

/// Gives the chips that a wire joins to those of one distance, and that have none so far, the next
/// distance. Answers whether there were any.
fn reach(board: &Board, distance: u32, distances: &mut List<Option<u32>>) -> bool
    requires count { length distances.old ≡ length board.now.rooms }
    requires room { distance + count_by is_none distances.old < 2 ^ 32 }
    ensures { IsRound board.now (length board.now.wires) distance distances.old distances.new result }
{
    let mut more = false;
    'wires: for number in 0..board.wires() {
        let (from, to) = board.ends(WireId::of(number));
        if goes_on(distances, from, to, distance) {
            distances.set(u64::from(to.place()), Some(distance + 1));
            more = true;
        }
    }
    more
}

/// Whether the one chip is at this distance and the other has none so far.
fn goes_on(distances: &List<Option<u32>>, from: ChipId, to: ChipId, distance: u32) -> bool
    requires from { from.place < length distances.now }
    requires to { to.place < length distances.now }
    ensures { result ≡ goes_on distances.now from.place to.place distance }
{
    let starts = *distances.get(u64::from(from.place())) == Some(distance);
    starts && distances.get(u64::from(to.place())).is_none()
}

/// What the tree tells of a chip.
fn branch_of(
    board: &Board,
    root: ChipId,
    distances: &List<Option<u32>>,
    chip: ChipId,
) -> Option<(ChipId, u32)>
    requires distances { AreDistances board.now root.place distances.now }
    requires chip { chip.place < length board.now.rooms }
    ensures { TellsOf board.now root.place chip.place result }
{
    let distance = (*distances.get(u64::from(chip.place())))?;
    let parent = lowest_nearer(board, distances, chip, distance)?;
    Some((parent, distance))
}

/// The lowest chip that is one wire nearer than this distance and has a wire to the chip.
fn lowest_nearer(
    board: &Board,
    distances: &List<Option<u32>>,
    chip: ChipId,
    distance: u32,
) -> Option<ChipId>
    requires { length distances.now ≡ length board.now.rooms }
    ensures { IsLowest board.now distances.now chip.place distance (length board.now.wires) result }
{
    let mut lowest: Option<ChipId> = None;
    'wires: for number in 0..board.wires() {
        let (from, to) = board.ends(WireId::of(number));
        let near = *distances.get(u64::from(from.place()));
        if to == chip && is_before(near, distance) && is_below(from, lowest) {
            lowest = Some(from);
        }
    }
    lowest
}

/// Whether this is the distance before another.
fn is_before(near: Option<u32>, distance: u32) -> bool
    ensures { result ≡ is_before near distance }
{
    match near {
        Some(near) => near < distance && near + 1 == distance,
        None => false,
    }
}

/// Whether a chip is lower than the lowest so far.
fn is_below(chip: ChipId, lowest: Option<ChipId>) -> bool
    ensures { result ≡ is_below chip.place lowest }
{
    match lowest {
        Some(other) => chip < other,
        None => true,
    }
}
