//! The maps of one chip without memories, whose subjects are nets of the design.
ghost use Rattle.std.specs.Prelude.{◌≡◌, ◌↔◌, ℕ, List, [], ◌∷◌, IfOk, IsTrue, codes, length, MatchOption};
ghost use Rattle.serde_json.specs.Data.{Data};
ghost use Rattle.serde_json.specs.View.{view};
ghost use Rattle.emu_machine.specs.Results.{ChipEntryFits};
ghost use Rattle.emu_machine.specs.Plain.{IsPlainMap};
ghost use Rattle.result_files.specs.Faults.{Answers};
ghost use Rattle.result_files.specs.Trees.{list, Finds, HasMember};
ghost use Rattle.result_files.specs.PlainMap.{IsSubjectTree, IsEntryTree, IsMapTree, IsOnlyChip, IsThere, AreThere, FitsChip, SaysMap, TextsTellMapsApart};

use crate::fault::FormFault;
use crate::map_reader::read_spot;
use crate::tree_list::{FromTree, read_member_list};
use crate::trees::{is_empty_list, is_version_one, read_only, read_two, read_word};
use emu_io::List;
use emu_machine::{Chip, ChipMap, Spot, StateMap, Subject};
use id_arena::NetId;
use json_members::read_json;
use serde_json::Value;
use std::alloc::Global;

/// The map that a text stands for, as
/// `{"version":1,"chips":[{"nets":[["net",2]],"registers":[true],"memories":[]}],"outputs":[[0,0]]}`.
/// It has as many subjects as the chip has nets, and tells of as many registers; its outputs are nets
/// of the chip. Other members are passed over, and of members named twice the last counts. `NotYet`
/// exactly where the text says no such map.
pub fn read_plain_map(alloc: Global, bytes: &[u8], chip: &Chip) -> Result<StateMap, FormFault>
    ensures says { Answers (SaysMap bytes.now chip.now) result }
    ensures plain { IfOk result IsPlainMap }
{
    let tree = read_json(alloc, bytes)?;
    let map = read_map(alloc, &tree)?;
    if fits_chip(chip, &map) {
        Ok(map)
    } else {
        Err(FormFault::NotYet)
    }
}

/// The law that a text stands for at most one map of a chip.
pub fn plain_maps_are_told_apart()
    ensures { TextsTellMapsApart }
{}

/// Whether a map fits the results of this one chip.
fn fits_chip(chip: &Chip, map: &StateMap) -> bool
    requires { IsPlainMap map.now }
    ensures { IsTrue result ↔ FitsChip chip.now map.now }
{
    entry_fits(chip, map.chips.get(0)) && are_there(chip, map.outputs.as_slice())
}

/// Whether a chip's entry has the chip's counts.
fn entry_fits(chip: &Chip, entry: &ChipMap) -> bool
    requires { entry.now.memories ≡ [] }
    ensures { IsTrue result ↔ ChipEntryFits chip.now entry.now }
{
    entry.nets.len() == u64::from(chip.nets)
        && entry.kept.len() == chip.registers.len()
        && chip.memories.is_empty()
}

/// Whether the nets that the outputs show are nets of the chip.
fn are_there(chip: &Chip, outputs: &[Spot]) -> bool
    ensures { IsTrue result ↔ AreThere chip.now outputs.now }
{
    'outputs: for place in 0..outputs.len() {
        if !is_there(chip, outputs[place]) {
            return false;
        }
    }
    true
}

/// Whether the net that an output shows is a net of the chip.
fn is_there(chip: &Chip, output: Spot) -> bool
    ensures { IsTrue result ↔ IsThere chip.now output }
{
    output.chip.place == 0 && output.net.place < chip.nets
}

/// The map that a tree says.
fn read_map(alloc: Global, tree: &Value) -> Result<StateMap, FormFault>
    ensures { Answers (IsMapTree (view tree.now)) result }
{
    let Some(chip) = read_only_chip(tree) else {
        return Err(FormFault::NotYet);
    };
    let entry = read_entry(alloc, chip)?;
    let outputs = read_member_list(alloc, tree, "outputs")?;
    let mut chips = List::new(alloc);
    chips.push(entry)?;
    Ok(StateMap { chips, outputs })
}

/// The only chip of a tree of version 1.
fn read_only_chip(tree: &Value) -> Option<&Value>
    ensures { MatchOption result
        ((chip : Data) → IsOnlyChip (view tree.now) chip → ⊥)
        (λ chip. IsOnlyChip (view tree.now) (view chip.now)) }
{
    if !is_version_one(tree) {
        return None;
    }
    let chips = tree.get("chips")?;
    read_only(chips)
}

/// What a chip's tree says of its nets and registers.
fn read_entry(alloc: Global, chip: &Value) -> Result<ChipMap, FormFault>
    ensures { Answers (IsEntryTree (view chip.now)) result }
{
    if !has_no_memories(chip) {
        return Err(FormFault::NotYet);
    }
    let nets = read_member_list(alloc, chip, "nets")?;
    let kept = read_member_list(alloc, chip, "registers")?;
    Ok(ChipMap {
        nets,
        kept,
        memories: List::new(alloc),
    })
}

/// Whether a chip's list of memories is empty.
fn has_no_memories(chip: &Value) -> bool
    ensures { IsTrue result ↔ HasMember (codes "memories") (list []) (view chip.now) }
{
    match chip.get("memories") {
        Some(memories) => is_empty_list(memories),
        None => false,
    }
}

impl FromTree for Subject {
    ghost use Rattle.result_files.specs.PlainMap.{IsSubjectTree};

    ghost Says = { IsSubjectTree };

    fn from_tree(_alloc: Global, tree: &Value) -> Result<Subject, FormFault> {
        match read_subject(tree) {
            Some(subject) => Ok(subject),
            None => Err(FormFault::NotYet),
        }
    }
}

/// The net of the design that a tree says.
fn read_subject(tree: &Value) -> Option<Subject>
    ensures { Finds (IsSubjectTree (view tree.now)) result }
{
    let (kind, net) = read_two(tree)?;
    if kind.as_str()? != "net" {
        return None;
    }
    let place = read_word(net)?;
    Some(Subject::Net(NetId { place }))
}

impl FromTree for bool {
    ghost use Rattle.result_files.specs.Map.{IsKeptTree};

    ghost Says = { IsKeptTree };

    fn from_tree(_alloc: Global, tree: &Value) -> Result<bool, FormFault> {
        match tree.as_bool() {
            Some(kept) => Ok(kept),
            None => Err(FormFault::NotYet),
        }
    }
}

impl FromTree for Spot {
    ghost use Rattle.result_files.specs.Map.{IsSpotTree};

    ghost Says = { IsSpotTree };

    fn from_tree(_alloc: Global, tree: &Value) -> Result<Spot, FormFault> {
        match read_spot(tree) {
            Some(spot) => Ok(spot),
            None => Err(FormFault::NotYet),
        }
    }
}
