//! The maps of all subjects, in both versions.
ghost use Rattle.std.specs.Prelude.{◌≡◌, ◌≢◌, ◌≤◌, ◌↔◌, ℕ, IfSome, IsTrue, List, codes, length, map, MatchOption};
ghost use Rattle.std.specs.List.{list_any, zip};
ghost use Rattle.serde_json.specs.Data.{Data};
ghost use Rattle.serde_json.specs.View.{view};
ghost use Rattle.emu_machine.specs.declared.map.Subject.{Subject};
ghost use Rattle.result_files.specs.Faults.{Answers};
ghost use Rattle.result_files.specs.Lists.{SayEach, SaysNone, FirstBad, HasList};
ghost use Rattle.result_files.specs.Trees.{Finds};
ghost use Rattle.result_files.specs.Rows.{numbers_of};
ghost use Rattle.result_files.specs.Map.{subject_row, is_clocked, IsSubjectTree, IsSpotTree, IsEntryTree, EntryFits, SaysEntry, HasEntries, AreThere, IsMapTree, IsOfVersion, IsBadMap, MapAnswers, MapsAreToldApart};
ghost use Rattle.result_files.specs.Readers.{Chips, ReadsFit, IsThere};

use crate::fault::FormFault;
use crate::result_fault::ResultFault;
use crate::rows::{Numbers, read_row};
use crate::told::{Told, told_member};
use crate::trees::{read_entries, read_two, read_word};
use emu_io::List;
use emu_machine::{Chip, ChipMap, EmuMemory, MemMap, Spot, StateMap, Subject};
use id_arena::{ChipId, ChipNetId, ElemId, MemId, NetId};
use json_members::{JsonFault, read_json, word_member};
use serde_json::Value;
use std::alloc::Global;

/// The map of these chips that a text stands for, as
/// `{"chips":[{"memories":[],"nets":[["net",2]],"registers":[true]}],"outputs":[[0,0]],"version":1}`. Other
/// members are passed over, and of members named twice the last counts. A refusal names the first fault.
pub fn read_map(alloc: Global, bytes: &[u8], chips: &[Chip]) -> Result<StateMap, ResultFault>
    requires { length chips.now ≤ 4294967295 }
    ensures { MapAnswers bytes.now chips.now result }
{
    let tree = match read_json(alloc, bytes) {
        Ok(tree) => tree,
        Err(JsonFault::NotJson) => return Err(ResultFault::MapNotJson),
        Err(JsonFault::NoMemory) => return Err(ResultFault::NoMemory),
    };
    let Some(version) = version_of(&tree) else {
        return Err(ResultFault::MapVersion);
    };
    map_in(alloc, version, chips, &tree)
}

/// The law that a text stands for at most one map of the same chips.
pub fn maps_are_told_apart()
    ensures { MapsAreToldApart }
{}

/// The version of a tree.
fn version_of(tree: &Value) -> Option<u32>
    ensures { Finds (IsOfVersion (view tree.now)) result }
{
    match word_member(tree, "version")? {
        1 => Some(1),
        2 => Some(2),
        _ => None,
    }
}

/// The map of these chips that a tree says.
fn map_in(
    alloc: Global,
    version: u32,
    chips: &[Chip],
    tree: &Value,
) -> Result<StateMap, ResultFault>
    requires { length chips.now ≤ 4294967295 }
    ensures { Chips (IsMapTree version chips.now (view tree.now)) (IsBadMap version chips.now (view tree.now)) result }
{
    let rest = ResultFault::MapForm {
        entry: chips.len() as u32,
    };
    let Some(trees) = chips_of(tree) else {
        return Err(rest);
    };
    let entries = read_chip_maps(alloc, version, chips, trees)?;
    if trees.len() != chips.len() {
        return Err(rest);
    }
    match outputs_of(alloc, chips, tree) {
        Ok(outputs) => Ok(StateMap {
            chips: entries,
            outputs,
        }),
        Err(FormFault::NotYet) => Err(rest),
        Err(FormFault::NoMemory) => Err(ResultFault::NoMemory),
    }
}

/// The trees of the chips.
fn chips_of(tree: &Value) -> Option<&[Value]>
    ensures trees { MatchOption result
        ((trees : List Data) → HasEntries (view tree.now) trees → ⊥)
        (λ trees. HasEntries (view tree.now) (map view trees.now)) }
    ensures few { IfSome result (λ trees. length trees.now ≤ 4294967295) }
{
    let member = tree.get("chips")?;
    read_entries(member)
}

/// The entries of the chips that have a tree.
fn read_chip_maps(
    alloc: Global,
    version: u32,
    chips: &[Chip],
    trees: &[Value],
) -> Result<List<ChipMap>, ResultFault>
    requires { length chips.now ≤ 4294967295 }
    ensures { Chips
        (SayEach (SaysEntry version) (zip chips.now (map view trees.now)))
        (FirstBad (SaysEntry version) (SaysNone (SaysEntry version)) (zip chips.now (map view trees.now)))
        result }
{
    let count = chips.len().min(trees.len());
    let mut entries = List::new(alloc);
    'chips: for place in 0..count {
        match read_chip_map(alloc, version, &chips[place], &trees[place]) {
            Ok(entry) => entries.push(entry)?,
            Err(FormFault::NotYet) => {
                return Err(ResultFault::MapForm {
                    entry: place as u32,
                });
            }
            Err(FormFault::NoMemory) => return Err(ResultFault::NoMemory),
        }
    }
    Ok(entries)
}

/// The entry of a chip that a tree says and that fits it.
fn read_chip_map(
    alloc: Global,
    version: u32,
    chip: &Chip,
    tree: &Value,
) -> Result<ChipMap, FormFault>
    ensures { Answers (SaysEntry version (chip.now, view tree.now)) result }
{
    let entry = entry_in(alloc, tree)?;
    if entry_fits(version, chip, &entry) {
        Ok(entry)
    } else {
        Err(FormFault::NotYet)
    }
}

/// What a chip's tree says.
fn entry_in(alloc: Global, tree: &Value) -> Result<ChipMap, FormFault>
    ensures { Answers (IsEntryTree (view tree.now)) result }
{
    let nets = told_member(alloc, tree, "nets")?;
    let kept = told_member(alloc, tree, "registers")?;
    let memories = told_member(alloc, tree, "memories")?;
    Ok(ChipMap {
        nets,
        kept,
        memories,
    })
}

/// Whether an entry has the chip's counts, and no subject of a clocked read in version 1.
fn entry_fits(version: u32, chip: &Chip, entry: &ChipMap) -> bool
    ensures { IsTrue result ↔ EntryFits version chip.now entry.now }
{
    entry.nets.len() == u64::from(chip.nets)
        && entry.kept.len() == chip.registers.len()
        && entry.memories.len() == chip.memories.len()
        && reads_fit(chip.memories.as_slice(), entry.memories.as_slice())
        && (version != 1 || !has_clocked(entry.nets.as_slice()))
}

/// Whether each memory's entry has a Boolean for each read port.
fn reads_fit(memories: &[EmuMemory], entries: &[MemMap]) -> bool
    requires { length entries.now ≡ length memories.now }
    ensures { IsTrue result ↔ ReadsFit memories.now entries.now }
{
    'memories: for place in 0..memories.len() {
        if entries[place].kept.len() != memories[place].reads.len() {
            return false;
        }
    }
    true
}

/// Whether one of the subjects is of a clocked read.
pub(crate) fn has_clocked(subjects: &[Subject]) -> bool
    ensures { result ≡ list_any is_clocked subjects.now }
{
    'subjects: for subject in subjects {
        if is_clocked(*subject) {
            return true;
        }
    }
    false
}

/// Whether a subject is of a clocked read.
fn is_clocked(subject: Subject) -> bool
    ensures { result ≡ is_clocked subject }
{
    matches!(subject, Subject::Old(..) | Subject::TakeRead(..))
}

/// The outputs that a tree has, where they are there.
fn outputs_of(alloc: Global, chips: &[Chip], tree: &Value) -> Result<List<Spot>, FormFault>
    ensures { Answers (λ outputs. HasList (codes "outputs") IsSpotTree (view tree.now) outputs × AreThere chips.now outputs) result }
{
    let outputs = told_member(alloc, tree, "outputs")?;
    if are_there(chips, outputs.as_slice()) {
        Ok(outputs)
    } else {
        Err(FormFault::NotYet)
    }
}

/// Whether the nets that the outputs show are there.
fn are_there(chips: &[Chip], outputs: &[Spot]) -> bool
    ensures { IsTrue result ↔ AreThere chips.now outputs.now }
{
    'outputs: for place in 0..outputs.len() {
        if !is_there(chips, outputs[place]) {
            return false;
        }
    }
    true
}

/// Whether the net that an output shows is there.
fn is_there(chips: &[Chip], output: Spot) -> bool
    ensures { IsTrue result ↔ IsThere chips.now output }
{
    match chips.get(output.chip.place as usize) {
        Some(chip) => output.net.place < chip.nets,
        None => false,
    }
}

impl Told for MemMap {
    ghost use Rattle.result_files.specs.Map.{IsMemoryTree};

    ghost Says = { IsMemoryTree };

    fn told(alloc: Global, tree: &Value) -> Result<MemMap, FormFault> {
        let Some(place) = word_member(tree, "of") else {
            return Err(FormFault::NotYet);
        };
        let kept = told_member(alloc, tree, "reads")?;
        Ok(MemMap {
            of: MemId { place },
            kept,
        })
    }
}

impl Told for bool {
    ghost use Rattle.result_files.specs.Map.{IsKeptTree};

    ghost Says = { IsKeptTree };

    fn told(_alloc: Global, tree: &Value) -> Result<bool, FormFault> {
        match tree.as_bool() {
            Some(kept) => Ok(kept),
            None => Err(FormFault::NotYet),
        }
    }
}

impl Told for Spot {
    ghost use Rattle.result_files.specs.Map.{IsSpotTree};

    ghost Says = { IsSpotTree };

    fn told(_alloc: Global, tree: &Value) -> Result<Spot, FormFault> {
        match read_spot(tree) {
            Some(spot) => Ok(spot),
            None => Err(FormFault::NotYet),
        }
    }
}

/// The net of a chip that a tree says.
pub(crate) fn read_spot(tree: &Value) -> Option<Spot>
    ensures { Finds (IsSpotTree (view tree.now)) result }
{
    let (chip, net) = read_two(tree)?;
    let place = read_word(chip)?;
    let chip = ChipId { place };
    let place = read_word(net)?;
    let net = ChipNetId { place };
    Some(Spot { chip, net })
}

impl Told for Subject {
    ghost use Rattle.result_files.specs.Map.{IsSubjectTree};

    ghost Says = { IsSubjectTree };

    fn told(_alloc: Global, tree: &Value) -> Result<Subject, FormFault> {
        match read_subject(tree) {
            Some(subject) => Ok(subject),
            None => Err(FormFault::NotYet),
        }
    }
}

/// The subject that a tree says.
fn read_subject(tree: &Value) -> Option<Subject>
    ensures { Finds (IsSubjectTree (view tree.now)) result }
{
    let (name, numbers) = read_row(tree)?;
    subject_of(name, numbers)
}

/// The subject of this name and these numbers.
fn subject_of(name: &str, numbers: Numbers) -> Option<Subject>
    ensures { MatchOption result
        ((subject : Subject) → subject_row subject ≢ (name.now, numbers_of numbers))
        (λ subject. subject_row subject ≡ (name.now, numbers_of numbers)) }
{
    match (name, numbers) {
        ("net", Numbers::One(place)) => Some(Subject::Net(NetId { place })),
        ("up", Numbers::One(place)) => Some(Subject::Up(NetId { place })),
        ("down", Numbers::One(place)) => Some(Subject::Down(NetId { place })),
        ("take", Numbers::One(place)) => Some(Subject::Take(ElemId { place })),
        ("next", Numbers::One(place)) => Some(Subject::Next(ElemId { place })),
        ("takew", Numbers::Two(place, port)) => Some(Subject::TakeWrite(MemId { place }, port)),
        ("old", Numbers::Three(place, port, bit)) => Some(Subject::Old(MemId { place }, port, bit)),
        ("taker", Numbers::Two(place, port)) => Some(Subject::TakeRead(MemId { place }, port)),
        _ => None,
    }
}
