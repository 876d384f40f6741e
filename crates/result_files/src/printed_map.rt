//! The texts of maps.
ghost use Rattle.std.specs.Prelude.{◌≡◌, IfOk};
ghost use Rattle.std.specs.List.{list_any};
ghost use Rattle.serde_json.specs.View.{view};
ghost use Rattle.result_files.specs.Map.{has_clocked};
ghost use Rattle.result_files.specs.Printed.{map_text, map_tree, map_version};

use crate::map_reader::has_clocked;
use crate::printed::{Written, list_of, object_of, row_of, text_of};
use emu_io::NoMemory;
use emu_machine::{ChipMap, MemMap, Spot, StateMap, Subject};
use serde_json::{Value, json};
use std::alloc::Global;

/// The text of a map, in compact JSON with a newline at its end. It is of version 2 exactly where a subject
/// of a clocked read occurs.
#[tactic(auto, using(crate::proofs::Floats::map_fine))]
pub fn print_map(alloc: Global, map: &StateMap) -> Result<Vec<u8>, NoMemory>
    ensures { IfOk result (λ text. text.items ≡ map_text map.now) }
{
    let tree = tree_of(alloc, map)?;
    text_of(alloc, &tree)
}

/// The tree of a map.
#[tactic(auto, unfolding(crate::specs::Printed::map_tree))]
fn tree_of(alloc: Global, map: &StateMap) -> Result<Value, NoMemory>
    ensures { IfOk result (λ value. view value ≡ map_tree map.now) }
{
    let chips = list_of(alloc, map.chips.as_slice())?;
    let outputs = list_of(alloc, map.outputs.as_slice())?;
    let version = version_of(map);
    object_of(
        alloc,
        ("chips", chips),
        ("outputs", outputs),
        ("version", Value::from(version)),
    )
}

/// The version that a map needs.
fn version_of(map: &StateMap) -> u32
    ensures { result ≡ map_version map.now }
{
    if are_clocked(map.chips.as_slice()) {
        2
    } else {
        1
    }
}

/// Whether one of the entries has a subject of a clocked read.
fn are_clocked(entries: &[ChipMap]) -> bool
    ensures { result ≡ list_any has_clocked entries.now }
{
    'entries: for place in 0..entries.len() {
        if has_clocked(entries[place].nets.as_slice()) {
            return true;
        }
    }
    false
}

impl Written for ChipMap {
    ghost use Rattle.result_files.specs.Printed.{entry_tree, Any};

    ghost tree = { entry_tree };

    ghost IsWritable = { Any };

    #[tactic(auto, unfolding(crate::specs::Printed::entry_tree))]
    fn written(&self, alloc: Global) -> Result<Value, NoMemory> {
        let memories = list_of(alloc, self.memories.as_slice())?;
        let nets = list_of(alloc, self.nets.as_slice())?;
        let registers = list_of(alloc, self.kept.as_slice())?;
        object_of(
            alloc,
            ("memories", memories),
            ("nets", nets),
            ("registers", registers),
        )
    }
}

impl Written for MemMap {
    ghost use Rattle.result_files.specs.Printed.{memory_tree, Any};

    ghost tree = { memory_tree };

    ghost IsWritable = { Any };

    #[tactic(auto, unfolding(crate::specs::Printed::memory_tree))]
    fn written(&self, alloc: Global) -> Result<Value, NoMemory> {
        let reads = list_of(alloc, self.kept.as_slice())?;
        Ok(json!(in alloc; {"of": self.of.place, "reads": reads})?)
    }
}

impl Written for bool {
    ghost use Rattle.serde_json.specs.Data.{boolean};
    ghost use Rattle.result_files.specs.Printed.{Any};

    ghost tree = { boolean };

    ghost IsWritable = { Any };

    fn written(&self, _alloc: Global) -> Result<Value, NoMemory> {
        Ok(Value::from(*self))
    }
}

impl Written for Spot {
    ghost use Rattle.result_files.specs.Map.{spot_tree};
    ghost use Rattle.result_files.specs.Printed.{Any};

    ghost tree = { spot_tree };

    ghost IsWritable = { Any };

    fn written(&self, alloc: Global) -> Result<Value, NoMemory> {
        let mut values = Vec::new(alloc);
        values.push(Value::from(self.chip.place))?;
        values.push(Value::from(self.net.place))?;
        Ok(Value::Array(values))
    }
}

impl Written for Subject {
    ghost use Rattle.result_files.specs.Printed.{subject_tree, Any};

    ghost tree = { subject_tree };

    ghost IsWritable = { Any };

    fn written(&self, alloc: Global) -> Result<Value, NoMemory> {
        match *self {
            Subject::Net(net) => row_of(alloc, "net", &[net.place]),
            Subject::Up(net) => row_of(alloc, "up", &[net.place]),
            Subject::Down(net) => row_of(alloc, "down", &[net.place]),
            Subject::Take(element) => row_of(alloc, "take", &[element.place]),
            Subject::Next(element) => row_of(alloc, "next", &[element.place]),
            Subject::TakeWrite(mem, port) => row_of(alloc, "takew", &[mem.place, port]),
            Subject::Old(mem, port, bit) => row_of(alloc, "old", &[mem.place, port, bit]),
            Subject::TakeRead(mem, port) => row_of(alloc, "taker", &[mem.place, port]),
        }
    }
}
