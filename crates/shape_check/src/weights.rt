//! A3: what the gates and memories of a chip weigh.

ghost use Rattle.std.specs.Prelude.{◌≡◌, ◌≤◌, ◌*◌, ◌+◌, ◌^◌, ℕ, Some, length, slice_get, sum_by};
ghost use Rattle.emu_machine.specs.declared.netlist.EmuGate.{EmuGate};
ghost use Rattle.emu_machine.specs.declared.netlist.EmuMemory.{EmuMemory};
ghost use Rattle.emu_machine.specs.Acceptance.{FailsA3, chip_weight, driver_weight, memory_weight, subject_weight};
ghost use Rattle.emu_machine.specs.Mapped.{subject};
ghost use Rattle.use_check.specs.Least.{IsLeast};
ghost use Rattle.shape_check.specs.Weights.{gates_weight};

use crate::ShapeCase;
use design_core::{Driver, Element};
use emu_machine::{EmuGate, EmuMemory, Place, Subject};
use id_arena::{ChipId, Key};

/// A3: no chip weighs more than its room. The least chip that does is named, with its weight. Takes a step
/// for each gate and memory.
pub fn find_a3(case: &ShapeCase) -> Option<Place>
    ensures { IsLeast (FailsA3 case.now) result }
{
    let chips = case.chips();
    'each: for k in 0..chips {
        let chip = ChipId::of(k);
        let weight = chip_weight(case, chip);
        if case.room(chip) < weight {
            return Some(Place::Weight { chip, weight });
        }
    }
    None
}

/// What the gates and memories of a chip weigh together.
fn chip_weight(case: &ShapeCase, chip: ChipId) -> u64
    ensures { result ≡ chip_weight case.now chip.place }
{
    case.stands();
    match case.chip(chip) {
        None => 0,
        Some(found) => {
            gates_weight(case, chip, found.gates.as_slice())
                + memories_weight(found.memories.as_slice())
        }
    }
}

/// What some gates of a chip weigh together.
fn gates_weight(case: &ShapeCase, chip: ChipId, gates: &[EmuGate]) -> u64
    requires few { length gates.now ≤ 4294967295 }
    requires inputs { (k : ℕ) (gate : EmuGate) → slice_get gates.now k ≡ Some gate → length gate.inputs ≤ 64 }
    ensures is { result ≡ gates_weight case.now chip.place gates.now }
    ensures low { result ≤ 64 * length gates.now }
{
    let mut weight = 0;
    'each: for gate in gates {
        weight += gate_weight(case, chip, gate);
    }
    weight
}

/// A copied gate weighs its inputs, a next gate and a latch gate 8, and every other gate nothing.
fn gate_weight(case: &ShapeCase, chip: ChipId, gate: &EmuGate) -> u64
    requires { length gate.now.inputs ≤ 64 }
    ensures is { result ≡ subject_weight case.now.design gate.now (subject case.now.results chip.place gate.now.output.place) }
    ensures low { result ≤ 64 }
{
    match case.subject(chip, gate.output) {
        Some(Subject::Net(net)) => net_weight(case, gate, case.driver(net)),
        Some(Subject::Next(_)) => 8,
        _ => 0,
    }
}

/// The same of a gate that stands for a net which this drives.
fn net_weight(case: &ShapeCase, gate: &EmuGate, driver: Driver) -> u64
    requires { length gate.now.inputs ≤ 64 }
    ensures is { result ≡ driver_weight case.now.design gate.now driver }
    ensures low { result ≤ 64 }
{
    let Driver::Elem(element) = driver else {
        return 0;
    };
    match case.element(element) {
        Some(Element::Gate { .. }) => gate.inputs.len(),
        Some(Element::Latch(_)) => 8,
        _ => 0,
    }
}

/// What some memories weigh together.
fn memories_weight(memories: &[EmuMemory]) -> u64
    requires few { length memories.now ≤ 4294967295 }
    requires small { (k : ℕ) (memory : EmuMemory) → slice_get memories.now k ≡ Some memory → (memory.address_bits ≤ 16) × (memory.width ≤ 128) }
    ensures is { result ≡ sum_by memory_weight memories.now }
    ensures low { result ≤ 8388608 * length memories.now }
{
    let mut weight = 0;
    'each: for memory in memories {
        weight += memory_weight(memory);
    }
    weight
}

/// A memory weighs the number of its words times their width.
fn memory_weight(memory: &EmuMemory) -> u64
    requires address_bits { memory.now.address_bits ≤ 16 }
    requires width { memory.now.width ≤ 128 }
    ensures is { result ≡ memory_weight memory.now }
    ensures low { result ≤ 8388608 }
{
    word_number(memory.address_bits) * u64::from(memory.width)
}

/// How many words there are for so many address bits.
fn word_number(address_bits: u32) -> u64
    requires { address_bits ≤ 16 }
    ensures is { result ≡ 2 ^ address_bits }
    ensures low { result ≤ 65536 }
{
    1 << address_bits
}
