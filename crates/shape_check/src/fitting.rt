//! A7: what gates, registers and memories of the chips stand for.

ghost use Rattle.std.specs.Prelude.{◌≡◌, ◌≤◌, ◌∷◌, [], length};
ghost use Rattle.emu_machine.specs.Acceptance.{FailsA7};
ghost use Rattle.emu_machine.specs.Netlist.{chip_at};
ghost use Rattle.use_check.specs.Least.{IsLeast, IsLeastUnder};

use crate::ShapeCase;
use crate::gates::gate_fits;
use crate::memories::memory_fits;
use crate::registers::register_fits;
use emu_machine::{EmuGate, EmuMemory, EmuRegister, Place};
use id_arena::{ChipId, Key, MemId, RegId};

/// A7: each gate is what the subject of its output says, each register is loaded with what it stands for,
/// and each memory is that of the design which its entry in the map names. Of the first chip where something
/// does not fit the least gate is named, else the least register, else the least memory. Takes a step for
/// each gate, register, memory and pin.
pub fn find_a7(case: &ShapeCase) -> Option<Place>
    ensures { IsLeast (FailsA7 case.now) result }
{
    'each: for k in 0..case.modules() {
        if let Some(at) = find_in_chip(case, ChipId::of(k)) {
            return Some(at);
        }
    }
    None
}

/// The same of one chip.
fn find_in_chip(case: &ShapeCase, chip: ChipId) -> Option<Place>
    ensures { IsLeastUnder (FailsA7 case.now) (chip.place ∷ []) result }
{
    case.stands();
    let found = case.chip(chip)?;
    if let Some(at) = find_gate(case, chip, found.gates.as_slice()) {
        return Some(at);
    }
    if let Some(at) = find_register(case, chip, found.registers.as_slice()) {
        return Some(at);
    }
    find_memory(case, chip, found.memories.as_slice())
}

/// The least gate of a chip that does not fit.
fn find_gate(case: &ShapeCase, chip: ChipId, gates: &[EmuGate]) -> Option<Place>
    requires gates { gates.now ≡ (chip_at case.now.results.net chip.place).gates }
    requires few { length gates.now ≤ 4294967295 }
    ensures { IsLeastUnder (FailsA7 case.now) (chip.place ∷ 0 ∷ []) result }
{
    'each: for k in 0..gates.len() {
        if !gate_fits(case, chip, &gates[k]) {
            return Some(Place::Gate {
                chip,
                gate: k as u32,
            });
        }
    }
    None
}

/// The least register of a chip that does not fit.
fn find_register(case: &ShapeCase, chip: ChipId, registers: &[EmuRegister]) -> Option<Place>
    requires registers { registers.now ≡ (chip_at case.now.results.net chip.place).registers }
    requires few { length registers.now ≤ 4294967295 }
    ensures { IsLeastUnder (FailsA7 case.now) (chip.place ∷ 1 ∷ []) result }
{
    'each: for k in 0..registers.len() {
        if !register_fits(case, chip, registers[k]) {
            return Some(Place::Register {
                chip,
                register: RegId::of(k as u32),
            });
        }
    }
    None
}

/// The least memory of a chip that does not fit.
fn find_memory(case: &ShapeCase, chip: ChipId, memories: &[EmuMemory]) -> Option<Place>
    requires memories { memories.now ≡ (chip_at case.now.results.net chip.place).memories }
    requires few { length memories.now ≤ 4294967295 }
    ensures { IsLeastUnder (FailsA7 case.now) (chip.place ∷ 2 ∷ []) result }
{
    case.stands();
    'each: for k in 0..memories.len() {
        if !memory_fits(case, chip, k as u32, &memories[k]) {
            return Some(Place::Memory {
                chip,
                mem: MemId::of(k as u32),
            });
        }
    }
    None
}
