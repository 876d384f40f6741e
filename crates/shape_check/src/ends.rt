//! A11: what the registers and memories of the chips show at the end of a frame.

ghost use Rattle.std.specs.Prelude.{◌≡◌, ◌≤◌, ◌∷◌, [], Some, length, slice_get};
ghost use Rattle.emu_machine.specs.Netlist.{chip_at};
ghost use Rattle.use_check.specs.Least.{IsLeastUnder};
ghost use Rattle.shape_check.specs.Ends.{AreReads, EndFails, ReadFails};

use crate::frame_end::FrameEnd;
use emu_machine::{EmuMemory, EmuRead, EmuRegister, Place};
use id_arena::{ChipId, Key, MemId, RegId};

/// The least place at which the end of a frame fails: of the first chip where something does the least
/// register, else the least memory, itself or by a read port. Takes a step for each register, memory and bit.
pub(crate) fn find_at_end(end: &FrameEnd) -> Option<Place>
    ensures { IsLeastUnder (EndFails end.now) (end.now.frame ∷ []) result }
{
    let case = end.case();
    case.stands();
    'each: for k in 0..case.modules() {
        if let Some(at) = find_in_chip(end, ChipId::of(k)) {
            return Some(at);
        }
    }
    None
}

/// The same of one chip.
fn find_in_chip(end: &FrameEnd, chip: ChipId) -> Option<Place>
    ensures { IsLeastUnder (EndFails end.now) (end.now.frame ∷ chip.place ∷ []) result }
{
    let case = end.case();
    case.stands();
    let found = case.chip(chip)?;
    if let Some(at) = find_register(end, chip, found.registers.as_slice()) {
        return Some(at);
    }
    find_memory(end, chip, found.memories.as_slice())
}

/// The least register of a chip that ends badly.
fn find_register(end: &FrameEnd, chip: ChipId, registers: &[EmuRegister]) -> Option<Place>
    requires registers { registers.now ≡ (chip_at end.now.judged.results.net chip.place).registers }
    requires few { length registers.now ≤ 4294967295 }
    ensures { IsLeastUnder (EndFails end.now) (end.now.frame ∷ chip.place ∷ 0 ∷ []) result }
{
    'each: for k in 0..registers.len() {
        let register = RegId::of(k as u32);
        if !end.register_ends(chip, register) {
            return Some(Place::EndRegister {
                frame: end.frame(),
                chip,
                register,
            });
        }
    }
    None
}

/// The least memory of a chip that ends badly.
fn find_memory(end: &FrameEnd, chip: ChipId, memories: &[EmuMemory]) -> Option<Place>
    requires memories { memories.now ≡ (chip_at end.now.judged.results.net chip.place).memories }
    requires few { length memories.now ≤ 4294967295 }
    ensures { IsLeastUnder (EndFails end.now) (end.now.frame ∷ chip.place ∷ 1 ∷ []) result }
{
    end.case().stands();
    'each: for k in 0..memories.len() {
        if let Some(at) = find_in_memory(end, chip, MemId::of(k as u32), &memories[k]) {
            return Some(at);
        }
    }
    None
}

/// A memory that ends badly, or its least read port that does.
fn find_in_memory(end: &FrameEnd, chip: ChipId, mem: MemId, memory: &EmuMemory) -> Option<Place>
    requires there { slice_get (chip_at end.now.judged.results.net chip.place).memories mem.place ≡ Some memory.now }
    requires few { length memory.now.reads ≤ 4294967295 }
    ensures { IsLeastUnder (EndFails end.now) (end.now.frame ∷ chip.place ∷ 1 ∷ mem.place ∷ []) result }
{
    if !end.memory_ends(chip, mem) {
        return Some(Place::EndMemory {
            frame: end.frame(),
            chip,
            mem,
        });
    }
    find_read(end, chip, mem, memory.reads.as_slice())
}

/// The least read port of a memory that ends badly.
fn find_read(end: &FrameEnd, chip: ChipId, mem: MemId, reads: &[EmuRead]) -> Option<Place>
    requires reads { AreReads end.now chip.place mem.place reads.now }
    requires few { length reads.now ≤ 4294967295 }
    ensures { IsLeastUnder (ReadFails end.now) (end.now.frame ∷ chip.place ∷ 1 ∷ mem.place ∷ []) result }
{
    'each: for j in 0..reads.len() {
        if !end.read_ends(chip, mem, j as u32) {
            return Some(Place::EndRead {
                frame: end.frame(),
                chip,
                mem,
                port: j as u32,
            });
        }
    }
    None
}
