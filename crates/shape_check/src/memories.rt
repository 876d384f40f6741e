//! A7 of a memory: its dimensions, its ports and their subjects.

ghost use Rattle.std.specs.Prelude.{◌≡◌, ◌≤◌, ◌+◌, Some, false, length, map, slice_get, zip};
ghost use Rattle.std.specs.List.{enumerate_from, list_all};
ghost use Rattle.std.specs.Option.{option_map_or};
ghost use Rattle.emu_machine.specs.declared.map.Subject.TheVariants.{Old};
ghost use Rattle.emu_machine.specs.Acceptance.{mapped_memory_fits};
ghost use Rattle.emu_machine.specs.Origins.{have_subjects, keeps_read, memory_fits, memory_ports_fit, read_fits, read_subjects, write_fits};
ghost use Rattle.shape_check.specs.Ports.{AreNarrow, IsSmall, old_bits, reads_fit, writes_fit};

use crate::ShapeCase;
use crate::gates::are_nets;
use design_core::{Memory, ReadPort, WritePort};
use emu_machine::{EmuMemory, EmuRead, EmuWrite, MemMap, Subject};
use id_arena::{ChipId, ChipNetId, Key, MemId};

/// Whether a memory of a chip has an entry in the map, and fits the memory of the design that it names.
pub(crate) fn memory_fits(case: &ShapeCase, chip: ChipId, place: u32, memory: &EmuMemory) -> bool
    requires { IsSmall memory.now }
    ensures { result ≡ mapped_memory_fits case.now chip.place place memory.now }
{
    let Some(entry) = case.entry(chip) else {
        return false;
    };
    match entry.memories.as_slice().get(place as usize) {
        Some(entry) => is_of_design(case, chip, entry, memory),
        None => false,
    }
}

/// Whether a memory of a chip fits the memory of the design that its entry names.
fn is_of_design(case: &ShapeCase, chip: ChipId, entry: &MemMap, memory: &EmuMemory) -> bool
    requires { IsSmall memory.now }
    ensures { result ≡ memory_fits case.now.design case.now.results chip.place entry.now memory.now }
{
    match case.memory(entry.of) {
        Some(design) => ports_fit(case, chip, entry, design, memory),
        None => false,
    }
}

/// Whether a memory of a chip has the dimensions, the ports and the subjects of a memory of the design.
fn ports_fit(
    case: &ShapeCase,
    chip: ChipId,
    entry: &MemMap,
    design: &Memory,
    memory: &EmuMemory,
) -> bool
    requires { IsSmall memory.now }
    ensures { result ≡ memory_ports_fit case.now.results chip.place entry.now design.now memory.now }
{
    memory.address_bits == design.address_bits
        && memory.width == design.width
        && memory.writes.len() == design.writes.len()
        && memory.reads.len() == design.reads.len()
        && writes_fit(
            case,
            chip,
            entry.of,
            design.writes.as_slice(),
            memory.writes.as_slice(),
        )
        && reads_fit(
            case,
            chip,
            entry,
            design.reads.as_slice(),
            memory.reads.as_slice(),
        )
}

/// Whether write ports of a chip's memory fit those of the design, one by one.
fn writes_fit(
    case: &ShapeCase,
    chip: ChipId,
    of: MemId,
    design: &[WritePort],
    ports: &[EmuWrite],
) -> bool
    requires same { length ports.now ≡ length design.now }
    requires few { length ports.now ≤ 16 }
    ensures { result ≡ writes_fit case.now.results chip.place of 0 design.now ports.now }
{
    'each: for k in 0..ports.len() {
        if !write_fits(case, chip, of, k as u32, &design[k], &ports[k]) {
            return false;
        }
    }
    true
}

/// Whether a write port of a chip's memory fits that of the design.
fn write_fits(
    case: &ShapeCase,
    chip: ChipId,
    of: MemId,
    number: u32,
    design: &WritePort,
    port: &EmuWrite,
) -> bool
    ensures { result ≡ write_fits case.now.results chip.place of number design.now port.now }
{
    case.has_subject(chip, port.enable, Subject::TakeWrite(of, number))
        && are_nets(
            case,
            chip,
            port.address.as_slice(),
            design.address.as_slice(),
        )
        && are_nets(case, chip, port.feed.as_slice(), design.feed.as_slice())
}

/// Whether read ports of a chip's memory fit those of the design, one by one.
fn reads_fit(
    case: &ShapeCase,
    chip: ChipId,
    entry: &MemMap,
    design: &[ReadPort],
    ports: &[EmuRead],
) -> bool
    requires same { length ports.now ≡ length design.now }
    requires few { length ports.now ≤ 16 }
    requires narrow { AreNarrow ports.now }
    ensures { result ≡ reads_fit case.now.results chip.place entry.now 0 design.now ports.now }
{
    'each: for k in 0..ports.len() {
        if !read_fits(case, chip, entry, k as u32, &design[k], &ports[k]) {
            return false;
        }
    }
    true
}

/// Whether a read port of a chip's memory fits that of the design; one with a clock is not kept.
fn read_fits(
    case: &ShapeCase,
    chip: ChipId,
    entry: &MemMap,
    number: u32,
    design: &ReadPort,
    port: &EmuRead,
) -> bool
    requires { length port.now.bits ≤ 128 }
    ensures { result ≡ read_fits case.now.results chip.place entry.now number design.now port.now }
{
    are_nets(
        case,
        chip,
        port.address.as_slice(),
        design.address.as_slice(),
    ) && are_read(case, chip, port.bits.as_slice(), entry.of, number, design)
        && !(design.clock.is_some() && is_kept(entry, number))
}

/// Whether a read port of a memory is kept.
fn is_kept(entry: &MemMap, port: u32) -> bool
    ensures { result ≡ keeps_read entry.now port }
{
    match entry.kept.as_slice().get(port as usize) {
        Some(kept) => *kept,
        None => false,
    }
}

/// Whether nets of a chip stand for what a read port of the design gives them.
fn are_read(
    case: &ShapeCase,
    chip: ChipId,
    nets: &[ChipNetId],
    of: MemId,
    number: u32,
    design: &ReadPort,
) -> bool
    requires { length nets.now ≤ 128 }
    ensures { result ≡ have_subjects case.now.results chip.place nets.now (read_subjects of number design.now) }
{
    let bits = design.bits.as_slice();
    match design.clock {
        None => are_nets(case, chip, nets, bits),
        Some(_) => {
            if nets.len() != bits.len() {
                return false;
            }
            are_old(case, chip, nets, of, number)
        }
    }
}

/// Whether nets of a chip stand for the bits of the word that a read port takes.
fn are_old(case: &ShapeCase, chip: ChipId, nets: &[ChipNetId], of: MemId, number: u32) -> bool
    requires { length nets.now ≤ 128 }
    ensures { result ≡ old_bits case.now.results chip.place of number 0 nets.now }
{
    'each: for bit in 0..nets.len() {
        if !case.has_subject(chip, nets[bit], Subject::Old(of, number, bit as u32)) {
            return false;
        }
    }
    true
}
