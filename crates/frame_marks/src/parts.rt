//! The parts of results, by their numbers.

ghost use Rattle.std.specs.Prelude.{◌≡◌, ◌<◌, Some, length, slice_get};
ghost use Rattle.emu_machine.specs.Netlist.{chip_at};
ghost use Rattle.emu_machine.specs.State.{frame_slots, read_port, write_port};
ghost use Rattle.frame_marks.specs.Standing.{IsReadPort, IsRegister, IsWritePort};

use emu_machine::{Chip, EmuRead, EmuRegister, EmuWrite, Results, Slot};
use id_arena::{ChipId, Key, MemId, RegId, Wire, WireId};

/// The chip of this number.
pub(crate) fn chip_of(results: &Results, chip: u64) -> &Chip
    requires { chip < length results.now.net }
    ensures at { slice_get results.now.net chip ≡ Some result.now }
    ensures is { result.now ≡ chip_at results.now.net chip }
{
    results.net().chips().get(chip)
}

/// The register of these numbers.
pub(crate) fn register_of(results: &Results, chip: ChipId, register: RegId) -> EmuRegister
    requires { IsRegister results.now chip.place register.place }
    ensures { slice_get (chip_at results.now.net chip.place).registers register.place ≡ Some result }
{
    *chip_of(results, chip.place() as u64)
        .registers
        .get(register.place() as u64)
}

/// The read port of these numbers.
pub(crate) fn read_port_of(results: &Results, chip: ChipId, mem: MemId, port: u32) -> &EmuRead
    requires { IsReadPort results.now chip.place mem.place port }
    ensures { read_port results.now.net chip.place mem.place port ≡ Some result.now }
{
    chip_of(results, chip.place() as u64)
        .memories
        .get(mem.place() as u64)
        .reads
        .get(port as u64)
}

/// The write port of these numbers.
pub(crate) fn write_port_of(results: &Results, chip: ChipId, mem: MemId, port: u32) -> &EmuWrite
    requires { IsWritePort results.now chip.place mem.place port }
    ensures { write_port results.now.net chip.place mem.place port ≡ Some result.now }
{
    chip_of(results, chip.place() as u64)
        .memories
        .get(mem.place() as u64)
        .writes
        .get(port as u64)
}

/// A wire's ends and latency.
pub(crate) fn ends_of(wires: &[Wire], wire: WireId) -> Wire
    requires { wire.place < length wires.now }
    ensures { slice_get wires.now wire.place ≡ Some result }
{
    wires[wire.place() as usize]
}

/// The slots of a frame.
pub(crate) fn slots_of(results: &Results, frame: u32) -> &[Slot]
    requires { frame < length results.now.schedule.frames }
    ensures { result.now ≡ frame_slots results.now frame }
{
    results
        .schedule()
        .frames
        .get(u64::from(frame))
        .slots
        .as_slice()
}
