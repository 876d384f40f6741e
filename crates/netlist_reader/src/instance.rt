//! Gates, registers and memories.
ghost use Rattle.std.specs.Prelude.{◌≡◌, ◌<◌, ◌≤◌, ◌*◌, IfOk, IsSome, length, slice_get};
ghost use Rattle.netlist_reader.specs.Netlist.{gate_pins, pins_of_register};
ghost use Rattle.netlist_reader.specs.Cuts.{AreReadsCut, AreWritesCut, IsCut, IsReadCut, IsWriteCut, pin_count, read_size, write_size};
ghost use Rattle.netlist_reader.specs.Forms.{IsPossible};

use crate::shape::MemoryShape;
use design_core::Op;
use emu_io::{List, NoMemory};
use emu_machine::{EmuGate, EmuMemory, EmuRead, EmuRegister, EmuWrite};
use id_arena::ChipNetId;
use std::alloc::Global;

/// A list of these nets.
fn nets_of(alloc: Global, nets: &[ChipNetId]) -> Result<List<ChipNetId>, NoMemory>
    ensures { IfOk result (λ list. list ≡ nets.now) }
{
    let mut list = List::new(alloc);
    'nets: for net in nets {
        list.push(*net)?;
    }
    Ok(list)
}

/// The gate with these terminals, its output first.
pub(crate) fn gate_of(alloc: Global, op: Op, pins: &[ChipNetId]) -> Result<EmuGate, NoMemory>
    requires { 0 < length pins.now }
    ensures { IfOk result (λ gate. (gate.op ≡ op) × (gate_pins gate ≡ pins.now)) }
{
    let inputs = nets_of(alloc, &pins[1..])?;
    Ok(EmuGate {
        op,
        output: pins[0],
        inputs,
    })
}

/// The register with these terminals: Q, D and the enable, as far as they are there.
pub(crate) fn register_of(pins: &[ChipNetId]) -> EmuRegister
    requires some { 0 < length pins.now }
    requires few { length pins.now ≤ 3 }
    ensures pins { pins_of_register result ≡ pins.now }
    ensures loaded { IsSome result.enable → IsSome result.d }
{
    EmuRegister {
        q: pins[0],
        d: pin_at(pins, 1),
        enable: pin_at(pins, 2),
    }
}

/// The terminal at a place, if there is one.
fn pin_at(pins: &[ChipNetId], place: usize) -> Option<ChipNetId>
    ensures { result ≡ slice_get pins.now place }
{
    pins.get(place).copied()
}

/// The write port with these terminals, where so many are of its address: the enable, the address and the
/// data.
fn write_of(alloc: Global, address_bits: usize, pins: &[ChipNetId]) -> Result<EmuWrite, NoMemory>
    requires { address_bits < length pins.now }
    ensures { IfOk result (IsWriteCut address_bits pins.now) }
{
    let address = nets_of(alloc, &pins[1..address_bits + 1])?;
    let feed = nets_of(alloc, &pins[address_bits + 1..])?;
    Ok(EmuWrite {
        enable: pins[0],
        address,
        feed,
    })
}

/// The read port with these terminals, where so many are of its address: the address and the nets that it
/// drives.
fn read_of(alloc: Global, address_bits: usize, pins: &[ChipNetId]) -> Result<EmuRead, NoMemory>
    requires { address_bits ≤ length pins.now }
    ensures { IfOk result (IsReadCut address_bits pins.now) }
{
    let address = nets_of(alloc, &pins[..address_bits])?;
    let bits = nets_of(alloc, &pins[address_bits..])?;
    Ok(EmuRead { address, bits })
}

/// The write ports with these terminals, one behind another.
fn writes_of(
    alloc: Global,
    shape: MemoryShape,
    pins: &[ChipNetId],
) -> Result<List<EmuWrite>, NoMemory>
    requires possible { IsPossible shape }
    requires whole { length pins.now ≡ shape.writes * write_size shape }
    ensures { IfOk result (AreWritesCut shape pins.now) }
{
    let address_bits = shape.address_bits as usize;
    let size = 1 + address_bits + shape.width as usize;
    let mut writes = List::new(alloc);
    let mut left = pins;
    'ports: for _ in 0..shape.writes {
        let write = write_of(alloc, address_bits, &left[..size])?;
        writes.push(write)?;
        left = &left[size..];
    }
    Ok(writes)
}

/// The read ports with these terminals, one behind another.
fn reads_of(
    alloc: Global,
    shape: MemoryShape,
    pins: &[ChipNetId],
) -> Result<List<EmuRead>, NoMemory>
    requires possible { IsPossible shape }
    requires whole { length pins.now ≡ shape.reads * read_size shape }
    ensures { IfOk result (AreReadsCut shape pins.now) }
{
    let address_bits = shape.address_bits as usize;
    let size = address_bits + shape.width as usize;
    let mut reads = List::new(alloc);
    let mut left = pins;
    'ports: for _ in 0..shape.reads {
        let read = read_of(alloc, address_bits, &left[..size])?;
        reads.push(read)?;
        left = &left[size..];
    }
    Ok(reads)
}

/// The memory of this form with these terminals.
pub(crate) fn memory_of(
    alloc: Global,
    shape: MemoryShape,
    pins: &[ChipNetId],
) -> Result<EmuMemory, NoMemory>
    requires possible { IsPossible shape }
    requires whole { length pins.now ≡ pin_count shape }
    ensures { IfOk result (IsCut shape pins.now) }
{
    let size = 1 + shape.address_bits as usize + shape.width as usize;
    let split = shape.writes as usize * size;
    let writes = writes_of(alloc, shape, &pins[..split])?;
    let reads = reads_of(alloc, shape, &pins[split..])?;
    Ok(EmuMemory {
        address_bits: shape.address_bits,
        width: shape.width,
        writes,
        reads,
    })
}
