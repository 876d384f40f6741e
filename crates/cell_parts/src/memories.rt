//! The memory of an instance of a cell.

ghost use Rattle.std.specs.Prelude.{◌++◌, ◌≡◌, IfOk, OnOk, map};
ghost use Rattle.cell_parts.specs.CellElements.{cell_memories};
ghost use Rattle.cell_parts.specs.CellStates.{address_at, enable_at, memory_at, read_port, write_port};

use crate::states::{level_at, optional_edge};
use crate::wires::Wires;
use cell_table::{CellKind, CellRead, CellWrite, LevelPin};
use design_core::{Level, Memory, ReadPort, WritePort};
use emu_io::{List, NoMemory, Text};
use id_arena::{Key, NetId};
use std::alloc::Global;

/// Adds the memory that an instance of a kind makes of its nets, where the kind is a memory.
#[tactic(auto, unfolding(crate::specs::CellElements::cell_memories))]
pub fn push_memory(
    alloc: Global,
    out: &mut List<Memory>,
    wires: &Wires<'_>,
    kind: &CellKind,
) -> Result<(), NoMemory>
    ensures { OnOk result (out.new ≡ out.old ++ cell_memories wires.now kind.now) }
{
    match kind {
        CellKind::Memory {
            address_bits,
            width,
            writes,
            reads,
        } => out.push(Memory {
            address_bits: *address_bits,
            width: *width,
            writes: write_ports(alloc, wires, writes.as_slice())?,
            reads: read_ports(alloc, wires, reads.as_slice())?,
        }),
        CellKind::Comb { .. }
        | CellKind::Flop { .. }
        | CellKind::Latch { .. }
        | CellKind::GateClock { .. } => Ok(()),
    }
}

/// The write ports, in their order.
fn write_ports(
    alloc: Global,
    wires: &Wires<'_>,
    writes: &[CellWrite],
) -> Result<List<WritePort>, NoMemory>
    ensures { IfOk result (λ ports. ports ≡ map (write_port wires.now) writes.now) }
{
    let mut ports = List::new(alloc);
    'writes: for write in writes {
        ports.push(write_port(alloc, wires, write)?)?;
    }
    Ok(ports)
}

/// The read ports, in their order.
fn read_ports(
    alloc: Global,
    wires: &Wires<'_>,
    reads: &[CellRead],
) -> Result<List<ReadPort>, NoMemory>
    ensures { IfOk result (λ ports. ports ≡ map (read_port wires.now) reads.now) }
{
    let mut ports = List::new(alloc);
    'reads: for read in reads {
        ports.push(read_port(alloc, wires, read)?)?;
    }
    Ok(ports)
}

/// One write port.
fn write_port(alloc: Global, wires: &Wires<'_>, write: &CellWrite) -> Result<WritePort, NoMemory>
    ensures { IfOk result (λ port. port ≡ write_port wires.now write.now) }
{
    Ok(WritePort {
        clock: wires.pin_at(write.clock.pin.bytes()),
        rise: write.clock.rise,
        enable: enable_at(wires, &write.enable),
        address: address_at(alloc, wires, &write.address)?,
        feed: copied(alloc, wires.nets_at(write.feed.bytes()))?,
    })
}

/// One read port.
fn read_port(alloc: Global, wires: &Wires<'_>, read: &CellRead) -> Result<ReadPort, NoMemory>
    ensures { IfOk result (λ port. port ≡ read_port wires.now read.now) }
{
    Ok(ReadPort {
        clock: optional_edge(wires, &read.clock),
        address: address_at(alloc, wires, &read.address)?,
        bits: copied(alloc, wires.nets_at(read.bits.bytes()))?,
    })
}

/// The enable of a write port: net 1, active at 1, where the cell has none.
fn enable_at(wires: &Wires<'_>, enable: &Option<LevelPin>) -> Level
    ensures { result ≡ enable_at wires.now enable.now }
{
    match enable {
        Some(enable) => level_at(wires, enable),
        None => Level {
            net: NetId::of(1),
            high: true,
        },
    }
}

/// The nets of an address: none where there is no address pin.
fn address_at(
    alloc: Global,
    wires: &Wires<'_>,
    address: &Option<Text>,
) -> Result<List<NetId>, NoMemory>
    ensures { IfOk result (λ nets. nets ≡ address_at wires.now address.now) }
{
    match address {
        Some(address) => copied(alloc, wires.nets_at(address.bytes())),
        None => Ok(List::new(alloc)),
    }
}

/// A list of these nets.
fn copied(alloc: Global, nets: &[NetId]) -> Result<List<NetId>, NoMemory>
    ensures { IfOk result (λ list. list ≡ nets.now) }
{
    Ok(List::from_vec(nets.to_vec(alloc)?))
}
