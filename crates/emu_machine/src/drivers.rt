//! How many parts drive each net of a chip.
ghost use Rattle.std.specs.Prelude.{◌<◌, IfOk, length};
ghost use Rattle.emu_machine.specs.Building.{IsChip};
ghost use Rattle.emu_machine.specs.Counts.{Adds, DriveBelow, MemoriesBelow, PortsBelow, TellsMisdriven, TellsOther, gate_output, gates_of, itself, memory_nets, nets_of, port_nets, register_output, registers_of};

use crate::{Chip, EmuGate, EmuMemory, EmuRead, EmuRegister};
use emu_io::NoMemory;
use id_arena::{ChipNetId, Key};
use std::alloc::Global;

/// The least net of a chip that has no driver or several; None where each net has one.
pub(crate) fn least_misdriven(alloc: Global, chip: &Chip) -> Result<Option<ChipNetId>, NoMemory>
    requires { IsChip chip.now }
    ensures { IfOk result (TellsMisdriven chip.now) }
{
    let mut drivers = vec![in alloc; 0u8; chip.nets as usize]?;
    let counts = drivers.as_mut_slice();
    count_gates(chip.gates.as_slice(), counts);
    count_registers(chip.registers.as_slice(), counts);
    count_memories(chip.memories.as_slice(), counts);
    Ok(least_other(counts))
}

/// Adds the gates that drive each net. The counts stand still at 255.
fn count_gates(gates: &[EmuGate], drivers: &mut [u8])
    requires { DriveBelow gate_output (length drivers.old) gates.now }
    ensures { Adds (gates_of gates.now) drivers.old drivers.new }
{
    'gates: for place in 0..gates.len() {
        let output = gates[place].output.place as usize;
        drivers[output] = drivers[output].saturating_add(1);
    }
}

/// Adds the registers that drive each net.
fn count_registers(registers: &[EmuRegister], drivers: &mut [u8])
    requires { DriveBelow register_output (length drivers.old) registers.now }
    ensures { Adds (registers_of registers.now) drivers.old drivers.new }
{
    'registers: for place in 0..registers.len() {
        let output = registers[place].q.place as usize;
        drivers[output] = drivers[output].saturating_add(1);
    }
}

/// Adds one driver for each of these nets.
fn count_nets(nets: &[ChipNetId], drivers: &mut [u8])
    requires { DriveBelow itself (length drivers.old) nets.now }
    ensures { Adds (nets_of nets.now) drivers.old drivers.new }
{
    'nets: for place in 0..nets.len() {
        let output = nets[place].place as usize;
        drivers[output] = drivers[output].saturating_add(1);
    }
}

/// Adds the read ports that drive each net.
fn count_ports(ports: &[EmuRead], drivers: &mut [u8])
    requires { PortsBelow (length drivers.old) ports.now }
    ensures { Adds (nets_of (port_nets ports.now)) drivers.old drivers.new }
{
    'ports: for place in 0..ports.len() {
        count_nets(ports[place].bits.as_slice(), drivers);
    }
}

/// Adds the read ports of all memories.
fn count_memories(memories: &[EmuMemory], drivers: &mut [u8])
    requires { MemoriesBelow (length drivers.old) memories.now }
    ensures { Adds (nets_of (memory_nets memories.now)) drivers.old drivers.new }
{
    'memories: for place in 0..memories.len() {
        count_ports(memories[place].reads.as_slice(), drivers);
    }
}

/// The least net whose count is not 1; None where each is.
fn least_other(drivers: &[u8]) -> Option<ChipNetId>
    requires { length drivers.now < 4294967296 }
    ensures { TellsOther drivers.now result }
{
    'nets: for net in 0..drivers.len() {
        if drivers[net] != 1 {
            return Some(ChipNetId::of(net as u32));
        }
    }
    None
}
