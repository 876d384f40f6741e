//! How many gates and registers drive each net of a chip.
ghost use Rattle.std.specs.Prelude.{◌≡◌, ◌<◌, ◌↔◌, [], ◌∷◌, IfOk, IsTrue, length};
ghost use Rattle.emu_machine.specs.Netlist.{IsNetlist};
ghost use Rattle.emu_machine.specs.Plain.{IsPlainChip};
ghost use Rattle.result_files.specs.Drivers.{AreBelow, AddsDrivers, AreOnes, gate_output, register_output};

use emu_io::NoMemory;
use emu_machine::{Chip, EmuGate, EmuRegister};
use std::alloc::Global;

/// Whether each net of a chip without memories has one driver. Takes a byte for each net.
pub(crate) fn has_one_driver_each(alloc: Global, chip: &Chip) -> Result<bool, NoMemory>
    requires { IsPlainChip chip.now }
    ensures { IfOk result (λ yes. IsTrue yes ↔ IsNetlist (chip.now ∷ [])) }
{
    let mut drivers = vec![in alloc; 0u8; chip.nets as usize]?;
    let counts = drivers.as_mut_slice();
    count_gates(chip.gates.as_slice(), counts);
    count_registers(chip.registers.as_slice(), counts);
    Ok(are_ones(counts))
}

/// Adds the gates that drive each net. The counts stand still at 255.
fn count_gates(gates: &[EmuGate], drivers: &mut [u8])
    requires { AreBelow gate_output (length drivers.old) gates.now }
    ensures { AddsDrivers gate_output gates.now drivers.old drivers.new }
{
    'gates: for place in 0..gates.len() {
        let output = gates[place].output.place as usize;
        drivers[output] = drivers[output].saturating_add(1);
    }
}

/// Adds the registers that drive each net. The counts stand still at 255.
fn count_registers(registers: &[EmuRegister], drivers: &mut [u8])
    requires { AreBelow register_output (length drivers.old) registers.now }
    ensures { AddsDrivers register_output registers.now drivers.old drivers.new }
{
    'registers: for place in 0..registers.len() {
        let output = registers[place].q.place as usize;
        drivers[output] = drivers[output].saturating_add(1);
    }
}

/// Whether each count is 1.
fn are_ones(drivers: &[u8]) -> bool
    ensures { IsTrue result ↔ AreOnes drivers.now }
{
    'nets: for net in 0..drivers.len() {
        if drivers[net] != 1 {
            return false;
        }
    }
    true
}
