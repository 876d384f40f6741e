//! The lines of gates, of registers and of memories.
ghost use Rattle.std.specs.Prelude.{◌≡◌, ◌<◌, ◌^◌, ◌∷◌, length};
ghost use Rattle.emu_machine.specs.Building.{IsGateOf, IsMemoryOf, IsRegisterOf};
ghost use Rattle.netlist_reader.specs.Forms.{IsGateFirst, IsMemoryFirst, IsPossible, IsRegisterFirst, ShowsMemory, ShowsRegister};
ghost use Rattle.netlist_reader.specs.Cuts.{pin_count};
ghost use Rattle.netlist_reader.specs.Netlist.{gate_words, memory_words, register_words};

use crate::fault::Stop;
use crate::instance::{gate_of, memory_of, register_of};
use crate::lines::Line;
use crate::piece::Stem;
use crate::pins::{Room, take_instance};
use crate::rest::Rest;
use crate::shape::{MemoryShape, gate_shape, memory_shape, register_shape};
use emu_machine::{EmuGate, EmuMemory, EmuRegister};
use std::alloc::Global;

impl Line for EmuGate {
    ghost use Rattle.emu_machine.specs.Building.{IsGateOf};
    ghost use Rattle.netlist_reader.specs.Forms.{IsGateFirst};
    ghost use Rattle.netlist_reader.specs.Netlist.{gate_words};

    ghost Is = { IsGateOf };

    ghost First = { IsGateFirst };

    ghost line = { gate_words };

    fn read_next(
        alloc: Global,
        rest: &mut Rest,
        number: u32,
        nets: u32,
    ) -> Result<Option<EmuGate>, Stop> {
        let Some(shape) = gate_shape(rest, nets) else {
            return Ok(None);
        };
        rest.pass();
        let room = Room {
            least: shape.least + 1,
            most: shape.most + 1,
            nets,
        };
        let pins = take_instance(alloc, rest, Stem::Gate, number, room)?;
        let gate = gate_of(alloc, shape.op, pins.as_slice())?;
        Ok(Some(gate))
    }
}

/// The form of the registers of a chip with so many nets that the next word begins.
fn next_register(rest: &Rest, nets: u32) -> Option<u32>
    ensures { ShowsRegister nets rest.now result }
{
    if nets == 0 {
        return None;
    }
    register_shape(rest.name())
}

impl Line for EmuRegister {
    ghost use Rattle.emu_machine.specs.Building.{IsRegisterOf};
    ghost use Rattle.netlist_reader.specs.Forms.{IsRegisterFirst};
    ghost use Rattle.netlist_reader.specs.Netlist.{register_words};

    ghost Is = { IsRegisterOf };

    ghost First = { IsRegisterFirst };

    ghost line = { register_words };

    fn read_next(
        alloc: Global,
        rest: &mut Rest,
        number: u32,
        nets: u32,
    ) -> Result<Option<EmuRegister>, Stop> {
        let Some(count) = next_register(rest, nets) else {
            return Ok(None);
        };
        rest.pass();
        let room = Room {
            least: count,
            most: count,
            nets,
        };
        let pins = take_instance(alloc, rest, Stem::Register, number, room)?;
        Ok(Some(register_of(pins.as_slice())))
    }
}

/// How many terminals a memory of this form has.
fn count_of(shape: MemoryShape) -> u32
    requires { IsPossible shape }
    ensures { result ≡ pin_count shape }
{
    let data = shape.address_bits + shape.width;
    shape.writes * (1 + data) + shape.reads * data
}

/// The form of the memories of a chip with so many nets that the next word begins.
fn next_memory(rest: &Rest, nets: u32) -> Option<MemoryShape>
    ensures { ShowsMemory nets rest.now result }
{
    let Some(shape) = memory_shape(rest.name()) else {
        return None;
    };
    if nets > 0 {
        return Some(shape);
    }
    if count_of(shape) > 0 {
        return None;
    }
    Some(shape)
}

impl Line for EmuMemory {
    ghost use Rattle.emu_machine.specs.Building.{IsMemoryOf};
    ghost use Rattle.netlist_reader.specs.Forms.{IsMemoryFirst};
    ghost use Rattle.netlist_reader.specs.Netlist.{memory_words};

    ghost Is = { IsMemoryOf };

    ghost First = { IsMemoryFirst };

    ghost line = { memory_words };

    fn read_next(
        alloc: Global,
        rest: &mut Rest,
        number: u32,
        nets: u32,
    ) -> Result<Option<EmuMemory>, Stop> {
        let Some(shape) = next_memory(rest, nets) else {
            return Ok(None);
        };
        rest.pass();
        let count = count_of(shape);
        let room = Room {
            least: count,
            most: count,
            nets,
        };
        let pins = take_instance(alloc, rest, Stem::Memory, number, room)?;
        let memory = memory_of(alloc, shape, pins.as_slice())?;
        Ok(Some(memory))
    }
}
