//! The text of a small netlist, to the byte.

ghost use Rattle.std.specs.Prelude.{IfOk};
ghost use Rattle.emu_machine.specs.Building.{AreChips};

use crate::print_netlist;
use design_core::Op;
use emu_io::{List, NoMemory};
use emu_machine::{Chip, EmuGate, EmuNet, EmuRegister};
use id_arena::{ChipNetId, Key};
use std::alloc::Global;
use std::test::Fail;

/// A chip with a `not` gate behind a register.
fn inverter(alloc: Global) -> Result<List<Chip>, NoMemory>
    ensures { IfOk result AreChips }
{
    let mut inputs = List::new(alloc);
    inputs.push(ChipNetId::of(0))?;
    let mut gates = List::new(alloc);
    gates.push(EmuGate {
        op: Op::Not,
        output: ChipNetId::of(1),
        inputs,
    })?;
    let mut registers = List::new(alloc);
    registers.push(EmuRegister {
        q: ChipNetId::of(0),
        d: None,
        enable: None,
    })?;
    let mut chips = List::new(alloc);
    chips.push(Chip {
        nets: 2,
        gates,
        registers,
        memories: List::new(alloc),
    })?;
    Ok(chips)
}

#[test]
fn the_inverter_is_printed(rt: HostRuntime) -> Result<(), Fail> {
    let alloc = rt.alloc();
    let Ok(net) = EmuNet::build(alloc, inverter(alloc)?) else {
        panic!(rt; "a netlist of driven nets was refused");
    };
    let text = print_netlist(alloc, &net)?;
    let expected =
        "module chip0;\nwire n0;\nwire n1;\nnot g0 (n1, n0);\nEHOLD r0 (n0);\nendmodule\n";
    assert_eq!(rt; text.as_slice(), expected.as_bytes());
    Ok(())
}
