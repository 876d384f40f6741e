//! Netlists built of one small chip, and results with them.

ghost use Rattle.std.specs.Prelude.{◌<◌, IfOk};
ghost use Rattle.emu_machine.specs.Building.{AreChips};

use crate::{BuildFault, Chip, EmuNet, EmuRegister, Rule};
use emu_io::{List, NoMemory};
use id_arena::{ChipId, ChipNetId, Key};
use std::alloc::Global;
use std::test::Fail;

/// A chip with so many nets, of which a register drives net 0.
fn one_register(alloc: Global, nets: u32) -> Result<List<Chip>, NoMemory>
    requires { 0 < nets }
    ensures { IfOk result AreChips }
{
    let mut registers = List::new(alloc);
    registers.push(EmuRegister {
        q: ChipNetId::of(0),
        d: None,
        enable: None,
    })?;
    let mut chips = List::new(alloc);
    chips.push(Chip {
        nets,
        gates: List::new(alloc),
        registers,
        memories: List::new(alloc),
    })?;
    Ok(chips)
}

#[test]
fn a_driven_chip_is_built(rt: HostRuntime) -> Result<(), Fail> {
    let Ok(net) = EmuNet::build(rt.alloc(), one_register(rt.alloc(), 1)?) else {
        panic!(rt; "a chip of one driven net was refused");
    };
    assert_eq!(rt; net.chips().len(), 1);
    assert_eq!(rt; Rule::A12.number(), 12);
    Ok(())
}

#[test]
fn an_undriven_net_is_named(rt: HostRuntime) -> Result<(), Fail> {
    let Err(fault) = EmuNet::build(rt.alloc(), one_register(rt.alloc(), 3)?) else {
        panic!(rt; "nets without driver were passed");
    };
    let least = BuildFault::ShapeFault {
        chip: ChipId::of(0),
        net: ChipNetId::of(1),
    };
    assert_eq!(rt; fault, least);
    Ok(())
}
