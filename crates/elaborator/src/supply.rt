//! Supply nets.

ghost use Rattle.std.specs.Prelude.{◌≡◌};
ghost use Rattle.module_bits.specs.Names.{AreNumbered};
ghost use Rattle.flattening.specs.Items.{constant_net, supply_deed};
ghost use Rattle.flattening.specs.Pieces.{performed};
ghost use Rattle.flattening.specs.Steps.{in_turn};
ghost use Rattle.elaborator.specs.Outcomes.{Does};

use crate::making::Making;
use crate::setting::{Instance, Setting};
use design_core::Op;
use flattening::ElabFault;
use id_arena::{Key, NetId};
use std::alloc::Global;

/// Net 0 or net 1.
fn constant_net(one: bool) -> NetId
    ensures { result ≡ constant_net one }
{
    NetId::of(u32::from(one))
}

/// Does a supply net: a `buf` drives each bit of it from net 0 or net 1. The item begins at the byte `at`.
pub(crate) fn do_supply(
    alloc: Global,
    setting: &Setting,
    instance: &Instance,
    at: u32,
    one: bool,
    name: u32,
    making: &mut Making,
) -> Result<(), ElabFault>
    requires { AreNumbered instance.now.base instance.now.nets }
    ensures { Does (performed at (supply_deed setting.now instance.now one name)) making.old making.new result }
{
    let bits = instance.bits_named(alloc, setting.name(name))?;
    making.add_fan(
        alloc,
        at,
        instance.scope,
        Op::Buf,
        constant_net(one),
        bits.as_slice(),
    )
}

/// Does the supply nets of an item that begins at the byte `at`, one by one.
pub fn do_supplies(
    alloc: Global,
    setting: &Setting,
    instance: &Instance,
    at: u32,
    one: bool,
    names: &[u32],
    making: &mut Making,
) -> Result<(), ElabFault>
    requires { AreNumbered instance.now.base instance.now.nets }
    ensures { Does (in_turn (λ name. performed at (supply_deed setting.now instance.now one name)) names.now) making.old making.new result }
{
    'names: for name in names {
        do_supply(alloc, setting, instance, at, one, *name, making)?;
    }
    Ok(())
}
