//! Assignments and values of wires.

ghost use Rattle.module_bits.specs.Names.{AreNumbered};
ghost use Rattle.flattening.specs.Items.{net_deed, pair_deed};
ghost use Rattle.flattening.specs.Pieces.{performed};
ghost use Rattle.flattening.specs.Steps.{in_turn};
ghost use Rattle.elaborator.specs.Outcomes.{Does};

use crate::making::Making;
use crate::setting::{Instance, Setting};
use crate::value::read;
use flattening::ElabFault;
use std::alloc::Global;
use verilog_tree::{AssignPair, NetPart};

/// Does an assignment: the right side, which has the width of the left one, drives it. The item begins at the
/// byte `at`.
pub(crate) fn do_pair(
    alloc: Global,
    setting: &Setting,
    instance: &Instance,
    at: u32,
    pair: &AssignPair,
    making: &mut Making,
) -> Result<(), ElabFault>
    requires { AreNumbered instance.now.base instance.now.nets }
    ensures { Does (performed at (pair_deed setting.now instance.now pair.now)) making.old making.new result }
{
    let left = read(alloc, setting, instance, &pair.left, None)?;
    let right = read(alloc, setting, instance, &pair.right, Some(left.len()))?;
    making.add_buffers(alloc, at, instance.scope, right.as_slice(), left.as_slice())
}

/// Does the assignments of an item that begins at the byte `at`, one by one.
pub fn do_pairs(
    alloc: Global,
    setting: &Setting,
    instance: &Instance,
    at: u32,
    pairs: &[AssignPair],
    making: &mut Making,
) -> Result<(), ElabFault>
    requires { AreNumbered instance.now.base instance.now.nets }
    ensures { Does (in_turn (λ pair. performed at (pair_deed setting.now instance.now pair)) pairs.now) making.old making.new result }
{
    'pairs: for pair in pairs {
        do_pair(alloc, setting, instance, at, pair, making)?;
    }
    Ok(())
}

/// Does a wire: its value, if it has one, has its width and drives it. The item begins at the byte `at`.
#[tactic(auto, using(crate::proofs::Items::net_none))]
pub(crate) fn do_net(
    alloc: Global,
    setting: &Setting,
    instance: &Instance,
    at: u32,
    net: &NetPart,
    making: &mut Making,
) -> Result<(), ElabFault>
    requires { AreNumbered instance.now.base instance.now.nets }
    ensures { Does (performed at (net_deed setting.now instance.now net.now)) making.old making.new result }
{
    let Some(value) = &net.value else {
        return making.add_buffers(alloc, at, instance.scope, &[], &[]);
    };
    let bits = instance.bits_named(alloc, setting.name(net.name))?;
    let value = read(alloc, setting, instance, value, Some(bits.len()))?;
    making.add_buffers(alloc, at, instance.scope, value.as_slice(), bits.as_slice())
}

/// Does the wires of an item that begins at the byte `at`, one by one.
pub fn do_nets(
    alloc: Global,
    setting: &Setting,
    instance: &Instance,
    at: u32,
    nets: &[NetPart],
    making: &mut Making,
) -> Result<(), ElabFault>
    requires { AreNumbered instance.now.base instance.now.nets }
    ensures { Does (in_turn (λ net. performed at (net_deed setting.now instance.now net)) nets.now) making.old making.new result }
{
    'nets: for net in nets {
        do_net(alloc, setting, instance, at, net, making)?;
    }
    Ok(())
}
