//! The buffers at the ports of an instance of a module.

ghost use Rattle.std.specs.Prelude.{◌≡◌, OnOk};
ghost use Rattle.module_bits.specs.Names.{AreNumbered};
ghost use Rattle.flattening.specs.Instances.{port_deed};
ghost use Rattle.flattening.specs.Links.{port_sockets, ties};
ghost use Rattle.flattening.specs.Pieces.{elements_in, joined, performed};
ghost use Rattle.flattening.specs.Places.{dir_named};
ghost use Rattle.elaborator.specs.Outcomes.{Does};
ghost use Rattle.elaborator.specs.Walk.{port_elements, ports_elements, side_of};

use crate::making::Making;
use crate::setting::{Instance, Setting};
use emu_io::{List, NoMemory};
use flattening::ElabFault;
use id_arena::NetId;
use std::alloc::Global;
use verilog_tree::{Dir, Inst, PortName};

/// The direction of the port of a name in an instance, if it has such a port.
pub(crate) fn direction(child: &Instance, name: &[u8]) -> Option<Dir>
    requires { AreNumbered child.now.base child.now.nets }
    ensures { result ≡ dir_named child.now name.now }
{
    let place = child.nets.find(name)?;
    child.nets.net(place).dir
}

/// Puts the buffers of one port behind all elements: those of input ports, or those of output ports.
fn push_port(
    alloc: Global,
    side: Dir,
    child: &Instance,
    name: &[u8],
    tied: &Option<List<NetId>>,
    making: &mut Making,
) -> Result<(), NoMemory>
    requires { AreNumbered child.now.base child.now.nets }
    ensures { OnOk result (making.new ≡ joined making.old (elements_in child.now.scope (port_elements side child.now name.now tied.now))) }
{
    let Some(nets) = tied else {
        return Ok(());
    };
    let bits = child.bits_named(alloc, name)?;
    match (side, direction(child, name)) {
        (Dir::Input, Some(Dir::Input)) => {
            making.push_buffers(alloc, child.scope, nets.as_slice(), bits.as_slice())
        }
        (Dir::Output, Some(Dir::Output)) => {
            making.push_buffers(alloc, child.scope, bits.as_slice(), nets.as_slice())
        }
        _ => Ok(()),
    }
}

/// Puts the buffers of all ports behind all elements: those of input ports, or those of output ports.
fn push_ports(
    alloc: Global,
    setting: &Setting,
    side: Dir,
    child: &Instance,
    ports: &[PortName],
    tied: &[Option<List<NetId>>],
    making: &mut Making,
) -> Result<(), NoMemory>
    requires { AreNumbered child.now.base child.now.nets }
    ensures { OnOk result (making.new ≡ joined making.old (elements_in child.now.scope (ports_elements side setting.now child.now ports.now tied.now))) }
{
    'ports: for (port, tie) in ports.iter().zip(tied) {
        push_port(alloc, side, child, setting.name(port.name), tie, making)?;
    }
    Ok(())
}

/// Does the buffers of the input ports of an instance, or those of its output ports, from or to what is tied
/// to them.
pub(crate) fn do_ports(
    alloc: Global,
    setting: &Setting,
    side: Dir,
    here: &Instance,
    at: u32,
    inst: &Inst,
    child: &Instance,
    ports: &[PortName],
    tied: &[Option<List<NetId>>],
    making: &mut Making,
) -> Result<(), ElabFault>
    requires numbered { AreNumbered child.now.base child.now.nets }
    requires ports { ports.now ≡ child.now.module_of.ports }
    requires tied { tied.now ≡ ties setting.now here.now inst.now.links (port_sockets setting.now child.now.module_of) }
    ensures { Does (performed at (port_deed (side_of side) setting.now here.now inst.now child.now)) making.old making.new result }
{
    push_ports(alloc, setting, side, child, ports, tied, making)?;
    match making.room_fault(at, 0, 0, 0) {
        Some(fault) => Err(fault),
        None => Ok(()),
    }
}
