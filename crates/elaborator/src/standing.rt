//! Whether an instance of a module may stand where it does.

ghost use Rattle.std.specs.Prelude.{◌≡◌, ◌==◌, ◌++◌};
ghost use Rattle.std.specs.List.{list_any};
ghost use Rattle.module_bits.specs.Names.{AreNumbered};
ghost use Rattle.flattening.specs.Links.{connection_tests, ties};
ghost use Rattle.flattening.specs.Steps.{first_fault};
ghost use Rattle.elaborator.specs.Outcomes.{Finds};
ghost use Rattle.elaborator.specs.Walk.{level_tests};

use crate::making::Making;
use crate::setting::{Instance, Setting};
use crate::sockets::Sockets;
use crate::ties::read_links;
use design_core::LimitKind;
use emu_io::List;
use flattening::ElabFault;
use id_arena::NetId;
use std::alloc::Global;
use verilog_tree::Inst;

/// The instances of modules that a design may have, the top included.
const MOST_MODULES: u32 = 400_000;

/// The fault of an instance of the module at a place, before its connections are looked at: the module
/// stands within an instance of itself, or too deep, or there are too many.
fn level_fault(
    setting: &Setting,
    here: &Instance,
    at: u32,
    place: u32,
    making: &Making,
    room: u32,
) -> Option<ElabFault>
    ensures { result ≡ first_fault (level_tests room setting.now here.now at place making.now) }
{
    if here.around.contains(&place) {
        return Some(ElabFault::Recursive { at });
    }
    if room == 0 {
        let which = LimitKind::Depth;
        return Some(ElabFault::Limit { which, at });
    }
    if making.module_count() >= MOST_MODULES {
        let which = LimitKind::Instances;
        return Some(ElabFault::Limit { which, at });
    }
    None
}

/// What is connected to the ports of an instance, where it may stand so and its connections are right; else
/// the first fault.
pub(crate) fn stand(
    alloc: Global,
    setting: &Setting,
    here: &Instance,
    at: u32,
    inst: &Inst,
    place: u32,
    sockets: &Sockets,
    making: &Making,
    room: u32,
) -> Result<List<Option<List<NetId>>>, ElabFault>
    requires { AreNumbered here.now.base here.now.nets }
    ensures { Finds (first_fault (level_tests room setting.now here.now at place making.now ++ connection_tests setting.now here.now sockets.now inst.now))
        (ties setting.now here.now inst.now.links sockets.now) result }
{
    if let Some(fault) = level_fault(setting, here, at, place, making, room) {
        return Err(fault);
    }
    read_links(alloc, setting, here, sockets, inst)
}
