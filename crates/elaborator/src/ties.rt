//! What is connected to the ports or pins of an instance.

ghost use Rattle.std.specs.Prelude.{◌≡◌, IfOk, None, OnOk, length, option_map, replicate};
ghost use Rattle.module_bits.specs.Names.{AreNumbered};
ghost use Rattle.verilog_tree.specs.declared.source.Links.TheVariants.{Named, Ordered};
ghost use Rattle.flattening.specs.Faults.{bits_here};
ghost use Rattle.flattening.specs.Links.{connection_tests, link_tests, place_tests, target_tests, ties};
ghost use Rattle.flattening.specs.Steps.{first_fault};
ghost use Rattle.elaborator.specs.Outcomes.{Finds};
ghost use Rattle.elaborator.specs.Ties.{Shares, TellsTies};

use crate::setting::{Instance, Setting};
use crate::sockets::Sockets;
use crate::targets::target_fault;
use crate::value::read;
use emu_io::{List, NoMemory};
use flattening::ElabFault;
use id_arena::NetId;
use std::alloc::Global;
use verilog_tree::{Expr, Inst, Links, NamedLink};

/// The nets of the expression at a place, from bit 0 on, if there is one there.
fn read_place(
    alloc: Global,
    setting: &Setting,
    here: &Instance,
    asked: Option<u64>,
    place: &Option<Expr>,
) -> Result<Option<List<NetId>>, ElabFault>
    requires { AreNumbered here.now.base here.now.nets }
    ensures { Finds (first_fault (place_tests setting.now here.now asked place.now)) (option_map (bits_here setting.now here.now) place.now) result }
{
    match place {
        None => Ok(None),
        Some(expr) => {
            let nets = read(alloc, setting, here, expr, asked)?;
            Ok(Some(nets))
        }
    }
}

/// The nets of connections by order, of which there are as many as ports or pins.
fn read_ordered(
    alloc: Global,
    setting: &Setting,
    here: &Instance,
    sockets: &Sockets,
    places: &[Option<Expr>],
) -> Result<List<Option<List<NetId>>>, ElabFault>
    requires numbered { AreNumbered here.now.base here.now.nets }
    requires count { length places.now ≡ length sockets.now }
    ensures { TellsTies setting.now here.now sockets.now (Ordered places.now) result }
{
    let mut ties = List::new(alloc);
    'places: for (k, place) in places.iter().enumerate() {
        let tie = read_place(alloc, setting, here, sockets.width(k as u64), place)?;
        ties.push(tie)?;
    }
    Ok(ties)
}

/// So many ports or pins to which nothing is connected.
fn untied(alloc: Global, count: u64) -> Result<List<Option<List<NetId>>>, NoMemory>
    ensures { IfOk result (λ ties. ties ≡ replicate count None) }
{
    let mut ties = List::new(alloc);
    'ties: for _ in 0..count {
        ties.push(None)?;
    }
    Ok(ties)
}

/// Another list of the same nets.
fn copy_of(alloc: Global, tie: &Option<List<NetId>>) -> Result<Option<List<NetId>>, NoMemory>
    ensures { IfOk result (λ copy. copy ≡ tie.now) }
{
    match tie {
        None => Ok(None),
        Some(nets) => {
            let copy = nets.as_slice().to_vec(alloc)?;
            Ok(Some(List::from_vec(copy)))
        }
    }
}

/// Ties a port or pin to the nets of the first that has its name. This copies nets only where a
/// header names a port twice.
fn share(
    alloc: Global,
    sockets: &Sockets,
    ties: &mut List<Option<List<NetId>>>,
) -> Result<(), NoMemory>
    requires { length ties.old ≡ length sockets.now }
    ensures { OnOk result (Shares sockets.now (length sockets.now) ties.old ties.new) }
{
    'places: for place in 0..sockets.len() {
        let first = sockets.first(place);
        if first < place {
            let copy = copy_of(alloc, ties.get(first))?;
            ties.set(place, copy);
        }
    }
    Ok(())
}

/// The nets of connections by name, each of which is to another port or pin.
fn read_named(
    alloc: Global,
    setting: &Setting,
    here: &Instance,
    sockets: &Sockets,
    links: &[NamedLink],
) -> Result<List<Option<List<NetId>>>, ElabFault>
    requires numbered { AreNumbered here.now.base here.now.nets }
    requires fine { first_fault (link_tests setting.now sockets.now links.now) ≡ None }
    ensures { TellsTies setting.now here.now sockets.now (Named links.now) result }
{
    let mut ties = untied(alloc, sockets.len())?;
    'links: for link in links {
        let place = sockets.place(setting.name(link.port));
        let tie = read_place(alloc, setting, here, sockets.width(place), &link.expr)?;
        ties.set(place, tie);
    }
    share(alloc, sockets, &mut ties)?;
    Ok(ties)
}

/// The nets of connections that are to ports or pins as they may be.
fn read_values(
    alloc: Global,
    setting: &Setting,
    here: &Instance,
    sockets: &Sockets,
    inst: &Inst,
) -> Result<List<Option<List<NetId>>>, ElabFault>
    requires numbered { AreNumbered here.now.base here.now.nets }
    requires fine { first_fault (target_tests setting.now sockets.now inst.now) ≡ None }
    ensures { TellsTies setting.now here.now sockets.now inst.now.links result }
{
    match &inst.links {
        Links::Empty => read_named(alloc, setting, here, sockets, &[]),
        Links::Ordered(places) => read_ordered(alloc, setting, here, sockets, places.as_slice()),
        Links::Named(links) => read_named(alloc, setting, here, sockets, links.as_slice()),
    }
}

/// The nets that are connected to each port or pin of an instance, in their order, from bit 0 on; none
/// where nothing is. Or the first fault of the connections: first what they are to, as
/// [`target_fault`] tells, then the expressions from the left, each of which must be as wide as its
/// port or pin, if this has a width.
///
/// Each expression is read once, and each name is looked up twice.
pub fn read_links(
    alloc: Global,
    setting: &Setting,
    here: &Instance,
    sockets: &Sockets,
    inst: &Inst,
) -> Result<List<Option<List<NetId>>>, ElabFault>
    requires { AreNumbered here.now.base here.now.nets }
    ensures { Finds (first_fault (connection_tests setting.now here.now sockets.now inst.now))
        (ties setting.now here.now inst.now.links sockets.now) result }
{
    if let Some(fault) = target_fault(alloc, setting, sockets, inst)? {
        return Err(fault);
    }
    read_values(alloc, setting, here, sockets, inst)
}
