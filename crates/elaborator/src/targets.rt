//! Whether the connections of an instance are to ports or pins that it may connect.

ghost use Rattle.std.specs.Prelude.{◌≡◌, IfOk, false, get_or, length, replicate};
ghost use Rattle.flattening.specs.Links.{count_test, link_tests, target_tests};
ghost use Rattle.flattening.specs.Places.{start_in};
ghost use Rattle.flattening.specs.Steps.{first_fault};
ghost use Rattle.elaborator.specs.Targets.{marked, target_fault_at};

use crate::setting::Setting;
use crate::sockets::Sockets;
use emu_io::{List, NoMemory};
use flattening::ElabFault;
use std::alloc::Global;
use verilog_tree::{Expr, Inst, Links, NamedLink};

/// So many ports or pins that nothing named yet.
fn unmarked(alloc: Global, count: u64) -> Result<List<bool>, NoMemory>
    ensures { IfOk result (λ seen. seen ≡ replicate count false) }
{
    let mut seen = Vec::with_capacity(alloc, count as usize)?;
    seen.resize(count as usize, false)?;
    Ok(List::from_vec(seen))
}

/// Whether the port or pin at a place was named.
fn is_marked(seen: &List<bool>, place: u64) -> bool
    ensures { result ≡ get_or seen.now place false }
{
    place < seen.len() && *seen.get(place)
}

/// The fault of a connection by name at a byte of the text, where this is the place that its name
/// means and these were named before it.
fn fault_at(seen: &List<bool>, place: Option<u64>, at: u32) -> Option<ElabFault>
    ensures { result ≡ target_fault_at seen.now place at }
{
    match place {
        None => Some(ElabFault::NoPort { at }),
        Some(place) => {
            if is_marked(seen, place) {
                Some(ElabFault::PortTwice { at })
            } else {
                None
            }
        }
    }
}

/// Marks the port or pin at a place as named, if there is one.
fn mark(seen: &mut List<bool>, place: Option<u64>)
    ensures { seen.new ≡ marked seen.old place }
{
    if let Some(place) = place
        && place < seen.len()
    {
        seen.set(place, true);
    }
}

/// The first fault of connections by name: of each, that no port or pin has the name, and then that
/// an earlier one has it.
fn link_fault(
    alloc: Global,
    setting: &Setting,
    sockets: &Sockets,
    links: &[NamedLink],
) -> Result<Option<ElabFault>, NoMemory>
    ensures { IfOk result (λ fault. fault ≡ first_fault (link_tests setting.now sockets.now links.now)) }
{
    let mut seen = unmarked(alloc, sockets.len())?;
    'links: for link in links {
        let place = sockets.find(setting.name(link.port));
        if let Some(fault) = fault_at(&seen, place, setting.start(link.port)) {
            return Ok(Some(fault));
        }
        mark(&mut seen, place);
    }
    Ok(None)
}

/// The fault of so many connections by order, if they are not as many as the ports or pins.
fn count_fault(
    setting: &Setting,
    sockets: &Sockets,
    name: u32,
    places: &[Option<Expr>],
) -> Option<ElabFault>
    ensures { result ≡ count_test (start_in setting.now name) sockets.now places.now }
{
    if places.len() as u64 == sockets.len() {
        None
    } else {
        Some(ElabFault::PortCount {
            at: setting.start(name),
        })
    }
}

/// The first fault of what the connections of an instance are to: by order there must be as many as
/// ports or pins; by name each must be to a port or pin, and to none that an earlier one named. With
/// nothing at all between the parentheses there is none.
///
/// Each connection by name is looked up once.
pub fn target_fault(
    alloc: Global,
    setting: &Setting,
    sockets: &Sockets,
    inst: &Inst,
) -> Result<Option<ElabFault>, NoMemory>
    ensures { IfOk result (λ fault. fault ≡ first_fault (target_tests setting.now sockets.now inst.now)) }
{
    match &inst.links {
        Links::Empty => Ok(None),
        Links::Ordered(places) => Ok(count_fault(setting, sockets, inst.name, places.as_slice())),
        Links::Named(links) => link_fault(alloc, setting, sockets, links.as_slice()),
    }
}
