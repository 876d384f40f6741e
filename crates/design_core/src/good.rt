//! Whether elements, ports and names are good: of their shape, and naming what is there.

ghost use Rattle.std.specs.Prelude.{◌≡◌, ◌==◌, ◌&&◌, ◌+◌, ◌^◌, None, Some, length, nat_le, nat_lt};
ghost use Rattle.std.specs.List.{enumerate_from, list_all};
ghost use Rattle.design_core.specs.Design.{clock_nets, element_reads, inputs_fit, memory_fits, read_reads, reset_nets, write_reads};
ghost use Rattle.design_core.specs.Most.{most_ports};
ghost use Rattle.design_core.specs.Faults.{are_there, around_good, element_outputs, is_there, memory_good, parent_earlier, ports_there};

use crate::limits::{MOST_ADDRESS_BITS, MOST_PORTS, MOST_WIDTH};
use crate::{Edge, Element, Level, Memory, NetName, Op, Parts, Port, ReadPort, Scope, WritePort};
use id_arena::{Key, NetId};

/// Whether a net is there, among so many.
fn is_there(nets: u64, net: NetId) -> bool
    ensures { result ≡ is_there nets net }
{
    u64::from(net.place()) < nets
}

/// Whether all of these nets are there.
fn are_there(nets: u64, named: &[NetId]) -> bool
    ensures { result ≡ are_there nets named.now }
{
    named.iter().all(|net| is_there(nets, *net))
}

/// Whether the nets of all these ports are there.
fn ports_there(nets: u64, ports: &[Port]) -> bool
    ensures { result ≡ ports_there nets ports.now }
{
    ports
        .iter()
        .all(|port| are_there(nets, port.nets.as_slice()))
}

/// Whether the nets of a reset pin are there.
fn reset_there(nets: u64, reset: Option<Level>) -> bool
    ensures { result ≡ are_there nets (reset_nets reset None) }
{
    match reset {
        None => true,
        Some(level) => is_there(nets, level.net),
    }
}

/// Whether a table has no bit at or above 2 to its number of inputs.
fn table_fits(table: u64, inputs: u64) -> bool
    ensures { result ≡ nat_lt table (2 ^ (2 ^ inputs)) }
{
    if inputs > 5 {
        return true;
    }
    table < 1 << (1u64 << inputs)
}

/// Whether a gate has inputs as its operation asks for them.
pub(crate) fn inputs_fit(op: Op, inputs: u64) -> bool
    ensures { result ≡ inputs_fit op inputs }
{
    match op {
        Op::Buf | Op::Not => inputs == 1,
        Op::Table(table) => table_fits(table, inputs),
        _ => inputs > 0,
    }
}

/// Whether the nets that an element other than a memory names are there.
pub(crate) fn element_there(nets: u64, element: &Element) -> bool
    ensures { result ≡ (are_there nets (element_reads element.now) && are_there nets (element_outputs element.now)) }
{
    match element {
        Element::Gate { inputs, output, .. } => {
            are_there(nets, inputs.as_slice()) && is_there(nets, *output)
        }
        Element::Flop(flop) => {
            is_there(nets, flop.clock)
                && is_there(nets, flop.feed)
                && reset_there(nets, flop.clear)
                && reset_there(nets, flop.preset)
                && is_there(nets, flop.q)
        }
        Element::Latch(latch) => {
            is_there(nets, latch.gate.net)
                && is_there(nets, latch.feed)
                && reset_there(nets, latch.clear)
                && reset_there(nets, latch.preset)
                && is_there(nets, latch.q)
        }
        Element::Memory(_) => true,
    }
}

/// Whether all write ports have lists of these lengths.
fn writes_fit(ports: &[WritePort], address_bits: u64, width: u64) -> bool
    ensures { result ≡ list_all
        (λ port. (length port.address == address_bits) && (length port.feed == width))
        ports.now }
{
    ports.iter().all(|port| port.address.len() == address_bits && port.feed.len() == width)
}

/// Whether all read ports have lists of these lengths.
fn reads_fit(ports: &[ReadPort], address_bits: u64, width: u64) -> bool
    ensures { result ≡ list_all
        (λ port. (length port.address == address_bits) && (length port.bits == width))
        ports.now }
{
    ports.iter().all(|port| port.address.len() == address_bits && port.bits.len() == width)
}

/// Whether a memory has no more ports than it may.
fn ports_fit(writes: u64, reads: u64) -> bool
    ensures { result ≡ nat_le (writes + reads) most_ports }
{
    if writes > MOST_PORTS {
        return false;
    }
    reads <= MOST_PORTS - writes
}

/// Whether a memory's dimensions are within the limits, and its ports have the lengths that they say.
fn memory_fits(memory: &Memory) -> bool
    ensures { result ≡ memory_fits memory.now }
{
    let (address_bits, width) = (u64::from(memory.address_bits), u64::from(memory.width));
    address_bits <= MOST_ADDRESS_BITS
        && 0 < width
        && width <= MOST_WIDTH
        && ports_fit(memory.writes.len(), memory.reads.len())
        && writes_fit(memory.writes.as_slice(), address_bits, width)
        && reads_fit(memory.reads.as_slice(), address_bits, width)
}

/// Whether the nets that a write port reads are there.
fn write_there(nets: u64, port: &WritePort) -> bool
    ensures { result ≡ are_there nets (write_reads port.now) }
{
    is_there(nets, port.clock)
        && is_there(nets, port.enable.net)
        && are_there(nets, port.address.as_slice())
        && are_there(nets, port.feed.as_slice())
}

/// Whether the nets that all write ports read are there.
fn writes_there(nets: u64, ports: &[WritePort]) -> bool
    ensures { result ≡ list_all (λ port. are_there nets (write_reads port)) ports.now }
{
    ports.iter().all(|port| write_there(nets, port))
}

/// Whether the net of a read port's clock is there.
fn clock_there(nets: u64, clock: Option<Edge>) -> bool
    ensures { result ≡ are_there nets (clock_nets clock) }
{
    match clock {
        None => true,
        Some(edge) => is_there(nets, edge.net),
    }
}

/// Whether the nets of a read port are there.
fn read_there(nets: u64, port: &ReadPort) -> bool
    ensures { result ≡ (are_there nets (read_reads port.now) && are_there nets port.now.bits) }
{
    clock_there(nets, port.clock)
        && are_there(nets, port.address.as_slice())
        && are_there(nets, port.bits.as_slice())
}

/// Whether the nets of all read ports are there.
fn reads_there(nets: u64, ports: &[ReadPort]) -> bool
    ensures { result ≡ list_all (λ port. are_there nets (read_reads port) && are_there nets port.bits) ports.now }
{
    ports.iter().all(|port| read_there(nets, port))
}

/// Whether a memory has its shape, and its nets are there.
pub(crate) fn memory_good(nets: u64, memory: &Memory) -> bool
    ensures { result ≡ memory_good nets (Some memory.now) }
{
    memory_fits(memory)
        && writes_there(nets, memory.writes.as_slice())
        && reads_there(nets, memory.reads.as_slice())
}

/// Whether the scopes of all nets are there.
fn scopes_there(names: &[NetName], scopes: u64) -> bool
    ensures { result ≡ list_all (λ name. nat_lt name.scope scopes) names.now }
{
    names.iter().all(|name| u64::from(name.scope) < scopes)
}

/// Whether the scope around a scope is an earlier one.
fn parent_earlier(place: u64, parent: Option<u32>) -> bool
    ensures { result ≡ parent_earlier place parent }
{
    match parent {
        None => true,
        Some(parent) => u64::from(parent) < place,
    }
}

/// Whether the scopes around all scopes are earlier ones.
fn parents_earlier(scopes: &[Scope]) -> bool
    ensures { result ≡ list_all (λ (s, scope). parent_earlier s scope.parent) (enumerate_from 0 scopes.now) }
{
    'scopes: for (place, scope) in scopes.iter().enumerate() {
        if !parent_earlier(place as u64, scope.parent) {
            return false;
        }
    }
    true
}

/// Whether what stands around the elements is good.
pub(crate) fn around_good(parts: &Parts) -> bool
    ensures { result ≡ around_good parts.now }
{
    let nets = parts.net_names.len();
    nets >= 2
        && parts.paths.len() == parts.elements.len()
        && ports_there(nets, parts.inputs.as_slice())
        && ports_there(nets, parts.outputs.as_slice())
        && scopes_there(parts.net_names.as_slice(), parts.scopes.len())
        && parents_earlier(parts.scopes.as_slice())
}
