//! The least net that is read and that nothing drives.

ghost use Rattle.std.specs.Prelude.{◌≡◌, None, flat_map};
ghost use Rattle.design_core.specs.Design.{clock_nets, element_reads, memory_reads, nets_read, port_bits, read_reads, reset_nets, write_reads};
ghost use Rattle.design_core.specs.Reads.{lesser, lower, lowest, never_at};

use crate::drives::Driven;
use crate::{Edge, Element, Level, Memory, Parts, Port, ReadPort, WritePort};
use id_arena::{Key, NetId};

/// Whether nothing drives a net.
fn is_undriven(table: &[Driven], net: NetId) -> bool
    ensures { result ≡ never_at table.now net.place }
{
    match table.get(net.place() as usize) {
        Some(driven) => driven.is_never(),
        None => false,
    }
}

/// The lesser of two nets.
fn lesser(least: Option<NetId>, net: NetId) -> Option<NetId>
    ensures { result ≡ lesser least net }
{
    let Some(other) = least else {
        return Some(net);
    };
    if net.place() < other.place() {
        Some(net)
    } else {
        Some(other)
    }
}

/// The least net without a driver, of one so far and one more.
fn lower(table: &[Driven], least: Option<NetId>, net: NetId) -> Option<NetId>
    ensures { result ≡ lower table.now least net }
{
    if is_undriven(table, net) {
        lesser(least, net)
    } else {
        least
    }
}

/// The least net without a driver, of one so far and some more.
fn lowest(table: &[Driven], least: Option<NetId>, nets: &[NetId]) -> Option<NetId>
    ensures { result ≡ lowest table.now least nets.now }
{
    let mut found = least;
    'nets: for net in nets {
        found = lower(table, found, *net);
    }
    found
}

/// The same of the net of a reset pin.
fn lowest_reset(table: &[Driven], least: Option<NetId>, reset: Option<Level>) -> Option<NetId>
    ensures { result ≡ lowest table.now least (reset_nets reset None) }
{
    match reset {
        None => least,
        Some(level) => lower(table, least, level.net),
    }
}

/// The same of the nets that an element reads.
fn lowest_element(table: &[Driven], least: Option<NetId>, element: &Element) -> Option<NetId>
    ensures { result ≡ lowest table.now least (element_reads element.now) }
{
    match element {
        Element::Gate { inputs, .. } => lowest(table, least, inputs.as_slice()),
        Element::Flop(flop) => {
            let least = lower(table, least, flop.clock);
            let least = lower(table, least, flop.feed);
            let least = lowest_reset(table, least, flop.clear);
            lowest_reset(table, least, flop.preset)
        }
        Element::Latch(latch) => {
            let least = lower(table, least, latch.gate.net);
            let least = lower(table, least, latch.feed);
            let least = lowest_reset(table, least, latch.clear);
            lowest_reset(table, least, latch.preset)
        }
        Element::Memory(_) => least,
    }
}

/// The same of the nets that all elements read.
fn lowest_elements(table: &[Driven], least: Option<NetId>, elements: &[Element]) -> Option<NetId>
    ensures { result ≡ lowest table.now least (flat_map element_reads elements.now) }
{
    let mut found = least;
    'elements: for element in elements {
        found = lowest_element(table, found, element);
    }
    found
}

/// The same of the nets that a write port reads.
#[tactic(auto, using(crate::proofs::Lowest::append_rules))]
fn lowest_write(table: &[Driven], least: Option<NetId>, port: &WritePort) -> Option<NetId>
    ensures { result ≡ lowest table.now least (write_reads port.now) }
{
    let least = lower(table, least, port.clock);
    let least = lower(table, least, port.enable.net);
    let least = lowest(table, least, port.address.as_slice());
    lowest(table, least, port.feed.as_slice())
}

/// The same of the nets that all write ports read.
fn lowest_writes(table: &[Driven], least: Option<NetId>, ports: &[WritePort]) -> Option<NetId>
    ensures { result ≡ lowest table.now least (flat_map write_reads ports.now) }
{
    let mut found = least;
    'ports: for port in ports {
        found = lowest_write(table, found, port);
    }
    found
}

/// The same of the net of a read port's clock.
fn lowest_clock(table: &[Driven], least: Option<NetId>, clock: Option<Edge>) -> Option<NetId>
    ensures { result ≡ lowest table.now least (clock_nets clock) }
{
    match clock {
        None => least,
        Some(edge) => lower(table, least, edge.net),
    }
}

/// The same of the nets that a read port reads.
#[tactic(auto, using(crate::proofs::Lowest::append_rules))]
fn lowest_read(table: &[Driven], least: Option<NetId>, port: &ReadPort) -> Option<NetId>
    ensures { result ≡ lowest table.now least (read_reads port.now) }
{
    let least = lowest_clock(table, least, port.clock);
    lowest(table, least, port.address.as_slice())
}

/// The same of the nets that all read ports read.
fn lowest_reads(table: &[Driven], least: Option<NetId>, ports: &[ReadPort]) -> Option<NetId>
    ensures { result ≡ lowest table.now least (flat_map read_reads ports.now) }
{
    let mut found = least;
    'ports: for port in ports {
        found = lowest_read(table, found, port);
    }
    found
}

/// The same of the nets that a memory reads.
#[tactic(auto, using(crate::proofs::Lowest::append_rules))]
fn lowest_memory(table: &[Driven], least: Option<NetId>, memory: &Memory) -> Option<NetId>
    ensures { result ≡ lowest table.now least (memory_reads memory.now) }
{
    let least = lowest_writes(table, least, memory.writes.as_slice());
    lowest_reads(table, least, memory.reads.as_slice())
}

/// The same of the nets that all memories read.
fn lowest_memories(table: &[Driven], least: Option<NetId>, memories: &[Memory]) -> Option<NetId>
    ensures { result ≡ lowest table.now least (flat_map memory_reads memories.now) }
{
    let mut found = least;
    'memories: for memory in memories {
        found = lowest_memory(table, found, memory);
    }
    found
}

/// The same of the nets of ports.
fn lowest_ports(table: &[Driven], least: Option<NetId>, ports: &[Port]) -> Option<NetId>
    ensures { result ≡ lowest table.now least (port_bits ports.now) }
{
    let mut found = least;
    'ports: for port in ports {
        found = lowest(table, found, port.nets.as_slice());
    }
    found
}

/// The least net that an element or an output port reads, and that nothing drives.
#[tactic(auto, using(crate::proofs::Lowest::append_rules))]
pub(crate) fn least_undriven(table: &[Driven], parts: &Parts) -> Option<NetId>
    ensures { result ≡ lowest table.now None (nets_read parts.now) }
{
    let least = lowest_elements(table, None, parts.elements.as_slice());
    let least = lowest_memories(table, least, parts.memories.as_slice());
    lowest_ports(table, least, parts.outputs.as_slice())
}
