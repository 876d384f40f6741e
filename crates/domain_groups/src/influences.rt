//! What each group can reach.
ghost use Rattle.std.specs.Prelude.{◌≡◌, ◌<◌, ◌≤◌, map, length, slice_get, Some, option_to_list, IfOk, Contains};
ghost use Rattle.std.specs.List.{list_any, range_with_len};
ghost use Rattle.design_core.specs.Design.{port_bits, reset_nets};
ghost use Rattle.design_core.specs.Dependency.{IsNode, dependencies, driver_needs, needs, write_nodes};
ghost use Rattle.design_core.specs.declared.element.Memory.{Memory};
ghost use Rattle.design_core.specs.declared.node.NodeId.{NodeId};
ghost use Rattle.design_core.specs.declared.node.NodeId.TheVariants.{Net, Write};
ghost use Rattle.id_arena.specs.declared.keys.NetId.{NetId};
ghost use Rattle.clock_rank.specs.Numbers.{IsThere};
ghost use Rattle.domain_groups.specs.Groups.{AreOf};
ghost use Rattle.domain_groups.specs.Influences.{AreInfluences, is_marked};
ghost use Rattle.domain_groups.specs.Reaching.{HasRow, IsClear, Reaches};

use crate::groups::{Groups, set_nets};
use clock_rank::{NodeId, Ranked, orders_are_sorted};
use design_core::{Driver, Element, Level};
use emu_io::NoMemory;
use history_law::drivers::{
    driver_is_element, driver_is_read_bit, element_is_driver, input_bit_is_input,
    read_bit_is_driver,
};
use id_arena::{GroupId, Key, MemId, NetId};
use link_rows::BitRows;
use std::alloc::Global;

/// The influence of each group, and last that of `*`, each as a row of bits: bit `n` for net `n`, and behind
/// the nets a bit for each write node, by memory and port ([`Ranked::number`]). For each row each node is
/// visited once, with all on which it depends.
pub fn influence(alloc: Global, ranked: &Ranked, groups: &Groups) -> Result<BitRows, NoMemory>
    requires { AreOf ranked.now.design groups.now }
    ensures { IfOk result (AreInfluences ranked.now.design groups.now.groups) }
{
    groups.stands();
    let count = groups.len() + 1;
    let mut table = BitRows::new(alloc, count, ranked.len())?;
    'frames: for k in 0..count {
        reach(
            &mut table,
            k,
            ranked,
            groups.nets(GroupId::of(k)).as_slice(),
        );
    }
    Ok(table)
}

// Marks in a row that is clear just the nodes that these inputs reach: the nodes are taken in order of rank,
// so that all on which a node depends stand before it.
fn reach(table: &mut BitRows, row: u32, ranked: &Ranked, seeds: &[NetId])
    requires row { HasRow ranked.now.design table.old row }
    requires clear { IsClear table.old row }
    requires inputs { (n : NetId) → Contains seeds.now n → Contains (port_bits ranked.now.design.inputs) n }
    ensures { Reaches ranked.now.design table.old table.new row seeds.now }
{
    ranked.stands();
    ranked.design().stands();
    orders_are_sorted();
    input_bit_is_input();
    element_is_driver();
    driver_is_element();
    read_bit_is_driver();
    driver_is_read_bit();
    set_nets(table, row, seeds);
    'nodes: for place in 0..ranked.len() {
        let node = ranked.at(place);
        if needs_marked(table, row, ranked, node) {
            table.set(row, ranked.number(node), true);
        }
    }
}

// Whether something on which a node depends is marked.
fn needs_marked(table: &BitRows, row: u32, ranked: &Ranked, node: NodeId) -> bool
    requires row { HasRow ranked.now.design table.now row }
    requires node { IsNode ranked.now.design node }
    ensures { result ≡ list_any (is_marked ranked.now.design table.now row) (dependencies ranked.now.design node) }
{
    match node {
        NodeId::Net(net) => {
            driver_is_element();
            driver_is_read_bit();
            driver_marked(table, row, ranked, ranked.design().driver(net))
        }
        NodeId::Write(m, port) => write_marked(table, row, ranked, m, port),
    }
}

// The same of what drives a net.
fn driver_marked(table: &BitRows, row: u32, ranked: &Ranked, driver: Driver) -> bool
    requires row { HasRow ranked.now.design table.now row }
    requires there { IsThere ranked.now.design driver }
    ensures { result ≡ list_any (is_marked ranked.now.design table.now row) (driver_needs ranked.now.design driver) }
{
    match driver {
        Driver::Constant(_) | Driver::Input => false,
        Driver::Elem(id) => element_marked(table, row, ranked, ranked.design().elem(id)),
        Driver::Read(m, port, _) => read_marked(table, row, ranked, m, port),
    }
}

// The same of the output of an element.
fn element_marked(table: &BitRows, row: u32, ranked: &Ranked, element: &Element) -> bool
    requires row { HasRow ranked.now.design table.now row }
    ensures { result ≡ list_any (is_marked ranked.now.design table.now row) (map Net (needs element.now)) }
{
    match element {
        Element::Gate { inputs, .. } => some_net_marked(table, row, ranked, inputs.as_slice()),
        Element::Flop(flop) => {
            net_marked(table, row, ranked, flop.clock)
                || resets_marked(table, row, ranked, flop.clear, flop.preset)
        }
        Element::Latch(latch) => {
            net_marked(table, row, ranked, latch.gate.net)
                || net_marked(table, row, ranked, latch.feed)
                || resets_marked(table, row, ranked, latch.clear, latch.preset)
        }
        Element::Memory(_) => false,
    }
}

// Whether one of the nets of two resets is marked.
fn resets_marked(
    table: &BitRows,
    row: u32,
    ranked: &Ranked,
    clear: Option<Level>,
    preset: Option<Level>,
) -> bool
    requires row { HasRow ranked.now.design table.now row }
    ensures { result ≡ list_any (is_marked ranked.now.design table.now row) (map Net (reset_nets clear preset)) }
{
    reset_marked(table, row, ranked, clear) || reset_marked(table, row, ranked, preset)
}

// Whether the net of a reset that is there is marked.
fn reset_marked(table: &BitRows, row: u32, ranked: &Ranked, reset: Option<Level>) -> bool
    requires row { HasRow ranked.now.design table.now row }
    ensures { result ≡ list_any (is_marked ranked.now.design table.now row) (map Net (map (λ l. l.net) (option_to_list reset))) }
{
    match reset {
        None => false,
        Some(level) => net_marked(table, row, ranked, level.net),
    }
}

// Whether one of some nets is marked.
fn some_net_marked(table: &BitRows, row: u32, ranked: &Ranked, nets: &[NetId]) -> bool
    requires row { HasRow ranked.now.design table.now row }
    ensures { result ≡ list_any (is_marked ranked.now.design table.now row) (map Net nets.now) }
{
    'nets: for net in nets {
        if net_marked(table, row, ranked, *net) {
            return true;
        }
    }
    false
}

// Whether a net is marked.
fn net_marked(table: &BitRows, row: u32, ranked: &Ranked, net: NetId) -> bool
    requires row { HasRow ranked.now.design table.now row }
    ensures { result ≡ is_marked ranked.now.design table.now row (Net net) }
{
    net.place() < ranked.design().nets() && table.test(row, net.place())
}

// Whether something on which the bits of a read port depend is marked: its clock where it has one, else a
// net of its address or a write node of its memory.
fn read_marked(table: &BitRows, row: u32, ranked: &Ranked, m: MemId, port: u32) -> bool
    requires row { HasRow ranked.now.design table.now row }
    requires there { IsThere ranked.now.design (Driver.Read m port 0) }
    ensures { result ≡ list_any (is_marked ranked.now.design table.now row) (driver_needs ranked.now.design (Driver.Read m port 0)) }
{
    let memory = ranked.design().mem(m);
    let read = memory.reads.get(u64::from(port));
    match read.clock {
        Some(edge) => net_marked(table, row, ranked, edge.net),
        None => {
            some_net_marked(table, row, ranked, read.address.as_slice())
                || some_write_marked(table, row, ranked, m)
        }
    }
}

// Whether one of the write nodes of a memory is marked.
fn some_write_marked(table: &BitRows, row: u32, ranked: &Ranked, m: MemId) -> bool
    requires row { HasRow ranked.now.design table.now row }
    requires there { m.place < length ranked.now.design.memories }
    ensures { (memory : Memory) → slice_get ranked.now.design.memories m.place ≡ Some memory
        → result ≡ list_any (is_marked ranked.now.design table.now row) (write_nodes m memory) }
{
    let count = ranked.design().mem(m).writes.len() as u32;
    'ports: for port in 0..count {
        if node_marked(table, row, ranked, NodeId::Write(m, port)) {
            return true;
        }
    }
    false
}

// Whether the clock of a write port is marked, or the write node before it.
fn write_marked(table: &BitRows, row: u32, ranked: &Ranked, m: MemId, port: u32) -> bool
    requires row { HasRow ranked.now.design table.now row }
    requires node { IsNode ranked.now.design (Write m port) }
    ensures { result ≡ list_any (is_marked ranked.now.design table.now row) (dependencies ranked.now.design (Write m port)) }
{
    let clock = ranked.design().mem(m).writes.get(u64::from(port)).clock;
    net_marked(table, row, ranked, clock)
        || 0 < port && node_marked(table, row, ranked, NodeId::Write(m, port - 1))
}

// Whether a node is marked.
fn node_marked(table: &BitRows, row: u32, ranked: &Ranked, node: NodeId) -> bool
    requires row { HasRow ranked.now.design table.now row }
    requires node { IsNode ranked.now.design node }
    ensures { result ≡ is_marked ranked.now.design table.now row node }
{
    table.test(row, ranked.number(node))
}
