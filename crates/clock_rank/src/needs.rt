//! The dependencies of nodes, by their numbers.
ghost use Rattle.std.specs.Prelude.{◌≡◌, ◌++◌, ◌∷◌, ◌<◌, ◌≤◌, ◌+◌, ◌^◌, ℕ, [], Some, map, length, take, IfOk, OnOk, option_to_list, slice_get};
ghost use Rattle.std.specs.List.{range_with_len};
ghost use Rattle.design_core.specs.Design.{net_count, reset_nets};
ghost use Rattle.design_core.specs.Dependency.{needs, driver_needs, dependencies, IsNode};
ghost use Rattle.clock_rank.specs.Numbers.{number_of, row_of, rows, all_nodes, AreStarts, IsThere};

use design_core::{Design, Driver, Element, Level, NodeId, ReadPort};
use emu_io::NoMemory;
use graph_rank::Graph;
use history_law::drivers::{driver_is_element, driver_is_read_bit};
use id_arena::{Key, MemId, NetId};
use std::alloc::Global;

/// The graph of all nodes, by their numbers.
pub(crate) fn graph_of(
    alloc: Global,
    design: &Design,
    starts: &[u32],
    nodes: &[NodeId],
) -> Result<Graph, NoMemory>
    requires starts { AreStarts design.now (length design.now.memories) starts.now }
    requires nodes { nodes.now ≡ all_nodes design.now }
    ensures { IfOk result (λ graph. graph ≡ rows design.now) }
{
    let mut graph = Graph::new(alloc);
    let mut row = Vec::new(alloc);
    'nodes: for node in nodes {
        row.clear();
        add_needs(&mut row, design, starts, *node)?;
        graph.add_row(row.as_slice())?;
    }
    Ok(graph)
}

// Adds the numbers of the nodes on which a node depends.
fn add_needs(
    row: &mut Vec<u32>,
    design: &Design,
    starts: &[u32],
    node: NodeId,
) -> Result<(), NoMemory>
    requires starts { AreStarts design.now (length design.now.memories) starts.now }
    requires node { IsNode design.now node }
    ensures { OnOk result (row.new.items ≡ row.old.items ++ row_of design.now node) }
{
    match node {
        NodeId::Net(net) => {
            driver_is_element();
            driver_is_read_bit();
            add_driver_needs(row, design, starts, design.driver(net))?;
            Ok(())
        }
        NodeId::Write(m, port) => {
            add_write_needs(row, design, starts, m, port)?;
            Ok(())
        }
    }
}

// Adds the numbers of the nodes on which what drives a net depends.
fn add_driver_needs(
    row: &mut Vec<u32>,
    design: &Design,
    starts: &[u32],
    driver: Driver,
) -> Result<(), NoMemory>
    requires starts { AreStarts design.now (length design.now.memories) starts.now }
    requires there { IsThere design.now driver }
    ensures { OnOk result (row.new.items ≡ row.old.items ++ map (number_of design.now) (driver_needs design.now driver)) }
{
    match driver {
        Driver::Constant(_) | Driver::Input => Ok(()),
        Driver::Elem(id) => {
            add_element_needs(row, design.elem(id))?;
            Ok(())
        }
        Driver::Read(m, port, _) => {
            add_read_needs(row, design, starts, m, port)?;
            Ok(())
        }
    }
}

// Adds the numbers of the nets on which the output of an element depends.
fn add_element_needs(row: &mut Vec<u32>, element: &Element) -> Result<(), NoMemory>
    ensures { OnOk result (row.new.items ≡ row.old.items ++ map (λ n. n.place) (needs element.now)) }
{
    match element {
        Element::Gate { inputs, .. } => {
            add_nets(row, inputs.as_slice())?;
            Ok(())
        }
        Element::Flop(flop) => {
            row.push(flop.clock.place())?;
            add_resets(row, flop.clear, flop.preset)?;
            Ok(())
        }
        Element::Latch(latch) => {
            row.push(latch.gate.net.place())?;
            row.push(latch.feed.place())?;
            add_resets(row, latch.clear, latch.preset)?;
            Ok(())
        }
        Element::Memory(_) => Ok(()),
    }
}

// Adds the numbers of nets.
fn add_nets(row: &mut Vec<u32>, nets: &[NetId]) -> Result<(), NoMemory>
    ensures { OnOk result (row.new.items ≡ row.old.items ++ map (λ n. n.place) nets.now) }
{
    'nets: for net in nets {
        row.push(net.place())?;
    }
    Ok(())
}

// Adds the numbers of the nets of resets that are there.
fn add_resets(
    row: &mut Vec<u32>,
    clear: Option<Level>,
    preset: Option<Level>,
) -> Result<(), NoMemory>
    ensures { OnOk result (row.new.items ≡ row.old.items ++ map (λ n. n.place) (reset_nets clear preset)) }
{
    add_reset(row, clear)?;
    add_reset(row, preset)?;
    Ok(())
}

fn add_reset(row: &mut Vec<u32>, reset: Option<Level>) -> Result<(), NoMemory>
    ensures { OnOk result (row.new.items ≡ row.old.items ++ map (λ l. l.net.place) (option_to_list reset)) }
{
    match reset {
        None => Ok(()),
        Some(level) => {
            row.push(level.net.place())?;
            Ok(())
        }
    }
}

// Adds the numbers of the nodes on which the bits of a read port depend: its clock where it has one, else
// its address nets and the write nodes of its memory.
#[tactic(auto, using(crate::proofs::Steps::clocked_added))]
fn add_read_needs(
    row: &mut Vec<u32>,
    design: &Design,
    starts: &[u32],
    m: MemId,
    port: u32,
) -> Result<(), NoMemory>
    requires starts { AreStarts design.now (length design.now.memories) starts.now }
    requires there { IsThere design.now (Driver.Read m port 0) }
    ensures { OnOk result (row.new.items ≡ row.old.items ++ map (number_of design.now) (driver_needs design.now (Driver.Read m port 0))) }
{
    let memory = design.mem(m);
    let read = memory.reads.get(u64::from(port));
    match read.clock {
        Some(edge) => {
            row.push(edge.net.place())?;
            Ok(())
        }
        None => {
            let count = memory.writes.len() as u32;
            add_word_needs(row, read, starts[m.place() as usize], count)?;
            Ok(())
        }
    }
}

// Adds the numbers of the address nets of a read port, and so many numbers from that of the first write
// node of its memory on.
fn add_word_needs(
    row: &mut Vec<u32>,
    read: &ReadPort,
    start: u32,
    count: u32,
) -> Result<(), NoMemory>
    requires { start + count ≤ 4294967295 }
    ensures { OnOk result (row.new.items ≡ row.old.items ++ map (λ n. n.place) read.now.address ++ map (λ k. start + k) (range_with_len 0 count)) }
{
    add_nets(row, read.address.as_slice())?;
    add_numbers(row, start, count)?;
    Ok(())
}

// Adds so many numbers from one on.
fn add_numbers(row: &mut Vec<u32>, start: u32, count: u32) -> Result<(), NoMemory>
    requires { start + count ≤ 4294967295 }
    ensures { OnOk result (row.new.items ≡ row.old.items ++ map (λ k. start + k) (range_with_len 0 count)) }
{
    'numbers: for k in 0..count {
        row.push(start + k)?;
    }
    Ok(())
}

// Adds the numbers of the clock of a write port and of the write node before it.
fn add_write_needs(
    row: &mut Vec<u32>,
    design: &Design,
    starts: &[u32],
    m: MemId,
    port: u32,
) -> Result<(), NoMemory>
    requires starts { AreStarts design.now (length design.now.memories) starts.now }
    requires node { IsNode design.now (NodeId.Write m port) }
    ensures { OnOk result (row.new.items ≡ row.old.items ++ row_of design.now (NodeId.Write m port)) }
{
    row.push(design.mem(m).writes.get(u64::from(port)).clock.place())?;
    if port == 0 {
        return Ok(());
    }
    row.push(starts[m.place() as usize] + (port - 1))?;
    Ok(())
}
