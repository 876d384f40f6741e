//! Numbers for nodes: nets by number, then write nodes by memory and port.
ghost use Rattle.std.specs.Prelude.{◌≡◌, ◌++◌, ◌<◌, ◌≤◌, ◌+◌, map, length, IfOk, OnOk};
ghost use Rattle.std.specs.List.{range_with_len};
ghost use Rattle.design_core.specs.Design.{net_count};
ghost use Rattle.clock_rank.specs.Numbers.{net_node, port_nodes, memory_nodes, all_nodes, AreStarts};

use design_core::{Design, NodeId};
use emu_io::NoMemory;
use id_arena::{Key, MemId, NetId};
use std::alloc::Global;

/// For each memory, the number of its first write node.
pub(crate) fn starts_of(alloc: Global, design: &Design) -> Result<Vec<u32>, NoMemory>
    ensures { IfOk result (λ starts. AreStarts design.now (length design.now.memories) starts.items) }
{
    design.stands();
    let mut starts = Vec::new(alloc);
    let mut next = design.nets();
    'memories: for m in 0..design.mems() {
        starts.push(next)?;
        next += design.mem(MemId::of(m)).writes.len() as u32;
    }
    Ok(starts)
}

/// All nodes, each at its number.
pub(crate) fn nodes_of(alloc: Global, design: &Design) -> Result<Vec<NodeId>, NoMemory>
    ensures { IfOk result (λ nodes. nodes.items ≡ all_nodes design.now) }
{
    let mut nodes = Vec::new(alloc);
    push_nets(&mut nodes, design.nets())?;
    'memories: for m in 0..design.mems() {
        push_writes(&mut nodes, m, design.mem(MemId::of(m)).writes.len() as u32)?;
    }
    Ok(nodes)
}

// Adds the nets of the numbers below this one.
fn push_nets(nodes: &mut Vec<NodeId>, count: u32) -> Result<(), NoMemory>
    ensures { OnOk result (nodes.new.items ≡ nodes.old.items ++ map net_node (range_with_len 0 count)) }
{
    'nets: for n in 0..count {
        nodes.push(NodeId::Net(NetId::of(n)))?;
    }
    Ok(())
}

// Adds the write nodes of a memory.
fn push_writes(nodes: &mut Vec<NodeId>, m: u32, count: u32) -> Result<(), NoMemory>
    ensures { OnOk result (nodes.new.items ≡ nodes.old.items ++ port_nodes m count) }
{
    'ports: for port in 0..count {
        nodes.push(NodeId::Write(MemId::of(m), port))?;
    }
    Ok(())
}
