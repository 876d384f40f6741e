//! What depends on what: nets and write nodes.

use id_arena::{MemId, NetId};

/// A node of the dependency graph: a net, or a write port of a memory, by its place among the write
/// ports.
#[derive(Clone, Copy, Debug, Drop, PartialEq, Eq)]
pub enum NodeId {
    Net(NetId),
    Write(MemId, u32),
}
