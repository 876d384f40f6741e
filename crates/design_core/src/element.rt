//! The elements of a design: gates, flip-flops, latches and memories.

use crate::Op;
use emu_io::List;
use id_arena::{ElemId, MemId, NetId};

/// A net together with the value at which it acts.
#[derive(Clone, Copy, Debug, Drop, PartialEq, Eq)]
pub struct Level {
    pub net: NetId,
    /// Whether the net acts at 1; else it acts at 0.
    pub high: bool,
}

/// A change of a net that is waited for.
#[derive(Clone, Copy, Debug, Drop, PartialEq, Eq)]
pub struct Edge {
    pub net: NetId,
    /// Whether the edge is a rising one; else it is a falling one.
    pub rise: bool,
}

/// A flip-flop. It takes its data from before an event in which its clock has its edge, unless a
/// reset acts.
#[derive(Clone, Copy, Debug, Drop, PartialEq, Eq)]
pub struct Flop {
    pub clock: NetId,
    /// Whether the edge is a rising one; else it is a falling one.
    pub rise: bool,
    /// The data pin.
    pub feed: NetId,
    pub clear: Option<Level>,
    pub preset: Option<Level>,
    pub q: NetId,
}

/// A latch. It shows its data while its gate acts, unless a reset acts.
#[derive(Clone, Copy, Debug, Drop, PartialEq, Eq)]
pub struct Latch {
    pub gate: Level,
    /// The data pin.
    pub feed: NetId,
    pub clear: Option<Level>,
    pub preset: Option<Level>,
    pub q: NetId,
}

/// A write port of a memory. Lists of bits begin at bit 0.
#[derive(Debug, Drop)]
pub struct WritePort {
    pub clock: NetId,
    /// Whether the edge is a rising one; else it is a falling one.
    pub rise: bool,
    pub enable: Level,
    pub address: List<NetId>,
    /// The data pins.
    pub feed: List<NetId>,
}

/// A read port of a memory. Lists of bits begin at bit 0. A port without a clock always shows the word that
/// its address points at. One with a clock keeps what it shows until its edge; it then shows the word that
/// its address pointed at before the event, whatever the event writes there.
#[derive(Debug, Drop)]
pub struct ReadPort {
    pub clock: Option<Edge>,
    pub address: List<NetId>,
    /// The nets that the port drives.
    pub bits: List<NetId>,
}

/// A memory of `2^address_bits` words of `width` bits, with its ports in order.
#[derive(Debug, Drop)]
pub struct Memory {
    pub address_bits: u32,
    pub width: u32,
    pub writes: List<WritePort>,
    pub reads: List<ReadPort>,
}

/// An element of a design.
#[derive(Debug, Drop)]
pub enum Element {
    /// A gate, with its inputs in order.
    Gate {
        op: Op,
        inputs: List<NetId>,
        output: NetId,
    },
    Flop(Flop),
    Latch(Latch),
    /// A memory, which stands in the list of memories.
    Memory(MemId),
}

/// What gives a net its value.
#[derive(Clone, Copy, Debug, Drop, PartialEq, Eq)]
pub enum Driver {
    /// A constant; 0 also for a net that nothing drives.
    Constant(bool),
    /// The world outside.
    Input,
    /// A gate, a flip-flop or a latch.
    Elem(ElemId),
    /// A bit of a read port: the memory, the port's place among its read ports, and the bit.
    Read(MemId, u32, u32),
}
