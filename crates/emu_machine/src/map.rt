//! The state map: what each net of the machine stands for in the design.

use emu_io::List;
use id_arena::{ChipId, ChipNetId, ElemId, MemId, NetId};

/// What a net of the machine stands for, in an event of the design.
#[derive(Clone, Copy, Debug, Drop, PartialEq, Eq)]
pub enum Subject {
    /// A net of the design.
    Net(NetId),
    /// That a net rises in the event.
    Up(NetId),
    /// That a net falls in the event.
    Down(NetId),
    /// That a flip-flop takes a new value in the event.
    Take(ElemId),
    /// The value that a flip-flop takes if it takes one.
    Next(ElemId),
    /// That a write port of a memory stores in the event.
    TakeWrite(MemId, u32),
    /// A bit of the word that a read port of a memory takes if it takes one: the memory, the port, the
    /// bit.
    Old(MemId, u32, u32),
    /// That a read port of a memory takes a word in the event.
    TakeRead(MemId, u32),
}

/// The map of one memory of a chip: the design's memory, and for each read port whether it is kept.
#[derive(Debug, Drop)]
pub struct MemMap {
    pub of: MemId,
    pub kept: List<bool>,
}

/// The map of one chip: a subject for each net, whether each register is kept, and each memory's map.
#[derive(Debug, Drop)]
pub struct ChipMap {
    pub nets: List<Subject>,
    pub kept: List<bool>,
    pub memories: List<MemMap>,
}

/// A net of a chip.
#[derive(Clone, Copy, Debug, Drop, PartialEq, Eq)]
pub struct Spot {
    pub chip: ChipId,
    pub net: ChipNetId,
}

/// The whole map: each chip's, and the net that shows each output bit of the design.
#[derive(Debug, Drop)]
pub struct StateMap {
    pub chips: List<ChipMap>,
    pub outputs: List<Spot>,
}
