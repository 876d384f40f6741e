//! The places at which a rule of acceptance can fail.

use id_arena::{ChipId, ElemId, MemId, NetId, RegId, WireId};

/// What an action uses in a slot, and no other action may use in that slot.
#[derive(Clone, Copy, Debug, Drop, PartialEq, Eq)]
pub enum Thing {
    Wire(WireId),
    Register(ChipId, RegId),
    Memory(ChipId, MemId),
}

/// Where a rule fails: one form for each kind of thing that the rules speak of.
#[derive(Clone, Copy, Debug, Drop, PartialEq, Eq)]
pub enum Place {
    /// The number of the netlist's chips.
    Chips {
        modules: u32,
    },
    Gate {
        chip: ChipId,
        gate: u32,
    },
    /// A chip, with the weight of its gates and memories.
    Weight {
        chip: ChipId,
        weight: u64,
    },
    Frame {
        frame: u32,
    },
    Action {
        frame: u32,
        slot: u32,
        action: u32,
    },
    /// An action that uses a thing again.
    Again {
        frame: u32,
        slot: u32,
        action: u32,
        thing: Thing,
    },
    Register {
        chip: ChipId,
        register: RegId,
    },
    Memory {
        chip: ChipId,
        mem: MemId,
    },
    /// An input bit, by its net.
    Input {
        net: NetId,
    },
    Element {
        elem: ElemId,
    },
    /// An output bit, counted over the output ports in order.
    Output {
        output: u32,
    },
    /// A register at the end of a frame.
    EndRegister {
        frame: u32,
        chip: ChipId,
        register: RegId,
    },
    /// A memory at the end of a frame.
    EndMemory {
        frame: u32,
        chip: ChipId,
        mem: MemId,
    },
    /// A read port at the end of a frame.
    EndRead {
        frame: u32,
        chip: ChipId,
        mem: MemId,
        port: u32,
    },
}
