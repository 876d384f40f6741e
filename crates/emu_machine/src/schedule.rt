//! The schedule: for each group of inputs a frame of slots, and for each slot its actions.

use emu_io::{List, Text};
use id_arena::{ChipId, ChipNetId, MemId, NetId, RegId, WireId};

/// What the machine does. Each action reads the values at the start of its slot. Its target takes its value
/// at the end of that slot; only that of a `send` over a wire of a latency of `n` slots takes it at the end
/// of the `n`-th, its own counted as the first.
#[derive(Clone, Copy, Debug, Drop, PartialEq, Eq)]
pub enum Action {
    /// The register takes the present outside value of an input net of the design.
    Input {
        chip: ChipId,
        register: RegId,
        net: NetId,
    },
    /// The register takes what stands at its D; one with an enable does so only while that is 1.
    Load {
        chip: ChipId,
        register: RegId,
    },
    /// The register on the wire's far chip takes the value of a net on the near chip, at the end of the
    /// last slot of the wire's latency.
    Send {
        wire: WireId,
        net: ChipNetId,
        register: RegId,
    },
    /// The port stores its data at its address, if its enable is 1.
    Write {
        chip: ChipId,
        mem: MemId,
        port: u32,
    },
    /// The nets of the port show the word that stands at its address.
    Read {
        chip: ChipId,
        mem: MemId,
        port: u32,
    },
}

/// The actions of one slot.
#[derive(Debug, Drop)]
pub struct Slot {
    pub actions: List<Action>,
}

/// The slots that run for one event of a group.
#[derive(Debug, Drop)]
pub struct Frame {
    pub group: Text,
    pub slots: List<Slot>,
}

/// One frame for each group, and one for all inputs, which is the last.
#[derive(Debug, Drop)]
pub struct Schedule {
    pub frames: List<Frame>,
}
