//! Plans: what each frame does in which slot.

use emu_io::List;
use id_arena::{ElemId, MemId, NetId, WireId};

/// One thing that is done in a slot.
#[derive(Clone, Copy, Debug, Drop, PartialEq, Eq)]
pub enum PlanAct {
    /// All that slot 0 does: each register that keeps what stood before the frame is loaded, and each
    /// input register of the group's ports.
    Sample,
    /// The register of a flip-flop is loaded.
    Flop(ElemId),
    /// The hold register of a latch is loaded.
    Hold(ElemId),
    /// A net is sent over a wire, and arrives at the end of the last slot of its latency.
    Send { net: NetId, wire: WireId },
    /// A memory takes what its write port gives.
    Write { mem: MemId, port: u32 },
    /// A memory is read through a port.
    Read { mem: MemId, port: u32 },
    /// The registers of a clocked read port are loaded.
    Bits { mem: MemId, port: u32 },
}

/// One thing with its slot.
#[derive(Clone, Copy, Debug, Drop, PartialEq, Eq)]
pub struct PlanStep {
    pub slot: u32,
    pub act: PlanAct,
}

/// The plan of one frame: how many slots it has, and its steps in planning order, which begin with the
/// one `Sample`.
#[derive(Debug, Drop)]
pub struct PlanFrame {
    pub length: u64,
    pub steps: List<PlanStep>,
}
