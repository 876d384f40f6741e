//! What a design is opened with.

use design_core::PortValues;
use emu_io::List;
use id_arena::{ElemId, MemId};

/// A word that a memory is opened with, by its address.
#[derive(Clone, Copy, Debug, Drop, PartialEq, Eq)]
pub struct OpenWord {
    pub mem: MemId,
    pub address: u32,
    pub value: u128,
}

/// What a design is opened with. What is not named is 0, and where something is named twice, the later
/// entry counts.
#[derive(Debug, Drop)]
pub struct Opening {
    /// The values of input bits.
    pub inputs: PortValues,
    /// The flip-flops and latches whose state is 1.
    pub ones: List<ElemId>,
    /// The words of memories.
    pub words: List<OpenWord>,
}
