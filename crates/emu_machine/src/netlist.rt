//! The netlist of each chip: gates, registers and memories over numbered nets.

use design_core::Op;
use emu_io::List;
use id_arena::ChipNetId;

/// A gate of a chip, with its inputs in order.
#[derive(Debug, Drop)]
pub struct EmuGate {
    pub op: Op,
    pub output: ChipNetId,
    pub inputs: List<ChipNetId>,
}

/// A register of a chip, of three forms. With neither D nor enable it holds what `input` or `send`
/// gives it (`EHOLD`); with D alone it takes D when it is loaded (`EREG`); with both it takes D where
/// the enable is 1 (`EREGE`).
#[derive(Clone, Copy, Debug, Drop, PartialEq, Eq)]
pub struct EmuRegister {
    pub q: ChipNetId,
    pub d: Option<ChipNetId>,
    pub enable: Option<ChipNetId>,
}

/// A write port of a chip's memory. Lists of bits begin at bit 0.
#[derive(Debug, Drop)]
pub struct EmuWrite {
    pub enable: ChipNetId,
    pub address: List<ChipNetId>,
    /// The data nets.
    pub feed: List<ChipNetId>,
}

/// A read port of a chip's memory. Lists of bits begin at bit 0.
#[derive(Debug, Drop)]
pub struct EmuRead {
    pub address: List<ChipNetId>,
    /// The nets that the port drives.
    pub bits: List<ChipNetId>,
}

/// A memory of a chip: `2^address_bits` words of `width` bits, with its ports in order.
#[derive(Debug, Drop)]
pub struct EmuMemory {
    pub address_bits: u32,
    pub width: u32,
    pub writes: List<EmuWrite>,
    pub reads: List<EmuRead>,
}

/// The netlist of one chip. Its nets have the numbers below `nets`.
#[derive(Debug, Drop)]
pub struct Chip {
    pub nets: u32,
    pub gates: List<EmuGate>,
    pub registers: List<EmuRegister>,
    pub memories: List<EmuMemory>,
}
