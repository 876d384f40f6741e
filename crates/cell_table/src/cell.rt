//! The cells of a table: five kinds, each with the names of its pins.

use emu_io::{List, Text};

/// A cell that a design may use.
#[derive(Debug, Drop)]
pub struct Cell {
    /// At least one byte; no two cells of a table have the same name.
    pub name: Text,
    pub kind: CellKind,
}

/// What a cell is. No pin of a cell is named twice, but that the output `q` of a flip-flop or a
/// latch may feed the cell itself, and that ports of a memory may have one clock in version 2.
#[derive(Debug, Drop)]
pub enum CellKind {
    /// Combinational: each output is a table over all inputs, of which there are at most 6.
    Comb {
        inputs: List<Text>,
        outputs: List<CombOut>,
    },
    /// An edge-triggered flip-flop; an active clear wins over an active preset.
    Flop {
        clock: EdgePin,
        feed: FeedPin,
        clear: Option<LevelPin>,
        preset: Option<LevelPin>,
        q: Text,
        qn: Option<Text>,
    },
    /// A latch that is open while its gate is active; an active clear wins over an active preset.
    Latch {
        gate: LevelPin,
        feed: FeedPin,
        clear: Option<LevelPin>,
        preset: Option<LevelPin>,
        q: Text,
        qn: Option<Text>,
    },
    /// A clock gate, which passes its clock on while it is enabled or tested.
    GateClock {
        clock: Text,
        enable: Text,
        test: Option<Text>,
        output: Text,
    },
    /// A memory of 2 to the power `address_bits` words (at most 16 bits) of `width` bits (1 to
    /// 128), with at most 16 ports.
    Memory {
        address_bits: u32,
        width: u32,
        writes: List<CellWrite>,
        reads: List<CellRead>,
    },
}

/// An output pin of a combinational cell.
#[derive(Debug, Drop)]
pub struct CombOut {
    pub pin: Text,
    /// Bit `i` is the output where input `j` contributes 2 to the power `j` to `i`.
    pub table: u64,
}

/// A clock pin with the edge that counts: the rising or the falling one.
#[derive(Debug, Drop)]
pub struct EdgePin {
    pub pin: Text,
    pub rise: bool,
}

/// A pin with the level at which it is active: high or low.
#[derive(Debug, Drop)]
pub struct LevelPin {
    pub pin: Text,
    pub high: bool,
}

/// What a flip-flop or a latch takes its value from.
#[derive(Debug, Drop)]
pub enum FeedPin {
    /// The value of one pin.
    Pin(Text),
    /// A table over 1 to 6 pins, whose bits are as those of [`CombOut`].
    Table { pins: List<Text>, table: u64 },
}

/// A write port of a memory cell.
#[derive(Debug, Drop)]
pub struct CellWrite {
    pub clock: EdgePin,
    /// None where the port always writes.
    pub enable: Option<LevelPin>,
    /// As wide as the address; None exactly where the memory has one word.
    pub address: Option<Text>,
    /// The data pin, as wide as a word.
    pub feed: Text,
}

/// A read port of a memory cell.
#[derive(Debug, Drop)]
pub struct CellRead {
    /// None where the port shows its word at all times; else it takes the word at this edge.
    pub clock: Option<EdgePin>,
    /// As wide as the address; None exactly where the memory has one word.
    pub address: Option<Text>,
    /// The data pin, as wide as a word.
    pub bits: Text,
}
