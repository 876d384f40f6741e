//! Cells as they are written: the tables are bits of any number, and nothing is judged yet.

use crate::cell::{CellRead, CellWrite, EdgePin, LevelPin};
use emu_io::{List, Text};

/// A cell of good shape.
#[derive(Debug, Drop)]
pub(crate) struct WrittenCell {
    pub(crate) name: Text,
    pub(crate) kind: WrittenKind,
}

/// A cell's kind with what is written of it.
#[derive(Debug, Drop)]
pub(crate) enum WrittenKind {
    Comb {
        inputs: List<Text>,
        outputs: List<WrittenOut>,
    },
    Flop {
        clock: EdgePin,
        state: WrittenState,
    },
    Latch {
        gate: LevelPin,
        state: WrittenState,
    },
    GateClock {
        clock: Text,
        enable: Text,
        test: Option<Text>,
        output: Text,
    },
    Memory {
        address_bits: u32,
        width: u32,
        writes: List<CellWrite>,
        reads: List<CellRead>,
    },
}

/// An output of a combinational cell.
#[derive(Debug, Drop)]
pub(crate) struct WrittenOut {
    pub(crate) pin: Text,
    pub(crate) table: List<bool>,
}

/// What flip-flops and latches have in common.
#[derive(Debug, Drop)]
pub(crate) struct WrittenState {
    pub(crate) feed: WrittenFeed,
    pub(crate) clear: Option<LevelPin>,
    pub(crate) preset: Option<LevelPin>,
    pub(crate) q: Text,
    pub(crate) qn: Option<Text>,
}

/// What a flip-flop or a latch takes its value from.
#[derive(Debug, Drop)]
pub(crate) enum WrittenFeed {
    Pin(Text),
    Table { pins: List<Text>, table: List<bool> },
}
