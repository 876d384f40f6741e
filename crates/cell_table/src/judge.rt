//! The tests of a cell of good shape: the lengths of its tables, and the limits.

ghost use Rattle.std.specs.Prelude.{◌==◌, ◌^◌, ◌≡◌, length};
ghost use Rattle.cell_table.specs.Judge.{feed_is_sized, feed_is_within, is_sized, is_within_limits, outs_are_sized, tables_are_sized};

use crate::written::{WrittenFeed, WrittenKind, WrittenOut};

/// The greatest number of inputs of a table.
const TABLE_INPUTS: u64 = 6;

/// The greatest number of address bits of a memory.
const ADDRESS_BITS: u32 = 16;

/// The greatest width of a memory's word.
const WORD_WIDTH: u32 = 128;

/// The greatest number of ports of a memory.
const MEMORY_PORTS: u64 = 16;

/// Whether a table of this length has a bit for each value of this number of inputs.
#[tactic(auto, using(crate::proofs::JudgeLemmas::powers))]
fn is_power_of_inputs(table_len: u64, inputs: u64) -> bool
    ensures { result ≡ (table_len == 2 ^ inputs) }
{
    inputs < 64 && table_len == 1 << inputs
}

/// Whether each of the outputs is a table over this number of inputs.
fn outs_are_sized(inputs: u64, outputs: &[WrittenOut]) -> bool
    ensures { result ≡ outs_are_sized inputs outputs.now }
{
    for out in outputs {
        if !is_power_of_inputs(out.table.len(), inputs) {
            return false;
        }
    }
    true
}

/// Whether what feeds a flip-flop or a latch is a pin, or a table over its pins.
fn feed_is_sized(feed: &WrittenFeed) -> bool
    ensures { result ≡ feed_is_sized feed.now }
{
    match feed {
        WrittenFeed::Pin(_) => true,
        WrittenFeed::Table { pins, table } => is_power_of_inputs(table.len(), pins.len()),
    }
}

/// Whether each table of a cell is of the right length.
#[tactic(auto, unfolding(crate::specs::Judge::tables_are_sized))]
pub(crate) fn tables_are_sized(kind: &WrittenKind) -> bool
    ensures { result ≡ tables_are_sized kind.now }
{
    match kind {
        WrittenKind::Comb { inputs, outputs } => outs_are_sized(inputs.len(), outputs.as_slice()),
        WrittenKind::Flop { state, .. } | WrittenKind::Latch { state, .. } => {
            feed_is_sized(&state.feed)
        }
        WrittenKind::GateClock { .. } | WrittenKind::Memory { .. } => true,
    }
}

/// Whether what feeds a flip-flop or a latch has at most 6 pins.
fn feed_is_within(feed: &WrittenFeed) -> bool
    ensures { result ≡ feed_is_within feed.now }
{
    match feed {
        WrittenFeed::Pin(_) => true,
        WrittenFeed::Table { pins, .. } => pins.len() <= TABLE_INPUTS,
    }
}

/// Whether a cell is within the limits.
#[tactic(auto, unfolding(crate::specs::Judge::is_within_limits))]
pub(crate) fn is_within_limits(kind: &WrittenKind) -> bool
    ensures { result ≡ is_within_limits kind.now }
{
    match kind {
        WrittenKind::Comb { inputs, .. } => inputs.len() <= TABLE_INPUTS,
        WrittenKind::Flop { state, .. } | WrittenKind::Latch { state, .. } => {
            feed_is_within(&state.feed)
        }
        WrittenKind::GateClock { .. } => true,
        WrittenKind::Memory {
            address_bits,
            width,
            writes,
            reads,
        } => {
            *address_bits <= ADDRESS_BITS
                && *width >= 1
                && *width <= WORD_WIDTH
                && writes.len() <= MEMORY_PORTS
                && reads.len() <= MEMORY_PORTS - writes.len()
        }
    }
}
