//! Cells made of written cells that were judged.

ghost use Rattle.std.specs.Prelude.{◌≡◌, ◌≤◌, IfOk, IsTrue, length, map};
ghost use Rattle.cell_table.specs.Build.{built_of, cell_kind_of, comb_out_of, feed_pin_of, number_of};
ghost use Rattle.cell_table.specs.Judge.{feed_is_sized, feed_is_within, is_within_limits, outs_are_sized, tables_are_sized};

use crate::cell::{Cell, CellKind, CombOut, FeedPin};
use crate::written::{WrittenCell, WrittenFeed, WrittenKind, WrittenOut};
use emu_io::{List, NoMemory, Text};
use std::alloc::Global;

/// The number that has these bits, the first of them as its bit 0.
#[tactic(auto, using(crate::proofs::JudgeLemmas::numbers))]
fn number_from(bits: &[bool]) -> u64
    requires { length bits.now ≤ 64 }
    ensures { result ≡ number_of bits.now }
{
    let mut number = 0;
    for i in (0..bits.len()).rev() {
        number = 2 * number + u64::from(bits[i]);
    }
    number
}

/// The outputs with their tables as numbers.
fn comb_outs_from(
    alloc: Global,
    inputs: u64,
    outputs: &[WrittenOut],
) -> Result<List<CombOut>, NoMemory>
    requires sized { IsTrue (outs_are_sized inputs outputs.now) }
    requires within { inputs ≤ 6 }
    ensures { IfOk result (λ outs. outs ≡ map comb_out_of outputs.now) }
{
    let mut outs = List::new(alloc);
    for output in outputs {
        let table = number_from(output.table.as_slice());
        let pin = Text::from_bytes(alloc, output.pin.bytes())?;
        outs.push(CombOut { pin, table })?;
    }
    Ok(outs)
}

/// What feeds a flip-flop or a latch, with a table as a number.
#[tactic(auto, using(crate::proofs::JudgeLemmas::sized_is_short))]
fn feed_pin_from(feed: WrittenFeed) -> FeedPin
    requires sized { IsTrue (feed_is_sized feed) }
    requires within { IsTrue (feed_is_within feed) }
    ensures { result ≡ feed_pin_of feed }
{
    match feed {
        WrittenFeed::Pin(pin) => FeedPin::Pin(pin),
        WrittenFeed::Table { pins, table } => FeedPin::Table {
            pins,
            table: number_from(table.as_slice()),
        },
    }
}

/// The kind with its tables as numbers.
#[tactic(auto, unfolding(crate::specs::Build::cell_kind_of, crate::specs::Judge::tables_are_sized, crate::specs::Judge::is_within_limits))]
fn cell_kind_from(alloc: Global, kind: WrittenKind) -> Result<CellKind, NoMemory>
    requires sized { IsTrue (tables_are_sized kind) }
    requires within { IsTrue (is_within_limits kind) }
    ensures { IfOk result (λ built. built ≡ cell_kind_of kind) }
{
    match kind {
        WrittenKind::Comb { inputs, outputs } => {
            let outputs = comb_outs_from(alloc, inputs.len(), outputs.as_slice())?;
            Ok(CellKind::Comb { inputs, outputs })
        }
        WrittenKind::Flop { clock, state } => Ok(CellKind::Flop {
            clock,
            feed: feed_pin_from(state.feed),
            clear: state.clear,
            preset: state.preset,
            q: state.q,
            qn: state.qn,
        }),
        WrittenKind::Latch { gate, state } => Ok(CellKind::Latch {
            gate,
            feed: feed_pin_from(state.feed),
            clear: state.clear,
            preset: state.preset,
            q: state.q,
            qn: state.qn,
        }),
        WrittenKind::GateClock {
            clock,
            enable,
            test,
            output,
        } => Ok(CellKind::GateClock {
            clock,
            enable,
            test,
            output,
        }),
        WrittenKind::Memory {
            address_bits,
            width,
            writes,
            reads,
        } => Ok(CellKind::Memory {
            address_bits,
            width,
            writes,
            reads,
        }),
    }
}

/// The cell that a written cell stands for.
pub(crate) fn cell_from(alloc: Global, written: WrittenCell) -> Result<Cell, NoMemory>
    requires sized { IsTrue (tables_are_sized written.kind) }
    requires within { IsTrue (is_within_limits written.kind) }
    ensures { IfOk result (λ cell. cell ≡ built_of written) }
{
    let WrittenCell { name, kind } = written;
    let kind = cell_kind_from(alloc, kind)?;
    Ok(Cell { name, kind })
}
