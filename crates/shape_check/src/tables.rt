//! The tables of the gates that stand for latches, flip-flops and the write ports of memories.
//!
//! A table is told by its columns: for each input the rows in which it is 1, of the 32 rows of five inputs.

ghost use Rattle.std.specs.Prelude.{◌≡◌, ◌≤◌};
ghost use Rattle.design_core.specs.declared.element.Flop.{Flop};
ghost use Rattle.design_core.specs.declared.element.Latch.{Latch};
ghost use Rattle.emu_machine.specs.Origins.{latch_function, next_function, resets, take_function, write_take_function};
ghost use Rattle.shape_check.specs.Tables.{acting, acts, behind, held_by, reset_inputs, table};

use design_core::{Flop, Latch, Level, WritePort};

/// For each input the rows in which it is 1.
const FIRST: u64 = 0xaaaa_aaaa;

const SECOND: u64 = 0xcccc_cccc;

const THIRD: u64 = 0xf0f0_f0f0;

const FOURTH: u64 = 0xff00_ff00;

const FIFTH: u64 = 0xffff_0000;

/// All rows.
const ALL: u64 = 0xffff_ffff;

/// By the number of inputs the rows of a table.
const ROWS: [u64; 6] = [0x1, 0x3, 0xf, 0xff, 0xffff, ALL];

/// The table of a take gate: the edge, then the resets.
pub(crate) fn take_table(flop: Flop) -> u64
    ensures { result ≡ table (reset_inputs 1 flop.clear flop.preset) (take_function flop) }
{
    let after = behind(flop.clear, SECOND, THIRD);
    ROWS[inputs(1, flop.clear, flop.preset)]
        & (FIRST | acts(flop.clear, SECOND) | acts(flop.preset, after))
}

/// The table of a next gate: the data, then the resets.
pub(crate) fn next_table(flop: Flop) -> u64
    ensures { result ≡ table (reset_inputs 1 flop.clear flop.preset) (next_function flop) }
{
    let after = behind(flop.clear, SECOND, THIRD);
    ROWS[inputs(1, flop.clear, flop.preset)]
        & held_by(acts(flop.clear, SECOND), acts(flop.preset, after), FIRST)
}

/// The table of a latch gate: the gate, the data, the hold, then the resets.
pub(crate) fn latch_table(latch: Latch) -> u64
    ensures { result ≡ table (reset_inputs 3 latch.clear latch.preset) (latch_function latch) }
{
    let after = behind(latch.clear, FOURTH, FIFTH);
    let open = acting(latch.gate, FIRST);
    let free = open & SECOND | (open ^ ALL) & THIRD;
    ROWS[inputs(3, latch.clear, latch.preset)]
        & held_by(acts(latch.clear, FOURTH), acts(latch.preset, after), free)
}

/// The table of a write take gate: the edge, then the enable.
pub(crate) fn write_take_table(port: &WritePort) -> u64
    ensures { result ≡ table 2 (write_take_function port.now) }
{
    ROWS[2] & FIRST & acting(port.enable, SECOND)
}

/// The column of a preset: the first of these, or the second where a clear has the first.
fn behind(clear: Option<Level>, first: u64, second: u64) -> u64
    ensures { result ≡ behind clear first second }
{
    match clear {
        Some(_) => second,
        None => first,
    }
}

/// How many inputs a gate has that has resets behind its first inputs.
fn inputs(first: usize, clear: Option<Level>, preset: Option<Level>) -> usize
    requires { first ≤ 3 }
    ensures { result ≡ reset_inputs first clear preset }
{
    first + usize::from(clear.is_some()) + usize::from(preset.is_some())
}

/// The rows in which a value holds that a clear and a preset force, the clear before the preset.
fn held_by(clear: u64, preset: u64, free: u64) -> u64
    ensures { result ≡ held_by clear preset free }
{
    (free | preset) & (clear ^ ALL)
}

/// The rows in which a reset acts whose pin has this column.
fn acts(reset: Option<Level>, column: u64) -> u64
    ensures { result ≡ acts reset column }
{
    match reset {
        Some(level) => acting(level, column),
        None => 0,
    }
}

/// The rows in which a pin acts that has this column.
fn acting(level: Level, column: u64) -> u64
    ensures { result ≡ acting level column }
{
    if level.high { column } else { column ^ ALL }
}
