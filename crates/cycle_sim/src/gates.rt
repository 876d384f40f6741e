//! What a gate gives for the values of its inputs.

ghost use Rattle.std.specs.Prelude.{◌≡◌, ◌<◌, ◌≤◌, All, length};
ghost use Rattle.design_core.specs.Limits.{most_inputs};
ghost use Rattle.design_core.specs.Operation.{all_ones, number, odd_ones, only_value, op_value, some_one};
ghost use Rattle.cycle_sim.specs.Standing.{IsThere};
ghost use Rattle.cycle_sim.specs.Values.{value_in, values_in};

use design_core::Op;
use id_arena::{ChipNetId, Key};

/// The value of a net.
pub(crate) fn value_of(table: &[bool], net: ChipNetId) -> bool
    requires { IsThere (length table.now) net }
    ensures { result ≡ value_in table.now net }
{
    table[net.place() as usize]
}

/// What a gate with these inputs gives.
pub(crate) fn gate_value(op: Op, inputs: &[ChipNetId], table: &[bool]) -> bool
    requires there { All (IsThere (length table.now)) inputs.now }
    requires few { length inputs.now ≤ most_inputs op }
    ensures { result ≡ op_value op (values_in table.now inputs.now) }
{
    match op {
        Op::And => all_ones(inputs, table),
        Op::Nand => !all_ones(inputs, table),
        Op::Or => some_one(inputs, table),
        Op::Nor => !some_one(inputs, table),
        Op::Xor => odd_ones(inputs, table),
        Op::Xnor => !odd_ones(inputs, table),
        Op::Buf => only_value(inputs, table),
        Op::Not => !only_value(inputs, table),
        Op::Table(rows) => rows >> row_of(inputs, table) & 1 == 1,
    }
}

/// Whether all inputs are 1.
fn all_ones(inputs: &[ChipNetId], table: &[bool]) -> bool
    requires { All (IsThere (length table.now)) inputs.now }
    ensures { result ≡ all_ones (values_in table.now inputs.now) }
{
    'inputs: for input in inputs {
        if !value_of(table, *input) {
            return false;
        }
    }
    true
}

/// Whether some input is 1.
fn some_one(inputs: &[ChipNetId], table: &[bool]) -> bool
    requires { All (IsThere (length table.now)) inputs.now }
    ensures { result ≡ some_one (values_in table.now inputs.now) }
{
    'inputs: for input in inputs {
        if value_of(table, *input) {
            return true;
        }
    }
    false
}

/// Whether an odd number of inputs is 1.
fn odd_ones(inputs: &[ChipNetId], table: &[bool]) -> bool
    requires { All (IsThere (length table.now)) inputs.now }
    ensures { result ≡ odd_ones (values_in table.now inputs.now) }
{
    let mut ones: u64 = 0;
    'inputs: for input in inputs {
        if value_of(table, *input) {
            ones += 1;
        }
    }
    ones % 2 == 1
}

/// The value of the only input.
fn only_value(inputs: &[ChipNetId], table: &[bool]) -> bool
    requires { All (IsThere (length table.now)) inputs.now }
    ensures { result ≡ only_value (values_in table.now inputs.now) }
{
    match inputs {
        [] => false,
        [input, ..] => value_of(table, *input),
    }
}

/// The row of a table at which the inputs read it: input `j` contributes `2^j`.
fn row_of(inputs: &[ChipNetId], table: &[bool]) -> u64
    requires there { All (IsThere (length table.now)) inputs.now }
    requires few { length inputs.now ≤ 6 }
    ensures row { result ≡ number (values_in table.now inputs.now) }
    ensures low { result < 64 }
{
    let mut row = 0;
    let mut weight = 1;
    'inputs: for input in inputs {
        if value_of(table, *input) {
            row += weight;
        }
        weight *= 2;
    }
    row
}
