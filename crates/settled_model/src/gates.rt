//! What a gate gives for the values of its inputs.

ghost use Rattle.std.specs.Prelude.{◌≡◌, ◌<◌, ◌≤◌, IsTrue, length};
ghost use Rattle.design_core.specs.Design.{op_fits};
ghost use Rattle.design_core.specs.Faults.{are_there, is_there};
ghost use Rattle.design_core.specs.Limits.{most_inputs};
ghost use Rattle.design_core.specs.Operation.{all_ones, bit_of, number, odd_ones, only_value, op_value, some_one};
ghost use Rattle.design_core.specs.Valuation.{values};
ghost use Rattle.settled_model.specs.Held.{shown};

use design_core::Op;
use id_arena::{Key, NetId};

/// The value of a net.
pub(crate) fn value_of(nets: &[bool], net: NetId) -> bool
    requires { IsTrue (is_there (length nets.now) net) }
    ensures { result ≡ (shown nets.now).net net.place }
{
    nets[net.place() as usize]
}

/// What a gate with these inputs gives.
pub(crate) fn gate_value(op: Op, inputs: &[NetId], nets: &[bool]) -> bool
    requires there { IsTrue (are_there (length nets.now) inputs.now) }
    requires few { length inputs.now ≤ most_inputs op }
    ensures { result ≡ op_value op (values (shown nets.now) inputs.now) }
{
    match op {
        Op::And => all_ones(inputs, nets),
        Op::Nand => !all_ones(inputs, nets),
        Op::Or => some_one(inputs, nets),
        Op::Nor => !some_one(inputs, nets),
        Op::Xor => odd_ones(inputs, nets),
        Op::Xnor => !odd_ones(inputs, nets),
        Op::Buf => only_value(inputs, nets),
        Op::Not => !only_value(inputs, nets),
        Op::Table(table) => table >> row_of(inputs, nets) & 1 == 1,
    }
}

/// Whether all inputs are 1.
fn all_ones(inputs: &[NetId], nets: &[bool]) -> bool
    requires { IsTrue (are_there (length nets.now) inputs.now) }
    ensures { result ≡ all_ones (values (shown nets.now) inputs.now) }
{
    'inputs: for input in inputs {
        if !value_of(nets, *input) {
            return false;
        }
    }
    true
}

/// Whether some input is 1.
fn some_one(inputs: &[NetId], nets: &[bool]) -> bool
    requires { IsTrue (are_there (length nets.now) inputs.now) }
    ensures { result ≡ some_one (values (shown nets.now) inputs.now) }
{
    'inputs: for input in inputs {
        if value_of(nets, *input) {
            return true;
        }
    }
    false
}

/// Whether an odd number of inputs is 1.
fn odd_ones(inputs: &[NetId], nets: &[bool]) -> bool
    requires { IsTrue (are_there (length nets.now) inputs.now) }
    ensures { result ≡ odd_ones (values (shown nets.now) inputs.now) }
{
    let mut ones: u64 = 0;
    'inputs: for input in inputs {
        if value_of(nets, *input) {
            ones += 1;
        }
    }
    ones % 2 == 1
}

/// The value of the only input.
fn only_value(inputs: &[NetId], nets: &[bool]) -> bool
    requires { IsTrue (are_there (length nets.now) inputs.now) }
    ensures { result ≡ only_value (values (shown nets.now) inputs.now) }
{
    match inputs {
        [] => false,
        [input, ..] => value_of(nets, *input),
    }
}

/// The row of a table at which the inputs read it: input `j` contributes `2^j`.
fn row_of(inputs: &[NetId], nets: &[bool]) -> u64
    requires there { IsTrue (are_there (length nets.now) inputs.now) }
    requires few { length inputs.now ≤ 6 }
    ensures row { result ≡ number (values (shown nets.now) inputs.now) }
    ensures low { result < 64 }
{
    let mut row = 0;
    let mut weight = 1;
    'inputs: for input in inputs {
        if value_of(nets, *input) {
            row += weight;
        }
        weight *= 2;
    }
    row
}
