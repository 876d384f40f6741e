//! What the gates of a chip give for bits, as a pass over them asks for it.

ghost use Rattle.std.specs.Prelude.{◌≤◌, length};
ghost use Rattle.design_core.specs.Limits.{most_inputs};
ghost use Rattle.cycle_sim.specs.Values.{gate_gives};

use crate::gates::gate_value;
use chip_pass::ChipRule;
use emu_machine::EmuGate;
use gate_pass::Steps;
use std::sync::ledger::Ledger;

/// Each gate gives its operation of the bits of its inputs.
#[derive(Clone, Copy, Drop)]
pub(crate) struct GateBits;

impl ChipRule<bool> for GateBits {
    ghost gives = { λ self. gate_gives };

    ghost Knows = { λ self gate. length gate.inputs ≤ most_inputs gate.op };

    fn value<L: Ledger>(&self, gate: &EmuGate, values: &[bool], _steps: &mut Steps<L>) -> bool {
        gate_value(gate.op, gate.inputs.as_slice(), values)
    }
}
