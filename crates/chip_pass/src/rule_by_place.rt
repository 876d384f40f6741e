//! The rule of a chip as one for its gates in ranked order.
ghost use Rattle.chip_pass.specs.Inside.{IsKnownAt};
ghost use Rattle.chip_pass.specs.Orders.{gives_at};

use crate::ChipRule;
use emu_machine::Chip;
use gate_pass::{GateRule, NetValue, Steps};
use graph_rank::Order;
use std::sync::ledger::Ledger;

/// A rule for the gates of a chip, which are told by their places in an order.
#[derive(Drop)]
pub(crate) struct RuleByPlace<'a, R> {
    pub(crate) rule: &'a R,
    pub(crate) chip: &'a Chip,
    pub(crate) order: &'a Order,
}

impl<'a, T: NetValue, R: ChipRule<T>> GateRule<T> for RuleByPlace<'a, R> {
    ghost gives = { λ self. gives_at (R.gives self.rule.now) self.chip.now self.order.now.order };

    ghost Knows = { λ self. IsKnownAt (R.Knows self.rule.now) self.chip.now self.order.now.order };

    fn value<L: Ledger>(
        &self,
        gate: u32,
        _inputs: &[u32],
        values: &[T],
        steps: &mut Steps<L>,
    ) -> T {
        let gate = self.chip.gates.get(u64::from(self.order.at(gate)));
        self.rule.value(gate, values, steps)
    }
}
