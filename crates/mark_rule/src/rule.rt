//! The rules of marks for a pass over a chip.
ghost use Rattle.std.specs.Prelude.{◌≡◌, ◌+◌, ◌<◌, ◌≤◌, All, length, map};
ghost use Rattle.gate_pass.specs.Gates.{value_on};
ghost use Rattle.mark_rule.specs.Gates.{gate_gives, plain_gives};

use crate::gates::{gate_mark, plain_mark};
use crate::inside::widen;
use crate::{Inside, NetMarks, subject_of};
use chip_rule::ChipRule;
use design_core::Design;
use emu_machine::{EmuGate, Results};
use gate_pass::Steps;
use id_arena::ChipId;
use std::marker::Model;
use std::sync::ledger::Ledger;

/// The marks of the gates of a chip in a frame, widened outside an influence. Takes a step for each gate and
/// input, and no memory.
#[derive(Drop)]
pub struct MarkRule<'a, I: Inside> {
    design: &'a Design,
    results: &'a Results,
    chip: ChipId,
    inside: &'a I,
}

impl<'a, I: Inside> Model for MarkRule<'a, I> {
    ghost use Rattle.mark_rule.specs.Gates.{FrameRule};

    ghost Value = { FrameRule I };

    ghost view = { λ rule. record {
      design = rule.design.now;
      results = rule.results.now;
      chip = rule.chip.place;
      inside = rule.inside.now;
    } };
}

impl<'a, I: Inside> MarkRule<'a, I> {
    /// The rule for a chip of results of a design, and an influence.
    pub fn new(
        design: &'a Design,
        results: &'a Results,
        chip: ChipId,
        inside: &'a I,
    ) -> MarkRule<'a, I>
        ensures { result ≡ record {
          design = design.now;
          results = results.now;
          chip = chip.place;
          inside = inside.now;
        } }
    {
        MarkRule {
            design,
            results,
            chip,
            inside,
        }
    }
}

impl<'a, I: Inside> ChipRule<NetMarks> for MarkRule<'a, I> {
    ghost gives = { λ rule. gate_gives rule.design rule.results (I.inside rule.inside) rule.chip };

    ghost Knows = { λ rule gate. Unit {0} };

    fn value<L: Ledger>(
        &self,
        gate: &EmuGate,
        values: &[NetMarks],
        steps: &mut Steps<L>,
    ) -> NetMarks {
        steps.tick();
        let what = subject_of(self.results, self.chip, gate.output);
        let marks = gate_mark(self.design, what, gate.inputs.as_slice(), values);
        widen(self.inside, what, marks)
    }
}

/// The marks of the gates of a chip that A12 goes by, of which none is widened. Takes a step for each gate and
/// input, and no memory.
#[derive(Drop)]
pub struct PlainRule<'a> {
    design: &'a Design,
    results: &'a Results,
    chip: ChipId,
}

impl<'a> Model for PlainRule<'a> {
    ghost use Rattle.mark_rule.specs.Gates.{OutputRule};

    ghost Value = { OutputRule };

    ghost view = { λ rule. record {
      design = rule.design.now;
      results = rule.results.now;
      chip = rule.chip.place;
    } };
}

impl<'a> PlainRule<'a> {
    /// The rule for a chip of results of a design.
    pub fn new(design: &'a Design, results: &'a Results, chip: ChipId) -> PlainRule<'a>
        ensures { result ≡ record {
          design = design.now;
          results = results.now;
          chip = chip.place;
        } }
    {
        PlainRule {
            design,
            results,
            chip,
        }
    }
}

impl<'a> ChipRule<NetMarks> for PlainRule<'a> {
    ghost gives = { λ rule. plain_gives rule.design rule.results rule.chip };

    ghost Knows = { λ rule gate. Unit {0} };

    fn value<L: Ledger>(
        &self,
        gate: &EmuGate,
        values: &[NetMarks],
        steps: &mut Steps<L>,
    ) -> NetMarks {
        steps.tick();
        let what = subject_of(self.results, self.chip, gate.output);
        plain_mark(self.design, what, gate.inputs.as_slice(), values)
    }
}
