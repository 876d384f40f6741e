//! The marks of the nets of all chips: what they come to through gates, and what free nets take.

ghost use Rattle.std.specs.Prelude.{◌≡◌, ◌<◌, ◌∷◌, [], length};
ghost use Rattle.chip_pass.specs.Chips.{ChipHasSettled, ChipOthersWait, IsChipPass};
ghost use Rattle.mark_rule.specs.Gates.{gate_gives};
ghost use Rattle.emu_machine.specs.Marks.{no_mark};
ghost use Rattle.emu_machine.specs.Netlist.{chip_at};
ghost use Rattle.frame_marks.specs.Tables.{AllOthersWait, AreChipTables, HaveSettled};
ghost use Rattle.frame_marks.specs.Takes.{AreFree, HavePut, IsFree};

use crate::slots::Plan;
use crate::tables::Given;
use chip_pass::ChipPass;
use gate_pass::Steps;
use id_arena::{ChipId, ChipNetId, Key};
use mark_rule::{Inside, MarkRule, NetMarks, subject_of, widen};
use std::sync::ledger::Ledger;

/// Gives each gate that waits its turn, in all chips.
pub(crate) fn settle_all<I: Inside, L: Ledger>(
    plan: Plan<'_>,
    inside: &I,
    chips: &mut [ChipPass<'_, NetMarks>],
    steps: &mut Steps<L>,
)
    requires tables { AreChipTables plan.results.now chips.old }
    requires others { AllOthersWait plan.design.now plan.results.now (I.inside inside.now) chips.old }
    ensures tables { AreChipTables plan.entry.results.now chips.new }
    ensures others { AllOthersWait plan.entry.design.now plan.entry.results.now (I.inside inside.now) chips.new }
    ensures settled { HaveSettled plan.entry.design.now plan.entry.results.now (I.inside inside.now) chips.old chips.new }
{
    plan.results.stand();
    'chips: for c in 0..chips.len() {
        let rule = MarkRule::new(plan.design, plan.results, ChipId::of(c as u32), inside);
        chips[c].settle_counted(&rule, steps);
    }
}

/// Lets free nets take what they are given. The first of several for one net counts, so they are put from the last
/// on.
pub(crate) fn put_given<I: Inside>(
    plan: Plan<'_>,
    inside: &I,
    given: &[Given<NetMarks>],
    chips: &mut [ChipPass<'_, NetMarks>],
)
    requires tables { AreChipTables plan.results.now chips.old }
    requires free { AreFree plan.results.now given.now }
    requires others { AllOthersWait plan.design.now plan.results.now (I.inside inside.now) chips.old }
    ensures tables { AreChipTables plan.entry.results.now chips.new }
    ensures others { AllOthersWait plan.entry.design.now plan.entry.results.now (I.inside inside.now) chips.new }
    ensures put { HavePut plan.entry.results.now (I.inside inside.now) given.now chips.old chips.new }
{
    let mut left = given.len();
    'given: while left > 0 {
        left -= 1;
        put(plan, inside, given[left], chips);
    }
}

/// Lets a free net take what it is given.
fn put<I: Inside>(
    plan: Plan<'_>,
    inside: &I,
    one: Given<NetMarks>,
    chips: &mut [ChipPass<'_, NetMarks>],
)
    requires tables { AreChipTables plan.results.now chips.old }
    requires free { IsFree plan.results.now one.chip.place one.place }
    requires others { AllOthersWait plan.design.now plan.results.now (I.inside inside.now) chips.old }
    ensures tables { AreChipTables plan.entry.results.now chips.new }
    ensures others { AllOthersWait plan.entry.design.now plan.entry.results.now (I.inside inside.now) chips.new }
    ensures put { HavePut plan.entry.results.now (I.inside inside.now) (one ∷ []) chips.old chips.new }
{
    let net = ChipNetId::of(one.place);
    let marks = widen(inside, subject_of(plan.results, one.chip, net), one.what);
    chips[one.chip.place as usize].set(net, marks);
}
