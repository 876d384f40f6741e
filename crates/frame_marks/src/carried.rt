//! The marks that wires carry.

ghost use Rattle.std.specs.Prelude.{◌≡◌, ◌<◌, All, length, Some, slice_get};
ghost use Rattle.frame_marks.specs.Standing.{CanSend};
ghost use Rattle.frame_marks.specs.Tables.{AreChipTables};
ghost use Rattle.frame_marks.specs.Takes.{SendsAll, SendsOne};

use crate::parts::ends_of;
use crate::slots::Plan;
use crate::tables::mark_on;
use chip_pass::ChipPass;
use emu_machine::Action;
use id_arena::Key;
use mark_rule::NetMarks;

/// Puts on each wire that an action sends over the marks of its net. The actions are done from the last on, so
/// that of several over one wire the first counts.
pub(crate) fn send_all(
    plan: Plan<'_>,
    chips: &[ChipPass<'_, NetMarks>],
    actions: &[Action],
    carried: &mut [NetMarks],
)
    requires tables { AreChipTables plan.results.now chips.now }
    requires actions { All (CanSend plan.wires.now chips.now) actions.now }
    requires carried { length carried.old ≡ length plan.wires.now }
    ensures size { length carried.new ≡ length plan.entry.wires.now }
    ensures sent { SendsAll plan.entry.design.now plan.entry.results.now plan.entry.wires.now chips.now actions.now carried.old carried.new }
{
    let mut left = actions.len();
    'actions: while left > 0 {
        left -= 1;
        send(plan, chips, actions[left], carried);
    }
}

/// Puts on the wire that an action sends over, if it does, the marks of its net.
fn send(plan: Plan<'_>, chips: &[ChipPass<'_, NetMarks>], action: Action, carried: &mut [NetMarks])
    requires tables { AreChipTables plan.results.now chips.now }
    requires action { CanSend plan.wires.now chips.now action }
    requires carried { length carried.old ≡ length plan.wires.now }
    ensures size { length carried.new ≡ length plan.entry.wires.now }
    ensures sent { SendsOne plan.entry.design.now plan.entry.results.now plan.entry.wires.now chips.now action carried.old carried.new }
{
    match action {
        Action::Send { wire, net, .. } => {
            let ends = ends_of(plan.wires, wire);
            carried[wire.place() as usize] = mark_on(chips, ends.from, net);
        }
        Action::Input { .. } | Action::Load { .. } | Action::Write { .. } | Action::Read { .. } =>
            {}
    }
}
