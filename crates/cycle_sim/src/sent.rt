//! What the actions of a slot put on wires.

ghost use Rattle.std.specs.Prelude.{◌≡◌, All, length};
ghost use Rattle.emu_machine.specs.Results.{Results};
ghost use Rattle.cycle_sim.specs.Standing.{CanSend};
ghost use Rattle.cycle_sim.specs.Passes.{rows_of};
ghost use Rattle.cycle_sim.specs.Takes.{HasSent, HasSentOne};

use crate::gates::value_of;
use crate::taken::{action_at, ends_of, table_of};
use chip_pass::ChipPass;
use emu_machine::Action;
use id_arena::{Key, Wire};

/// Puts on each wire that an action sends over the value that its net shows. The actions are done from the
/// last on, so that of several over one wire the first counts.
#[tactic(auto, using(crate::proofs::Sending::nothing_yet))]
pub(crate) fn send_all(
    wires: &[Wire],
    shown: &[ChipPass<'_, bool>],
    actions: &[Action],
    carried: &mut [bool],
)
    requires actions { All (CanSend wires.now (rows_of shown.now)) actions.now }
    requires carried { length carried.old ≡ length wires.now }
    ensures size { length carried.new ≡ length wires.now }
    ensures sent { (r : Results) → HasSent r wires.now (rows_of shown.now) actions.now carried.old carried.new }
{
    let mut left = actions.len();
    'actions: while left > 0 {
        left -= 1;
        send(wires, shown, action_at(actions, left), carried);
    }
}

/// Puts on the wire that an action sends over, if it does, the value that its net shows.
fn send(wires: &[Wire], shown: &[ChipPass<'_, bool>], action: &Action, carried: &mut [bool])
    requires action { CanSend wires.now (rows_of shown.now) action.now }
    requires carried { length carried.old ≡ length wires.now }
    ensures size { length carried.new ≡ length wires.now }
    ensures sent { (r : Results) → HasSentOne r wires.now (rows_of shown.now) action.now carried.old carried.new }
{
    match *action {
        Action::Send { wire, net, .. } => {
            let ends = ends_of(wires, wire);
            carried[wire.place() as usize] = value_of(table_of(shown, ends.from), net);
        }
        Action::Input { .. } | Action::Load { .. } | Action::Write { .. } | Action::Read { .. } =>
            {}
    }
}
