//! The schedules of `input` actions alone, with any number of frames, slots and actions.
ghost use Rattle.std.specs.Prelude.{◌≡◌, ℕ, IfOk, List, codes, MatchOption};
ghost use Rattle.serde_json.specs.Data.{string};
ghost use Rattle.serde_json.specs.View.{view};
ghost use Rattle.emu_machine.specs.Plain.{IsPlainSchedule};
ghost use Rattle.result_files.specs.Faults.{Answers};
ghost use Rattle.result_files.specs.Trees.{Finds, HasMember};
ghost use Rattle.result_files.specs.PlainSchedule.{IsActionTree, IsSlotTree, IsFrameTree, IsScheduleTree, SaysSchedule, TextsTellSchedulesApart};

use crate::fault::FormFault;
use crate::tree_list::{FromTree, read_list, read_member_list};
use crate::trees::{is_version_one, read_four, read_word};
use emu_io::Text;
use emu_machine::{Action, Frame, Schedule, Slot};
use id_arena::{ChipId, NetId, RegId};
use json_members::read_json;
use serde_json::Value;
use std::alloc::Global;

/// The schedule that a text stands for, as
/// `{"version":1,"frames":[{"group":"*","slots":[[["input",0,0,2]]]}]}`. All actions are `input`.
/// Other members are passed over, and of members named twice the last counts. `NotYet` exactly where
/// the text is no such one.
pub fn read_plain_schedule(alloc: Global, bytes: &[u8]) -> Result<Schedule, FormFault>
    ensures says { Answers (SaysSchedule bytes.now) result }
    ensures plain { IfOk result IsPlainSchedule }
{
    let tree = read_json(alloc, bytes)?;
    read_schedule(alloc, &tree)
}

/// The law that a text stands for at most one schedule.
pub fn plain_schedules_are_told_apart()
    ensures { TextsTellSchedulesApart }
{}

/// The schedule that a tree says.
fn read_schedule(alloc: Global, tree: &Value) -> Result<Schedule, FormFault>
    ensures { Answers (IsScheduleTree (view tree.now)) result }
{
    if !is_version_one(tree) {
        return Err(FormFault::NotYet);
    }
    let frames = read_member_list(alloc, tree, "frames")?;
    Ok(Schedule { frames })
}

impl FromTree for Frame {
    ghost use Rattle.result_files.specs.PlainSchedule.{IsFrameTree};

    ghost Says = { IsFrameTree };

    fn from_tree(alloc: Global, tree: &Value) -> Result<Frame, FormFault> {
        let Some(name) = read_group(tree) else {
            return Err(FormFault::NotYet);
        };
        let slots = read_member_list(alloc, tree, "slots")?;
        let group = Text::from_bytes(alloc, name.as_bytes())?;
        Ok(Frame { group, slots })
    }
}

/// The name of a frame's group.
fn read_group(frame: &Value) -> Option<&str>
    ensures { MatchOption result
        ((group : List ℕ) → HasMember (codes "group") (string group) (view frame.now) → ⊥)
        (λ group. HasMember (codes "group") (string group.now) (view frame.now)) }
{
    let group = frame.get("group")?;
    group.as_str()
}

impl FromTree for Slot {
    ghost use Rattle.result_files.specs.PlainSchedule.{IsSlotTree};

    ghost Says = { IsSlotTree };

    fn from_tree(alloc: Global, tree: &Value) -> Result<Slot, FormFault> {
        let actions = read_list(alloc, tree)?;
        Ok(Slot { actions })
    }
}

impl FromTree for Action {
    ghost use Rattle.result_files.specs.PlainSchedule.{IsActionTree};

    ghost Says = { IsActionTree };

    fn from_tree(_alloc: Global, tree: &Value) -> Result<Action, FormFault> {
        match read_input(tree) {
            Some(action) => Ok(action),
            None => Err(FormFault::NotYet),
        }
    }
}

/// The `input` action that a tree says.
fn read_input(tree: &Value) -> Option<Action>
    ensures { Finds (IsActionTree (view tree.now)) result }
{
    let (name, chip, register, net) = read_four(tree)?;
    if name.as_str()? != "input" {
        return None;
    }
    let place = read_word(chip)?;
    let chip = ChipId { place };
    let place = read_word(register)?;
    let register = RegId { place };
    let place = read_word(net)?;
    let net = NetId { place };
    Some(Action::Input {
        chip,
        register,
        net,
    })
}
