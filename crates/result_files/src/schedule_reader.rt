//! The schedules of all five actions.
ghost use Rattle.std.specs.Prelude.{◌≡◌, ◌≢◌, ◌≤◌, ℕ, IfOk, IfSome, IsUtf8, List, codes, length, map, MatchOption};
ghost use Rattle.serde_json.specs.Data.{Data, string};
ghost use Rattle.serde_json.specs.View.{view};
ghost use Rattle.emu_machine.specs.declared.schedule.Action.{Action};
ghost use Rattle.result_files.specs.Lists.{SayEach};
ghost use Rattle.result_files.specs.Trees.{list, Finds, AreFew, HasMember};
ghost use Rattle.result_files.specs.Rows.{numbers_of};
ghost use Rattle.result_files.specs.Schedule.{action_row, IsActionTree, IsSlotTree, IsFrameTree, IsFrameOf, HasFrames, IsScheduleTree, IsBadSchedule, ScheduleAnswers, SchedulesAreToldApart};
ghost use Rattle.result_files.specs.Printed.{IsNamed, AreAll, AreNamed};
ghost use Rattle.result_files.specs.Readers.{Places, BadSlotAt, BadSlots, BadFrameAt, BadFrames};

use crate::fault::FormFault;
use crate::result_fault::ResultFault;
use crate::rows::{Numbers, read_row};
use crate::told::{ListFault, Told, read_told};
use crate::trees::{is_version_one, read_entries};
use emu_io::{List, Text};
use emu_machine::{Action, Frame, Schedule, Slot};
use id_arena::{ChipId, ChipNetId, MemId, NetId, RegId, WireId};
use json_members::{JsonFault, read_json};
use serde_json::Value;
use std::alloc::Global;

/// The schedule that a text stands for, as
/// `{"frames":[{"group":"*","slots":[[["input",0,0,2]]]}],"version":1}`. Other members are passed over,
/// and of members named twice the last counts. A refusal names the first fault. The names of the groups
/// are UTF-8, so that the schedule can be printed.
pub fn read_schedule(alloc: Global, bytes: &[u8]) -> Result<Schedule, ResultFault>
    ensures says { ScheduleAnswers bytes.now result }
    ensures named { IfOk result AreNamed }
{
    let tree = match read_json(alloc, bytes) {
        Ok(tree) => tree,
        Err(JsonFault::NotJson) => return Err(ResultFault::ScheduleNotJson),
        Err(JsonFault::NoMemory) => return Err(ResultFault::NoMemory),
    };
    if !is_version_one(&tree) {
        return Err(ResultFault::ScheduleVersion);
    }
    schedule_in(alloc, &tree)
}

/// The law that a text stands for at most one schedule.
pub fn schedules_are_told_apart()
    ensures { SchedulesAreToldApart }
{}

/// The schedule that a tree says.
fn schedule_in(alloc: Global, tree: &Value) -> Result<Schedule, ResultFault>
    ensures says { Places (IsScheduleTree (view tree.now)) (IsBadSchedule (view tree.now)) result }
    ensures named { IfOk result AreNamed }
{
    let Some(frames) = frames_of(tree) else {
        return Err(ResultFault::ScheduleForm {
            frame: 0,
            slot: 0,
            action: 0,
        });
    };
    let frames = read_frames(alloc, frames)?;
    Ok(Schedule { frames })
}

/// The trees of the frames.
fn frames_of(tree: &Value) -> Option<&[Value]>
    ensures frames { MatchOption result
        ((frames : List Data) → HasFrames (view tree.now) frames → ⊥)
        (λ frames. HasFrames (view tree.now) (map view frames.now)) }
    ensures few { IfSome result (λ frames. length frames.now ≤ 4294967295) }
{
    let member = tree.get("frames")?;
    read_entries(member)
}

/// The frames that trees say.
fn read_frames(alloc: Global, trees: &[Value]) -> Result<List<Frame>, ResultFault>
    requires { length trees.now ≤ 4294967295 }
    ensures says { Places (SayEach IsFrameTree (map view trees.now)) (BadFrames (map view trees.now)) result }
    ensures named { IfOk result (AreAll IsNamed) }
{
    let mut frames = List::new(alloc);
    'frames: for place in 0..trees.len() {
        let frame = read_frame(alloc, &trees[place], place as u32)?;
        frames.push(frame)?;
    }
    Ok(frames)
}

/// The frame of this number that a tree says.
fn read_frame(alloc: Global, tree: &Value, frame: u32) -> Result<Frame, ResultFault>
    ensures says { Places (IsFrameTree (view tree.now)) (BadFrameAt (view tree.now) frame) result }
    ensures named { IfOk result IsNamed }
{
    let Some((name, slots)) = frame_of(tree) else {
        return Err(ResultFault::ScheduleForm {
            frame,
            slot: 0,
            action: 0,
        });
    };
    let slots = read_slots(alloc, slots, frame)?;
    let group = Text::from_bytes(alloc, name.as_bytes())?;
    Ok(Frame { group, slots })
}

/// The name of a frame's group and the trees of its slots.
fn frame_of(tree: &Value) -> Option<(&str, &[Value])>
    ensures slots { MatchOption result
        ((slots : List Data) → IsFrameOf (view tree.now) slots → ⊥)
        (λ found. HasMember (codes "group") (string found.0.now) (view tree.now)
        × HasMember (codes "slots") (list (map view found.1.now)) (view tree.now)
        × AreFew (map view found.1.now)) }
    ensures few { IfSome result (λ found. length found.1.now ≤ 4294967295) }
    ensures named { IfSome result (λ found. IsUtf8 found.0.now) }
{
    let group = tree.get("group")?.as_str()?;
    let member = tree.get("slots")?;
    let slots = read_entries(member)?;
    Some((group, slots))
}

/// The slots of a frame that trees say.
fn read_slots(alloc: Global, trees: &[Value], frame: u32) -> Result<List<Slot>, ResultFault>
    requires { length trees.now ≤ 4294967295 }
    ensures { Places (SayEach IsSlotTree (map view trees.now)) (BadSlots (map view trees.now) frame) result }
{
    let mut slots = List::new(alloc);
    'slots: for place in 0..trees.len() {
        let slot = read_slot(alloc, &trees[place], frame, place as u32)?;
        slots.push(slot)?;
    }
    Ok(slots)
}

/// The slot of this number, in this frame, that a tree says.
fn read_slot(alloc: Global, tree: &Value, frame: u32, slot: u32) -> Result<Slot, ResultFault>
    ensures { Places (IsSlotTree (view tree.now)) (BadSlotAt (view tree.now) frame slot) result }
{
    let Some(actions) = read_entries(tree) else {
        return Err(ResultFault::ScheduleForm {
            frame,
            slot,
            action: 0,
        });
    };
    match read_told(alloc, actions) {
        Ok(actions) => Ok(Slot { actions }),
        Err(ListFault::Bad(action)) => Err(ResultFault::ScheduleForm {
            frame,
            slot,
            action,
        }),
        Err(ListFault::NoMemory) => Err(ResultFault::NoMemory),
    }
}

impl Told for Action {
    ghost use Rattle.result_files.specs.Schedule.{IsActionTree};

    ghost Says = { IsActionTree };

    fn told(_alloc: Global, tree: &Value) -> Result<Action, FormFault> {
        match read_action(tree) {
            Some(action) => Ok(action),
            None => Err(FormFault::NotYet),
        }
    }
}

/// The action that a tree says.
fn read_action(tree: &Value) -> Option<Action>
    ensures { Finds (IsActionTree (view tree.now)) result }
{
    let (name, numbers) = read_row(tree)?;
    action_of(name, numbers)
}

/// The action of this name and these numbers.
fn action_of(name: &str, numbers: Numbers) -> Option<Action>
    ensures { MatchOption result
        ((action : Action) → action_row action ≢ (name.now, numbers_of numbers))
        (λ action. action_row action ≡ (name.now, numbers_of numbers)) }
{
    match (name, numbers) {
        ("input", Numbers::Three(chip, register, net)) => Some(Action::Input {
            chip: ChipId { place: chip },
            register: RegId { place: register },
            net: NetId { place: net },
        }),
        ("load", Numbers::Two(chip, register)) => Some(Action::Load {
            chip: ChipId { place: chip },
            register: RegId { place: register },
        }),
        ("send", Numbers::Three(wire, net, register)) => Some(Action::Send {
            wire: WireId { place: wire },
            net: ChipNetId { place: net },
            register: RegId { place: register },
        }),
        ("write", Numbers::Three(chip, mem, port)) => Some(Action::Write {
            chip: ChipId { place: chip },
            mem: MemId { place: mem },
            port,
        }),
        ("read", Numbers::Three(chip, mem, port)) => Some(Action::Read {
            chip: ChipId { place: chip },
            mem: MemId { place: mem },
            port,
        }),
        _ => None,
    }
}
