//! The texts of schedules.
ghost use Rattle.std.specs.Prelude.{◌≡◌, IfOk};
ghost use Rattle.serde_json.specs.View.{view};
ghost use Rattle.result_files.specs.Printed.{schedule_text, schedule_tree, AreNamed};

use crate::printed::{Written, list_of, row_of, text_of};
use emu_io::NoMemory;
use emu_machine::{Action, Frame, Schedule, Slot};
use serde_json::{Value, json};
use std::alloc::Global;

/// The text of a schedule, in compact JSON with a newline at its end.
#[tactic(auto, using(crate::proofs::Floats::schedule_fine))]
pub fn print_schedule(alloc: Global, schedule: &Schedule) -> Result<Vec<u8>, NoMemory>
    requires { AreNamed schedule.now }
    ensures { IfOk result (λ text. text.items ≡ schedule_text schedule.now) }
{
    let tree = tree_of(alloc, schedule)?;
    text_of(alloc, &tree)
}

/// The tree of a schedule.
#[tactic(auto, unfolding(crate::specs::Printed::schedule_tree))]
fn tree_of(alloc: Global, schedule: &Schedule) -> Result<Value, NoMemory>
    requires { AreNamed schedule.now }
    ensures { IfOk result (λ value. view value ≡ schedule_tree schedule.now) }
{
    let frames = list_of(alloc, schedule.frames.as_slice())?;
    Ok(json!(in alloc; {"frames": frames, "version": 1u32})?)
}

impl Written for Frame {
    ghost use Rattle.result_files.specs.Printed.{frame_tree, IsNamed};

    ghost tree = { frame_tree };

    ghost IsWritable = { IsNamed };

    #[tactic(auto, unfolding(crate::specs::Printed::frame_tree))]
    fn written(&self, alloc: Global) -> Result<Value, NoMemory> {
        let group = str::from_utf8(self.group.bytes()).unwrap();
        let slots = list_of(alloc, self.slots.as_slice())?;
        Ok(json!(in alloc; {"group": group, "slots": slots})?)
    }
}

impl Written for Slot {
    ghost use Rattle.result_files.specs.Printed.{slot_tree, Any};

    ghost tree = { slot_tree };

    ghost IsWritable = { Any };

    fn written(&self, alloc: Global) -> Result<Value, NoMemory> {
        list_of(alloc, self.actions.as_slice())
    }
}

impl Written for Action {
    ghost use Rattle.result_files.specs.Printed.{action_tree, Any};

    ghost tree = { action_tree };

    ghost IsWritable = { Any };

    fn written(&self, alloc: Global) -> Result<Value, NoMemory> {
        match *self {
            Action::Input {
                chip,
                register,
                net,
            } => row_of(alloc, "input", &[chip.place, register.place, net.place]),
            Action::Load { chip, register } => {
                row_of(alloc, "load", &[chip.place, register.place])
            }
            Action::Send {
                wire,
                net,
                register,
            } => row_of(alloc, "send", &[wire.place, net.place, register.place]),
            Action::Write { chip, mem, port } => {
                row_of(alloc, "write", &[chip.place, mem.place, port])
            }
            Action::Read { chip, mem, port } => {
                row_of(alloc, "read", &[chip.place, mem.place, port])
            }
        }
    }
}
