//! A4: the frames are those of the groups.

ghost use Rattle.std.specs.Prelude.{◌≡◌, ◌<◌, ◌&&◌, bytes_eq, length, nat_le, nat_lt, not, slice_get};
ghost use Rattle.design_core.specs.Influence.{all_groups};
ghost use Rattle.emu_machine.specs.Acceptance.{FailsA4, frame_differs};
ghost use Rattle.shape_check.specs.Frames.{fits};
ghost use Rattle.use_check.specs.Least.{IsLeast};

use crate::ShapeCase;
use emu_machine::{Frame, Place};

/// A4: frame `k` has the name of group `k` and 1 to the board's number of slots, the group of all inputs is
/// the last, and no frame is more or missing. The least number at which it is not so is named.
pub fn find_a4(case: &ShapeCase) -> Option<Place>
    ensures { IsLeast (FailsA4 case.now) result }
{
    let groups = case.groups();
    'each: for frame in 0..groups {
        if !fits(case, frame) {
            return Some(Place::Frame { frame });
        }
    }
    if case.frames().len() > groups as usize {
        return Some(Place::Frame { frame: groups });
    }
    None
}

/// Whether the frame of a group is there, and has its name and 1 to the board's number of slots.
fn fits(case: &ShapeCase, group: u32) -> bool
    requires { group < length (all_groups case.now.design case.now.groups) }
    ensures { result ≡ fits case.now group }
{
    let frames = case.frames();
    if group as usize >= frames.len() {
        return false;
    }
    has_form(
        &frames[group as usize],
        case.group_name(group),
        case.slots(),
    )
}

/// Whether a frame has this name and 1 to so many slots.
fn has_form(frame: &Frame, name: &[u8], slots: u32) -> bool
    ensures { result ≡ (bytes_eq frame.now.group name.now && nat_lt 0 (length frame.now.slots) && nat_le (length frame.now.slots) slots) }
{
    frame.group.bytes() == name && !frame.slots.is_empty() && frame.slots.len() <= u64::from(slots)
}
