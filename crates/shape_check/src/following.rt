//! A11: the frames, followed one after the other.

ghost use Rattle.std.specs.Prelude.{◌≡◌, ◌<◌, ◌∷◌, [], IfOk, length};
ghost use Rattle.emu_machine.specs.Acceptance.{FailsA11, FailsA2, FailsA4, FailsA5};
ghost use Rattle.use_check.specs.Least.{IsLeast, IsLeastUnder, Never};
ghost use Rattle.shape_check.specs.Ends.{AreMarksOf};
ghost use Rattle.shape_check.specs.Influences.{inside_of};

use crate::ShapeCase;
use crate::ends::find_at_end;
use crate::frame_end::FrameEnd;
use crate::influences::{FrameInfluence, Influences};
use emu_io::NoMemory;
use emu_machine::Place;
use frame_marks::FrameMarks;
use std::alloc::Global;

/// A11: at the end of each frame what is kept has "after", and each memory is unbroken with all its writes done.
/// The least frame is named at whose end something does not, with the least chip, and there the least register,
/// else the least memory, itself or its least read port. Takes a step for each frame and each net, register, bit
/// and gate, and for each slot one for each action and each gate of which an input changed its marks.
pub(crate) fn find_a11<'a>(
    alloc: Global,
    case: &'a ShapeCase<'a>,
    influences: &'a Influences<'a>,
) -> Result<Option<Place>, NoMemory>
    requires cycles { Never (FailsA2 case.now) }
    requires frames { Never (FailsA4 case.now) }
    requires actions { Never (FailsA5 case.now) }
    ensures { IfOk result (λ at. IsLeast (FailsA11 case.now (inside_of influences.now)) at) }
{
    case.stands();
    let wires = case.board().all_wires();
    let mut marks = FrameMarks::new(alloc, case.design(), case.results(), wires)?;
    'frames: for k in 0..case.frames().len() {
        if let Some(at) = find_in_frame(alloc, case, influences, &mut marks, k as u32)? {
            return Ok(Some(at));
        }
    }
    Ok(None)
}

/// The same of one frame, which is followed from its start.
fn find_in_frame<'a>(
    alloc: Global,
    case: &'a ShapeCase<'a>,
    influences: &'a Influences<'a>,
    marks: &mut FrameMarks<'a>,
    frame: u32,
) -> Result<Option<Place>, NoMemory>
    requires frame { frame < length case.now.results.schedule.frames }
    requires actions { Never (FailsA5 case.now) }
    requires marks { AreMarksOf case.now marks.old }
    ensures marks { AreMarksOf case.now marks.new }
    ensures found { IfOk result (λ at. IsLeastUnder (FailsA11 case.now (inside_of influences.now)) (frame ∷ []) at) }
{
    let influence = FrameInfluence::new(influences, frame);
    marks.follow(alloc, &influence, frame)?;
    let end = FrameEnd::new(case, influences, marks, frame);
    Ok(find_at_end(&end))
}
