//! A12: what the nets of the outputs show.

ghost use Rattle.std.specs.Prelude.{◌≡◌, ◌≤◌, IfOk, length};
ghost use Rattle.emu_machine.specs.Acceptance.{FailsA12, FailsA2, FailsA9};
ghost use Rattle.use_check.specs.Least.{IsLeast, Never};

use crate::ShapeCase;
use emu_io::NoMemory;
use emu_machine::{Place, Spot};
use output_marks::OutputMarks;
use std::alloc::Global;

/// A12: "before" comes to the net of each output from what is kept, through gates alone. The least output is named
/// to which it does not. Takes a step for each net, register, bit and output, and one for each gate and input.
pub(crate) fn find_a12(alloc: Global, case: &ShapeCase) -> Result<Option<Place>, NoMemory>
    requires cycles { Never (FailsA2 case.now) }
    requires mapped { Never (FailsA9 case.now) }
    ensures { IfOk result (λ at. IsLeast (FailsA12 case.now) at) }
{
    case.stands();
    let marks = OutputMarks::new(alloc, case.design(), case.results())?;
    Ok(find_output(case, &marks, case.outputs()))
}

/// The least output whose net does not show the state from before.
fn find_output(case: &ShapeCase, marks: &OutputMarks, spots: &[Spot]) -> Option<Place>
    requires marks { marks.now ≡ record { design = case.now.design; results = case.now.results } }
    requires spots { spots.now ≡ case.now.results.map.outputs }
    requires few { length spots.now ≤ 4294967295 }
    ensures { IsLeast (FailsA12 case.now) result }
{
    'each: for k in 0..spots.len() {
        if !marks.shows(spots[k]) {
            return Some(Place::Output { output: k as u32 });
        }
    }
    None
}
