//! A1: the number of modules.

ghost use Rattle.std.specs.Prelude.{◌≡◌};
ghost use Rattle.emu_machine.specs.Acceptance.{FailsA1};
ghost use Rattle.use_check.specs.Least.{IsLeast};

use crate::ShapeCase;
use emu_machine::Place;

/// A1: there are as many modules as chips on the board. The one place where the rule fails is told with
/// the number of modules.
pub fn find_a1(case: &ShapeCase) -> Option<Place>
    ensures { IsLeast (FailsA1 case.now) result }
{
    let modules = case.modules();
    if modules == case.chips() {
        None
    } else {
        Some(Place::Chips { modules })
    }
}
