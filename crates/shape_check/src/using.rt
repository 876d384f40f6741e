//! A6: what is used in each slot.

ghost use Rattle.std.specs.Prelude.{◌≡◌, IfOk};
ghost use Rattle.emu_machine.specs.Acceptance.{FailsA1, FailsA4, FailsA5, FailsA6};
ghost use Rattle.use_check.specs.Least.{IsLeast, Never};

use crate::ShapeCase;
use emu_io::NoMemory;
use emu_machine::Place;
use std::alloc::Global;

/// A6: in a slot no wire, register or memory is used by two actions. The least action is named that uses a
/// thing in a slot in which an action before it uses it too, with that thing, a wire before a register.
/// Takes a step for each action, and for each frame one for each wire, register and memory.
pub fn find_a6(alloc: Global, case: &ShapeCase) -> Result<Option<Place>, NoMemory>
    requires chips { Never (FailsA1 case.now) }
    requires frames { Never (FailsA4 case.now) }
    requires actions { Never (FailsA5 case.now) }
    ensures { IfOk result (λ at. IsLeast (FailsA6 case.now) at) }
{
    case.stands();
    use_check::find_a6(alloc, case.board(), case.results())
}
