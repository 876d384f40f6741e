//! A2: no gate lies on a cycle of gates.

ghost use Rattle.std.specs.Prelude.{◌≡◌, IfOk};
ghost use Rattle.emu_machine.specs.Acceptance.{FailsA2};
ghost use Rattle.emu_machine.specs.Netlist.{chip_at};
ghost use Rattle.gate_cycles.specs.Gates.{IsLeastOnCycle};
ghost use Rattle.use_check.specs.Least.{IsLeast};

use crate::ShapeCase;
use emu_io::NoMemory;
use emu_machine::Place;
use gate_cycles::least_cyclic_gate;
use id_arena::{ChipId, Key};
use std::alloc::Global;

/// A2: no gate lies on a cycle of gates. The least gate that does is named, by chip and then by number; a gate
/// that a cycle feeds does not. Takes a step for each net, gate and input of a gate.
pub fn find_a2(alloc: Global, case: &ShapeCase) -> Result<Option<Place>, NoMemory>
    ensures { IfOk result (λ at. IsLeast (FailsA2 case.now) at) }
{
    'each: for k in 0..case.modules() {
        let chip = ChipId::of(k);
        if let Some(gate) = least_gate(alloc, case, chip)? {
            return Ok(Some(Place::Gate { chip, gate }));
        }
    }
    Ok(None)
}

/// The least gate of a chip that lies on a cycle of gates, if there is one.
fn least_gate(alloc: Global, case: &ShapeCase, chip: ChipId) -> Result<Option<u32>, NoMemory>
    ensures { IfOk result (λ found. IsLeastOnCycle (chip_at case.now.results.net chip.place) found) }
{
    case.stands();
    match case.chip(chip) {
        Some(found) => least_cyclic_gate(alloc, found),
        None => Ok(None),
    }
}
