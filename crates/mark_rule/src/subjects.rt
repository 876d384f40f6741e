//! What nets of chips stand for, and what stands behind a net of the design.
ghost use Rattle.std.specs.Prelude.{◌≡◌, option_copied, slice_get};
ghost use Rattle.design_core.specs.Design.{driver};
ghost use Rattle.emu_machine.specs.Mapped.{subject};

use design_core::{Design, Driver, Element};
use emu_machine::{Chip, ChipMap, Results, Subject};
use id_arena::{ChipId, ChipNetId, ElemId, NetId};

/// What a net of a chip stands for, if it is there.
pub fn subject_of(results: &Results, chip: ChipId, net: ChipNetId) -> Option<Subject>
    ensures { result ≡ subject results.now chip.place net.place }
{
    match entry_of(results, chip) {
        Some(entry) => entry.nets.as_slice().get(net.place as usize).copied(),
        None => None,
    }
}

/// A chip's netlist, if it is there.
pub(crate) fn chip_of(results: &Results, chip: ChipId) -> Option<&Chip>
    ensures { option_copied result ≡ slice_get results.now.net chip.place }
{
    results.net().chips().as_slice().get(chip.place as usize)
}

/// A chip's entry in the map, if it is there.
pub(crate) fn entry_of(results: &Results, chip: ChipId) -> Option<&ChipMap>
    ensures { option_copied result ≡ slice_get results.now.map.chips chip.place }
{
    results.map().chips.as_slice().get(chip.place as usize)
}

/// What drives a net of the design, also one that is not there.
pub(crate) fn driver_of(design: &Design, net: NetId) -> Driver
    ensures { result ≡ driver design.now net.place }
{
    design.stands();
    if net.place < design.nets() {
        design.driver(net)
    } else {
        Driver::Constant(false)
    }
}

/// An element of the design, if it is there.
pub(crate) fn element_of(design: &Design, elem: ElemId) -> Option<&Element>
    ensures { option_copied result ≡ slice_get design.now.elements elem.place }
{
    if elem.place < design.elems() {
        Some(design.elem(elem))
    } else {
        None
    }
}
