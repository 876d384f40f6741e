//! The gain of a move.
ghost use Rattle.std.specs.Prelude.{◌≡◌, ◌≢◌, ◌≤◌, ◌<◌, ◌+◌, ℕ, All, count_by, length};
ghost use Rattle.gain_place.specs.Homes.{chip_at};
ghost use Rattle.gain_place.specs.Gain.{gain};
ghost use Rattle.gain_place.specs.Lists.{at};
ghost use Rattle.gain_place.specs.Tables.{AreLoads};
ghost use Rattle.gain_place.specs.Spans.{is_lone, other_on};

use crate::loads::Loads;
use crate::steps::Steps;
use design_core::{Design, Placement};
use history_law::drivers::driver_is_element;
use id_arena::{ChipId, ElemId, Key};
use std::sync::ledger::Ledger;

/// The gain of moving an element to another chip: at how many of its nets that have a home it is alone on its
/// chip, less at how many it would be alone on the other. It counts one step, takes no memory, and goes over
/// the elements at the element's nets.
pub fn gain_of<L: Ledger>(
    design: &Design,
    loads: &Loads,
    placement: &Placement,
    elem: ElemId,
    to: ChipId,
    steps: &mut Steps<L>,
) -> i64
    requires loads { AreLoads design.now loads.now }
    requires elem { elem.place < length design.now.elements }
    requires one_each { length placement.now ≡ length design.now.elements }
    requires chips { (k : ℕ) → k < length placement.now → chip_at placement.now k < 16 }
    requires to { to.place < 16 }
    requires other { chip_at placement.now elem.place ≢ to.place }
    ensures gain { result ≡ gain design.now placement.now (record { elem = elem; to = to }) }
    ensures step { steps.new ≡ steps.old + 1 }
{
    design.stands();
    driver_is_element();
    steps.tick();
    let chips = placement.as_slice();
    let from = chips[elem.place() as usize];
    let nets = loads.at_element(elem.place());
    let won = lone_nets(loads, chips, nets, elem, from);
    let lost = lone_nets(loads, chips, nets, elem, to);
    i64::from(won) - i64::from(lost)
}

// At how many of these nets no other element is on a chip.
fn lone_nets(loads: &Loads, chips: &[ChipId], nets: &[u32], elem: ElemId, chip: ChipId) -> u32
    requires nets { All (λ n. n < length loads.now.loads) nets.now }
    requires there { (n : ℕ) → n < length loads.now.loads → All (λ k. k < length chips.now) (at loads.now.loads n) }
    requires few { length nets.now ≤ 400000 }
    ensures count { result ≡ count_by (is_lone loads.now.loads chips.now elem.place chip.place) nets.now }
    ensures few { result ≤ length nets.now }
{
    let mut count = 0;
    'nets: for net in nets {
        if !has_other(chips, loads.at_net(*net), elem, chip) {
            count += 1;
        }
    }
    count
}

// Whether one of some elements, other than this one, is on a chip.
fn has_other(chips: &[ChipId], elems: &[u32], elem: ElemId, chip: ChipId) -> bool
    requires { All (λ k. k < length chips.now) elems.now }
    ensures { result ≡ other_on chips.now elem.place chip.place elems.now }
{
    'elems: for other in elems {
        if *other != elem.place() && chips[*other as usize].place() == chip.place() {
            return true;
        }
    }
    false
}
