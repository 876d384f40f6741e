//! The cut of a placement.
ghost use Rattle.std.specs.Prelude.{◌≡◌, ◌≤◌, ◌<◌, ◌+◌, ◌*◌, ◌^◌, ◌==◌, ℕ, All, IfOk, if◌then◌else◌, length, slice_index_or, slice_set};
ghost use Rattle.design_core.specs.Design.{net_count};
ghost use Rattle.gain_place.specs.Homes.{chip_at};
ghost use Rattle.gain_place.specs.Cut.{crossings, cut};
ghost use Rattle.gain_place.specs.Tables.{AreLoads};
ghost use Rattle.gain_place.specs.Spans.{stamp_at, spans};

use crate::loads::Loads;
use crate::pins::source;
use design_core::{Design, Placement};
use emu_io::NoMemory;
use id_arena::{ChipId, Key, NetId};
use std::alloc::Global;

/// How many chips read a net whose home is another chip, over all nets. It goes over all pins of all elements a
/// few times, and takes memory for as many chips as the highest of the placement.
pub fn cut(alloc: Global, design: &Design, placement: &Placement) -> Result<u64, NoMemory>
    requires { length placement.now ≡ length design.now.elements }
    ensures { IfOk result (λ n. n ≡ cut design.now placement.now) }
{
    let loads = Loads::of(alloc, design)?;
    let chips = placement.as_slice();
    let mut seen = vec![in alloc; 0; chip_bound(chips)]?;
    let mut total = 0;
    'nets: for net in 0..design.nets() {
        total += u64::from(net_crossings(design, &loads, chips, &mut seen, net));
    }
    Ok(total)
}

// A number above those of all chips of a placement.
fn chip_bound(chips: &[ChipId]) -> usize
    ensures below { (k : ℕ) → k < length chips.now → chip_at chips.now k < result }
    ensures small { result ≤ 2 ^ 32 }
{
    let mut bound = 0;
    'chips: for chip in chips {
        let next = chip.place() as usize + 1;
        if bound < next {
            bound = next;
        }
    }
    bound
}

// The number of readers of a net other than its home.
fn net_crossings(
    design: &Design,
    loads: &Loads,
    chips: &[ChipId],
    seen: &mut Vec<u32>,
    net: u32,
) -> u32
    requires loads { AreLoads design.now loads.now }
    requires net { net < net_count design.now }
    requires one_each { length chips.now ≡ length design.now.elements }
    requires fresh { (c : ℕ) → stamp_at seen.old.items c ≤ net }
    requires within { (k : ℕ) → k < length chips.now → chip_at chips.now k < length seen.old.items }
    requires small { length seen.old.items ≤ 2 ^ 32 }
    ensures crossings { result ≡ crossings design.now chips.now net }
    ensures few { result ≤ 200000 }
    ensures long { length seen.new.items ≡ length seen.old.items }
    ensures stamps { (c : ℕ) → stamp_at seen.new.items c ≤ net + 1 }
{
    design.stands();
    match source(design, NetId::of(net)) {
        None => 0,
        Some(_) => spanned(chips, loads.at_net(net), seen, net + 1) - 1,
    }
}

// The number of chips that some elements are on. The stamp is new, and marks those chips.
fn spanned(chips: &[ChipId], elems: &[u32], seen: &mut Vec<u32>, stamp: u32) -> u32
    requires elems { All (λ k. k < length chips.now) elems.now }
    requires many { length elems.now < 2 ^ 32 }
    requires fresh { (c : ℕ) → stamp_at seen.old.items c < stamp }
    requires within { (k : ℕ) → k < length chips.now → chip_at chips.now k < length seen.old.items }
    requires small { length seen.old.items ≤ 2 ^ 32 }
    ensures spans { result ≡ spans chips.now elems.now }
    ensures few { result ≤ length elems.now }
    ensures long { length seen.new.items ≡ length seen.old.items }
    ensures stamps { (c : ℕ) → stamp_at seen.new.items c ≤ stamp }
{
    let mut count = 0;
    'elems: for elem in elems {
        let chip = chips[*elem as usize];
        count += first_seen(seen, chip.place(), stamp);
    }
    count
}

/// Puts a stamp at a place, and tells 1 where it was not there.
pub(crate) fn first_seen(seen: &mut Vec<u32>, place: u32, stamp: u32) -> u32
    requires { place < length seen.old.items }
    ensures told { result ≡ (if stamp_at seen.old.items place == stamp then 0 else 1) }
    ensures put { seen.new.items ≡ slice_set seen.old.items place stamp }
{
    let count = if seen[place as usize] == stamp { 0 } else { 1 };
    seen[place as usize] = stamp;
    count
}
