//! Tables of lists of numbers.
ghost use Rattle.std.specs.Prelude.{◌≡◌, ◌<◌, ℕ, [], All, IfOk, OnOk, length, replicate, slice_set, false};
ghost use Rattle.gain_place.specs.Lists.{at, is_last, with_last, HasUnder};

use emu_io::{List, NoMemory};
use std::alloc::Global;

/// So many empty lists.
pub(crate) fn empty_lists(alloc: Global, count: u32) -> Result<Vec<List<u32>>, NoMemory>
    ensures { IfOk result (λ lists. lists.items ≡ replicate count []) }
{
    let mut lists = Vec::new(alloc);
    'lists: for _ in 0..count {
        lists.push(List::new(alloc))?;
    }
    Ok(lists)
}

/// Puts a number at the end of the list of each of these heads, once where a head comes again.
pub(crate) fn put_under(
    table: &mut Vec<List<u32>>,
    heads: &[u32],
    number: u32,
) -> Result<(), NoMemory>
    requires heads { All (λ head. head < length table.old.items) heads.now }
    requires fresh { (head : ℕ) → is_last number (at table.old.items head) ≡ false }
    ensures { OnOk result (HasUnder heads.now number table.old.items table.new.items) }
{
    'heads: for head in heads {
        put_once(table, *head, number)?;
    }
    Ok(())
}

// Puts a number at the end of one list, unless it stands there.
fn put_once(table: &mut Vec<List<u32>>, head: u32, number: u32) -> Result<(), NoMemory>
    requires { head < length table.old.items }
    ensures { OnOk result (table.new.items ≡ slice_set table.old.items head (with_last number (at table.old.items head))) }
{
    if ends_in(table[head as usize].as_slice(), number) {
        return Ok(());
    }
    table[head as usize].push(number)?;
    Ok(())
}

// Whether a number is the last of a list.
fn ends_in(list: &[u32], number: u32) -> bool
    ensures { result ≡ is_last number list.now }
{
    match list.last() {
        Some(last) => *last == number,
        None => false,
    }
}
