//! Lists of a name and some numbers, as actions and subjects are written.
ghost use Rattle.std.specs.Prelude.{◌≡◌, ◌≢◌, ◌≤◌, ℕ, List, length, map, MatchOption};
ghost use Rattle.serde_json.specs.View.{view};
ghost use Rattle.result_files.specs.Trees.{whole};
ghost use Rattle.result_files.specs.Rows.{Row, IsRow, IsShortRow, AreWords, numbers_of};

use crate::trees::{read_entries, read_word};
use serde_json::Value;

/// One to three numbers of 32 bits.
#[derive(Clone, Copy)]
pub(crate) enum Numbers {
    One(u32),
    Two(u32, u32),
    Three(u32, u32, u32),
}

/// The name and the one to three numbers of a list of them.
pub(crate) fn read_row(tree: &Value) -> Option<(&str, Numbers)>
    ensures { MatchOption result
        ((row : Row) → IsShortRow row → IsRow (view tree.now) row → ⊥)
        (λ found. IsRow (view tree.now) (found.0.now, numbers_of found.1)) }
{
    let entries = read_entries(tree)?;
    let (name, numbers) = entries.split_first()?;
    let numbers = read_numbers(numbers)?;
    let name = name.as_str()?;
    Some((name, numbers))
}

/// The numbers that one to three trees are.
fn read_numbers(trees: &[Value]) -> Option<Numbers>
    ensures { MatchOption result
        ((numbers : List ℕ) → 1 ≤ length numbers → length numbers ≤ 3 → AreWords numbers → map view trees.now ≢ map whole numbers)
        (λ found. AreWords (numbers_of found) × (map view trees.now ≡ map whole (numbers_of found))) }
{
    match trees {
        [first] => Some(Numbers::One(read_word(first)?)),
        [first, second] => Some(Numbers::Two(read_word(first)?, read_word(second)?)),
        [first, second, third] => Some(Numbers::Three(
            read_word(first)?,
            read_word(second)?,
            read_word(third)?,
        )),
        _ => None,
    }
}
