//! Lists of so many entries, and numbers of 32 bits, out of JSON trees.
ghost use Rattle.std.specs.Prelude.{◌≡◌, ◌≢◌, ◌↔◌, List, [], ◌∷◌, length, map, codes, IfSome, IsTrue, MatchOption};
ghost use Rattle.serde_json.specs.Data.{Data};
ghost use Rattle.serde_json.specs.View.{view};
ghost use Rattle.result_files.specs.Trees.{list, whole, AreFew, IsWordTree, Finds, HasMember};

use json_members::{array_of, word_member, word_of};
use serde_json::Value;

/// The number of 32 bits that a tree is.
pub(crate) fn read_word(tree: &Value) -> Option<u32>
    ensures { Finds (IsWordTree (view tree.now)) result }
{
    word_of(tree)
}

/// The entries of a tree that is a list, of which there are at most 4,294,967,295.
pub(crate) fn read_entries(tree: &Value) -> Option<&[Value]>
    ensures entries { MatchOption result
        ((entries : List Data) → AreFew entries → view tree.now ≢ list entries)
        (λ entries. view tree.now ≡ list (map view entries.now)) }
    ensures few { IfSome result (λ entries. AreFew (map view entries.now)) }
{
    array_of(tree)
}

/// The entry of a list that has only one.
pub(crate) fn read_only(tree: &Value) -> Option<&Value>
    ensures { MatchOption result
        ((entry : Data) → view tree.now ≢ list (entry ∷ []))
        (λ entry. view tree.now ≡ list (view entry.now ∷ [])) }
{
    let entries = read_entries(tree)?;
    only_entry(entries)
}

/// The entries of a list that has two.
pub(crate) fn read_two(tree: &Value) -> Option<(&Value, &Value)>
    ensures { MatchOption result
        ((first second : Data) → view tree.now ≢ list (first ∷ second ∷ []))
        (λ pair. view tree.now ≡ list (view pair.0.now ∷ view pair.1.now ∷ [])) }
{
    let entries = read_entries(tree)?;
    two_entries(entries)
}

/// The entries of a list that has four.
pub(crate) fn read_four(tree: &Value) -> Option<(&Value, &Value, &Value, &Value)>
    ensures { MatchOption result
        ((first second third fourth : Data) → view tree.now ≢ list (first ∷ second ∷ third ∷ fourth ∷ []))
        (λ four. view tree.now ≡ list (view four.0.now ∷ view four.1.now ∷ view four.2.now ∷ view four.3.now ∷ [])) }
{
    let entries = read_entries(tree)?;
    four_entries(entries)
}

/// Whether a tree is a list with no entry.
pub(crate) fn is_empty_list(tree: &Value) -> bool
    ensures { IsTrue result ↔ (view tree.now ≡ list []) }
{
    match read_entries(tree) {
        Some(entries) => entries.is_empty(),
        None => false,
    }
}

/// Whether a tree is an object whose version is the number 1.
pub(crate) fn is_version_one(tree: &Value) -> bool
    ensures { IsTrue result ↔ HasMember (codes "version") (whole 1) (view tree.now) }
{
    match word_member(tree, "version") {
        Some(version) => version == 1,
        None => false,
    }
}

/// The only entry of a slice.
fn only_entry(entries: &[Value]) -> Option<&Value>
    ensures { MatchOption result (length entries.now ≢ 1) (λ entry. entries.now ≡ entry.now ∷ []) }
{
    match entries {
        [entry] => Some(entry),
        _ => None,
    }
}

/// The two entries of a slice.
fn two_entries(entries: &[Value]) -> Option<(&Value, &Value)>
    ensures { MatchOption result (length entries.now ≢ 2)
        (λ pair. entries.now ≡ pair.0.now ∷ pair.1.now ∷ []) }
{
    match entries {
        [first, second] => Some((first, second)),
        _ => None,
    }
}

/// The four entries of a slice.
fn four_entries(entries: &[Value]) -> Option<(&Value, &Value, &Value, &Value)>
    ensures { MatchOption result (length entries.now ≢ 4)
        (λ four. entries.now ≡ four.0.now ∷ four.1.now ∷ four.2.now ∷ four.3.now ∷ []) }
{
    match entries {
        [first, second, third, fourth] => Some((first, second, third, fourth)),
        _ => None,
    }
}
