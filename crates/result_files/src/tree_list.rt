//! Lists out of JSON trees, entry by entry.
ghost use Rattle.std.specs.Prelude.{List, codes, map};
ghost use Rattle.serde_json.specs.Data.{Data};
ghost use Rattle.serde_json.specs.View.{view};
ghost use Rattle.result_files.specs.Faults.{Answers};
ghost use Rattle.result_files.specs.Lists.{SayEach, IsListOf, HasList};

use crate::fault::FormFault;
use crate::trees::read_entries;
use emu_io::List;
use serde_json::Value;
use std::alloc::Global;

/// What an entry of a list in a text stands for.
pub(crate) trait FromTree: Drop {
    /// Which tree says which value.
    ghost Says: { Data → Self → Type 0 };

    /// The value that a tree says; `NotYet` exactly where it says none.
    fn from_tree(alloc: Global, tree: &Value) -> Result<Self, FormFault>
        ensures { Answers (Says (view tree.now)) result };
}

/// What the entries say, in order; `NotYet` exactly where an entry says nothing.
fn read_each<T: FromTree>(alloc: Global, entries: &[Value]) -> Result<List<T>, FormFault>
    ensures { Answers (SayEach T.Says (map view entries.now)) result }
{
    let mut values = List::new(alloc);
    'entries: for entry in entries {
        values.push(T::from_tree(alloc, entry)?)?;
    }
    Ok(values)
}

/// What the entries of a tree that is a list say.
pub(crate) fn read_list<T: FromTree>(alloc: Global, tree: &Value) -> Result<List<T>, FormFault>
    ensures { Answers (IsListOf T.Says (view tree.now)) result }
{
    match read_entries(tree) {
        Some(entries) => read_each(alloc, entries),
        None => Err(FormFault::NotYet),
    }
}

/// What the entries of a list that is a member of an object say.
pub(crate) fn read_member_list<T: FromTree>(
    alloc: Global,
    tree: &Value,
    key: &str,
) -> Result<List<T>, FormFault>
    ensures { Answers (HasList key.now T.Says (view tree.now)) result }
{
    match tree.get(key) {
        Some(member) => read_list(alloc, member),
        None => Err(FormFault::NotYet),
    }
}
