//! Lists out of JSON trees, entry by entry, with the place of the first that says nothing.
ghost use Rattle.std.specs.Prelude.{◌≤◌, List, length, map};
ghost use Rattle.serde_json.specs.Data.{Data};
ghost use Rattle.serde_json.specs.View.{view};
ghost use Rattle.result_files.specs.Faults.{Answers};
ghost use Rattle.result_files.specs.Lists.{IsListOf, HasList};
ghost use Rattle.result_files.specs.Readers.{ListAnswers};

use crate::fault::FormFault;
use crate::trees::read_entries;
use emu_io::{List, NoMemory};
use serde_json::Value;
use std::alloc::Global;

/// Why a list said no values.
#[derive(Clone, Copy)]
pub(crate) enum ListFault {
    /// The first entry that says nothing.
    Bad(u32),
    NoMemory,
}

impl From<NoMemory> for ListFault {
    ghost use Rattle.std.specs.Prelude.{◌≡◌};
    ghost use Rattle.result_files.specs.declared.told.ListFault.TheVariants as fault;

    ghost from_gives = { λ _ e. e ≡ fault.NoMemory };

    fn from(_: NoMemory) -> ListFault {
        ListFault::NoMemory
    }
}

/// What an entry of a list in a text stands for.
pub(crate) trait Told: Drop {
    /// Which tree says which value.
    ghost Says: { Data → Self → Type 0 };

    /// The value that a tree says; `NotYet` exactly where it says none.
    fn told(alloc: Global, tree: &Value) -> Result<Self, FormFault>
        ensures { Answers (Says (view tree.now)) result };
}

/// What the entries say, in order, or the first that says nothing.
pub(crate) fn read_told<T: Told>(alloc: Global, trees: &[Value]) -> Result<List<T>, ListFault>
    requires { length trees.now ≤ 4294967295 }
    ensures { ListAnswers T.Says (map view trees.now) result }
{
    let mut values = List::new(alloc);
    'entries: for place in 0..trees.len() {
        match T::told(alloc, &trees[place]) {
            Ok(value) => values.push(value)?,
            Err(FormFault::NotYet) => return Err(ListFault::Bad(place as u32)),
            Err(FormFault::NoMemory) => return Err(ListFault::NoMemory),
        }
    }
    Ok(values)
}

/// What the entries of a tree that is a list say.
fn told_list<T: Told>(alloc: Global, tree: &Value) -> Result<List<T>, FormFault>
    ensures { Answers (IsListOf T.Says (view tree.now)) result }
{
    let Some(entries) = read_entries(tree) else {
        return Err(FormFault::NotYet);
    };
    match read_told(alloc, entries) {
        Ok(values) => Ok(values),
        Err(ListFault::Bad(_)) => Err(FormFault::NotYet),
        Err(ListFault::NoMemory) => Err(FormFault::NoMemory),
    }
}

/// What the entries of a list that is a member of an object say.
pub(crate) fn told_member<T: Told>(
    alloc: Global,
    tree: &Value,
    key: &str,
) -> Result<List<T>, FormFault>
    ensures { Answers (HasList key.now T.Says (view tree.now)) result }
{
    match tree.get(key) {
        Some(member) => told_list(alloc, member),
        None => Err(FormFault::NotYet),
    }
}
