//! JSON trees of lists and rows, and their texts.
ghost use Rattle.std.specs.Prelude.{◌≡◌, ◌++◌, false, IfOk, List, map};
ghost use Rattle.serde_json.specs.Data.{Data, object, no_members, put as with_member};
ghost use Rattle.serde_json.specs.View.{view};
ghost use Rattle.serde_json.specs.Written.{has_float};
ghost use Rattle.result_files.specs.Trees.{list};
ghost use Rattle.result_files.specs.Rows.{row_tree};
ghost use Rattle.result_files.specs.Printed.{line_of, AreAll};

use emu_io::NoMemory;
use serde_json::{Map, Value, put};
use std::alloc::Global;

/// What is written as a JSON tree.
pub(crate) trait Written {
    /// The tree.
    ghost tree: { Self → Data };

    /// Whether the value can be written.
    ghost IsWritable: { Self → Type 0 };

    /// The tree that the value is written as.
    fn written(&self, alloc: Global) -> Result<Value, NoMemory>
        requires { IsWritable self.now }
        ensures { IfOk result (λ value. view value ≡ tree self.now) };
}

/// The list of the trees of items.
pub(crate) fn list_of<T: Written>(alloc: Global, items: &[T]) -> Result<Value, NoMemory>
    requires { AreAll T.IsWritable items.now }
    ensures { IfOk result (λ value. view value ≡ list (map T.tree items.now)) }
{
    let mut values = Vec::new(alloc);
    'items: for place in 0..items.len() {
        values.push(items[place].written(alloc)?)?;
    }
    Ok(Value::Array(values))
}

/// The list of a name and numbers.
pub(crate) fn row_of(alloc: Global, name: &str, numbers: &[u32]) -> Result<Value, NoMemory>
    ensures { IfOk result (λ value. view value ≡ row_tree (name.now, numbers.now)) }
{
    let mut values = Vec::new(alloc);
    values.push(Value::try_from_str(alloc, name)?)?;
    'numbers: for number in numbers {
        values.push(Value::from(*number))?;
    }
    Ok(Value::Array(values))
}

/// The object of three members.
pub(crate) fn object_of(
    alloc: Global,
    first: (&str, Value),
    second: (&str, Value),
    third: (&str, Value),
) -> Result<Value, NoMemory>
    ensures { IfOk result (λ value. view value
        ≡ object (with_member third.entry.0.now (view third.entry.1)
        (with_member second.entry.0.now (view second.entry.1)
        (with_member first.entry.0.now (view first.entry.1) no_members)))) }
{
    let mut members = Map::new(alloc);
    put(&mut members, alloc, first.0, first.1)?;
    put(&mut members, alloc, second.0, second.1)?;
    put(&mut members, alloc, third.0, third.1)?;
    Ok(Value::Object(members))
}

/// The compact text of a tree, and a newline.
pub(crate) fn text_of(alloc: Global, tree: &Value) -> Result<Vec<u8>, NoMemory>
    requires { has_float (view tree.now) ≡ false }
    ensures { IfOk result (λ text. text.items ≡ line_of (view tree.now)) }
{
    let mut text = tree.to_vec(alloc)?;
    text.push(b'\n')?;
    Ok(text)
}
