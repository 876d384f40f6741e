//! Names, which are texts of at least one byte.
ghost use Rattle.serde_json.specs.View.{view, items_view};
ghost use Rattle.json_members.specs.Members.{each};
ghost use Rattle.json_members.specs.Names.{name_of, name_member, names_member, optional_name_member};
ghost use Rattle.json_members.specs.Shapes.{Reads};

use crate::members::array_member;
use crate::shape::ShapeFault;
use emu_io::{List, Text};
use serde_json::Value;
use std::alloc::Global;

/// The name that a value is.
#[tactic(auto, unfolding(crate::specs::Names::name_of))]
pub fn name_of(alloc: Global, value: &Value) -> Result<Text, ShapeFault>
    ensures { Reads (name_of (view value.now)) result }
{
    let Some(text) = value.as_str() else {
        return Err(ShapeFault::BadShape);
    };
    if text.is_empty() {
        return Err(ShapeFault::BadShape);
    }
    Ok(Text::from_bytes(alloc, text.as_bytes())?)
}

/// The name that is an object's member under `key`.
#[tactic(auto, unfolding(crate::specs::Names::name_member))]
pub fn name_member(alloc: Global, value: &Value, key: &str) -> Result<Text, ShapeFault>
    ensures { Reads (name_member key.now (view value.now)) result }
{
    match value.get(key) {
        Some(member) => name_of(alloc, member),
        None => Err(ShapeFault::BadShape),
    }
}

/// The name that is an object's member under `key`, which may be left out.
#[tactic(auto, unfolding(crate::specs::Names::optional_name_member))]
pub fn optional_name_member(
    alloc: Global,
    value: &Value,
    key: &str,
) -> Result<Option<Text>, ShapeFault>
    ensures { Reads (optional_name_member key.now (view value.now)) result }
{
    match value.get(key) {
        Some(member) => Ok(Some(name_of(alloc, member)?)),
        None => Ok(None),
    }
}

/// The names in the list that is an object's member under `key`.
#[tactic(auto, unfolding(crate::specs::Names::names_member))]
pub fn names_member(alloc: Global, value: &Value, key: &str) -> Result<List<Text>, ShapeFault>
    ensures { Reads (names_member key.now (view value.now)) result }
{
    let Some(items) = array_member(value, key) else {
        return Err(ShapeFault::BadShape);
    };
    names_of(alloc, items)
}

/// The names that the values of a list are.
fn names_of(alloc: Global, values: &[Value]) -> Result<List<Text>, ShapeFault>
    ensures { Reads (each name_of (items_view values.now)) result }
{
    let mut names = List::new(alloc);
    'values: for value in values {
        names.push(name_of(alloc, value)?)?;
    }
    Ok(names)
}
