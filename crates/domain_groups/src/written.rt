//! The groups of a text as it tells them, not yet judged.
ghost use Rattle.std.specs.Prelude.{◌≡◌};
ghost use Rattle.std.specs.List.{list_all};
ghost use Rattle.serde_json.specs.Find.{as_str};
ghost use Rattle.serde_json.specs.View.{view, items_view};
ghost use Rattle.json_members.specs.Members.{each};
ghost use Rattle.json_members.specs.Shapes.{Reads};
ghost use Rattle.domain_groups.specs.Written.{is_name_byte, is_group_name, name_told, ports_told, group_told, groups_told};

use emu_io::{List, Text};
use json_members::{ShapeFault, array_member, text_member};
use serde_json::Value;
use std::alloc::Global;

/// The most bytes of a group's name.
const MOST_NAME: usize = 64;

/// A group by its name and the names of its ports.
#[derive(Debug, Drop)]
pub(crate) struct WrittenGroup {
    pub(crate) name: Text,
    pub(crate) ports: List<Text>,
}

/// The groups that a value tells.
#[tactic(auto, unfolding(crate::specs::Written::groups_told))]
pub(crate) fn groups_told(alloc: Global, tree: &Value) -> Result<List<WrittenGroup>, ShapeFault>
    ensures { Reads (groups_told (view tree.now)) result }
{
    match array_member(tree, "groups") {
        Some(items) => groups_from(alloc, items),
        None => Err(ShapeFault::BadShape),
    }
}

/// The groups that the values of a list tell.
fn groups_from(alloc: Global, values: &[Value]) -> Result<List<WrittenGroup>, ShapeFault>
    ensures { Reads (each group_told (items_view values.now)) result }
{
    let mut groups = List::new(alloc);
    'values: for value in values {
        groups.push(group_told(alloc, value)?)?;
    }
    Ok(groups)
}

/// The group that a value tells.
#[tactic(auto, unfolding(crate::specs::Written::group_told))]
fn group_told(alloc: Global, value: &Value) -> Result<WrittenGroup, ShapeFault>
    ensures { Reads (group_told (view value.now)) result }
{
    let name = name_told(alloc, value)?;
    let ports = ports_told(alloc, value)?;
    Ok(WrittenGroup { name, ports })
}

/// The name of a group.
#[tactic(auto, unfolding(crate::specs::Written::name_told))]
fn name_told(alloc: Global, value: &Value) -> Result<Text, ShapeFault>
    ensures { Reads (name_told (view value.now)) result }
{
    let Some(name) = text_member(value, "name") else {
        return Err(ShapeFault::BadShape);
    };
    if !is_group_name(name.as_bytes()) {
        return Err(ShapeFault::BadShape);
    }
    Ok(Text::from_bytes(alloc, name.as_bytes())?)
}

/// Whether a text may be the name of a group.
fn is_group_name(name: &[u8]) -> bool
    ensures { result ≡ is_group_name name.now }
{
    1 <= name.len() && name.len() <= MOST_NAME && are_name_bytes(name)
}

/// Whether all bytes may stand in the name of a group.
fn are_name_bytes(bytes: &[u8]) -> bool
    ensures { result ≡ list_all is_name_byte bytes.now }
{
    'bytes: for byte in bytes {
        if !(byte.is_ascii_alphanumeric() || *byte == b'_') {
            return false;
        }
    }
    true
}

/// The names of a group's ports.
#[tactic(auto, unfolding(crate::specs::Written::ports_told))]
fn ports_told(alloc: Global, value: &Value) -> Result<List<Text>, ShapeFault>
    ensures { Reads (ports_told (view value.now)) result }
{
    match array_member(value, "ports") {
        Some(items) => texts_from(alloc, items),
        None => Err(ShapeFault::BadShape),
    }
}

/// The texts that the values of a list are.
fn texts_from(alloc: Global, values: &[Value]) -> Result<List<Text>, ShapeFault>
    ensures { Reads (each as_str (items_view values.now)) result }
{
    let mut texts = List::new(alloc);
    'values: for value in values {
        texts.push(text_of(alloc, value)?)?;
    }
    Ok(texts)
}

/// The text that a value is.
fn text_of(alloc: Global, value: &Value) -> Result<Text, ShapeFault>
    ensures { Reads (as_str (view value.now)) result }
{
    let Some(text) = value.as_str() else {
        return Err(ShapeFault::BadShape);
    };
    Ok(Text::from_bytes(alloc, text.as_bytes())?)
}
