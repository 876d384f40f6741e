//! The members of a cell's JSON object, read one by one.

ghost use Rattle.std.specs.Prelude.{◌≡◌, Ok, Err, codes};
ghost use Rattle.serde_json.specs.View.{view};
ghost use Rattle.json_members.specs.Members.{all_of};
ghost use Rattle.json_members.specs.Shapes.{Reads};
ghost use Rattle.cell_table.specs.Members.{bit_of, edge_pin_member, edge_pin_of, high_of, level_pin_member, level_pin_of, optional_edge_pin_member, optional_level_pin_member, rise_of, table_member};

use crate::cell::{EdgePin, LevelPin};
use emu_io::List;
use json_members::{ShapeFault, name_member, text_member, word_member};
use serde_json::Value;
use std::alloc::Global;

/// A character of a table.
#[tactic(auto, unfolding(crate::specs::Members::bit_of))]
fn bit_from(character: u8) -> Result<bool, ShapeFault>
    ensures { Reads (bit_of character) result }
{
    match character {
        b'0' => Ok(false),
        b'1' => Ok(true),
        _ => Err(ShapeFault::BadShape),
    }
}

/// The bits of a table: bit i is character i.
fn bits_from(alloc: Global, characters: &[u8]) -> Result<List<bool>, ShapeFault>
    ensures { Reads (all_of bit_of characters.now) result }
{
    let mut bits = List::new(alloc);
    for character in characters {
        bits.push(bit_from(*character)?)?;
    }
    Ok(bits)
}

/// The table that is the member of this key.
#[tactic(auto, unfolding(crate::specs::Members::table_member))]
pub(crate) fn table_member(
    alloc: Global,
    value: &Value,
    key: &str,
) -> Result<List<bool>, ShapeFault>
    ensures { Reads (table_member key.now (view value.now)) result }
{
    match text_member(value, key) {
        Some(text) => bits_from(alloc, text.as_bytes()),
        None => Err(ShapeFault::BadShape),
    }
}

/// An edge: whether it is the rising one.
#[tactic(auto, unfolding(crate::specs::Members::rise_of))]
fn rise_from(edge: &str) -> Result<bool, ShapeFault>
    ensures { Reads (rise_of edge.now) result }
{
    match edge {
        "rise" => Ok(true),
        "fall" => Ok(false),
        _ => Err(ShapeFault::BadShape),
    }
}

/// A level: whether it is the high one.
#[tactic(auto, unfolding(crate::specs::Members::high_of))]
fn high_from(level: u32) -> Result<bool, ShapeFault>
    ensures { Reads (high_of level) result }
{
    match level {
        0 => Ok(false),
        1 => Ok(true),
        _ => Err(ShapeFault::BadShape),
    }
}

/// A pin with an edge.
#[tactic(auto, unfolding(crate::specs::Members::edge_pin_of))]
fn edge_pin_from(alloc: Global, value: &Value) -> Result<EdgePin, ShapeFault>
    ensures { Reads (edge_pin_of (view value.now)) result }
{
    let pin = name_member(alloc, value, "pin")?;
    let Some(edge) = text_member(value, "edge") else {
        return Err(ShapeFault::BadShape);
    };
    let rise = rise_from(edge)?;
    Ok(EdgePin { pin, rise })
}

/// The pin with an edge that is the member of this key.
#[tactic(auto, unfolding(crate::specs::Members::edge_pin_member))]
pub(crate) fn edge_pin_member(
    alloc: Global,
    value: &Value,
    key: &str,
) -> Result<EdgePin, ShapeFault>
    ensures { Reads (edge_pin_member key.now (view value.now)) result }
{
    match value.get(key) {
        Some(member) => edge_pin_from(alloc, member),
        None => Err(ShapeFault::BadShape),
    }
}

/// The pin with an edge that is the member of this key, which may be left out.
#[tactic(auto, unfolding(crate::specs::Members::optional_edge_pin_member))]
pub(crate) fn optional_edge_pin_member(
    alloc: Global,
    value: &Value,
    key: &str,
) -> Result<Option<EdgePin>, ShapeFault>
    ensures { Reads (optional_edge_pin_member key.now (view value.now)) result }
{
    match value.get(key) {
        Some(member) => Ok(Some(edge_pin_from(alloc, member)?)),
        None => Ok(None),
    }
}

/// A pin with a level.
#[tactic(auto, unfolding(crate::specs::Members::level_pin_of))]
fn level_pin_from(alloc: Global, value: &Value) -> Result<LevelPin, ShapeFault>
    ensures { Reads (level_pin_of (view value.now)) result }
{
    let pin = name_member(alloc, value, "pin")?;
    let Some(active) = word_member(value, "active") else {
        return Err(ShapeFault::BadShape);
    };
    let high = high_from(active)?;
    Ok(LevelPin { pin, high })
}

/// The pin with a level that is the member of this key.
#[tactic(auto, unfolding(crate::specs::Members::level_pin_member))]
pub(crate) fn level_pin_member(
    alloc: Global,
    value: &Value,
    key: &str,
) -> Result<LevelPin, ShapeFault>
    ensures { Reads (level_pin_member key.now (view value.now)) result }
{
    match value.get(key) {
        Some(member) => level_pin_from(alloc, member),
        None => Err(ShapeFault::BadShape),
    }
}

/// The pin with a level that is the member of this key, which may be left out.
#[tactic(auto, unfolding(crate::specs::Members::optional_level_pin_member))]
pub(crate) fn optional_level_pin_member(
    alloc: Global,
    value: &Value,
    key: &str,
) -> Result<Option<LevelPin>, ShapeFault>
    ensures { Reads (optional_level_pin_member key.now (view value.now)) result }
{
    match value.get(key) {
        Some(member) => Ok(Some(level_pin_from(alloc, member)?)),
        None => Ok(None),
    }
}
