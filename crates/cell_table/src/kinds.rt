//! The five kinds of cells, read from their JSON objects.

ghost use Rattle.std.specs.Prelude.{◌≡◌, Ok, Err};
ghost use Rattle.serde_json.specs.View.{view, items_view};
ghost use Rattle.json_members.specs.Members.{each};
ghost use Rattle.json_members.specs.Shapes.{Reads};
ghost use Rattle.cell_table.specs.Kinds.{address_of, comb_of, feed_of, flop_of, gate_clock_of, latch_of, memory_of, named_kind_of, out_of, outs_member, read_clock_of, read_of, reads_member, state_of, table_feed_of, write_of, writes_member, written_of};

use crate::cell::{CellRead, CellWrite, EdgePin};
use crate::members::{
    edge_pin_member, level_pin_member, optional_edge_pin_member, optional_level_pin_member,
    table_member,
};
use crate::written::{WrittenCell, WrittenFeed, WrittenKind, WrittenOut, WrittenState};
use emu_io::{List, Text};
use json_members::{
    ShapeFault, array_member, name_member, name_of, names_member, optional_name_member,
    text_member, word_member,
};
use serde_json::Value;
use std::alloc::Global;

/// An output of a combinational cell.
#[tactic(auto, unfolding(crate::specs::Kinds::out_of))]
fn out_from(alloc: Global, value: &Value) -> Result<WrittenOut, ShapeFault>
    ensures { Reads (out_of (view value.now)) result }
{
    let pin = name_member(alloc, value, "pin")?;
    let table = table_member(alloc, value, "table")?;
    Ok(WrittenOut { pin, table })
}

/// The outputs that the values of an array are.
fn outs_from(alloc: Global, values: &[Value]) -> Result<List<WrittenOut>, ShapeFault>
    ensures { Reads (each out_of (items_view values.now)) result }
{
    let mut outs = List::new(alloc);
    for value in values {
        outs.push(out_from(alloc, value)?)?;
    }
    Ok(outs)
}

/// The outputs of a combinational cell.
#[tactic(auto, unfolding(crate::specs::Kinds::outs_member))]
fn outs_member(alloc: Global, value: &Value) -> Result<List<WrittenOut>, ShapeFault>
    ensures { Reads (outs_member (view value.now)) result }
{
    let Some(items) = array_member(value, "outputs") else {
        return Err(ShapeFault::BadShape);
    };
    outs_from(alloc, items)
}

/// A combinational cell.
#[tactic(auto, unfolding(crate::specs::Kinds::comb_of))]
fn comb_from(alloc: Global, value: &Value) -> Result<WrittenKind, ShapeFault>
    ensures { Reads (comb_of (view value.now)) result }
{
    let inputs = names_member(alloc, value, "inputs")?;
    let outputs = outs_member(alloc, value)?;
    if outputs.len() == 0 {
        return Err(ShapeFault::BadShape);
    }
    Ok(WrittenKind::Comb { inputs, outputs })
}

/// A table over pins that feeds a flip-flop or a latch.
#[tactic(auto, unfolding(crate::specs::Kinds::table_feed_of))]
fn table_feed_from(alloc: Global, value: &Value) -> Result<WrittenFeed, ShapeFault>
    ensures { Reads (table_feed_of (view value.now)) result }
{
    let pins = names_member(alloc, value, "pins")?;
    let table = table_member(alloc, value, "table")?;
    if pins.len() == 0 {
        return Err(ShapeFault::BadShape);
    }
    Ok(WrittenFeed::Table { pins, table })
}

/// What feeds a flip-flop or a latch: a pin or a table over pins.
#[tactic(auto, unfolding(crate::specs::Kinds::feed_of))]
fn feed_from(alloc: Global, value: &Value) -> Result<WrittenFeed, ShapeFault>
    ensures { Reads (feed_of (view value.now)) result }
{
    if value.is_string() {
        return Ok(WrittenFeed::Pin(name_of(alloc, value)?));
    }
    table_feed_from(alloc, value)
}

/// What flip-flops and latches have in common.
#[tactic(auto, unfolding(crate::specs::Kinds::state_of))]
fn state_from(alloc: Global, value: &Value) -> Result<WrittenState, ShapeFault>
    ensures { Reads (state_of (view value.now)) result }
{
    let Some(member) = value.get("data") else {
        return Err(ShapeFault::BadShape);
    };
    let feed = feed_from(alloc, member)?;
    let clear = optional_level_pin_member(alloc, value, "clear")?;
    let preset = optional_level_pin_member(alloc, value, "preset")?;
    let q = name_member(alloc, value, "q")?;
    let qn = optional_name_member(alloc, value, "qn")?;
    Ok(WrittenState {
        feed,
        clear,
        preset,
        q,
        qn,
    })
}

/// A flip-flop.
#[tactic(auto, unfolding(crate::specs::Kinds::flop_of))]
fn flop_from(alloc: Global, value: &Value) -> Result<WrittenKind, ShapeFault>
    ensures { Reads (flop_of (view value.now)) result }
{
    let clock = edge_pin_member(alloc, value, "clock")?;
    let state = state_from(alloc, value)?;
    Ok(WrittenKind::Flop { clock, state })
}

/// A latch.
#[tactic(auto, unfolding(crate::specs::Kinds::latch_of))]
fn latch_from(alloc: Global, value: &Value) -> Result<WrittenKind, ShapeFault>
    ensures { Reads (latch_of (view value.now)) result }
{
    let gate = level_pin_member(alloc, value, "gate")?;
    let state = state_from(alloc, value)?;
    Ok(WrittenKind::Latch { gate, state })
}

/// A clock gate.
#[tactic(auto, unfolding(crate::specs::Kinds::gate_clock_of))]
fn gate_clock_from(alloc: Global, value: &Value) -> Result<WrittenKind, ShapeFault>
    ensures { Reads (gate_clock_of (view value.now)) result }
{
    let clock = name_member(alloc, value, "clock")?;
    let enable = name_member(alloc, value, "enable")?;
    let test = optional_name_member(alloc, value, "test")?;
    let output = name_member(alloc, value, "output")?;
    Ok(WrittenKind::GateClock {
        clock,
        enable,
        test,
        output,
    })
}

/// The address of a port, absent exactly where the memory has no address bits.
#[tactic(auto, unfolding(crate::specs::Kinds::address_of))]
fn address_from(alloc: Global, value: &Value, address_bits: u32) -> Result<Option<Text>, ShapeFault>
    ensures { Reads (address_of address_bits (view value.now)) result }
{
    if address_bits > 0 {
        return Ok(Some(name_member(alloc, value, "address")?));
    }
    match value.get("address") {
        Some(_) => Err(ShapeFault::BadShape),
        None => Ok(None),
    }
}

/// A write port.
#[tactic(auto, unfolding(crate::specs::Kinds::write_of))]
fn write_from(alloc: Global, value: &Value, address_bits: u32) -> Result<CellWrite, ShapeFault>
    ensures { Reads (write_of address_bits (view value.now)) result }
{
    let clock = edge_pin_member(alloc, value, "clock")?;
    let enable = optional_level_pin_member(alloc, value, "enable")?;
    let address = address_from(alloc, value, address_bits)?;
    let feed = name_member(alloc, value, "data")?;
    Ok(CellWrite {
        clock,
        enable,
        address,
        feed,
    })
}

/// The write ports that the values of an array are.
fn writes_from(
    alloc: Global,
    values: &[Value],
    address_bits: u32,
) -> Result<List<CellWrite>, ShapeFault>
    ensures { Reads (each (write_of address_bits) (items_view values.now)) result }
{
    let mut writes = List::new(alloc);
    for value in values {
        writes.push(write_from(alloc, value, address_bits)?)?;
    }
    Ok(writes)
}

/// The write ports of a memory.
#[tactic(auto, unfolding(crate::specs::Kinds::writes_member))]
fn writes_member(
    alloc: Global,
    value: &Value,
    address_bits: u32,
) -> Result<List<CellWrite>, ShapeFault>
    ensures { Reads (writes_member address_bits (view value.now)) result }
{
    let Some(items) = array_member(value, "writes") else {
        return Err(ShapeFault::BadShape);
    };
    writes_from(alloc, items, address_bits)
}

/// The clock of a read port, which has none before version 2.
#[tactic(auto, unfolding(crate::specs::Kinds::read_clock_of))]
fn read_clock_from(
    alloc: Global,
    version: u32,
    value: &Value,
) -> Result<Option<EdgePin>, ShapeFault>
    ensures { Reads (read_clock_of version (view value.now)) result }
{
    if version == 2 {
        optional_edge_pin_member(alloc, value, "clock")
    } else {
        Ok(None)
    }
}

/// A read port.
#[tactic(auto, unfolding(crate::specs::Kinds::read_of))]
fn read_from(
    alloc: Global,
    version: u32,
    value: &Value,
    address_bits: u32,
) -> Result<CellRead, ShapeFault>
    ensures { Reads (read_of version address_bits (view value.now)) result }
{
    let clock = read_clock_from(alloc, version, value)?;
    let address = address_from(alloc, value, address_bits)?;
    let bits = name_member(alloc, value, "data")?;
    Ok(CellRead {
        clock,
        address,
        bits,
    })
}

/// The read ports that the values of an array are.
fn reads_from(
    alloc: Global,
    version: u32,
    values: &[Value],
    address_bits: u32,
) -> Result<List<CellRead>, ShapeFault>
    ensures { Reads (each (read_of version address_bits) (items_view values.now)) result }
{
    let mut reads = List::new(alloc);
    for value in values {
        reads.push(read_from(alloc, version, value, address_bits)?)?;
    }
    Ok(reads)
}

/// The read ports of a memory.
#[tactic(auto, unfolding(crate::specs::Kinds::reads_member))]
fn reads_member(
    alloc: Global,
    version: u32,
    value: &Value,
    address_bits: u32,
) -> Result<List<CellRead>, ShapeFault>
    ensures { Reads (reads_member version address_bits (view value.now)) result }
{
    let Some(items) = array_member(value, "reads") else {
        return Err(ShapeFault::BadShape);
    };
    reads_from(alloc, version, items, address_bits)
}

/// A memory.
#[tactic(auto, unfolding(crate::specs::Kinds::memory_of))]
fn memory_from(alloc: Global, version: u32, value: &Value) -> Result<WrittenKind, ShapeFault>
    ensures { Reads (memory_of version (view value.now)) result }
{
    let Some(address_bits) = word_member(value, "address_bits") else {
        return Err(ShapeFault::BadShape);
    };
    let Some(width) = word_member(value, "width") else {
        return Err(ShapeFault::BadShape);
    };
    let writes = writes_member(alloc, value, address_bits)?;
    let reads = reads_member(alloc, version, value, address_bits)?;
    Ok(WrittenKind::Memory {
        address_bits,
        width,
        writes,
        reads,
    })
}

/// A cell of the kind of this name.
#[tactic(auto, unfolding(crate::specs::Kinds::named_kind_of))]
fn named_kind_from(
    alloc: Global,
    version: u32,
    value: &Value,
    kind: &str,
) -> Result<WrittenKind, ShapeFault>
    ensures { Reads (named_kind_of version kind.now (view value.now)) result }
{
    match kind {
        "comb" => comb_from(alloc, value),
        "flop" => flop_from(alloc, value),
        "latch" => latch_from(alloc, value),
        "gate_clock" => gate_clock_from(alloc, value),
        "memory" => memory_from(alloc, version, value),
        _ => Err(ShapeFault::BadShape),
    }
}

/// The cell that a JSON value says in a table of this version.
#[tactic(auto, unfolding(crate::specs::Kinds::written_of))]
pub(crate) fn written_from(
    alloc: Global,
    version: u32,
    value: &Value,
) -> Result<WrittenCell, ShapeFault>
    ensures { Reads (written_of version (view value.now)) result }
{
    let name = name_member(alloc, value, "name")?;
    let Some(kind) = text_member(value, "kind") else {
        return Err(ShapeFault::BadShape);
    };
    let kind = named_kind_from(alloc, version, value, kind)?;
    Ok(WrittenCell { name, kind })
}
