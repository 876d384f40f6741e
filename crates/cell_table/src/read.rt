//! A cell table read from its text.

ghost use Rattle.std.specs.Prelude.{◌++◌, ◌<◌, ◌≡◌, ◌≤◌, ◌↔◌, ◌∷◌, [], IfOk, IsTrue, OnOk, Some, length, map};
ghost use Rattle.id_arena.specs.Arena.{item_limit};
ghost use Rattle.id_arena.specs.Names.{place_among};
ghost use Rattle.serde_json.specs.View.{view};
ghost use Rattle.cell_table.specs.Faults.{Judges, cell_fault, cell_of, written_fault};
ghost use Rattle.cell_table.specs.Sound.{IsSoundKind};
ghost use Rattle.cell_table.specs.Table.{EachTextHasOneAnswer, ListStands, Stands, ValueStands, names_of, version_of};

use crate::build::cell_from;
use crate::cell::Cell;
use crate::fault::CellFault;
use crate::judge::{is_within_limits, tables_are_sized};
use crate::kinds::written_from;
use crate::pins::Pins;
use crate::table::CellTable;
use crate::written::WrittenCell;
use emu_io::NoMemory;
use id_arena::{Arena, ArenaFault, CellId, Names};
use json_members::{ShapeFault, array_member, read_json, word_member};
use serde_json::Value;
use std::alloc::Global;

/// Reads a cell table: a JSON object with the version 1 or 2 and a list of cells.
///
/// Ok is the table that the text stands for. The refusals come in the order of [`CellFault`].
pub fn read_cells(alloc: Global, bytes: &[u8]) -> Result<CellTable, CellFault>
    ensures { Stands bytes.now result }
{
    let value = read_json(alloc, bytes)?;
    table_from(alloc, &value)
}

/// The law that a text has one answer, want of memory aside.
pub fn each_text_has_one_answer()
    ensures { EachTextHasOneAnswer }
{}

/// The table that a JSON value stands for.
fn table_from(alloc: Global, value: &Value) -> Result<CellTable, CellFault>
    ensures { ValueStands (view value.now) result }
{
    let Some(version) = known_version(value) else {
        return Err(CellFault::Version);
    };
    match array_member(value, "cells") {
        Some(items) => cells_from(alloc, version, items),
        None => Err(CellFault::BadShape { cell: None }),
    }
}

/// The version of a table, if it is 1 or 2.
#[tactic(auto, unfolding(crate::specs::Table::version_of))]
fn known_version(value: &Value) -> Option<u32>
    ensures { result ≡ version_of (view value.now) }
{
    let version = word_member(value, "version")?;
    if version == 1 || version == 2 {
        Some(version)
    } else {
        None
    }
}

/// The table of the cells that the values of a list are.
fn cells_from(alloc: Global, version: u32, values: &[Value]) -> Result<CellTable, CellFault>
    requires { length values.now ≤ item_limit }
    ensures { ListStands version (map view values.now) result }
{
    let mut cells = Arena::new(alloc);
    let mut names = Names::new(alloc);
    for value in values {
        let cell = judged_cell(alloc, version, value, &names)?;
        keep(&mut cells, &mut names, cell)?;
    }
    Ok(CellTable::from_parts(cells, names))
}

/// Puts a cell at the end, with a name that is new.
fn keep(cells: &mut Arena<CellId, Cell>, names: &mut Names, cell: Cell) -> Result<(), NoMemory>
    requires room { length cells.old < item_limit }
    requires named { names.old ≡ names_of cells.old }
    requires new { place_among names.old cell.name ≡ None }
    ensures cells { OnOk result (cells.new ≡ cells.old ++ cell ∷ []) }
    ensures names { OnOk result (names.new ≡ names_of cells.new) }
{
    match names.intern(cell.name.bytes()) {
        Ok(_) => {}
        Err(ArenaFault::NoMemory) => return Err(NoMemory),
        Err(ArenaFault::Full) => unreachable!(),
    }
    match cells.push(cell) {
        Ok(_) => Ok(()),
        Err(ArenaFault::NoMemory) => Err(NoMemory),
        Err(ArenaFault::Full) => unreachable!(),
    }
}

/// The cell that a JSON value says, judged beside the cells before it, which have these names.
fn judged_cell(alloc: Global, version: u32, value: &Value, names: &Names) -> Result<Cell, CellFault>
    ensures judged { Judges (cell_fault version names.now (view value.now)) result }
    ensures cell { IfOk result (λ cell. cell_of version (view value.now) ≡ Some cell) }
    ensures sound { IfOk result (λ cell. IsSoundKind cell.kind) }
    ensures new { IfOk result (λ cell. place_among names.now cell.name ≡ None) }
{
    let cell = Some(names.len());
    let written = match written_from(alloc, version, value) {
        Ok(written) => written,
        Err(ShapeFault::BadShape) => return Err(CellFault::BadShape { cell }),
        Err(ShapeFault::NoMemory) => return Err(CellFault::NoMemory),
    };
    if let Some(fault) = fault_of(alloc, version, &written, names)? {
        return Err(fault);
    }
    Ok(cell_from(alloc, written)?)
}

/// The first fault of a cell of good shape, beside the cells before it, which have these names.
#[tactic(auto, unfolding(crate::specs::Faults::written_fault))]
fn fault_of(
    alloc: Global,
    version: u32,
    written: &WrittenCell,
    names: &Names,
) -> Result<Option<CellFault>, NoMemory>
    ensures { IfOk result (λ fault. fault ≡ written_fault version names.now written.now) }
{
    let cell = names.len();
    let pins = Pins::of(alloc, version, &written.kind)?;
    let shared = Pins::shared(alloc, version, &written.kind)?;
    if pins.stand_twice(alloc, &shared)? {
        return Ok(Some(CellFault::PinTwice { cell }));
    }
    if !tables_are_sized(&written.kind) {
        return Ok(Some(CellFault::TableSize { cell }));
    }
    if !is_within_limits(&written.kind) {
        return Ok(Some(CellFault::Limit { cell }));
    }
    if names.find(written.name.bytes()).is_some() {
        return Ok(Some(CellFault::CellTwice { cell }));
    }
    Ok(None)
}
