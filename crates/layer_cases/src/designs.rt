//! Designs, and what their groups reach.

ghost use Rattle.std.specs.Prelude.{◌<◌, length};

use crate::fault::Fault;
use cell_table::read_cells;
use clock_rank::rank;
use design_core::Design;
use domain_groups::{influence, read_groups};
use elaborator::elaborate;
use id_arena::{GroupId, Key};
use link_rows::BitRows;
use std::alloc::Global;
use verilog_lex::tokens;
use verilog_tree::parse;

/// The design of a text with a table of cells.
pub(crate) fn design_of(
    alloc: Global,
    top: &[u8],
    text: &[u8],
    cells: &[u8],
) -> Result<Design, Fault> {
    if text.len() > 1_000_000 {
        return Err(Fault::NotRead);
    }
    let Ok(tokens) = tokens(alloc, text) else {
        return Err(Fault::NoForm);
    };
    let Ok(tree) = parse(alloc, &tokens) else {
        return Err(Fault::NoForm);
    };
    let Ok(cells) = read_cells(alloc, cells) else {
        return Err(Fault::NoForm);
    };
    elaborate(alloc, text, &tokens, &tree, &cells, top).map_err(|_| Fault::NoForm)
}

/// Adds the places of the bits of a row that are set.
fn put_row(alloc: Global, out: &mut Vec<u8>, table: &BitRows, row: u32) -> Result<(), Fault>
    requires { row < length table.now.rows }
{
    for at in 0..table.width() {
        if table.test(row, at) {
            let told = format!(in alloc; " {at}")?;
            out.extend_from_slice(told.as_bytes())?;
        }
    }
    Ok(())
}

/// Adds a line for each group: its name, and the places of what it reaches.
pub(crate) fn put_influence(
    alloc: Global,
    out: &mut Vec<u8>,
    texts: &[Vec<u8>],
) -> Result<(), Fault> {
    let [top, design, cells, groups] = texts else {
        return Err(Fault::NoForm);
    };
    let design = design_of(alloc, top, design, cells)?;
    let Ok(ranked) = rank(alloc, &design) else {
        return Err(Fault::NoForm);
    };
    let Ok(groups) = read_groups(alloc, groups, &design) else {
        return Err(Fault::NoForm);
    };
    let table = influence(alloc, &ranked, &groups)?;
    for row in 0..=groups.len() {
        out.extend_from_slice(groups.name(GroupId::of(row)))?;
        put_row(alloc, out, &table, row)?;
        out.push(b'\n')?;
    }
    Ok(())
}
