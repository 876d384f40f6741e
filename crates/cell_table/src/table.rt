//! The table of cells.

ghost use Rattle.std.specs.Prelude.{◌<◌, ◌≡◌, ◌≢◌, ◌↔◌, ℕ, IfSome, IsNone, Some, length, option_map, slice_get};

use crate::cell::Cell;
use id_arena::{Arena, CellId, Key, Names};
use std::marker::Model;

/// Cells in the order of their text, found by name.
///
/// Each cell is sound: its tables fit their inputs, and it is within the limits.
#[derive(Drop)]
pub struct CellTable {
    cells: Arena<CellId, Cell>,
    names: Names,
}

impl Model for CellTable {
    ghost use Rattle.std.specs.Prelude.{List, ◌≡◌};
    ghost use Rattle.cell_table.specs.declared.cell.Cell.{Cell};
    ghost use Rattle.cell_table.specs.Sound.{AreSound};
    ghost use Rattle.cell_table.specs.Table.{names_of};

    ghost Value = { List Cell };

    ghost view = { λ table. table.cells };

    ghost invariant = { λ table. (table.names ≡ names_of table.cells) × AreSound table.cells };
}

impl CellTable {
    ghost use Rattle.id_arena.specs.Names.{place_among};
    ghost use Rattle.cell_table.specs.Sound.{AreSound, IsSoundKind};
    ghost use Rattle.cell_table.specs.Table.{names_of};

    /// The number of cells.
    pub fn len(&self) -> u32
        ensures { result ≡ length self.now }
    {
        self.cells.len()
    }

    /// The cell that a key of this table stands for.
    pub fn cell(&self, id: CellId) -> &Cell
        requires { id.place < length self.now }
        ensures cell { slice_get self.now id.place ≡ Some result.now }
        ensures sound { IsSoundKind result.now.kind }
    {
        self.cells.get(id)
    }

    /// The cell of this name; None exactly where no cell has it.
    pub fn find(&self, name: &[u8]) -> Option<CellId>
        ensures place { option_map (λ id. id.place) result ≡ place_among (names_of self.now) name.now }
        ensures none { IsNone result ↔ ((k : ℕ) → slice_get (names_of self.now) k ≢ Some name.now) }
        ensures within { IfSome result (λ id. id.place < length self.now) }
        ensures found { IfSome result (λ id. slice_get (names_of self.now) id.place ≡ Some name.now) }
    {
        let place = self.names.find(name)?;
        Some(CellId::of(place))
    }

    /// The table of cells whose names these are.
    pub(crate) fn from_parts(cells: Arena<CellId, Cell>, names: Names) -> CellTable
        requires named { names ≡ names_of cells }
        requires sound { AreSound cells }
        ensures { result ≡ cells }
    {
        CellTable { cells, names }
    }
}
