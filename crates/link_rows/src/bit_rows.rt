//! Rows of bits.
ghost use Rattle.std.specs.Prelude.{◌≡◌, ◌<◌, ◌≤◌, length, IfOk, OnOk, OnErr};
ghost use Rattle.link_rows.specs.BitRows.{bits_at, is_set, clear_table, widened, with_bit, IsFirstClear, IsRectangular};

use crate::words::{clear_rows, first_clear, lengthen, put_bit, test_bit, word_count};
use emu_io::NoMemory;
use std::alloc::Global;
use std::marker::Model;

/// Rows of bits, all of one width, which can grow.
///
/// A contract sees the bits of each row, and the width.
#[derive(Drop)]
pub struct BitRows {
    rows: Vec<Vec<u64>>,
    width: u32,
}

impl Model for BitRows {
    ghost use Rattle.std.specs.Prelude.{map};
    ghost use Rattle.link_rows.specs.BitRows.{BitTable};
    ghost use Rattle.link_rows.specs.Words.{table_of, HasRoom};

    ghost Value = { BitTable };

    ghost view = { λ bits. table_of bits.width (map (λ words. words.items) bits.rows.items) };

    ghost invariant = { λ bits. HasRoom bits.width (map (λ words. words.items) bits.rows.items) };
}

impl BitRows {
    /// So many rows of this width, with all bits clear.
    pub fn new(alloc: Global, rows: u32, width: u32) -> Result<BitRows, NoMemory>
        ensures clear { IfOk result (λ bits. bits ≡ clear_table rows width) }
        ensures rectangular { IfOk result IsRectangular }
    {
        let rows = clear_rows(alloc, rows, word_count(width))?;
        Ok(BitRows { rows, width })
    }

    /// The number of bits in each row.
    pub fn width(&self) -> u32
        ensures width { result ≡ self.now.width }
        ensures rectangular { IsRectangular self.now }
    {
        self.width
    }

    /// Makes the width at least this. The new bits are clear.
    pub fn widen(&mut self, width: u32) -> Result<(), NoMemory>
        ensures ok { OnOk result (self.new ≡ widened self.old width) }
        ensures err { OnErr result (self.new ≡ self.old) }
        ensures rectangular { IsRectangular self.new }
    {
        lengthen(&mut self.rows, word_count(width))?;
        self.width = self.width.max(width);
        Ok(())
    }

    /// Sets or clears the bit of a row at a place.
    pub fn set(&mut self, row: u32, at: u32, value: bool)
        requires row { row < length self.old.rows }
        requires at { at < self.old.width }
        ensures bit { self.new ≡ with_bit self.old row at value }
        ensures rectangular { IsRectangular self.new }
    {
        put_bit(&mut self.rows[row as usize], at, value);
    }

    /// Whether the bit of a row at a place is set.
    pub fn test(&self, row: u32, at: u32) -> bool
        requires row { row < length self.now.rows }
        requires at { at < self.now.width }
        ensures { result ≡ is_set (bits_at self.now row) at }
    {
        test_bit(&self.rows[row as usize], at)
    }

    /// The first clear bit of a row from a place on, which may be the width, or `None` where all from
    /// there on are set.
    pub fn first_clear_from(&self, row: u32, at: u32) -> Option<u32>
        requires row { row < length self.now.rows }
        requires at { at ≤ self.now.width }
        ensures { IsFirstClear (bits_at self.now row) at result }
    {
        first_clear(&self.rows[row as usize], at, self.width)
    }
}
