//! Cell tables: the JSON texts that name the cells which a design may use.
//!
//! A table is `{"version":2,"cells":[..]}`. Each cell has a `name` and a `kind`, and the kind says
//! which further members the cell has: `comb` is a set of tables over common inputs, `flop` a
//! flip-flop, `latch` a latch, `gate_clock` a clock gate and `memory` a memory with write and read
//! ports. Members that are not asked for are ignored. In version 2 a read port may have a clock, and
//! ports of one memory may share a clock pin; version 1 knows neither.
//!
//! [`read_cells`] gives the one table that a text stands for, or the one fault that comes first.
//! Its contract says which, over the JSON value of the text: `specs/Kinds.antt` has one definition
//! for each kind of cell, which names its members, and `specs/Table.antt` says what a whole text
//! stands for. [`CellTable::find`] finds a cell by its name, in one step whatever the number of
//! cells.
#![tactic(auto)]

mod build;
mod cell;
mod fault;
mod judge;
mod kinds;
mod members;
mod pins;
mod read;
mod table;
mod written;

pub use cell::{Cell, CellKind, CellRead, CellWrite, CombOut, EdgePin, FeedPin, LevelPin};
pub use fault::CellFault;
pub use read::{each_text_has_one_answer, read_cells};
pub use table::CellTable;
