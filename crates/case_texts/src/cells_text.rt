//! Reading the table of cells.

ghost use Rattle.std.specs.Prelude.{◌≡◌};
ghost use Rattle.case_texts.specs.Faults.{cells_refusal};
ghost use Rattle.case_texts.specs.Reading.{CellsMean};

use crate::refusal::{CellsFault, Refusal, Unread};
use cell_table::{CellFault, CellTable, read_cells};
use std::alloc::Global;

/// The answer to a text that has this fault.
fn faulty(fault: CellsFault) -> Unread
    ensures { result ≡ Unread.Refused (Refusal.Cells fault) }
{
    Unread::Refused(Refusal::Cells(fault))
}

/// The answer to a text of which the reader of cell tables tells this fault.
fn cells_refusal(fault: CellFault) -> Unread
    ensures { result ≡ cells_refusal fault }
{
    match fault {
        CellFault::NotJson => faulty(CellsFault::NotJson),
        CellFault::Version => faulty(CellsFault::Version),
        CellFault::BadShape { cell } => faulty(CellsFault::BadShape { cell }),
        CellFault::PinTwice { cell } => faulty(CellsFault::PinTwice { cell }),
        CellFault::TableSize { cell } => faulty(CellsFault::TableSize { cell }),
        CellFault::Limit { cell } => faulty(CellsFault::Limit { cell }),
        CellFault::CellTwice { cell } => faulty(CellsFault::CellTwice { cell }),
        CellFault::NoMemory => Unread::NoMemory,
    }
}

/// The table of cells that a text stands for, or its first fault.
pub fn read_table(alloc: Global, text: &[u8]) -> Result<CellTable, Unread>
    ensures { CellsMean text.now result }
{
    match read_cells(alloc, text) {
        Ok(table) => Ok(table),
        Err(fault) => Err(cells_refusal(fault)),
    }
}
