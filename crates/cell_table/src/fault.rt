//! Why a cell table is refused.

use emu_io::NoMemory;
use json_members::JsonFault;

/// Why a text is no cell table. `cell` is a cell's place in the list, from 0.
///
/// The text as a whole is judged first, in the order of the first three. Then the first cell that
/// has a fault decides, by the first of its faults in this order.
#[derive(Clone, Copy, Debug, PartialEq, Eq)]
pub enum CellFault {
    /// The text is no JSON text.
    NotJson,
    /// The table's version is neither 1 nor 2.
    Version,
    /// The table (None) or a cell is not of the form of a cell table.
    BadShape { cell: Option<u32> },
    /// A pin of the cell is named twice.
    PinTwice { cell: u32 },
    /// The length of a table is not 2 to the power of the number of its inputs.
    TableSize { cell: u32 },
    /// The cell is beyond a limit.
    Limit { cell: u32 },
    /// An earlier cell has the name.
    CellTwice { cell: u32 },
    /// No memory was left; this comes at any place.
    NoMemory,
}

impl From<NoMemory> for CellFault {
    ghost use Rattle.std.specs.Prelude.{◌≡◌};
    ghost use Rattle.cell_table.specs.declared.fault.CellFault.{CellFault};

    ghost from_gives = { λ _ fault. fault ≡ CellFault.NoMemory };

    fn from(_: NoMemory) -> CellFault {
        CellFault::NoMemory
    }
}

impl From<JsonFault> for CellFault {
    ghost use Rattle.cell_table.specs.Faults.{FromJson};

    ghost from_gives = { FromJson };

    fn from(fault: JsonFault) -> CellFault {
        match fault {
            JsonFault::NotJson => CellFault::NotJson,
            JsonFault::NoMemory => CellFault::NoMemory,
        }
    }
}
