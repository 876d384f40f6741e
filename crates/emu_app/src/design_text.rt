//! The design that a design text describes with a table of cells.

ghost use Rattle.std.specs.Prelude.{◌≡◌, List, Ok, ℕ};
ghost use Rattle.cell_table.specs.Table.{Stands};
ghost use Rattle.flattening.specs.Stands.{given_by};
ghost use Rattle.case_texts.specs.Faults.{design_refusal};
ghost use Rattle.case_texts.specs.Forms.{IsTreeOf};
ghost use Rattle.emu_app.specs.Reading.{DesignMeans};

use case_texts::{DesignsFault, Parsed, Refusal, Unread};
use cell_table::CellTable;
use design_core::Design;
use elaborator::{ElabFault, elaborate};
use std::alloc::Global;

/// The answer to a text that has this fault with a table of cells.
fn faulty_design(fault: DesignsFault) -> Unread
    ensures { result ≡ Unread.Refused (Refusal.Design fault) }
{
    Unread::Refused(Refusal::Design(fault))
}

/// The answer to a text of which flattening tells this fault.
fn design_refusal(fault: ElabFault) -> Unread
    ensures { result ≡ design_refusal fault }
{
    match fault {
        ElabFault::NoTop => faulty_design(DesignsFault::NoTop),
        ElabFault::NameTwice { at } => faulty_design(DesignsFault::NameTwice { at }),
        ElabFault::UnknownModule { at } => faulty_design(DesignsFault::UnknownModule { at }),
        ElabFault::Recursive { at } => faulty_design(DesignsFault::Recursive { at }),
        ElabFault::PortCount { at } => faulty_design(DesignsFault::PortCount { at }),
        ElabFault::NoPort { at } => faulty_design(DesignsFault::NoPort { at }),
        ElabFault::PortTwice { at } => faulty_design(DesignsFault::PortTwice { at }),
        ElabFault::WidthDiffers { at } => faulty_design(DesignsFault::WidthDiffers { at }),
        ElabFault::BadIndex { at } => faulty_design(DesignsFault::BadIndex { at }),
        ElabFault::NotDeclared { at } => faulty_design(DesignsFault::NotDeclared { at }),
        ElabFault::Limit { which, at } => faulty_design(DesignsFault::Limit { which, at }),
        ElabFault::TwoDrivers { net, name } => {
            faulty_design(DesignsFault::TwoDrivers { net, name })
        }
        ElabFault::Undriven { net, name } => faulty_design(DesignsFault::Undriven { net, name }),
        ElabFault::NoMemory => Unread::NoMemory,
    }
}

/// The design that a text with this tree and a table of cells describe. The tree and its tokens are given
/// back when the design is made.
pub fn read_design(
    alloc: Global,
    top: &[u8],
    text: &[u8],
    parsed: Parsed,
    cells: &CellTable,
) -> Result<Design, Unread>
    requires tree { IsTreeOf text.now parsed.tokens parsed.tree }
    requires table { (bytes : List ℕ) × Stands bytes (Ok cells.now) }
    ensures { DesignMeans (given_by text.now parsed.tokens parsed.tree cells.now) top.now result }
{
    match elaborate(alloc, text, &parsed.tokens, &parsed.tree, cells, top) {
        Ok(design) => Ok(design),
        Err(fault) => Err(design_refusal(fault)),
    }
}
