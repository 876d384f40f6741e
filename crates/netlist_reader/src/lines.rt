//! The lines of gates, of registers and of memories, and the modules of chips: things that are read one
//! after another, each with its number.
ghost use Rattle.std.specs.Prelude.{◌≡◌, ◌<◌, ◌^◌, List, length};
ghost use Rattle.netlist_reader.specs.Netlist.{Each, lines};
ghost use Rattle.netlist_reader.specs.Inside.{AreApart, EachBegins, ReadsAll, ReadsNext};

use crate::fault::Stop;
use crate::rest::Rest;
use emu_io::List;
use std::alloc::Global;

/// What is read with its number, in a chip with so many nets.
pub(crate) trait Line: Drop {
    ghost use Rattle.std.specs.Prelude.{ℕ, List};
    ghost use Rattle.token_words.specs.Word.{Word};

    /// Which are of the forms.
    ghost Is: { ℕ → Self → Type 0 };

    /// Which words begin one.
    ghost First: { ℕ → Word → Type 0 };

    /// The words of the one of a number.
    ghost line: { ℕ × Self → List Word };

    /// Passes over the one of this number, if one begins.
    fn read_next(
        alloc: Global,
        rest: &mut Rest,
        number: u32,
        nets: u32,
    ) -> Result<Option<Self>, Stop>
        requires { length rest.old < 2 ^ 32 }
        ensures { ReadsNext (Is nets) (First nets) (λ x. line (number, x)) rest.old rest.new result };
}

/// Passes over all that stand here.
pub(crate) fn read_lines<T: Line>(
    alloc: Global,
    rest: &mut Rest,
    nets: u32,
) -> Result<List<T>, Stop>
    requires few { length rest.old < 2 ^ 32 }
    requires begins { EachBegins (T.Is nets) (T.First nets) T.line }
    requires apart { AreApart (T.Is nets) T.line }
    ensures { ReadsAll (Each (T.Is nets)) (T.First nets) (lines T.line) rest.old rest.new result }
{
    let mut items = List::new(alloc);
    'items: while let Some(item) = T::read_next(alloc, rest, items.len() as u32, nets)? {
        items.push(item)?;
    }
    Ok(items)
}
