//! Lists whose items have commas between them.

ghost use Rattle.std.specs.Prelude.{◌≡◌, ◌<◌, ◌≤◌, ◌+◌, [], ◌∷◌, IfOk, IsTrue, length};
ghost use Rattle.verilog_tree.specs.Grammar.{Commas};
ghost use Rattle.verilog_tree.specs.Predict.{Answers, Closed, Extends, more};
ghost use Rattle.verilog_tree.specs.Terminal.{is_plain};

use crate::reader::{Read, Reader, Stop};
use crate::terminal::Terminal;
use emu_io::{List, NoMemory};
use std::alloc::Global;

/// A part of the text that stands in lists.
pub(crate) trait Part: Sized + Drop {
    ghost use Rattle.std.specs.Prelude.{List, ℕ};
    ghost use Rattle.verilog_tree.specs.Predict.{Symbol};
    ghost use Rattle.verilog_tree.specs.declared.terminal.Terminal.{Terminal};

    // How such a part begins.
    ghost symbol: { Symbol };

    // Where it stands in a text.
    ghost stands: { List Terminal → ℕ → ℕ → Self → Type 0 };

    /// Reads one.
    fn read(alloc: Global, reader: &Reader, from: u32) -> Result<Read<Self>, Stop>
        requires { from ≤ length reader.now }
        ensures { Answers reader.now (symbol ∷ []) (stands reader.now) from result };
}

/// An empty list with room for so many items. Most lists of a design stay as short as they begin,
/// and a list that grows by itself takes room for four items at once.
pub(crate) fn list_with_room<T: Drop>(alloc: Global, room: usize) -> Result<List<T>, NoMemory>
    ensures { IfOk result (λ items. items ≡ []) }
{
    let items = Vec::with_capacity(alloc, room)?;
    Ok(List::from_vec(items))
}

/// Reads a list and the terminal that ends it.
pub(crate) fn read_list<P: Part>(
    alloc: Global,
    reader: &Reader,
    from: u32,
    end: Terminal,
) -> Result<Read<List<P>>, Stop>
    requires within { from ≤ length reader.now }
    requires plain { IsTrue (is_plain end) }
    ensures { Answers reader.now (P.symbol ∷ more P.symbol end ∷ []) (Closed reader.now (Commas reader.now (P.stands reader.now)) end) from result }
{
    let first = P::read(alloc, reader, from)?;
    let mut items = list_with_room(alloc, 1)?;
    items.push(first.node)?;
    read_rest(alloc, reader, items, first.next, end)
}

/// Reads what follows some items of a list, and the terminal that ends it.
pub(crate) fn read_rest<P: Part>(
    alloc: Global,
    reader: &Reader,
    first: List<P>,
    from: u32,
    end: Terminal,
) -> Result<Read<List<P>>, Stop>
    requires within { from ≤ length reader.now }
    requires plain { IsTrue (is_plain end) }
    ensures { Answers reader.now (more P.symbol end ∷ []) (Closed reader.now (Extends reader.now (P.stands reader.now) first) end) from result }
{
    let mut items = first;
    let mut at = from;
    'items: while reader.continues(at, end)? {
        let item = P::read(alloc, reader, at + 1)?;
        items.push(item.node)?;
        at = item.next;
    }
    Ok(Read {
        node: items,
        next: at + 1,
    })
}
