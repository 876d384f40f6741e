//! The nets of a module.

ghost use Rattle.std.specs.Prelude.{◌≡◌, ◌<◌, IfOk, Some, length, slice_get, take};
ghost use Rattle.id_arena.specs.Names.{place_among};
ghost use Rattle.module_nets.specs.Names.{text_of};
ghost use Rattle.module_nets.specs.Nets.{Answers};
ghost use Rattle.module_nets.specs.Rows.{Judges, all_names, rows_from};

use crate::check::check;
use crate::fault::NetFault;
use crate::mention::{Class, Mention};
use crate::seen::Seen;
use crate::survey::{Survey, width_of};
use crate::table::{Table, class_table, full_table};
use emu_io::{List, NoMemory};
use id_arena::Names;
use std::alloc::Global;
use std::marker::Model;
use verilog_lex::Tokens;
use verilog_tree::{Dir, IndexRange, Module};

/// A net of a module: the direction that it has as a port, its range, and the number of its bit 0
/// among the bits of all nets of the module.
#[derive(Clone, Copy, Debug, Drop)]
pub struct Net {
    pub dir: Option<Dir>,
    pub range: Option<IndexRange>,
    pub first: u64,
}

/// The nets of a module. Contracts see their names and what is known of each.
#[derive(Drop)]
pub struct ModuleNets {
    names: Names,
    rows: List<Net>,
}

impl Model for ModuleNets {
    ghost use Rattle.std.specs.Prelude.{◌≤◌, length, take};
    ghost use Rattle.module_nets.specs.Nets.{Nets};

    ghost Value = { Nets };

    ghost view = { λ n. record { names = take (length n.rows) n.names; rows = n.rows } };

    ghost invariant = { λ n. length n.rows ≤ length n.names };
}

impl ModuleNets {
    /// The number of nets.
    pub fn len(&self) -> u64
        ensures { result ≡ length self.now.rows }
    {
        self.rows.len()
    }

    /// The place of the net with a name.
    pub fn find(&self, text: &[u8]) -> Option<u32>
        ensures { result ≡ place_among self.now.names text.now }
    {
        let place = self.names.find(text)?;
        if u64::from(place) < self.rows.len() {
            Some(place)
        } else {
            None
        }
    }

    /// The net at a place.
    pub fn net(&self, place: u32) -> Net
        requires { place < length self.now.rows }
        ensures { slice_get self.now.rows place ≡ Some result }
    {
        *self.rows.get(u64::from(place))
    }

    /// The name of the net at a place.
    pub fn name(&self, place: u32) -> &[u8]
        requires { place < length self.now.rows }
        ensures { slice_get self.now.names place ≡ Some result.now }
    {
        self.names.text(place)
    }
}

/// The nets of names that were seen so.
fn rows_of(alloc: Global, seen: &[Seen]) -> Result<List<Net>, NoMemory>
    requires { length seen.now < 4294967296 }
    ensures { IfOk result (λ rows. rows ≡ rows_from 0 seen.now) }
{
    let mut rows = List::from_vec(Vec::with_capacity(alloc, seen.len())?);
    let mut first = 0;
    'seen: for name in seen {
        let range = name.range.unwrap_or(None);
        rows.push(Net {
            dir: name.dir,
            range,
            first,
        })?;
        first += width_of(range);
    }
    Ok(rows)
}

/// What the names of a module are seen as, or its first fault.
fn judge(
    alloc: Global,
    source: &[u8],
    tokens: &Tokens,
    names: &Names,
    mentions: &[Mention],
) -> Result<List<Seen>, NetFault>
    requires { names.now ≡ all_names (text_of source.now tokens.now) mentions.now }
    ensures { Judges source.now tokens.now names.now mentions.now result }
{
    let heads = class_table(alloc, source, tokens, Class::Head, mentions)?;
    let directed = class_table(alloc, source, tokens, Class::Direction, mentions)?;
    let survey = Survey {
        source,
        tokens,
        names,
        heads: &heads,
        directed: &directed,
    };
    let seen = check(alloc, &survey, mentions)?;
    Ok(seen)
}

/// The nets of a module, or the first fault of its declarations.
///
/// Nets are in the order of their numbers: ports, other declared nets, wires that uses make. `tokens`
/// are those of `source`, and `module` is of their tree. Takes two passes over the module and a table of
/// its names.
pub fn read_nets(
    alloc: Global,
    source: &[u8],
    tokens: &Tokens,
    module: &Module,
) -> Result<ModuleNets, NetFault>
    ensures { Answers source.now tokens.now module.now result }
{
    let Table {
        names,
        count,
        mentions,
    } = full_table(alloc, source, tokens, module)?;
    let seen = judge(alloc, source, tokens, &names, mentions.as_slice())?;
    let rows = rows_of(alloc, &seen.as_slice()[..count as usize])?;
    Ok(ModuleNets { names, rows })
}
