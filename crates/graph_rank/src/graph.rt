//! Graphs as rows of places.
ghost use Rattle.std.specs.Prelude.{◌≡◌, ◌<◌, ◌≤◌, ◌++◌, ◌∷◌, [], length, OnOk, OnErr};
ghost use Rattle.graph_rank.specs.Rows.{row};
ghost use Rattle.graph_rank.specs.Stored.{cut_rows, start_of, IsStored};

use emu_io::NoMemory;
use std::alloc::Global;
use std::marker::Model;

/// A graph whose nodes are numbered from 0 on. Each node has a row with the places of the nodes on
/// which it depends, in any order; a place may stand in it more than once.
///
/// A clause sees the list of the rows. All rows are stored in one vector.
#[derive(Debug, Drop)]
pub struct Graph {
    items: Vec<u32>,
    ends: Vec<usize>,
}

impl Model for Graph {
    ghost use Rattle.std.specs.Prelude.{ℕ, List};
    ghost use Rattle.graph_rank.specs.Stored.{cut_rows, IsStored};

    ghost Value = { List (List ℕ) };

    ghost view = { λ graph. cut_rows graph.items.items 0 graph.ends.items };

    ghost invariant = { λ graph. IsStored graph.items.items graph.ends.items };
}

impl Graph {
    /// The graph without nodes.
    pub fn new(alloc: Global) -> Graph
        ensures { result ≡ [] }
    {
        Graph {
            items: Vec::new(alloc),
            ends: Vec::new(alloc),
        }
    }

    /// Adds a node, which depends on these.
    pub fn add_row(&mut self, needs: &[u32]) -> Result<(), NoMemory>
        requires { length self.old < 4294967295 }
        ensures ok { OnOk result (self.new ≡ self.old ++ needs.now ∷ []) }
        ensures err { OnErr result (self.new ≡ self.old) }
    {
        self.ends.reserve(1)?;
        self.items.extend_from_slice(needs)?;
        self.ends.push(self.items.len())?;
        Ok(())
    }

    /// The number of nodes.
    pub fn len(&self) -> u32
        ensures { result ≡ length self.now }
    {
        self.ends.len() as u32
    }

    /// The nodes on which the node at a place depends.
    pub fn row(&self, place: u32) -> &[u32]
        requires { place < length self.now }
        ensures { result.now ≡ row self.now place }
    {
        row_of(self.items.as_slice(), self.ends.as_slice(), place as usize)
    }
}

// The row at a place, of rows that are stored so.
fn row_of<'a>(items: &'a [u32], ends: &[usize], place: usize) -> &'a [u32]
    requires stored { IsStored items.now ends.now }
    requires within { place < length ends.now }
    ensures { result.now ≡ row (cut_rows items.now 0 ends.now) place }
{
    let start = row_start(ends, place);
    &items[start..ends[place]]
}

// Where a row begins: at the end of the one before.
fn row_start(ends: &[usize], place: usize) -> usize
    requires { place ≤ length ends.now }
    ensures { result ≡ start_of 0 ends.now place }
{
    if place == 0 { 0 } else { ends[place - 1] }
}
