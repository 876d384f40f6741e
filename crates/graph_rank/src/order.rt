//! The nodes in order of rank.
ghost use Rattle.std.specs.Prelude.{◌≡◌, ◌<◌, ◌^◌, ℕ, true, length, map, All, IfOk, slice_index};
ghost use Rattle.graph_rank.specs.Search.{ranked, rank_of};
ghost use Rattle.graph_rank.specs.Places.{ArePlaces, IsInOrder};

use crate::search::Mark;
use emu_io::NoMemory;
use std::alloc::Global;
use std::marker::Model;

/// The rank of each node of a graph, and the nodes in order of rank and then of number.
#[derive(Debug, Drop)]
pub struct Order {
    ranks: Vec<u32>,
    nodes: Vec<u32>,
}

impl Model for Order {
    ghost use Rattle.std.specs.Prelude.{◌<◌, ◌^◌, length};
    ghost use Rattle.graph_rank.specs.Ranks.{Ranking};

    ghost Value = { Ranking };

    ghost view = { λ order. record { ranks = order.ranks.items; order = order.nodes.items } };

    ghost invariant = { λ order. length order.nodes.items < 2 ^ 32 };
}

impl Order {
    /// The number of nodes.
    pub fn len(&self) -> u32
        ensures { result ≡ length self.now.order }
    {
        self.nodes.len() as u32
    }

    /// The rank of the node at a place of the graph.
    pub fn rank_of(&self, place: u32) -> u32
        requires { place < length self.now.ranks }
        ensures { result ≡ slice_index self.now.ranks place }
    {
        self.ranks[place as usize]
    }

    /// The node that stands so far on in the order, which begins at 0.
    pub fn at(&self, k: u32) -> u32
        requires { k < length self.now.order }
        ensures { result ≡ slice_index self.now.order k }
    {
        self.nodes[k as usize]
    }
}

// A node with its rank. Places are ordered by rank and then by node.
#[derive(Clone, Copy, Debug, Drop, PartialEq, Eq, PartialOrd, Ord)]
struct Place {
    rank: u32,
    node: u32,
}

/// The ranks that the marks of a graph tell, where each node has one.
pub(crate) fn in_order(alloc: Global, marks: &[Mark]) -> Result<Order, NoMemory>
    requires { length marks.now < 2 ^ 32 }
    ensures { IfOk result (λ order. IsInOrder marks.now order) }
{
    let mut places = places_of(alloc, marks)?;
    places.sort_unstable();
    let nodes = nodes_of(alloc, places.as_slice())?;
    let ranks = ranks_of(alloc, marks)?;
    Ok(Order { ranks, nodes })
}

// The ranks, by number of the node.
fn ranks_of(alloc: Global, marks: &[Mark]) -> Result<Vec<u32>, NoMemory>
    ensures { IfOk result (λ ranks. ranks.items ≡ map rank_of marks.now) }
{
    let ranks = marks.iter().map(|mark| mark.rank()).collect(alloc)?;
    Ok(ranks)
}

// The nodes, in the same order.
fn nodes_of(alloc: Global, places: &[Place]) -> Result<Vec<u32>, NoMemory>
    ensures { IfOk result (λ nodes. nodes.items ≡ map (λ place. place.node) places.now) }
{
    let nodes = places.iter().map(|place| place.node).collect(alloc)?;
    Ok(nodes)
}

// Each node with its rank, by number.
fn places_of(alloc: Global, marks: &[Mark]) -> Result<Vec<Place>, NoMemory>
    requires { length marks.now < 2 ^ 32 }
    ensures { IfOk result (λ places. ArePlaces marks.now (length marks.now) places.items) }
{
    let mut places = Vec::new(alloc);
    'marks: for (node, mark) in marks.iter().enumerate() {
        places.push(Place {
            rank: mark.rank(),
            node: node as u32,
        })?;
    }
    Ok(places)
}
