//! Designs with their nodes in order of rank.
ghost use Rattle.std.specs.Prelude.{◌≡◌, ◌<◌, Some, length, slice_get, slice_index_or, map, All, IfOk};
ghost use Rattle.design_core.specs.Dependency.{IsNode, HasRank};
ghost use Rattle.clock_rank.specs.Orders.{IsInOrder};
ghost use Rattle.clock_rank.specs.Numbers.{all_nodes, net_node, number_of};
ghost use Rattle.clock_rank.specs.Answers.{Answers};

use crate::fault::RankFault;
use crate::needs::graph_of;
use crate::numbers::{nodes_of, starts_of};
use design_core::{Design, NodeId};
use emu_io::{List, NoMemory};
use graph_rank::{GraphFault, Order, rank_graph, ranks_are_unique};
use id_arena::Key;
use std::alloc::Global;
use std::marker::Model;

/// A design in which each node has a rank, with its nodes in order of rank and then of node.
#[derive(Debug, Drop)]
pub struct Ranked<'a> {
    design: &'a Design,
    // by the numbers of nodes
    order: Order,
    nodes: Vec<NodeId>,
    // for each memory, the number of its first write node
    starts: Vec<u32>,
}

impl<'a> Model for Ranked<'a> {
    ghost use Rattle.std.specs.Prelude.{◌≡◌, map, length};
    ghost use Rattle.graph_rank.specs.Ranks.{IsRanking};
    ghost use Rattle.design_core.specs.Design.{IsDesign};
    ghost use Rattle.clock_rank.specs.Orders.{RankedDesign};
    ghost use Rattle.clock_rank.specs.Numbers.{node_at, rows, all_nodes, AreStarts};

    ghost Value = { RankedDesign };

    ghost view = { λ r. record { design = r.design.now; order = map (node_at r.design.now) r.order.order } };

    ghost invariant = { λ r. IsRanking (rows r.design.now) r.order
        × (r.nodes.items ≡ all_nodes r.design.now)
        × AreStarts r.design.now (length r.design.now.memories) r.starts.items };
}

impl<'a> Ranked<'a> {
    /// What holds of every ranked design, for its callers.
    pub fn stands(&self)
        ensures { IsInOrder self.now.design self.now.order }
    {
        ranks_are_unique();
        self.design.stands();
    }

    /// The design.
    pub fn design(&self) -> &Design
        ensures { result.now ≡ self.now.design }
    {
        self.design
    }

    /// The number of nodes.
    pub fn len(&self) -> u32
        ensures count { result ≡ length self.now.order }
        ensures nodes { result ≡ length (all_nodes self.now.design) }
    {
        self.order.len()
    }

    /// The rank of a node.
    pub fn rank_of(&self, node: NodeId) -> u32
        requires { IsNode self.now.design node }
        ensures { HasRank self.now.design node result }
    {
        self.design.stands();
        let number = self.number(node);
        self.order.rank_of(number)
    }

    /// The node at a place of the order, which begins at 0.
    pub fn at(&self, place: u32) -> NodeId
        requires { place < length self.now.order }
        ensures { slice_get self.now.order place ≡ Some result }
    {
        self.nodes[self.order.at(place) as usize]
    }

    /// The number of a node: nets by their own numbers, and behind them the write nodes by memory and
    /// port.
    pub fn number(&self, node: NodeId) -> u32
        requires { IsNode self.now.design node }
        ensures { result ≡ number_of self.now.design node }
    {
        match node {
            NodeId::Net(net) => net.place(),
            NodeId::Write(m, port) => self.starts[m.place() as usize] + port,
        }
    }
}

/// The nodes of a design in order of rank, or the one cycle where some node has no rank.
pub fn rank(alloc: Global, design: &Design) -> Result<Ranked<'_>, RankFault>
    ensures { Answers design.now result }
{
    ranks_are_unique();
    design.stands();
    let starts = starts_of(alloc, design)?;
    let nodes = nodes_of(alloc, design)?;
    let graph = graph_of(alloc, design, starts.as_slice(), nodes.as_slice())?;
    match rank_graph(alloc, &graph) {
        Ok(order) => Ok(Ranked {
            design,
            order,
            nodes,
            starts,
        }),
        Err(GraphFault::Cycle(cycle)) => {
            let named = nodes_at(alloc, nodes.as_slice(), cycle.as_slice())?;
            Err(RankFault::Cycle(named))
        }
        Err(GraphFault::NoMemory) => Err(RankFault::NoMemory),
    }
}

// The nodes of these numbers.
fn nodes_at(alloc: Global, nodes: &[NodeId], numbers: &[u32]) -> Result<List<NodeId>, NoMemory>
    requires { All (λ n. n < length nodes.now) numbers.now }
    ensures { IfOk result (λ named. named ≡ map (λ n. slice_index_or nodes.now n (net_node 0)) numbers.now) }
{
    let mut named = List::new(alloc);
    'numbers: for number in numbers {
        named.push(nodes[*number as usize])?;
    }
    Ok(named)
}
