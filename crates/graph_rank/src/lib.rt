//! Ranks of a graph: the nodes in an order in which each stands after all on which it depends, or the
//! one cycle that is told where there is no such order.
//!
//! `rank_graph` answers Ok exactly where each node has a rank, with the ranks and with the nodes in
//! order of rank and then of number. Else it answers the one cycle that is found from the least node
//! without rank by going on each time to the least dependency without rank. The work is linear in
//! nodes and dependencies, save for the sorting.
#![tactic(auto)]

mod cycle;
mod fault;
mod graph;
mod laws;
mod order;
mod rank;
mod search;

pub use fault::GraphFault;
pub use graph::Graph;
pub use laws::{
    cycles_come_round, ranked_has_no_cycle, rankings_are_sorted, ranks_are_unique,
    unranked_has_cycle,
};
pub use order::Order;
pub use rank::rank_graph;

#[cfg(test)]
mod tests;
