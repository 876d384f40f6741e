//! The nodes of a design in order of rank: nets and write nodes, each after all on which it depends.
//!
//! `rank` answers Ok exactly where each node has a rank, with the nodes in order of rank and then of
//! node. Else it answers the one cycle that is found from the least node without rank by going on
//! each time to the least dependency without rank. Each node has a rank exactly where no node rests on
//! itself, directly or through others: `ranked_where_no_cycle`.
#![tactic(auto)]

mod fault;
mod laws;
mod needs;
mod numbers;
mod ranked;

pub use design_core::NodeId;
pub use fault::RankFault;
pub use laws::{
    cycles_are_unranked, cycles_come_round, orders_are_sorted, ranked_where_no_cycle,
    ranks_are_unique,
};
pub use ranked::{Ranked, rank};
