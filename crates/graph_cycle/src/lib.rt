//! The least node of a graph that lies on a cycle.
//!
//! `least_on_cycle` names the least node that depends on itself, in one step or in more, and answers none
//! exactly where no node does. A node that depends on a cycle without being on one is not named. The work is
//! linear in nodes and dependencies.
#![tactic(auto)]

mod cyclic;
mod search;

pub use cyclic::least_on_cycle;
