//! The least gate of a chip that lies on a cycle of gates.
//!
//! `least_cyclic_gate` names the least gate that leads to itself, through no gate or more, and answers none
//! exactly where no gate does. A gate that a cycle feeds is not named. `gate_graph` is the graph in which each
//! gate depends on those that drive its inputs. The work is linear in nets, gates and inputs of gates.
#![tactic(auto)]

mod gates;

pub use gates::{gate_graph, least_cyclic_gate};
