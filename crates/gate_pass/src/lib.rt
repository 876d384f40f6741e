//! A pass over gates by change: a ranked table of gates, a value for each net, and the gates that wait.
//!
//! A gate waits where an input of it has taken another value, or where it is told to. A pass gives the gates
//! that wait their turn in ranked order, each once; a gate of which no input changes has none. Afterwards
//! every net that a gate drives has the value that its gate gives, and all others are as they were.
#![tactic(auto)]

mod laws;
mod pass;
mod readers;
mod rule;
mod steps;
mod waiting;

pub use laws::settled_values_are_unique;
pub use pass::GatePass;
pub use rule::{GateRule, NetValue};
pub use steps::Steps;
