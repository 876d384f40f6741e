//! The nets that show the state from before an event, as A12 asks it of outputs.
//!
//! For each chip of results of which no gate lies on a cycle, one pass over the gates tells to which nets "before"
//! comes from what is kept, through gates alone and with no net widened. No gate has more than one turn.
#![tactic(auto)]

mod shown;
mod tables;

pub use shown::OutputMarks;
