//! The texts of openings and events, and the traces of the original and of the machine.
//!
//! `read_opening` and `read_events` give what a text says, or its first fault, as the definitions of
//! `domain_groups` have it. `trace_line` gives the line that a trace has for an event. `settle_lines` runs
//! events on the original and `replay_lines` on the machine of results, and each puts its trace into a sink,
//! line by line; `specs/Runs.antt` says how far the run has gone, and what stands in the sink, where a line
//! could not be put.
#![tactic(auto)]

mod events;
mod given;
mod lines;
mod opening;
mod path_names;
mod putting;
mod replaying;
mod settling;
mod trace;
mod values;

pub use domain_groups::{EventFault, OpeningFault};
pub use events::read_events;
pub use opening::read_opening;
pub use replaying::replay_lines;
pub use settling::settle_lines;
pub use trace::trace_line;
