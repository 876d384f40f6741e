//! Groups of inputs, told by a JSON text, and what each of them can reach.
//!
//! `read_groups` gives the groups that a text stands for in a design, or the first fault of the text,
//! exactly (`specs/Answers.antt`). `influence` gives for each group, and for the group `*` of all inputs,
//! just the nodes that an event of it can change: the least set that holds its input bits and each node
//! that depends on one of its nodes (`specs/Influences.antt`). What the texts of openings and events
//! say, and which fault they have, is defined here too (`specs/Openings.antt`, `specs/Events.antt`), and what
//! traces show (`specs/Traces.antt`); what reads and runs them stands above.
#![tactic(auto)]

mod events;
mod fault;
mod groups;
mod influences;
mod openings;
mod port_names;
mod read;
mod written;

pub use events::{Event, EventFault, Events, each_recording_has_one_answer, recorded_events_fit};
pub use fault::GroupFault;
pub use groups::Groups;
pub use influences::influence;
pub use openings::{OpeningFault, each_opening_has_one_answer};
pub use port_names::PortNames;
pub use read::{each_text_has_one_answer, read_groups};
