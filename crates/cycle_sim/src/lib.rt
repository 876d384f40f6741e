//! The emulator's machine: what registers hold, slot by slot, and what the nets of chips show.
//!
//! A machine is opened on results, on the wires of a board and on what it is loaded with. `slot` is one
//! slot step, `present` and `frame` do an event, and `net`, `register` and `word` are the values of the state.
//! None of these takes memory. All actions run: `input`, `load`, `send`, `write` and `read`. Nets get their
//! values by passes over the gates by change, one for each chip: a register or read port that takes another
//! value lets the gates that read it wait, and only these have a turn. The gates that wait have it before a
//! slot of which an action reads a net, and at the end of a frame. Which actions end in which slot is told when
//! the machine is opened, so that a slot goes over its own actions alone.
#![tactic(auto)]

mod gates;
mod laws;
mod loaded;
mod machine;
mod parts;
mod passes;
mod rule;
mod sent;
mod shown;
mod slots;
mod stored;
mod taken;
mod words;

pub use laws::{judged_can_load, judged_can_run};
pub use loaded::Loaded;
pub use machine::Machine;
