//! The marks of a frame, followed slot by slot and by change.
//!
//! `FrameMarks` has for each net of each chip its marks, for each memory how far its writes stand, and for each
//! wire the marks of what it carries. `follow` brings them from the start of a frame to its end. Before the
//! actions of a slot read anything, the gates whose inputs have changed get their turn; what the actions give is
//! collected and only then put, so that no action sees what another one of its slot gives. A slot costs its own
//! actions and the gates that they set going: no list of nets, registers or gates is gone through in a slot.
#![tactic(auto)]

mod carried;
mod chips;
mod frame;
mod given;
mod memories;
mod parts;
mod slots;
mod starts;
mod tables;

pub use frame::FrameMarks;
pub use tables::MemoryMarks;
