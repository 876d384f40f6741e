//! From the tree of a Verilog text and a table of cells to a design: hierarchy, vectors, assignments, supply
//! nets, implicit wires, primitives and cells of all kinds.
//!
//! [`elaborate`] gives the design that the text describes, or exactly its first fault, as the crate
//! `flattening` defines both. Each call below it does one step of that definition: it reads what the step
//! reads, refuses at the first test that fails, and else puts the step's piece behind all that was made. The
//! work is linear in what the text says and in what is made of it; nothing is made beyond a limit.
#![tactic(auto)]

mod assign;
mod cells;
mod entering;
mod feeding;
mod making;
mod modules;
mod primitive;
mod room;
mod setting;
mod sockets;
mod standing;
mod supply;
mod targets;
mod ties;
mod top;
mod value;
mod walk;

pub use flattening::ElabFault;
pub use top::elaborate;
