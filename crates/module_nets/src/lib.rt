//! The nets of one module: which names it declares, and the first fault of its declarations.
//!
//! [`read_nets`] goes over a module of a tree. Contracts speak of its mentions, which are the places at
//! which it names something, in the order of the text (`specs/Mentions.antt`). `specs/Declarations.antt`
//! says which of them count, when two may have one name, and which nets they make; `specs/Nets.antt` what
//! the answer is: the nets with their directions, ranges and first numbers, or the first fault with its
//! byte.
#![tactic(auto)]

mod check;
mod fault;
mod gather;
mod mention;
mod name;
mod nets;
mod seen;
mod sieve;
mod survey;
mod table;

pub use fault::{Cause, NetFault};
pub use name::{start_of, text_at};
pub use nets::{ModuleNets, Net, read_nets};
pub use survey::{BIT_LIMIT, width_of};
