//! What the expressions of a module stand for, and the directions of its ports.
//!
//! [`read_bits`] gives the bits of one whole expression, as numbers of nets of one instance of the
//! module, or the expression's first fault with its byte. `specs/Names.antt` says what a name with a
//! select stands for, `specs/Bits.antt` what an expression does and which of its faults is the first.
//! [`read_sized`] gives the same where the expression must have a width (`specs/Sized.antt`).
//! [`port_shapes`] gives the first direction of each place of a header with its range, by which
//! connections are measured (`specs/Ports.antt`). By the law [`nets_are_numbered`] callers know that
//! the nets which `read_nets` gave them may be read with.
#![tactic(auto)]

mod bits;
mod context;
mod laws;
mod ports;
mod reading;
mod sized;
mod target;

pub use bits::read_bits;
pub use context::Context;
pub use laws::nets_are_numbered;
pub use ports::{Direction, PortShape, port_shapes};
pub use sized::{BitsFault, read_sized};
