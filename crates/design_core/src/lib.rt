//! The design: numbered nets, elements, memories and ports, and what events do to them.
//!
//! The types are plain: a clause sees a design as the lists of its parts. The definitions of this
//! crate say what a design means: which net has which driver, on what a net depends, when a valuation
//! is settled, what an event makes of it, and what a group of inputs can reach. Every layer above
//! speaks of these alone.
#![tactic(auto)]

mod build;
mod design;
mod drives;
mod element;
mod fault;
mod good;
mod limits;
mod names;
mod node;
mod operation;
mod owners;
mod parts;
mod reads;
#[cfg(test)]
mod tests;
mod values;

pub use design::Design;
pub use element::{Driver, Edge, Element, Flop, Latch, Level, Memory, ReadPort, WritePort};
pub use fault::{DesignFault, LimitKind};
pub use node::NodeId;
pub use operation::Op;
pub use parts::{NetName, Parts, Port, Scope};
pub use values::{Event, Placement, PortBit, PortValues};
