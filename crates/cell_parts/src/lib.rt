//! The pins of cells, and what an instance of a cell makes: new nets, elements and a memory.
//!
//! An instance goes through four steps. [`pins_of`] gives the pins of a kind of cell in their order, and
//! finds each by its name in one step. Whoever reads the instance then has the nets that are connected to
//! each pin, or none: its *ties*, one for each pin and at the pin's place. [`new_count`] tells how many new
//! nets the pins need and [`inner_count`] how many inner nets the elements need, so that limits can be judged
//! before anything is made; [`push_new_names`] and [`push_inner_names`] add their names. [`Wires::new`] takes
//! the ties, without a copy, and puts new nets where there are none. [`element_count`] tells how many elements
//! the cell makes of these nets, and [`push_elements`] and [`push_memory`] add them and its memory.
//!
//! The definitions of all this stand in `specs`, and each call has one equation with them. The pins can be
//! made once for a cell and lent to each of its instances.
#![tactic(auto)]

mod elements;
mod gates;
mod memories;
mod named;
mod names;
mod pins;
mod states;
mod wires;

pub use elements::{element_count, inner_count, push_elements};
pub use memories::push_memory;
pub use names::{new_count, push_inner_names, push_new_names};
pub use pins::{Pin, Pins, pins_of};
pub use wires::Wires;
