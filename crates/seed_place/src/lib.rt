//! The first placement of a design on a board: elements by number, each on the first chip that still
//! has room for it.
//!
//! `seed` gives that placement, or the first element for which no chip has room, exactly. What a chip
//! holds, and when a placement keeps the rooms of a board, stand in the definitions, for the crates
//! above.
#![tactic(auto)]

mod fault;
mod placing;

pub use fault::SeedFault;
pub use placing::{each_design_has_one_seed, seed};
