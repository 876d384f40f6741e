//! Which actions end in which slot of a frame.
//!
//! A `send` over a wire of some latency ends as many slots later, less one; every other action ends in its own
//! slot. The table is made once, by going through the actions of the slots one after the other, so that who
//! follows a frame goes over the actions of each slot alone.
#![tactic(auto)]

mod endings;

pub use endings::{all_endings, endings_of};
