//! How many nets a placement cuts, and what a move of an element gains.
//!
//! `cut` counts the chips that read a net away from its home, exactly, and `gain_of` gives what a move
//! takes from that count. The definitions say which moves there are, which is best, and where the descent
//! by best moves ends; that there is one such end at most is a law. No call descends yet.
#![tactic(auto)]

mod cutting;
mod gains;
mod laws;
mod loads;
mod moves;
mod pins;
mod steps;
mod tables;

pub use cutting::cut;
pub use gains::gain_of;
pub use laws::{
    descents_keep_rooms, descents_lower_the_cut, each_start_has_one_end, example_holds,
    others_keep_their_gains,
};
pub use loads::Loads;
pub use moves::Move;
pub use steps::Steps;
