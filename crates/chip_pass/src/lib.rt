//! A pass over the gates of one chip by change.
//!
//! A `ChipPass` has a value for each net of a chip, and knows which gates wait. Nets that no gate drives are
//! set; a pass gives the gates that wait their turns, each after those that drive what it reads. Afterwards
//! each net has what comes to it through gates. What a gate gives for the values of its inputs is told by a
//! rule, for values of any kind. Only `new` takes memory.
#![tactic(auto)]

mod order;
mod pass;
mod ranked;
mod rule_by_place;

pub use chip_rule::ChipRule;
pub use pass::ChipPass;
