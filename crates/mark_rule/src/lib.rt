//! The marks of gates: what a gate of a chip gives for the marks of its inputs, by the subject of its output.
//!
//! `MarkRule` gives the marks of a frame, widened outside the influence of its group, and `PlainRule` those that
//! A12 asks for, with nothing widened. Both are rules of a pass over a chip, for any results and design.
//! `kept_nets` tells the nets whose marks a frame begins with.
#![tactic(auto)]

mod gates;
mod inside;
mod kept;
mod marks;
mod rule;
mod subjects;

pub use inside::{Inside, widen};
pub use kept::kept_nets;
pub use marks::NetMarks;
pub use rule::{MarkRule, PlainRule};
pub use subjects::subject_of;
