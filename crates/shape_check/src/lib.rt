//! The rules of acceptance A1 to A12, judged of any results of any design, groups and board.
//!
//! `judge` answers that results are accepted exactly where all twelve rules hold, and else that they are
//! rejected, with the first rule that fails and its least place. `judge_shape` does so for A1 to A9 alone.
//!
//! Each rule has a function that names the least place at which the rule fails, or says that it holds
//! (`specs/Least.antt` of `use_check`). Where a rule is asked of what an earlier one already grants, that the
//! earlier rule holds is a condition of its function.
#![tactic(auto)]

mod actions;
mod all_rules;
mod chips;
mod cycles;
mod ends;
mod fitting;
mod following;
mod frame_end;
mod frames;
mod gates;
mod influences;
mod judging;
mod mapped;
mod memories;
mod outputs;
mod registers;
mod shape_case;
mod tables;
mod unmapped;
mod using;
mod verdict;
mod weights;

pub use actions::{find_a5, find_a8};
pub use all_rules::judge;
pub use chips::find_a1;
pub use cycles::find_a2;
pub use fitting::find_a7;
pub use frames::find_a4;
pub use judging::judge_shape;
pub use shape_case::ShapeCase;
pub use unmapped::find_a9;
pub use using::find_a6;
pub use verdict::{Verdict, first_is_first_failure};
pub use weights::find_a3;
