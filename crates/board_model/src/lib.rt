//! The board: chips with their rooms, the wires between them, and the most slots of a frame.
//!
//! `read_board` gives the board that a text stands for, or the first fault of the text, exactly.
//! Every `Board` has its numbers within the limits, and each of its wires joins two of its chips;
//! its readers take no memory. `tree` tells how each chip is reached from a chip over the fewest wires.
#![tactic(auto)]

mod board;
mod branches;
mod fault;
mod form;
mod reader;
mod routes;

pub use board::Board;
pub use branches::Tree;
pub use fault::BoardFault;
pub use reader::{each_text_has_one_answer, read_board};
pub use routes::tree;
