//! The texts of a case, read: which fault each of them has, and what is printed of it.
//!
//! A command reads up to nine texts ([`What`]). Each reader here gives what its text stands for, or the first
//! fault of the text as the refusal that a command answers; [`refusal_text`] gives the line that is printed of
//! it. The design's tree is read here, and flattened above; openings and events are read above too, but their
//! faults and printed lines stand here.
//!
//! [`texts_tell_cases_apart`] carries the law that texts stand for at most one design, groups, board and
//! results (`specs/Cases.antt`). [`faulty_texts_are_unread`] carries the law that a text with a fault is not of
//! its form (`specs/Reading.antt`).
#![tactic(auto)]

mod board_text;
mod cells_text;
mod groups_text;
mod laws;
mod lines;
mod printed;
mod ranking;
mod refusal;
mod result_texts;
mod tree_text;
mod what;

pub use board_text::read_board_text;
pub use cells_text::read_table;
pub use groups_text::read_group_list;
pub use laws::{faulty_texts_are_unread, texts_tell_cases_apart};
pub use lines::{append, append_decimal, line, numbered};
pub use printed::refusal_text;
pub use ranking::rank_design;
pub use refusal::{
    BoardsFault, CellsFault, DesignsFault, EventsFault, Fault, GroupsFault, MapsFault,
    NetlistsFault, OpeningsFault, Refusal, SchedulesFault, TextFault, Unread,
};
pub use result_texts::read_result_texts;
pub use tree_text::{Parsed, read_tree};
pub use what::What;
