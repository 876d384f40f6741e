//! The texts of results, read back and printed.
//!
//! `read_results` gives the results that a netlist, a schedule and a map stand for, or their first fault:
//! those of the netlist come first, then those of the schedule, then those of the map
//! (`specs/ThreeTexts.antt`). `results_are_told_apart` carries the law that three texts stand for at most
//! one result. `read_schedule` and `read_map` are the parts for a schedule and for a map alone, of any
//! form (`specs/Schedule.antt`, `specs/Map.antt`); `print_schedule` and `print_map` give the texts, to the
//! byte. No clause says yet that what is printed reads back.
//!
//! Beside them the plain results are read, of any size: the netlist of one chip of `buf` and `not` gates
//! and of registers without D, the schedule of `input` actions alone, and the map of one chip without
//! memories whose subjects are nets of the design. Ok gives the one chip, schedule or map that the
//! text says, by `specs/PlainNetlist.antt`, `specs/PlainSchedule.antt` and `specs/PlainMap.antt`;
//! `NotYet` comes exactly where there is none.
#![tactic(auto)]

mod drivers;
mod fault;
mod map_reader;
mod netlist_line;
mod numbered;
mod plain_map;
mod plain_netlist;
mod plain_schedule;
mod printed;
mod printed_map;
mod printed_schedule;
mod rest;
mod result_fault;
mod rows;
mod schedule_reader;
mod three_texts;
mod told;
mod tree_list;
mod trees;

pub use fault::FormFault;
pub use map_reader::{maps_are_told_apart, read_map};
pub use plain_map::{plain_maps_are_told_apart, read_plain_map};
pub use plain_netlist::{plain_netlists_are_told_apart, read_plain_netlist};
pub use plain_schedule::{plain_schedules_are_told_apart, read_plain_schedule};
pub use printed_map::print_map;
pub use printed_schedule::print_schedule;
pub use result_fault::ResultFault;
pub use schedule_reader::{read_schedule, schedules_are_told_apart};
pub use three_texts::{read_results, results_are_told_apart};
