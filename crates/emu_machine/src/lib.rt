//! The emulator's machine: netlists of chips, schedules of slots, state maps, and what they mean.
//!
//! The types are plain. The definitions of this crate say what a slot, a frame and a run do to the
//! machine's state, which marks the nets bear in each slot, which results meet the rules A1 to A12,
//! and what it means that a machine agrees with the design that it stands for.
#![tactic(auto)]

mod drivers;
mod emu_net;
mod laws;
mod map;
mod netlist;
mod place;
mod results;
mod rule;
mod schedule;
#[cfg(test)]
mod tests;

pub use emu_net::{BuildFault, EmuNet};
pub use laws::{all_are_mapped, modules_are_counted, sends_use_again, sends_use_twice};
pub use map::{ChipMap, MemMap, Spot, StateMap, Subject};
pub use netlist::{Chip, EmuGate, EmuMemory, EmuRead, EmuRegister, EmuWrite};
pub use place::{Place, Thing};
pub use results::Results;
pub use rule::Rule;
pub use schedule::{Action, Frame, Schedule, Slot};
