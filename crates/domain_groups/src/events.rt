//! Events of groups, and why a text tells none.
ghost use Rattle.domain_groups.specs.Events.{EachRecordingHasOneAnswer, RecordedEventsFit};

pub use design_core::Event;
use emu_io::{List, NoMemory};

/// Events in the order in which they come.
pub type Events = List<Event>;

/// The first fault of a text of events: that of the first line that has one, with the number of that line,
/// from 1. In a line the faults come in this order, but that the first word with a fault decides between the
/// last three.
#[derive(Clone, Copy, Debug, Drop, PartialEq, Eq)]
pub enum EventFault {
    /// The line has a byte that is neither a tab nor one from the space to the tilde, or a word behind the first
    /// without `=`.
    BadLine { line: u64 },
    /// Its first word is neither the name of a group nor `*`.
    NoGroup { line: u64 },
    /// A word names no input port of that group.
    NoPort { line: u64 },
    /// A word names a port that a word before it names.
    PortTwice { line: u64 },
    /// What a word gives to its port is no value, or does not fit.
    BadValue { line: u64 },
    /// No memory was left.
    NoMemory,
}

impl From<NoMemory> for EventFault {
    ghost use Rattle.std.specs.Prelude.{◌≡◌};
    ghost use Rattle.domain_groups.specs.declared.events.EventFault.TheVariants.{NoMemory as no_memory};

    ghost from_gives = { λ _ e. e ≡ no_memory };

    fn from(_: NoMemory) -> EventFault {
        EventFault::NoMemory
    }
}

/// The law that a text of events has one answer for some ports and groups, want of memory aside.
pub fn each_recording_has_one_answer()
    ensures { EachRecordingHasOneAnswer }
{}

/// The law that the events that a text tells are events of the groups: each names a group, or `*`, and gives
/// values to inputs of that group alone.
pub fn recorded_events_fit()
    ensures { RecordedEventsFit }
{}
