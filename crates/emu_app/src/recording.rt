//! Reading an opening and events.

ghost use Rattle.std.specs.Prelude.{◌≡◌, IfOk, Contains};
ghost use Rattle.design_core.specs.declared.values.Event.{Event};
ghost use Rattle.settled_model.specs.Opening.{Opens};
ghost use Rattle.event_replay.specs.Settings.{AreInputBits};
ghost use Rattle.case_texts.specs.Faults.{events_refusal, opening_refusal};
ghost use Rattle.emu_app.specs.Reading.{EventsMean, OpeningMeans};

use case_texts::{EventsFault, OpeningsFault, Refusal, Unread};
use design_core::Design;
use domain_groups::{EventFault, Events, Groups, OpeningFault};
use event_replay::{read_events, read_opening};
use settled_model::Opening;
use std::alloc::Global;

/// What was recorded of a design: what it is opened with, and the events after that.
#[derive(Debug, Drop)]
pub struct Recording {
    pub opening: Opening,
    pub events: Events,
}

/// The answer to the text of an opening that has this fault.
fn faulty_opening(fault: OpeningsFault) -> Unread
    ensures { result ≡ Unread.Refused (Refusal.Opening fault) }
{
    Unread::Refused(Refusal::Opening(fault))
}

/// The answer to a text of which the reader of openings tells this fault.
fn opening_refusal(fault: OpeningFault) -> Unread
    ensures { result ≡ opening_refusal fault }
{
    match fault {
        OpeningFault::NotJson => faulty_opening(OpeningsFault::NotJson),
        OpeningFault::BadShape => faulty_opening(OpeningsFault::BadShape),
        OpeningFault::NoPort { name } => faulty_opening(OpeningsFault::NoPort { name }),
        OpeningFault::BadValue { name } => faulty_opening(OpeningsFault::BadValue { name }),
        OpeningFault::NoState { path } => faulty_opening(OpeningsFault::NoState { path }),
        OpeningFault::NoWord { path } => faulty_opening(OpeningsFault::NoWord { path }),
        OpeningFault::NoMemory => Unread::NoMemory,
    }
}

/// What a text opens a design with, or its first fault.
pub fn read_opening_text(alloc: Global, text: &[u8], design: &Design) -> Result<Opening, Unread>
    ensures means { OpeningMeans design.now text.now result }
    ensures opens { IfOk result (Opens design.now) }
{
    match read_opening(alloc, text, design) {
        Ok(opening) => Ok(opening),
        Err(fault) => Err(opening_refusal(fault)),
    }
}

/// The answer to a text of events that has this fault.
fn faulty_events(fault: EventsFault) -> Unread
    ensures { result ≡ Unread.Refused (Refusal.Events fault) }
{
    Unread::Refused(Refusal::Events(fault))
}

/// The answer to a text of which the reader of events tells this fault.
fn events_refusal(fault: EventFault) -> Unread
    ensures { result ≡ events_refusal fault }
{
    match fault {
        EventFault::BadLine { line } => faulty_events(EventsFault::BadLine { line }),
        EventFault::NoGroup { line } => faulty_events(EventsFault::NoGroup { line }),
        EventFault::NoPort { line } => faulty_events(EventsFault::NoPort { line }),
        EventFault::PortTwice { line } => faulty_events(EventsFault::PortTwice { line }),
        EventFault::BadValue { line } => faulty_events(EventsFault::BadValue { line }),
        EventFault::NoMemory => Unread::NoMemory,
    }
}

/// The events that a text tells, or its first fault.
pub fn read_event_lines(
    alloc: Global,
    text: &[u8],
    design: &Design,
    groups: &Groups,
) -> Result<Events, Unread>
    ensures means { EventsMean groups.now design.now text.now result }
    ensures bits { IfOk result (λ events. (event : Event) → Contains events event → AreInputBits design.now event.values) }
{
    match read_events(alloc, text, design, groups) {
        Ok(events) => Ok(events),
        Err(fault) => Err(events_refusal(fault)),
    }
}
