//! What holds of every event.

ghost use Rattle.history_law.specs.Events.{EventsKeepSettled};

/// After an event a settled valuation is settled again.
pub fn events_keep_settled()
    ensures { EventsKeepSettled }
{}
