//! The one history of an opening and events.

ghost use Rattle.one_history.specs.Histories.{OneHistory};

/// For each opening that fits and each list of events, a ranked design has exactly one history.
pub fn one_history()
    ensures { OneHistory }
{}
