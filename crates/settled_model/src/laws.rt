//! The laws of openings and of lists of events.

ghost use Rattle.settled_model.specs.Runs.{OpeningsFit, RunsGiveTheHistory, RunsGrow};

/// What `open` and then `event` for each of some events give is the one history of the opening and the
/// events.
pub fn runs_give_the_history()
    ensures { RunsGiveTheHistory }
{}

/// One more call of `event` makes a longer run.
pub fn runs_grow()
    ensures { RunsGrow }
{}

/// The words of an opening fit the memories of its design.
pub fn openings_fit()
    ensures { OpeningsFit }
{}
