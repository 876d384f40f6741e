//! What a judge of the rules says.

ghost use Rattle.shape_check.specs.Verdict.{FirstIsFirstFailure};

use emu_machine::{Place, Rule};

/// The verdict on some rules of acceptance.
#[derive(Clone, Copy, Debug, Drop, PartialEq, Eq)]
pub enum Verdict {
    /// All these rules hold.
    Accepted,
    /// This rule fails, at this least place, and all rules before it hold.
    Rejected { rule: Rule, place: Place },
}

/// The first rule that fails, with its least place, is the first failure of the results.
pub fn first_is_first_failure()
    ensures { FirstIsFirstFailure }
{}
