//! The calls that are to fail, for the files and the sink in memory.

ghost use Rattle.std.specs.Prelude.{◌≡◌, IfOk, Some};
ghost use Rattle.emu_io.specs.Faults.{is_due, next_call};

use crate::{List, NoMemory};
use std::alloc::Global;

/// The number of the next call, and the numbers of the calls that are to fail.
#[derive(Drop)]
pub(crate) struct Calls {
    pub(crate) failing: List<u64>,
    // None once numbers have run out, so that no two calls have one number.
    pub(crate) next: Option<u64>,
}

impl Calls {
    /// No call was made yet.
    pub(crate) fn new(alloc: Global, failing: &[u64]) -> Result<Calls, NoMemory>
        ensures { IfOk result (λ calls. calls ≡ record { failing = failing.now; next = Some 0 }) }
    {
        let mut numbers = Vec::new(alloc);
        numbers.extend_from_slice(failing)?;
        Ok(Calls {
            failing: List::from_vec(numbers),
            next: Some(0),
        })
    }

    /// Whether the next call is to fail.
    pub(crate) fn is_failing(&self) -> bool
        ensures { result ≡ is_due self.now.failing self.now.next }
    {
        match self.next {
            Some(number) => self.failing.as_slice().contains(&number),
            None => false,
        }
    }

    /// One call more was made.
    pub(crate) fn advance(&mut self)
        ensures { self.new ≡ record self.old { next = next_call self.old.next } }
    {
        self.next = match self.next {
            Some(number) => number.checked_add(1),
            None => None,
        };
    }
}
