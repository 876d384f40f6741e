//! Which gates wait: a bit for each gate in ranked order, which is clear where the gate waits.
ghost use Rattle.std.specs.Prelude.{◌≡◌, ◌<◌, ◌≤◌, ◌^◌, ℕ, true, false, length, replicate, slice_set, IfOk};
ghost use Rattle.link_rows.specs.BitRows.{is_set, IsFirstClear};

use emu_io::NoMemory;
use link_rows::BitRows;
use std::alloc::Global;
use std::marker::Model;

/// Which gates wait. A contract sees for each gate whether it is idle.
#[derive(Drop)]
pub(crate) struct Waiting {
    idle: BitRows,
    gates: u32,
    // all gates before the first and after the last are idle
    first: u32,
    last: u32,
}

impl Model for Waiting {
    ghost use Rattle.std.specs.Prelude.{Bool, List};
    ghost use Rattle.link_rows.specs.BitRows.{bits_at};
    ghost use Rattle.gate_pass.specs.Bounds.{AreBounds};

    ghost Value = { List Bool };

    ghost view = { λ waiting. bits_at waiting.idle 0 };

    ghost invariant = { λ waiting. AreBounds waiting.idle waiting.gates waiting.first waiting.last };
}

impl Waiting {
    /// So many gates, all of which wait.
    pub(crate) fn new(alloc: Global, gates: u32) -> Result<Waiting, NoMemory>
        ensures { IfOk result (λ idle. idle ≡ replicate gates false) }
    {
        Ok(Waiting {
            idle: BitRows::new(alloc, 1, gates)?,
            gates,
            first: 0,
            last: gates,
        })
    }

    /// Lets a gate wait.
    pub(crate) fn wake(&mut self, gate: u32)
        requires { gate < length self.old }
        ensures { self.new ≡ slice_set self.old gate false }
    {
        self.idle.set(0, gate, false);
        self.first = self.first.min(gate);
        self.last = self.last.max(gate);
    }

    /// Lets all gates wait.
    pub(crate) fn wake_all(&mut self)
        ensures { self.new ≡ replicate (length self.old) false }
    {
        'gates: for gate in 0..self.gates {
            self.wake(gate);
        }
    }

    /// Lets a gate wait no more.
    pub(crate) fn rest(&mut self, gate: u32)
        requires { gate < length self.old }
        ensures { self.new ≡ slice_set self.old gate true }
    {
        self.idle.set(0, gate, true);
    }

    /// The first gate from a place on that waits.
    pub(crate) fn next(&self, at: u32) -> Option<u32>
        requires { at ≤ length self.now }
        ensures first { IsFirstClear self.now at result }
        ensures few { length self.now < 2 ^ 32 }
    {
        let at = at.max(self.first);
        if at >= self.gates || at > self.last {
            return None;
        }
        self.idle.first_clear_from(0, at)
    }

    /// Tells that no gate waits, so that the next search begins where one is woken.
    pub(crate) fn close(&mut self)
        requires { (k : ℕ) → k < length self.old → is_set self.old k ≡ true }
        ensures { self.new ≡ self.old }
    {
        self.first = self.gates;
        self.last = 0;
    }
}
