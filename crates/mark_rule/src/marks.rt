//! The marks of a net.
ghost use Rattle.std.specs.Prelude.{◌≡◌, ◌↔◌, IsTrue};
ghost use Rattle.emu_machine.specs.Marks.{after_if, both_marks, has_some, no_mark, only_after, only_before};

use gate_pass::NetValue;
use std::marker::Model;

/// The marks that a net bears. A clause sees them as the definitions do.
#[derive(Clone, Copy, Debug, Drop, PartialEq, Eq)]
pub struct NetMarks {
    /// Whether it shows what it stands for as that was before the event.
    pub before: bool,
    /// Whether it shows what it stands for in the event.
    pub after: bool,
}

impl Model for NetMarks {
    ghost use Rattle.emu_machine.specs.Marks.{Mark};

    ghost Value = { Mark };

    ghost view = { λ m. record { before = m.before; after = m.after } };

    ghost inverse = { λ m. record { before = m.before; after = m.after } };
}

impl NetValue for NetMarks {
    ghost none = { no_mark };

    fn is(self, other: NetMarks) -> bool {
        self.before == other.before && self.after == other.after
    }
}

impl NetMarks {
    /// No mark.
    pub fn none() -> NetMarks
        ensures { result ≡ no_mark }
    {
        NetMarks::after_if(false)
    }

    /// Both marks.
    pub fn both() -> NetMarks
        ensures { result ≡ both_marks }
    {
        NetMarks {
            before: true,
            after: true,
        }
    }

    /// The mark "before" alone.
    pub fn only_before() -> NetMarks
        ensures { result ≡ only_before }
    {
        NetMarks {
            before: true,
            after: false,
        }
    }

    /// The mark "after" alone.
    pub fn only_after() -> NetMarks
        ensures { result ≡ only_after }
    {
        NetMarks::after_if(true)
    }

    /// The mark "after" alone where this holds, else none.
    pub fn after_if(after: bool) -> NetMarks
        ensures { result ≡ after_if after }
    {
        NetMarks {
            before: false,
            after,
        }
    }

    /// Whether there is a mark.
    pub fn has_some(self) -> bool
        ensures { result ≡ has_some self }
    {
        self.before || self.after
    }
}
