//! Why a text stands for no opening, and that it has one answer.
ghost use Rattle.domain_groups.specs.Openings.{EachOpeningHasOneAnswer};

use emu_io::{NoMemory, Text};
use json_members::{JsonFault, ShapeFault};

/// The first fault of the text of an opening: that of the text as a whole, else that of its inputs in the
/// order of their names, else that of its states, else that of its words.
#[derive(Debug, Drop, PartialEq, Eq)]
pub enum OpeningFault {
    /// The text is no JSON.
    NotJson,
    /// A member is of another form.
    BadShape,
    /// No input port has this name.
    NoPort { name: Text },
    /// The value for this port, or for a word of the memory of this path, is none or does not fit.
    BadValue { name: Text },
    /// No flip-flop and no latch has this path.
    NoState { path: Text },
    /// No memory has this path, or that memory has no such address.
    NoWord { path: Text },
    /// No memory was left.
    NoMemory,
}

impl From<NoMemory> for OpeningFault {
    ghost use Rattle.std.specs.Prelude.{◌≡◌};
    ghost use Rattle.domain_groups.specs.declared.openings.OpeningFault.TheVariants.{NoMemory as no_memory};

    ghost from_gives = { λ _ e. e ≡ no_memory };

    fn from(_: NoMemory) -> OpeningFault {
        OpeningFault::NoMemory
    }
}

impl From<JsonFault> for OpeningFault {
    ghost use Rattle.domain_groups.specs.OpeningFaults.{FromJson};

    ghost from_gives = { FromJson };

    fn from(fault: JsonFault) -> OpeningFault {
        match fault {
            JsonFault::NotJson => OpeningFault::NotJson,
            JsonFault::NoMemory => OpeningFault::NoMemory,
        }
    }
}

impl From<ShapeFault> for OpeningFault {
    ghost use Rattle.domain_groups.specs.OpeningFaults.{FromShape};

    ghost from_gives = { FromShape };

    fn from(fault: ShapeFault) -> OpeningFault {
        match fault {
            ShapeFault::BadShape => OpeningFault::BadShape,
            ShapeFault::NoMemory => OpeningFault::NoMemory,
        }
    }
}

/// The law that a text has one answer for a design, want of memory aside.
pub fn each_opening_has_one_answer()
    ensures { EachOpeningHasOneAnswer }
{}
