//! Why words are no netlist.
use emu_io::NoMemory;

/// Why a text is no netlist.
#[derive(Clone, Copy, Debug, Drop, PartialEq, Eq)]
pub enum NetlistFault {
    /// The first token that cannot stand after those before it. Where the text ends too early, it is the
    /// number of the tokens.
    Form { token: u32 },
    /// No memory was left.
    NoMemory,
}

/// Why a part of a netlist was not read.
#[derive(Clone, Copy, Debug, Drop, PartialEq, Eq)]
pub(crate) enum Stop {
    /// The next word cannot stand here.
    Stuck,
    NoMemory,
}

impl From<NoMemory> for Stop {
    ghost use Rattle.std.specs.Prelude.{◌≡◌};
    ghost use Rattle.netlist_reader.specs.declared.fault.Stop.TheVariants as stop;

    ghost from_gives = { λ _ e. e ≡ stop.NoMemory };

    fn from(_: NoMemory) -> Stop {
        Stop::NoMemory
    }
}
