//! Why a text is no board.
use emu_io::NoMemory;
use id_arena::WireId;
use json_members::JsonFault;

/// The first fault of a board's text, in this order.
#[derive(Clone, Copy, Debug, Drop, PartialEq, Eq)]
pub enum BoardFault {
    /// The text is no JSON.
    NotJson,
    /// A member is missing or of another form, the version's included.
    BadShape,
    /// The version is neither 1 nor 2.
    Version,
    /// The number of chips, of wires or of slots, or the latency of a wire, is outside its limits.
    Limit,
    /// The first wire whose ends are not two different chips.
    BadWire { wire: WireId },
    /// No memory was left.
    NoMemory,
}

impl From<NoMemory> for BoardFault {
    ghost use Rattle.std.specs.Prelude.{◌≡◌};
    ghost use Rattle.board_model.specs.declared.fault.BoardFault.TheVariants.{NoMemory as no_memory};

    ghost from_gives = { λ _ e. e ≡ no_memory };

    fn from(_: NoMemory) -> BoardFault {
        BoardFault::NoMemory
    }
}

impl From<JsonFault> for BoardFault {
    ghost use Rattle.board_model.specs.Faults.{FromJson};

    ghost from_gives = { FromJson };

    fn from(fault: JsonFault) -> BoardFault {
        match fault {
            JsonFault::NotJson => BoardFault::NotJson,
            JsonFault::NoMemory => BoardFault::NoMemory,
        }
    }
}
