//! Why no value came of a text.
use emu_io::NoMemory;
use json_members::JsonFault;

/// Why no value came of a text.
#[derive(Clone, Copy, Debug, Drop, PartialEq, Eq)]
pub enum FormFault {
    /// The text is none of those that are read so far.
    NotYet,
    /// No memory was left.
    NoMemory,
}

impl From<NoMemory> for FormFault {
    ghost use Rattle.std.specs.Prelude.{◌≡◌};
    ghost use Rattle.result_files.specs.declared.fault.FormFault.TheVariants.{NoMemory as no_memory};

    ghost from_gives = { λ _ e. e ≡ no_memory };

    fn from(_: NoMemory) -> FormFault {
        FormFault::NoMemory
    }
}

impl From<JsonFault> for FormFault {
    ghost use Rattle.result_files.specs.Faults.{FromJson};

    ghost from_gives = { FromJson };

    fn from(fault: JsonFault) -> FormFault {
        match fault {
            JsonFault::NotJson => FormFault::NotYet,
            JsonFault::NoMemory => FormFault::NoMemory,
        }
    }
}
