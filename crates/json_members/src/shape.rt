//! Why a member could not be read.
use emu_io::NoMemory;

/// Why a value that takes memory could not be read.
#[derive(Clone, Copy, Debug, Drop, PartialEq, Eq)]
pub enum ShapeFault {
    /// It is missing or of another form.
    BadShape,
    /// No memory was left.
    NoMemory,
}

impl From<NoMemory> for ShapeFault {
    ghost use Rattle.std.specs.Prelude.{◌≡◌};
    ghost use Rattle.json_members.specs.declared.shape.ShapeFault.TheVariants.{NoMemory as no_memory};

    ghost from_gives = { λ _ fault. fault ≡ no_memory };

    fn from(_: NoMemory) -> ShapeFault {
        ShapeFault::NoMemory
    }
}
