//! Why a design has no first placement.
use emu_io::NoMemory;
use id_arena::ElemId;

/// Why a design has no first placement on a board.
#[derive(Clone, Copy, Debug, Drop, PartialEq, Eq)]
pub enum SeedFault {
    /// After the elements before this one are placed, no chip has room for it.
    NoRoom { elem: ElemId },
    /// No memory was left.
    NoMemory,
}

impl From<NoMemory> for SeedFault {
    ghost use Rattle.std.specs.Prelude.{◌≡◌};
    ghost use Rattle.seed_place.specs.declared.fault.SeedFault.TheVariants.{NoMemory as no_memory};

    ghost from_gives = { λ _ e. e ≡ no_memory };

    fn from(_: NoMemory) -> SeedFault {
        SeedFault::NoMemory
    }
}
