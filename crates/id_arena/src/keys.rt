//! The kinds of keys: numbers of places that the compiler can't take for one another.
ghost use Rattle.std.specs.Prelude.{◌≡◌, ℕ, refl};

/// A place in a list, as a type of its own for each kind of thing that is listed.
///
/// Two laws hold of every kind: a key that was made of a place has that place, and a key is the one
/// that its place makes, so that keys with equal places are equal.
pub trait Key: Copy {
    /// The place that a key stands for.
    ghost place_of: { Self → ℕ };

    /// The key that stands for a place.
    ghost key_of: { ℕ → Self };

    /// The key of `place`.
    fn of(place: u32) -> Self
        ensures { result ≡ key_of place };

    /// The place of this key.
    fn place(self) -> u32
        ensures { result ≡ place_of self };

    ghost place_of_key: { (k : ℕ) → place_of (key_of k) ≡ k };

    ghost key_of_place: { (x : Self) → key_of (place_of x) ≡ x };
}

/// A net of the design.
#[derive(Clone, Copy, Debug, Drop, PartialEq, Eq, PartialOrd, Ord, Hash)]
pub struct NetId {
    pub place: u32,
}

impl Key for NetId {
    ghost place_of = { λ x. x.place };

    ghost key_of = { λ k. record { place = k } };

    ghost place_of_key = { λ _. refl };

    ghost key_of_place = { λ _. refl };

    fn of(place: u32) -> NetId {
        NetId { place }
    }

    fn place(self) -> u32 {
        self.place
    }
}

/// An element of the design: a gate, a flip-flop, a latch or a memory.
#[derive(Clone, Copy, Debug, Drop, PartialEq, Eq, PartialOrd, Ord, Hash)]
pub struct ElemId {
    pub place: u32,
}

impl Key for ElemId {
    ghost place_of = { λ x. x.place };

    ghost key_of = { λ k. record { place = k } };

    ghost place_of_key = { λ _. refl };

    ghost key_of_place = { λ _. refl };

    fn of(place: u32) -> ElemId {
        ElemId { place }
    }

    fn place(self) -> u32 {
        self.place
    }
}

/// A cell of the cell table.
#[derive(Clone, Copy, Debug, Drop, PartialEq, Eq, PartialOrd, Ord, Hash)]
pub struct CellId {
    pub place: u32,
}

impl Key for CellId {
    ghost place_of = { λ x. x.place };

    ghost key_of = { λ k. record { place = k } };

    ghost place_of_key = { λ _. refl };

    ghost key_of_place = { λ _. refl };

    fn of(place: u32) -> CellId {
        CellId { place }
    }

    fn place(self) -> u32 {
        self.place
    }
}

/// A pin of a cell under change.
#[derive(Clone, Copy, Debug, Drop, PartialEq, Eq, PartialOrd, Ord, Hash)]
pub struct PinId {
    pub place: u32,
}

impl Key for PinId {
    ghost place_of = { λ x. x.place };

    ghost key_of = { λ k. record { place = k } };

    ghost place_of_key = { λ _. refl };

    ghost key_of_place = { λ _. refl };

    fn of(place: u32) -> PinId {
        PinId { place }
    }

    fn place(self) -> u32 {
        self.place
    }
}

/// A register of one chip.
#[derive(Clone, Copy, Debug, Drop, PartialEq, Eq, PartialOrd, Ord, Hash)]
pub struct RegId {
    pub place: u32,
}

impl Key for RegId {
    ghost place_of = { λ x. x.place };

    ghost key_of = { λ k. record { place = k } };

    ghost place_of_key = { λ _. refl };

    ghost key_of_place = { λ _. refl };

    fn of(place: u32) -> RegId {
        RegId { place }
    }

    fn place(self) -> u32 {
        self.place
    }
}

/// A memory.
#[derive(Clone, Copy, Debug, Drop, PartialEq, Eq, PartialOrd, Ord, Hash)]
pub struct MemId {
    pub place: u32,
}

impl Key for MemId {
    ghost place_of = { λ x. x.place };

    ghost key_of = { λ k. record { place = k } };

    ghost place_of_key = { λ _. refl };

    ghost key_of_place = { λ _. refl };

    fn of(place: u32) -> MemId {
        MemId { place }
    }

    fn place(self) -> u32 {
        self.place
    }
}

/// A chip of the board.
#[derive(Clone, Copy, Debug, Drop, PartialEq, Eq, PartialOrd, Ord, Hash)]
pub struct ChipId {
    pub place: u32,
}

impl Key for ChipId {
    ghost place_of = { λ x. x.place };

    ghost key_of = { λ k. record { place = k } };

    ghost place_of_key = { λ _. refl };

    ghost key_of_place = { λ _. refl };

    fn of(place: u32) -> ChipId {
        ChipId { place }
    }

    fn place(self) -> u32 {
        self.place
    }
}

/// A wire of the board.
#[derive(Clone, Copy, Debug, Drop, PartialEq, Eq, PartialOrd, Ord, Hash)]
pub struct WireId {
    pub place: u32,
}

impl Key for WireId {
    ghost place_of = { λ x. x.place };

    ghost key_of = { λ k. record { place = k } };

    ghost place_of_key = { λ _. refl };

    ghost key_of_place = { λ _. refl };

    fn of(place: u32) -> WireId {
        WireId { place }
    }

    fn place(self) -> u32 {
        self.place
    }
}

/// A group of input ports; the group of all ports is the last.
#[derive(Clone, Copy, Debug, Drop, PartialEq, Eq, PartialOrd, Ord, Hash)]
pub struct GroupId {
    pub place: u32,
}

impl Key for GroupId {
    ghost place_of = { λ x. x.place };

    ghost key_of = { λ k. record { place = k } };

    ghost place_of_key = { λ _. refl };

    ghost key_of_place = { λ _. refl };

    fn of(place: u32) -> GroupId {
        GroupId { place }
    }

    fn place(self) -> u32 {
        self.place
    }
}

/// A net of one chip's netlist.
#[derive(Clone, Copy, Debug, Drop, PartialEq, Eq, PartialOrd, Ord, Hash)]
pub struct ChipNetId {
    pub place: u32,
}

impl Key for ChipNetId {
    ghost place_of = { λ x. x.place };

    ghost key_of = { λ k. record { place = k } };

    ghost place_of_key = { λ _. refl };

    ghost key_of_place = { λ _. refl };

    fn of(place: u32) -> ChipNetId {
        ChipNetId { place }
    }

    fn place(self) -> u32 {
        self.place
    }
}

/// A cell of the netlist under change.
#[derive(Clone, Copy, Debug, Drop, PartialEq, Eq, PartialOrd, Ord, Hash)]
pub struct WorkId {
    pub place: u32,
}

impl Key for WorkId {
    ghost place_of = { λ x. x.place };

    ghost key_of = { λ k. record { place = k } };

    ghost place_of_key = { λ _. refl };

    ghost key_of_place = { λ _. refl };

    fn of(place: u32) -> WorkId {
        WorkId { place }
    }

    fn place(self) -> u32 {
        self.place
    }
}
