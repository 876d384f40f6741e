//! The texts that commands read.

ghost use Rattle.std.specs.Prelude.{◌≡◌};
ghost use Rattle.case_texts.specs.What.{label, limit, order, what_at};

/// A text that a command reads, in the order in which texts are fetched and read.
#[derive(Clone, Copy, Debug, Drop, PartialEq, Eq)]
pub enum What {
    Design,
    Cells,
    Groups,
    Board,
    Netlist,
    Schedule,
    Map,
    Opening,
    Events,
}

impl What {
    /// The text at a place of the order of all.
    pub fn at(place: u32) -> What
        ensures { result ≡ what_at place }
    {
        match place {
            0 => What::Design,
            1 => What::Cells,
            2 => What::Groups,
            3 => What::Board,
            4 => What::Netlist,
            5 => What::Schedule,
            6 => What::Map,
            7 => What::Opening,
            _ => What::Events,
        }
    }

    /// The place of this text in the order in which texts are fetched and read.
    pub fn order(self) -> u64
        ensures { result ≡ order self }
    {
        match self {
            What::Design => 0,
            What::Cells => 1,
            What::Groups => 2,
            What::Board => 3,
            What::Netlist => 4,
            What::Schedule => 5,
            What::Map => 6,
            What::Opening => 7,
            What::Events => 8,
        }
    }

    /// The word for this text in a printed refusal.
    pub fn label(self) -> &'static [u8]
        ensures { result.now ≡ label self }
    {
        match self {
            What::Design => b"design",
            What::Cells => b"cells",
            What::Groups => b"groups",
            What::Board => b"board",
            What::Netlist => b"netlist",
            What::Schedule => b"schedule",
            What::Map => b"map",
            What::Opening => b"opening",
            What::Events => b"events",
        }
    }

    /// The most bytes that this text may have.
    pub fn limit(self) -> u64
        ensures { result ≡ limit self }
    {
        match self {
            What::Netlist | What::Schedule | What::Map => 4_294_967_295,
            What::Design
            | What::Cells
            | What::Groups
            | What::Board
            | What::Opening
            | What::Events => 67_108_864,
        }
    }
}
