//! The board and its readers.
ghost use Rattle.std.specs.Prelude.{◌≡◌, ◌≢◌, ◌<◌, ◌≤◌, Some, length, option_map, slice_get};

use emu_io::List;
use id_arena::{ChipId, Key, Wire, WireId};
use std::marker::Model;

/// A board whose numbers are within their limits and whose wires each join two different chips.
#[derive(Debug, Drop)]
pub struct Board {
    rooms: List<u64>,
    wires: List<Wire>,
    slots: u32,
}

impl Model for Board {
    ghost use Rattle.id_arena.specs.BoardPlan.{BoardPlan};
    ghost use Rattle.board_model.specs.Sound.{IsSound};

    ghost Value = { BoardPlan };

    ghost view = { λ b. record { rooms = b.rooms; wires = b.wires; slots = b.slots } };

    ghost invariant = { λ b. IsSound (record { rooms = b.rooms; wires = b.wires; slots = b.slots }) };
}

impl Board {
    ghost use Rattle.board_model.specs.Sound.{IsSound};

    /// The board of numbers that are already known to be sound. Takes no memory.
    pub(crate) fn from_parts(rooms: List<u64>, wires: List<Wire>, slots: u32) -> Board
        requires { IsSound (record { rooms = rooms; wires = wires; slots = slots }) }
        ensures { result ≡ record { rooms = rooms; wires = wires; slots = slots } }
    {
        Board {
            rooms,
            wires,
            slots,
        }
    }

    /// The number of chips, 1 to 16. That every board is sound stands here for its callers.
    pub fn chips(&self) -> u32
        ensures sound { IsSound self.now }
        ensures count { result ≡ length self.now.rooms }
        ensures some { 0 < result }
        ensures few { result ≤ 16 }
    {
        self.rooms.len() as u32
    }

    /// The greatest weight that a chip can take.
    pub fn room(&self, chip: ChipId) -> u64
        requires { chip.place < length self.now.rooms }
        ensures { slice_get self.now.rooms chip.place ≡ Some result }
    {
        *self.rooms.get(u64::from(chip.place()))
    }

    /// The number of wires, at most 4,096.
    pub fn wires(&self) -> u32
        ensures count { result ≡ length self.now.wires }
        ensures few { result ≤ 4096 }
    {
        self.wires.len() as u32
    }

    /// All wires, by number.
    pub fn all_wires(&self) -> &[Wire]
        ensures { result.now ≡ self.now.wires }
    {
        self.wires.as_slice()
    }

    /// The chips that a wire goes from and to: two different chips of the board.
    pub fn ends(&self, wire: WireId) -> (ChipId, ChipId)
        requires { wire.place < length self.now.wires }
        ensures ends { option_map (λ ends. (ends.from, ends.to)) (slice_get self.now.wires wire.place)
            ≡ Some result }
        ensures from_chip { result.0.place < length self.now.rooms }
        ensures to_chip { result.1.place < length self.now.rooms }
        ensures apart { result.0.place ≢ result.1.place }
    {
        let ends = self.wires.get(u64::from(wire.place()));
        (ends.from, ends.to)
    }

    /// For how many slots a wire carries what is sent, 1 to 8: it arrives at the end of the last of
    /// these, and the send's own slot is the first.
    pub fn latency(&self, wire: WireId) -> u32
        requires { wire.place < length self.now.wires }
        ensures latency { option_map (λ ends. ends.latency) (slice_get self.now.wires wire.place)
            ≡ Some result }
        ensures some { 0 < result }
        ensures few { result ≤ 8 }
    {
        self.wires.get(u64::from(wire.place())).latency
    }

    /// The most slots that a frame may have, 1 to 65,535.
    pub fn slots(&self) -> u32
        ensures count { result ≡ self.now.slots }
        ensures some { 0 < result }
        ensures few { result ≤ 65535 }
    {
        self.slots
    }
}
