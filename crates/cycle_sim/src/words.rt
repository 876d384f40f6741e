//! The words of memories, and the numbers that nets show.

ghost use Rattle.std.specs.Prelude.{◌≡◌, ◌<◌, ◌≤◌, ◌^◌, ℕ, All, List, [], get_or, length, slice_set};
ghost use Rattle.design_core.specs.Operation.{number};
ghost use Rattle.cycle_sim.specs.Standing.{IsThere};
ghost use Rattle.cycle_sim.specs.Tables.{word_in};
ghost use Rattle.cycle_sim.specs.Takes.{ShowOnChip, ShowWord, with_word};
ghost use Rattle.cycle_sim.specs.Values.{values_in};

use crate::gates::value_of;
use emu_io::List;
use id_arena::{ChipId, ChipNetId, Key, MemId};
use std::marker::Model;

/// The words of the memories of one chip.
///
/// A clause sees for each memory the list of its words, by address.
#[derive(Drop)]
pub(crate) struct ChipWords {
    memories: Vec<List<u128>>,
}

impl Model for ChipWords {
    ghost use Rattle.std.specs.Prelude.{List, ℕ};

    ghost Value = { List (List ℕ) };

    ghost view = { λ w. w.memories.items };
}

impl ChipWords {
    /// The words of these memories.
    pub(crate) fn from_vec(memories: Vec<List<u128>>) -> ChipWords
        ensures { result ≡ memories.items }
    {
        ChipWords { memories }
    }

    /// The word of a memory at an address.
    pub(crate) fn word(&self, mem: usize, address: u64) -> u128
        requires mem { mem < length self.now }
        requires address { address < length (get_or self.now mem []) }
        ensures { result ≡ get_or (get_or self.now mem []) address 0 }
    {
        *self.memories[mem].get(address)
    }

    /// Puts a word in the place of the one that stands at an address of a memory.
    pub(crate) fn store(&mut self, mem: usize, address: u64, word: u128)
        requires mem { mem < length self.old }
        requires address { address < length (get_or self.old mem []) }
        ensures { self.new ≡ slice_set self.old mem (slice_set (get_or self.old mem []) address word) }
    {
        self.memories[mem].set(address, word);
    }
}

/// The word of a chip's memory at an address.
pub(crate) fn word_of(words: &[ChipWords], chip: ChipId, mem: MemId, address: u64) -> u128
    requires chip { chip.place < length words.now }
    requires mem { mem.place < length (get_or words.now chip.place []) }
    requires address { address < length (get_or (get_or words.now chip.place []) mem.place []) }
    ensures { result ≡ word_in words.now chip.place mem.place address }
{
    words[chip.place() as usize].word(mem.place() as usize, address)
}

/// Puts a word in the place of the one that stands at an address of a chip's memory.
pub(crate) fn put_word(words: &mut [ChipWords], chip: ChipId, mem: MemId, address: u64, word: u128)
    requires chip { chip.place < length words.old }
    requires mem { mem.place < length (get_or words.old chip.place []) }
    requires address { address < length (get_or (get_or words.old chip.place []) mem.place []) }
    ensures { words.new ≡ with_word words.old chip.place mem.place address word }
{
    words[chip.place() as usize].store(mem.place() as usize, address, word);
}

/// The number that the address nets of a port show.
pub(crate) fn address_of(bits: &[ChipNetId], table: &[bool]) -> u64
    requires there { All (IsThere (length table.now)) bits.now }
    requires few { length bits.now ≤ 16 }
    ensures shown { result ≡ number (values_in table.now bits.now) }
    ensures low { result < 2 ^ length bits.now }
{
    number_of(bits, table) as u64
}

/// The number that some nets show, from bit 0.
pub(crate) fn number_of(bits: &[ChipNetId], table: &[bool]) -> u128
    requires there { All (IsThere (length table.now)) bits.now }
    requires few { length bits.now ≤ 128 }
    ensures shown { result ≡ number (values_in table.now bits.now) }
    ensures low { result < 2 ^ length bits.now }
{
    let mut number = 0;
    let mut place = bits.len();
    'bits: while 0 < place {
        place -= 1;
        number = 2 * number + u128::from(value_of(table, bits[place]));
    }
    number
}

/// Lets nets of a chip show a word, from bit 0.
pub(crate) fn show_on_chip(held: &mut [List<bool>], chip: ChipId, bits: &[ChipNetId], word: u128)
    requires chip { chip.place < length held.old }
    requires there { All (IsThere (length (get_or held.old chip.place []))) bits.now }
    requires few { length bits.now ≤ 128 }
    ensures { ShowOnChip bits.now word chip.place held.old held.new }
{
    show_word(bits, word, &mut held[chip.place() as usize]);
}

/// Lets nets show a word, from bit 0. They are gone through from the last on, so that of several places of
/// one net the first counts.
#[tactic(auto, using(crate::proofs::Showing::none_shown, crate::proofs::Showing::one_shown, crate::proofs::Showing::all_shown))]
fn show_word(bits: &[ChipNetId], word: u128, row: &mut List<bool>)
    requires there { All (IsThere (length row.old)) bits.now }
    requires few { length bits.now ≤ 128 }
    ensures size { length row.new ≡ length row.old }
    ensures shown { ShowWord bits.now word row.old row.new }
{
    let mut left = bits.len();
    'bits: while left > 0 {
        left -= 1;
        row.set(bits[left].place() as u64, word >> left & 1 == 1);
    }
}
