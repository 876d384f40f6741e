//! The words of memories: how they are laid out, and what ports do with them.

ghost use Rattle.std.specs.Prelude.{◌≡◌, ◌+◌, ◌<◌, ◌≤◌, ◌^◌, IfOk, IsTrue, length, slice_index};
ghost use Rattle.design_core.specs.Design.{write_reads};
ghost use Rattle.design_core.specs.Faults.{are_there};
ghost use Rattle.design_core.specs.Limits.{IsWithin, word_count};
ghost use Rattle.design_core.specs.Operation.{bit_of};
ghost use Rattle.design_core.specs.Valuation.{shown_number};
ghost use Rattle.settled_model.specs.Held.{AreBases, shown};
ghost use Rattle.settled_model.specs.Opening.{AreWords};
ghost use Rattle.settled_model.specs.Passing.{HasWords, stored};

use crate::elements::{acts, has_edge};
use crate::gates::value_of;
use crate::opening::OpenWord;
use design_core::{Design, ReadPort, WritePort};
use emu_io::NoMemory;
use id_arena::{Key, MemId, NetId};
use std::alloc::Global;

/// Where the words of each memory begin in a table of all words, and in the end how many words all
/// memories have.
pub(crate) fn bases_of(alloc: Global, design: &Design) -> Result<Vec<usize>, NoMemory>
    requires { IsWithin design.now }
    ensures { IfOk result (λ bases. AreBases design.now bases.items) }
{
    let count = design.mems();
    let mut bases = Vec::with_capacity(alloc, count as usize + 1)?;
    let mut total = 0;
    bases.push(total)?;
    'memories: for place in 0..count {
        total += 1 << design.mem(MemId::of(place)).address_bits;
        bases.push(total)?;
    }
    Ok(bases)
}

/// The word of a memory at an address.
pub(crate) fn word_at(bases: &[usize], words: &[u128], mem: MemId, address: u32) -> u128
    requires base { mem.place < length bases.now }
    requires room { slice_index bases.now mem.place + address < length words.now }
    ensures { result ≡ slice_index words.now (slice_index bases.now mem.place + address) }
{
    words[bases[mem.place() as usize] + address as usize]
}

/// The number that some nets show, from bit 0.
fn number_shown(bits: &[NetId], nets: &[bool]) -> u128
    requires there { IsTrue (are_there (length nets.now) bits.now) }
    requires few { length bits.now ≤ 128 }
    ensures shown { result ≡ shown_number (shown nets.now) bits.now }
    ensures low { result < 2 ^ length bits.now }
{
    let mut number = 0;
    let mut place = bits.len();
    'bits: while 0 < place {
        place -= 1;
        number = 2 * number + u128::from(value_of(nets, bits[place]));
    }
    number
}

/// What a write port does in an event: where its clock has its edge and its enable acted, it puts its data
/// from before at its address from before.
pub(crate) fn store(port: &WritePort, base: usize, old: &[bool], new: &[bool], words: &mut [u128])
    requires lengths { length old.now ≡ length new.now }
    requires reads { IsTrue (are_there (length new.now) (write_reads port.now)) }
    requires address { length port.now.address ≤ 16 }
    requires feed { length port.now.feed ≤ 128 }
    requires room { base + 2 ^ length port.now.address ≤ length words.old }
    ensures { words.new ≡ stored (shown old.now) (shown new.now) port.now base words.old }
{
    if has_edge(port.clock, port.rise, old, new) && acts(port.enable, old) {
        let address = number_shown(port.address.as_slice(), old) as usize;
        words[base + address] = number_shown(port.feed.as_slice(), old);
    }
}

/// What a read port gives to its net of this bit.
pub(crate) fn read_bit(
    port: &ReadPort,
    bit: u32,
    base: usize,
    nets: &[bool],
    words: &[u128],
) -> bool
    requires reads { IsTrue (are_there (length nets.now) port.now.address) }
    requires address { length port.now.address ≤ 16 }
    requires bit { bit < 128 }
    requires room { base + 2 ^ length port.now.address ≤ length words.now }
    ensures { result ≡ bit_of (slice_index words.now (base + shown_number (shown nets.now) port.now.address)) bit }
{
    let address = number_shown(port.address.as_slice(), nets) as usize;
    words[base + address] >> bit & 1 == 1
}

/// Puts the words of an opening in the place of those that stand there.
pub(crate) fn put_words(design: &Design, bases: &[usize], given: &[OpenWord], words: &mut [u128])
    requires bases { AreBases design.now bases.now }
    requires given { AreWords design.now given.now }
    requires size { length words.old ≡ word_count design.now }
    ensures { HasWords design.now given.now words.old words.new }
{
    'words: for word in given {
        words[bases[word.mem.place() as usize] + word.address as usize] = word.value;
    }
}
