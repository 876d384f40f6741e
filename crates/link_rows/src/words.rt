//! The bits of one row, in words of 64 bits each, the first bit lowest.
ghost use Rattle.std.specs.Prelude.{◌≡◌, ◌++◌, ◌-◌, replicate, ℕ, ◌*◌, ◌<◌, ◌≤◌, ◌==◌, length, if◌then◌else◌, IfOk, OnOk, OnErr, map};
ghost use Rattle.link_rows.specs.Words.{bit_in, words_at, SameBits, IsFirstClearIn, IsFirstClearBelow};

use emu_io::NoMemory;
use std::alloc::Global;

const WORD_BITS: u32 = 64;

/// How many words so many bits take.
pub(crate) fn word_count(width: u32) -> usize
    ensures { width ≤ 64 * result }
{
    width.div_ceil(WORD_BITS) as usize
}

/// Whether a bit is set.
pub(crate) fn test_bit(words: &[u64], at: u32) -> bool
    requires { at < 64 * length words.now }
    ensures { result ≡ bit_in words.now at }
{
    words[(at / WORD_BITS) as usize] >> (at % WORD_BITS) & 1 == 1
}

/// Sets or clears a bit.
pub(crate) fn put_bit(words: &mut [u64], at: u32, value: bool)
    requires { at < 64 * length words.old }
    ensures { (k : ℕ) → bit_in words.new k ≡ (if k == at then value else bit_in words.old k) }
{
    let mask = 1u64 << (at % WORD_BITS);
    let word = &mut words[(at / WORD_BITS) as usize];
    if value {
        *word |= mask;
    } else {
        *word &= !mask;
    }
}

/// The first clear bit from a place on and below the width.
pub(crate) fn first_clear(words: &[u64], from: u32, width: u32) -> Option<u32>
    requires { width ≤ 64 * length words.now }
    ensures { IsFirstClearBelow words.now width from result }
{
    let mut at = u64::from(from);
    'words: while at < u64::from(width) {
        let start = at % u64::from(WORD_BITS);
        let word = words[(at / u64::from(WORD_BITS)) as usize];
        if let Some(clear) = first_clear_in(word, start as u32) {
            let place = at - start + u64::from(clear);
            if place < u64::from(width) {
                return Some(place as u32);
            }
            return None;
        }
        at = at - start + u64::from(WORD_BITS);
    }
    None
}

// The first clear bit of a word from a place on.
fn first_clear_in(word: u64, from: u32) -> Option<u32>
    requires { from < 64 }
    ensures { IsFirstClearIn word from result }
{
    let clear = !word >> from;
    if clear == 0 {
        return None;
    }
    Some(from + clear.trailing_zeros())
}

/// So many rows of so many words, all clear.
pub(crate) fn clear_rows(alloc: Global, rows: u32, count: usize) -> Result<Vec<Vec<u64>>, NoMemory>
    ensures { IfOk result (λ made. map (λ words. words.items) made.items ≡ replicate rows (replicate count 0)) }
{
    let mut made = Vec::new(alloc);
    'rows: for _ in 0..rows {
        made.push(vec![in alloc; 0; count]?)?;
    }
    Ok(made)
}

/// Gives each row at least so many words. The new ones are clear.
pub(crate) fn lengthen(rows: &mut Vec<Vec<u64>>, count: usize) -> Result<(), NoMemory>
    ensures same { SameBits (map (λ words. words.items) rows.old.items) (map (λ words. words.items) rows.new.items) }
    ensures room { OnOk result ((row : ℕ) → row < length rows.old.items
        → count ≤ length (words_at (map (λ words. words.items) rows.new.items) row)) }
{
    'rows: for row in 0..rows.len() {
        lengthen_row(&mut rows[row], count)?;
    }
    Ok(())
}

// Gives one row at least so many words.
fn lengthen_row(words: &mut Vec<u64>, count: usize) -> Result<(), NoMemory>
    ensures ok { let old = words.old.items in
        OnOk result (words.new.items ≡ old ++ replicate (count - length old) 0) }
    ensures err { OnErr result (words.new.items ≡ words.old.items) }
{
    let more = count.saturating_sub(words.len());
    words.resize(words.len() + more, 0)?;
    Ok(())
}
