//! The limits on what is made.

ghost use Rattle.std.specs.Prelude.{◌≡◌, ◌+◌, ◌≤◌, ◌^◌};
ghost use Rattle.flattening.specs.Pieces.{beyond};

use design_core::LimitKind;
use flattening::ElabFault;

/// The most nets of a design, with nets 0 and 1.
pub(crate) const MOST_NETS: u64 = 400_000;

/// The most elements of a design.
pub(crate) const MOST_ELEMENTS: u64 = 200_000;

/// The most words of all memories of a design.
pub(crate) const MOST_WORDS: u64 = 4_194_304;

/// The most inputs of a gate that is no table.
pub(crate) const MOST_INPUTS: u64 = 64;

/// The fault of a limit at this byte, where so many and so many more are beyond the most.
pub(crate) fn beyond(
    which: LimitKind,
    at: u32,
    most: u64,
    count: u64,
    more: u64,
) -> Option<ElabFault>
    ensures { result ≡ beyond which at most (count + more) }
{
    if count > most || more > most - count {
        Some(ElabFault::Limit { which, at })
    } else {
        None
    }
}

/// How many words a memory has that has so many address bits.
pub(crate) fn word_count(address_bits: u32) -> u64
    requires { address_bits ≤ 16 }
    ensures is { result ≡ 2 ^ address_bits }
    ensures low { result ≤ 65536 }
{
    1 << address_bits
}
