//! Which bits a name with its select stands for.

ghost use Rattle.std.specs.Prelude.{◌≡◌, ◌≤◌};
ghost use Rattle.module_bits.specs.Names.{bit_place, bits_in, has_index, selected};

use module_nets::width_of;
use verilog_tree::IndexRange;

/// What a name with its select stands for.
#[derive(Clone, Copy, Debug, PartialEq, Eq)]
pub enum Target {
    /// The name is no net of the module.
    NoNet,
    /// The select is none of the net's.
    NoBits,
    /// So many nets, from the lowest on.
    Bits { low: u64, count: u64 },
}

/// Whether a range has an index.
fn has_index(range: IndexRange, index: u32) -> bool
    ensures { result ≡ has_index range index }
{
    range.right <= index && index <= range.left || range.left <= index && index <= range.right
}

/// The bit to which an index of a range belongs.
fn bit_place(range: IndexRange, index: u32) -> u64
    ensures { result ≡ bit_place range index }
{
    if range.right <= index {
        u64::from(index - range.right)
    } else {
        u64::from(range.right - index)
    }
}

/// The bits that a select asks of a range whose bit 0 has this number.
fn selected(first: u64, range: IndexRange, select: IndexRange) -> Target
    requires { first ≤ 4294967296 }
    ensures { result ≡ selected first range select }
{
    let low = bit_place(range, select.right);
    let high = bit_place(range, select.left);
    if has_index(range, select.left) && has_index(range, select.right) && low <= high {
        Target::Bits {
            low: first + low,
            count: high - low + 1,
        }
    } else {
        Target::NoBits
    }
}

/// The bits that a select, or none, asks of a net whose bit 0 has this number.
pub(crate) fn bits_in(first: u64, range: Option<IndexRange>, select: Option<IndexRange>) -> Target
    requires { first ≤ 4294967296 }
    ensures { result ≡ bits_in first range select }
{
    match (range, select) {
        (range, None) => Target::Bits {
            low: first,
            count: width_of(range),
        },
        (None, Some(_)) => Target::NoBits,
        (Some(range), Some(select)) => selected(first, range, select),
    }
}
