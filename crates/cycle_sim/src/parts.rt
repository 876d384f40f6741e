//! The chips of results.

ghost use Rattle.std.specs.Prelude.{◌≡◌, ◌<◌, Some, length, slice_get};

use emu_machine::{Chip, Results};

/// The chips, from chip 0.
pub(crate) fn chips_of(results: &Results) -> &[Chip]
    ensures { result.now ≡ results.now.net }
{
    results.net().chips().as_slice()
}

/// How many chips there are.
pub(crate) fn chip_count(results: &Results) -> u64
    ensures { result ≡ length results.now.net }
{
    results.net().chips().len()
}

/// The chip of this number.
pub(crate) fn chip_of(results: &Results, chip: u64) -> &Chip
    requires { chip < length results.now.net }
    ensures { slice_get results.now.net chip ≡ Some result.now }
{
    results.net().chips().get(chip)
}
