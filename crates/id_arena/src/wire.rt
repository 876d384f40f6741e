//! A wire between two chips.

use crate::ChipId;

/// The chips that a wire goes from and to, and for how many slots a value is on its way. Where a text
/// tells them, the chips may be none and the latency any number; on a board they are two different
/// chips and 1 to 8 slots.
#[derive(Clone, Copy, Debug, Drop, PartialEq, Eq)]
pub struct Wire {
    pub from: ChipId,
    pub to: ChipId,
    /// The slots from the start of the send's own to the end of the one in which the value arrives.
    pub latency: u32,
}
