//! Moves of elements from chip to chip.

use id_arena::{ChipId, ElemId};

/// An element, and the chip to which it is taken.
#[derive(Clone, Copy, Debug, Drop, PartialEq, Eq)]
pub struct Move {
    pub elem: ElemId,
    pub to: ChipId,
}
