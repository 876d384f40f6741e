//! The two ways in which a valuation comes about.

/// What gives the nets their values: an opening, in which no clock has an edge, or an event.
#[derive(Clone, Copy, Debug, Drop, PartialEq, Eq)]
pub(crate) enum Turn {
    Opening,
    Event,
}
