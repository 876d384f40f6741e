//! That the machine agrees with the design, frame by frame and event by event.

ghost use Rattle.agreement_law.specs.Agreement.{SlotsGiveAgreement};

/// An accepted case agrees with its design, where its slots keep true marks true, its frames take sampled
/// data, and its histories are one.
pub fn slots_give_agreement()
    ensures { SlotsGiveAgreement }
{}
