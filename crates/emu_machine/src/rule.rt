//! The rules of acceptance by their names.

ghost use Rattle.std.specs.Prelude.{◌≡◌};
ghost use Rattle.emu_machine.specs.Acceptance.{rule_number};

/// A rule of acceptance.
#[derive(Clone, Copy, Debug, Drop, PartialEq, Eq)]
pub enum Rule {
    A1,
    A2,
    A3,
    A4,
    A5,
    A6,
    A7,
    A8,
    A9,
    A10,
    A11,
    A12,
}

impl Rule {
    /// The rule's number, from 1 to 12.
    pub fn number(self) -> u8
        ensures { result ≡ rule_number self }
    {
        match self {
            Rule::A1 => 1,
            Rule::A2 => 2,
            Rule::A3 => 3,
            Rule::A4 => 4,
            Rule::A5 => 5,
            Rule::A6 => 6,
            Rule::A7 => 7,
            Rule::A8 => 8,
            Rule::A9 => 9,
            Rule::A10 => 10,
            Rule::A11 => 11,
            Rule::A12 => 12,
        }
    }
}
