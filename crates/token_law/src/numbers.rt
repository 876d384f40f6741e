//! What numbers and constants say.

ghost use Rattle.token_law.specs.Numbers.{TokensSayDigits};

/// The value of each number and each constant that a text has among its tokens is the sum of its
/// digits, each times a power of the base, the constant's cut to its size, and no further digit of
/// the base comes behind them.
pub fn tokens_say_digits()
    ensures { TokensSayDigits }
{}
