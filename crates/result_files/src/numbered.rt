//! Names of a letter and a number.
ghost use Rattle.std.specs.Prelude.{◌≡◌, ◌≢◌, ◌<◌, ◌≤◌, ◌^◌, ◌∷◌, ◌↔◌, ℕ, IsTrue, MatchOption, decimal};
ghost use Rattle.std.specs.Str.Parse.{AllDigits, digits_value};
ghost use Rattle.result_files.specs.Digits.{IsShort, IsValueOf};

/// Whether there is a first byte, and it is `0` only where it is the only one.
fn is_short(digits: &[u8]) -> bool
    ensures { IsTrue result ↔ IsShort digits.now }
{
    match digits {
        [] => false,
        [_] => true,
        [first, ..] => *first != b'0',
    }
}

/// The number below 2^32 that digits write.
fn value_of(digits: &[u8]) -> Option<u32>
    ensures { IsValueOf digits.now result }
{
    let mut value: u64 = 0;
    'digits: for digit in digits {
        if !digit.is_ascii_digit() {
            return None;
        }
        value = value * 10 + u64::from(*digit - b'0');
        if value > u64::from(u32::MAX) {
            return None;
        }
    }
    Some(value as u32)
}

/// The number below 2^32 that digits write in decimal, without leading zeros.
fn number_of(digits: &[u8]) -> Option<u32>
    ensures { MatchOption result
        ((n : ℕ) → n < 2 ^ 32 → digits.now ≢ decimal n)
        (λ n. digits.now ≡ decimal n) }
{
    if is_short(digits) {
        value_of(digits)
    } else {
        None
    }
}

/// The number below 2^32 that stands after this letter in a name.
pub(crate) fn number_after(letter: u8, name: &[u8]) -> Option<u32>
    ensures { MatchOption result
        ((n : ℕ) → n < 2 ^ 32 → name.now ≢ letter ∷ decimal n)
        (λ n. name.now ≡ letter ∷ decimal n) }
{
    match name {
        [first, digits @ ..] if *first == letter => number_of(digits),
        _ => None,
    }
}
