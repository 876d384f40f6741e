//! Names of a letter and a number.
ghost use Rattle.std.specs.Prelude.{◌≡◌, ◌≢◌, ◌<◌, ◌≤◌, ◌^◌, ◌∷◌, ◌++◌, ◌↔◌, ℕ, List, IsTrue, MatchOption, decimal};
ghost use Rattle.std.specs.Str.Parse.{AllDigits, digits_value};
ghost use Rattle.netlist_reader.specs.Digits.{IsFirstBar, IsNumberBefore, IsShort, IsValueOf};

/// Whether there is a first byte, and it is `0` only where it is the only one.
fn is_short(digits: &[u8]) -> bool
    ensures { IsTrue result ↔ IsShort digits.now }
{
    match digits {
        [] => false,
        [_] => true,
        [first, ..] => *first != b'0',
    }
}

/// The number below 2^32 that digits write.
fn value_of(digits: &[u8]) -> Option<u32>
    ensures { IsValueOf digits.now result }
{
    let mut value: u64 = 0;
    'digits: for digit in digits {
        if !digit.is_ascii_digit() {
            return None;
        }
        value = value * 10 + u64::from(*digit - b'0');
        if value > u64::from(u32::MAX) {
            return None;
        }
    }
    Some(value as u32)
}

/// The number below 2^32 that digits write in decimal, without leading zeros.
pub(crate) fn number_of(digits: &[u8]) -> Option<u32>
    ensures { MatchOption result
        ((n : ℕ) → n < 2 ^ 32 → digits.now ≢ decimal n)
        (λ n. digits.now ≡ decimal n) }
{
    if is_short(digits) {
        value_of(digits)
    } else {
        None
    }
}

/// The number below 2^32 that stands behind a stem in a name.
pub(crate) fn number_after(stem: &[u8], name: &[u8]) -> Option<u32>
    ensures { MatchOption result
        ((n : ℕ) → n < 2 ^ 32 → name.now ≢ stem.now ++ decimal n)
        (λ n. name.now ≡ stem.now ++ decimal n) }
{
    match name.strip_prefix(stem) {
        Some(digits) => number_of(digits),
        None => None,
    }
}

/// The place of the first `_`.
fn bar_place(bytes: &[u8]) -> Option<usize>
    ensures { IsFirstBar bytes.now result }
{
    'bytes: for place in 0..bytes.len() {
        if bytes[place] == b'_' {
            return Some(place);
        }
    }
    None
}

/// The number below 2^32 that digits before the first `_` write in decimal, without leading zeros, and
/// what stands behind that `_`.
pub(crate) fn number_before(bytes: &[u8]) -> Option<(u32, &[u8])>
    ensures { IsNumberBefore bytes.now result }
{
    let Some(place) = bar_place(bytes) else {
        return None;
    };
    match number_of(&bytes[..place]) {
        Some(number) => Some((number, &bytes[place + 1..])),
        None => None,
    }
}
