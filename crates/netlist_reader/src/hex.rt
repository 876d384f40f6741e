//! Hexadecimal numbers in names.
ghost use Rattle.std.specs.Prelude.{◌≡◌, ◌≢◌, ◌<◌, ◌≤◌, ◌+◌, ◌*◌, ◌^◌, ◌⊎◌, ◌∷◌, [], ℕ, MatchOption, length, false};
ghost use Rattle.std.specs.Fmt.{digit_glyph};
ghost use Rattle.netlist_writer.specs.NetlistText.{hex};

/// What a hexadecimal digit of lower case counts.
fn digit_value(byte: u8) -> Option<u8>
    ensures { MatchOption result
        ((d : ℕ) → d < 16 → byte ≢ digit_glyph false d)
        (λ d. (d < 16) × (byte ≡ digit_glyph false d)) }
{
    if byte.is_ascii_digit() {
        Some(byte - b'0')
    } else if byte >= b'a' && byte <= b'f' {
        Some(byte - b'a' + 10)
    } else {
        None
    }
}

/// The number below 2^64 that a digit makes of the number before it, which is not 0.
fn with_digit(value: u64, digit: u8) -> Option<u64>
    requires { digit < 16 }
    ensures { MatchOption result
        ((value ≡ 0) ⊎ (2 ^ 64 ≤ value * 16 + digit))
        (λ n. (0 < value) × (n ≡ value * 16 + digit) × (n < 2 ^ 64)) }
{
    if value == 0 || value > u64::MAX / 16 {
        return None;
    }
    Some(value * 16 + u64::from(digit))
}

/// The number below 2^64 that one byte writes.
fn one_value(byte: u8) -> Option<u64>
    ensures { MatchOption result
        ((n : ℕ) → n < 2 ^ 64 → (byte ∷ []) ≢ hex n)
        (λ n. (n < 2 ^ 64) × ((byte ∷ []) ≡ hex n)) }
{
    match digit_value(byte) {
        Some(digit) => Some(u64::from(digit)),
        None => None,
    }
}

/// The number below 2^64 that digits write in hexadecimal of lower case, without leading zeros. There
/// are at most 16 of them.
fn short_value(digits: &[u8]) -> Option<u64>
    ensures { MatchOption result
        ((n : ℕ) → n < 2 ^ 64 → digits.now ≢ hex n)
        (λ n. (n < 2 ^ 64) × (digits.now ≡ hex n)) }
{
    match digits {
        [] => None,
        [byte] => one_value(*byte),
        [front @ .., last] => {
            let Some(value) = short_value(front) else {
                return None;
            };
            let Some(digit) = digit_value(*last) else {
                return None;
            };
            with_digit(value, digit)
        }
    }
}

/// The number below 2^64 that digits write in hexadecimal of lower case, without leading zeros.
pub(crate) fn hex_value(digits: &[u8]) -> Option<u64>
    ensures { MatchOption result
        ((n : ℕ) → n < 2 ^ 64 → digits.now ≢ hex n)
        (λ n. (n < 2 ^ 64) × (digits.now ≡ hex n)) }
{
    if digits.len() > 16 {
        return None;
    }
    short_value(digits)
}
