//! The classes of bytes, and the longest runs of one class.

ghost use Rattle.std.specs.Prelude.{◌≡◌, ◌≤◌, length, slice_index};
ghost use Rattle.verilog_lex.specs.Bytes.{is_white, is_unknown, is_digit_of, is_in, run};

/// The base of the digits of a sized constant.
#[derive(Clone, Copy, Debug, PartialEq, Eq)]
pub(crate) enum Base {
    Binary,
    Octal,
    Decimal,
    Hexadecimal,
}

/// The classes of bytes that runs are made of.
#[derive(Clone, Copy, Debug, PartialEq, Eq)]
pub(crate) enum Class {
    /// White space.
    White,
    /// All but the newline.
    Line,
    /// The bytes of a simple name after its first.
    Name,
    /// The bytes of an escaped name.
    Escaped,
    /// The bytes of a plain number.
    Number,
    /// The bytes of the digits of a constant, known or not.
    Digits(Base),
    /// All but the digits that stand for an unknown value.
    Known,
}

/// Whether a byte is white space.
pub(crate) fn is_white(byte: u8) -> bool
    ensures { result ≡ is_white byte }
{
    byte == b' ' || byte == b'\t' || byte == b'\n' || byte == 12 || byte == b'\r'
}

/// Whether a digit stands for an unknown value.
fn is_unknown(byte: u8) -> bool
    ensures { result ≡ is_unknown byte }
{
    byte == b'?' || byte == b'x' || byte == b'X' || byte == b'z' || byte == b'Z'
}

/// Whether a byte is a digit of a base.
pub(crate) fn is_digit_of(base: Base, byte: u8) -> bool
    ensures { result ≡ is_digit_of base byte }
{
    match base {
        Base::Binary => byte == b'0' || byte == b'1',
        Base::Octal => b'0' <= byte && byte <= b'7',
        Base::Decimal => byte.is_ascii_digit(),
        Base::Hexadecimal => byte.is_ascii_hexdigit(),
    }
}

impl Class {
    /// Whether a byte is of the class.
    fn has(self, byte: u8) -> bool
        ensures { result ≡ is_in self byte }
    {
        match self {
            Class::White => is_white(byte),
            Class::Line => byte != b'\n',
            Class::Name => byte.is_ascii_alphanumeric() || byte == b'_' || byte == b'$',
            Class::Escaped => 33 <= byte && byte <= 126,
            Class::Number => byte.is_ascii_digit() || byte == b'_',
            Class::Digits(base) => is_digit_of(base, byte) || byte == b'_' || is_unknown(byte),
            Class::Known => !is_unknown(byte),
        }
    }
}

/// The byte at a place, or 0 where the text has none: the byte 0 begins and goes on with no form.
pub(crate) fn byte_at(text: &[u8], place: usize) -> u8
    ensures { result ≡ slice_index text.now place }
{
    if place < text.len() { text[place] } else { 0 }
}

/// How many bytes of a class a text begins with.
pub(crate) fn run(text: &[u8], class: Class) -> usize
    ensures is { result ≡ run class text.now }
    ensures within { result ≤ length text.now }
{
    let mut count = 0;
    while count < text.len() && class.has(text[count]) {
        count += 1;
    }
    count
}
