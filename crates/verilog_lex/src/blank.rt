//! White space, comments and attributes.

ghost use Rattle.std.specs.Prelude.{◌≡◌, ◌≤◌, IfSome, false, length};
ghost use Rattle.verilog_lex.specs.Blanks.{comment_len, attribute_len, blank_len, after_blanks};

use crate::bytes::{Class, byte_at, is_white, run};

/// How many bytes a text has up to and with its first `*/`, if it has one.
fn comment_len(text: &[u8]) -> Option<usize>
    ensures is { result ≡ comment_len text.now }
    ensures within { IfSome result (λ bytes. bytes ≤ length text.now) }
{
    let mut at = 0;
    while at < text.len() {
        if text[at] == b'*' && byte_at(text, at + 1) == b'/' {
            return Some(at + 2);
        }
        at += 1;
    }
    None
}

/// How many bytes a text has up to and with the first `*)` that stands outside strings, if it has
/// one. In a string a backslash takes the next byte with it.
fn attribute_len(text: &[u8]) -> Option<usize>
    ensures is { result ≡ attribute_len false text.now }
    ensures within { IfSome result (λ bytes. bytes ≤ length text.now) }
{
    let mut quoted = false;
    let mut at = 0;
    while at < text.len() {
        let byte = text[at];
        if quoted {
            if byte == b'\\' {
                at += 2;
            } else {
                quoted = byte != b'"';
                at += 1;
            }
        } else {
            if byte == b'*' && byte_at(text, at + 1) == b')' {
                return Some(at + 2);
            }
            quoted = byte == b'"';
            at += 1;
        }
    }
    None
}

/// How many bytes of white space, or of one whole comment or attribute, a text begins with. None
/// where it begins with none of them.
#[tactic(auto, unfolding(crate::specs::Blanks::blank_len))]
pub(crate) fn blank_len(text: &[u8]) -> Option<usize>
    ensures is { result ≡ blank_len text.now }
    ensures within { IfSome result (λ bytes. bytes ≤ length text.now) }
{
    let first = byte_at(text, 0);
    let second = byte_at(text, 1);
    if is_white(first) {
        Some(run(text, Class::White))
    } else if first == b'/' && second == b'/' {
        Some(run(text, Class::Line))
    } else if first == b'/' && second == b'*' {
        comment_len(&text[2..]).map(|bytes| bytes + 2)
    } else if first == b'(' && second == b'*' {
        attribute_len(&text[2..]).map(|bytes| bytes + 2)
    } else {
        None
    }
}

/// What is left of a text after the white space, comments and attributes that it begins with.
#[tactic(auto, using(crate::proofs::BlankSteps::blank_steps))]
pub(crate) fn after_blanks(text: &[u8]) -> &[u8]
    ensures is { result.now ≡ after_blanks 0 text.now }
    ensures within { length result.now ≤ length text.now }
{
    let mut rest = text;
    while let Some(bytes) = blank_len(rest) {
        rest = &rest[bytes..];
    }
    rest
}
