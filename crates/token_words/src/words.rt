//! The words of a list of tokens.

ghost use Rattle.std.specs.Prelude.{◌↔◌, ◌<◌, ◌≡◌, IsTrue, Some, length, slice_get};
ghost use Rattle.std.specs.List.{slice_range};
ghost use Rattle.token_words.specs.Words.{name_at, name_of, word_of, words_of};

use crate::word::Word;
use verilog_lex::{Token, TokenKind, Tokens};

/// The bytes of a token, as far as the source has them.
fn token_text(source: &[u8], start: u32, end: u32) -> &[u8]
    ensures { result.now ≡ slice_range source.now start end }
{
    let end = source.len().min(end as usize);
    let start = end.min(start as usize);
    &source[start..end]
}

/// The bytes of a name; none for any other token.
fn name_of(source: &[u8], token: Token) -> &[u8]
    ensures { result.now ≡ name_of source.now token }
{
    match token.kind {
        TokenKind::Name => token_text(source, token.start, token.end),
        _ => &[],
    }
}

/// Whether a token is this word.
fn is_word(source: &[u8], token: Token, word: &Word) -> bool
    ensures { IsTrue result ↔ (word_of source.now token ≡ word.now) }
{
    token.kind == word.kind && name_of(source, token) == word.name
}

/// Whether the tokens are exactly these words.
pub fn are_words(source: &[u8], tokens: &Tokens, words: &[Word]) -> bool
    ensures { IsTrue result ↔ (words_of source.now tokens.now ≡ words.now) }
{
    if tokens.len() as usize != words.len() {
        return false;
    }
    'places: for place in 0..tokens.len() {
        if !is_word(source, tokens.token(place), &words[place as usize]) {
            return false;
        }
    }
    true
}

/// The bytes of the name at a place; none where no name is there.
pub fn name_at<'a>(source: &'a [u8], tokens: &Tokens, place: u32) -> &'a [u8]
    ensures { result.now ≡ name_at (words_of source.now tokens.now) place }
{
    if place < tokens.len() {
        name_of(source, tokens.token(place))
    } else {
        &[]
    }
}

/// Whether the token at a place is this word.
pub fn is_word_at(source: &[u8], tokens: &Tokens, place: u32, word: &Word) -> bool
    requires { place < length tokens.now }
    ensures { IsTrue result ↔ (slice_get (words_of source.now tokens.now) place ≡ Some word.now) }
{
    is_word(source, tokens.token(place), word)
}
