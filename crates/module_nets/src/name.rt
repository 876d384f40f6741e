//! Names at tokens.

ghost use Rattle.std.specs.Prelude.{◌≡◌, OnOk};
ghost use Rattle.module_nets.specs.Names.{is_among, is_implicit, start_of, text_of};

use id_arena::Names;
use token_words::name_at;
use verilog_lex::Tokens;

/// The name that a token is; no bytes for any other token.
#[tactic(auto, unfolding(crate::specs::Names::text_of))]
pub fn text_at<'a>(source: &'a [u8], tokens: &Tokens, place: u32) -> &'a [u8]
    ensures { result.now ≡ text_of source.now tokens.now place }
{
    name_at(source, tokens, place)
}

/// Whether an undeclared name becomes a wire at a token.
pub(crate) fn is_implicit(tokens: &Tokens, place: u32) -> bool
    ensures { result ≡ is_implicit tokens.now place }
{
    place < tokens.len() && tokens.token(place).implicit
}

/// The first byte of a token; 0 for a place without one.
pub fn start_of(tokens: &Tokens, place: u32) -> u32
    ensures { result ≡ start_of tokens.now place }
{
    if place < tokens.len() {
        tokens.token(place).start
    } else {
        0
    }
}

/// Whether a name is in a table.
pub(crate) fn is_among(names: &Names, text: &[u8]) -> bool
    ensures { result ≡ is_among names.now text.now }
{
    names.find(text).is_some()
}
