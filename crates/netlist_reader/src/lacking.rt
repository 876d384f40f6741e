//! Nets that are named in a module which declares none.
ghost use Rattle.std.specs.Prelude.{◌≡◌};
ghost use Rattle.token_words.specs.Words.{words_of};
ghost use Rattle.netlist_reader.specs.Stops.{TellsLacking, declared_behind};

use token_words::{Word, is_word_at};
use verilog_lex::keyword::{MODULE, WIRE};
use verilog_lex::{TokenKind, Tokens};

/// Whether a net is declared behind a token in its module, where this says whether one is before it.
fn declared_behind(kind: TokenKind, declared: bool) -> bool
    ensures { result ≡ declared_behind kind declared }
{
    match kind {
        TokenKind::Keyword(MODULE) => false,
        TokenKind::Keyword(WIRE) => true,
        _ => declared,
    }
}

/// The first token that names the first net where its module has declared none. All other nets that are
/// not declared are found by reading.
pub(crate) fn lacking_net(source: &[u8], tokens: &Tokens) -> Option<u32>
    ensures { TellsLacking (words_of source.now tokens.now) result }
{
    let first = Word::name(b"n0");
    let mut declared = false;
    'tokens: for place in 0..tokens.len() {
        if !declared && is_word_at(source, tokens, place, &first) {
            return Some(place);
        }
        declared = declared_behind(tokens.token(place).kind, declared);
    }
    None
}
