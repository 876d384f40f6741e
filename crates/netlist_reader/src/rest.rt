//! The words of a text that are still to be read.
ghost use Rattle.std.specs.Prelude.{◌≡◌, ◌↔◌, ◌<◌, ◌^◌, IsTrue, drop, length};
ghost use Rattle.token_words.specs.Words.{words_of};
ghost use Rattle.netlist_reader.specs.Inside.{Begins};
ghost use Rattle.netlist_reader.specs.Forms.{TellsKey, TellsName};

use std::marker::Model;
use token_words::{Word, is_word_at, name_at};
use verilog_lex::{TokenKind, Tokens};

/// The words of a text from a place on; contracts see their list.
#[derive(Drop)]
pub(crate) struct Rest<'a> {
    source: &'a [u8],
    tokens: &'a Tokens,
    place: u32,
    /// The number of tokens.
    count: u32,
}

impl<'a> Model for Rest<'a> {
    ghost use Rattle.std.specs.Prelude.{List, drop, length, ◌≤◌, ◌≡◌};
    ghost use Rattle.token_words.specs.Word.{Word};
    ghost use Rattle.token_words.specs.Words.{words_of};

    ghost Value = { List Word };

    ghost view = { λ r. drop r.place (words_of r.source.now r.tokens.now) };

    ghost invariant = { λ r. (r.place ≤ r.count) × (r.count ≡ length r.tokens.now) };
}

impl<'a> Rest<'a> {
    /// All words of a text.
    pub(crate) fn new(source: &'a [u8], tokens: &'a Tokens) -> Rest<'a>
        ensures words { result ≡ words_of source.now tokens.now }
        ensures few { length result < 2 ^ 32 }
    {
        Rest {
            source,
            tokens,
            place: 0,
            count: tokens.len(),
        }
    }

    /// The number of words that are left.
    pub(crate) fn left(&self) -> u32
        ensures { result ≡ length self.now }
    {
        self.count - self.place
    }

    /// The bytes of the next word, where it is a name; none where it is no name, or no word is left.
    pub(crate) fn name(&self) -> &[u8]
        ensures { TellsName self.now result.now }
    {
        name_at(self.source, self.tokens, self.place)
    }

    /// The next word by its place in the list of reserved words, where it is one of these.
    pub(crate) fn key(&self) -> Option<u32>
        ensures { TellsKey self.now result }
    {
        if self.place >= self.count {
            return None;
        }
        match self.tokens.token(self.place).kind {
            TokenKind::Keyword(place) => Some(place),
            _ => None,
        }
    }

    /// Passes over the next word.
    pub(crate) fn pass(&mut self)
        requires { 0 < length self.old }
        ensures { self.new ≡ drop 1 self.old }
    {
        self.place += 1;
    }

    /// Whether the next word is this one.
    pub(crate) fn begins(&self, word: &Word) -> bool
        ensures { IsTrue result ↔ Begins (λ first. first ≡ word.now) self.now }
    {
        self.place < self.count && is_word_at(self.source, self.tokens, self.place, word)
    }
}
