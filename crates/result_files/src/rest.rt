//! The words of a text that are still to be read.
ghost use Rattle.std.specs.Prelude.{◌≡◌, ◌↔◌, ◌<◌, ◌^◌, ◌∷◌, [], IsTrue, drop, codes, length};
ghost use Rattle.std.specs.Bool.{OnFalse};
ghost use Rattle.token_words.specs.Word.{key, name};
ghost use Rattle.token_words.specs.Words.{words_of};
ghost use Rattle.verilog_lex.specs.declared.keyword.TheConstants.{BUF, NOT, WIRE};
ghost use Rattle.result_files.specs.PlainNetlist.{numbered, net_word};
ghost use Rattle.result_files.specs.Taken.{Begins, IsWireWord, IsGateWord, IsRegisterWord, IsNetBelow, Takes, TakesNumber, TakesOne};

use crate::numbered::number_after;
use id_arena::ChipNetId;
use std::marker::Model;
use token_words::{Word, is_word_at, name_at};
use verilog_lex::Tokens;

/// The words of a text from a place on; contracts see their list.
#[derive(Drop)]
pub(crate) struct Rest<'a> {
    source: &'a [u8],
    tokens: &'a Tokens,
    place: u32,
    /// The number of tokens.
    count: u32,
}

impl<'a> Model for Rest<'a> {
    ghost use Rattle.std.specs.Prelude.{List, drop, length, ◌≤◌, ◌≡◌};
    ghost use Rattle.token_words.specs.Word.{Word};
    ghost use Rattle.token_words.specs.Words.{words_of};

    ghost Value = { List Word };

    ghost view = { λ r. drop r.place (words_of r.source.now r.tokens.now) };

    ghost invariant = { λ r. (r.place ≤ r.count) × (r.count ≡ length r.tokens.now) };
}

impl<'a> Rest<'a> {
    /// All words of a text.
    pub(crate) fn new(source: &'a [u8], tokens: &'a Tokens) -> Rest<'a>
        ensures words { result ≡ words_of source.now tokens.now }
        ensures few { length result < 2 ^ 32 }
    {
        Rest {
            source,
            tokens,
            place: 0,
            count: tokens.len(),
        }
    }

    /// Whether no word is left.
    pub(crate) fn is_empty(&self) -> bool
        ensures { IsTrue result ↔ (self.now ≡ []) }
    {
        self.place >= self.count
    }

    /// Whether the next word is this one.
    pub(crate) fn begins(&self, word: &Word) -> bool
        ensures { IsTrue result ↔ Begins (λ first. first ≡ word.now) self.now }
    {
        self.place < self.count && is_word_at(self.source, self.tokens, self.place, word)
    }

    /// Passes over the next word, if it is this one.
    pub(crate) fn take(&mut self, word: &Word) -> bool
        ensures takes { Takes (word.now ∷ []) self.old self.new result }
        ensures kept { OnFalse result (self.new ≡ self.old) }
    {
        if !self.begins(word) {
            return false;
        }
        self.place += 1;
        true
    }

    /// Passes over the next word, if it is the name of this letter and a number below 2^32.
    pub(crate) fn take_number(&mut self, letter: u8) -> Option<u32>
        ensures { TakesNumber letter self.old self.new result }
    {
        if self.place >= self.count {
            return None;
        }
        let name = name_at(self.source, self.tokens, self.place);
        let number = number_after(letter, name)?;
        self.place += 1;
        Some(number)
    }
}
