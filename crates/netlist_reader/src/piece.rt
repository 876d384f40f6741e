//! The words that are due at a place.
ghost use Rattle.std.specs.Prelude.{◌≡◌, ◌↔◌, ◌∷◌, [], IsTrue, map};
ghost use Rattle.netlist_reader.specs.Inside.{Anything, Begins, Reads};
ghost use Rattle.netlist_reader.specs.Forms.{piece_word, stem_text};

use crate::fault::Stop;
use crate::numbered::number_after;
use crate::rest::Rest;
use token_words::Word;

/// What stands before the number in a name.
#[derive(Clone, Copy)]
pub(crate) enum Stem {
    Chip,
    Net,
    Gate,
    Register,
    Memory,
}

impl Stem {
    /// Its bytes.
    pub(crate) fn text(self) -> &'static [u8]
        ensures { result.now ≡ stem_text self }
    {
        match self {
            Stem::Chip => b"chip",
            Stem::Net => b"n",
            Stem::Gate => b"g",
            Stem::Register => b"r",
            Stem::Memory => b"m",
        }
    }
}

/// A word that is due.
#[derive(Clone, Copy)]
pub(crate) enum Piece {
    /// The reserved word at this place of the list of all.
    Key(u32),
    /// The mark of this byte.
    Mark(u8),
    /// The name of a stem and a number.
    Numbered(Stem, u32),
}

/// Whether the next word is this one.
fn is_next(rest: &Rest, piece: Piece) -> bool
    ensures { IsTrue result ↔ Begins (λ w. w ≡ piece_word piece) rest.now }
{
    match piece {
        Piece::Key(place) => rest.begins(&Word::key(place)),
        Piece::Mark(byte) => rest.begins(&Word::mark(byte)),
        Piece::Numbered(stem, number) => is_numbered(rest, stem, number),
    }
}

/// Whether the next word is the name of this stem and this number.
fn is_numbered(rest: &Rest, stem: Stem, number: u32) -> bool
    ensures { IsTrue result ↔ Begins (λ w. w ≡ piece_word (Piece.Numbered stem number)) rest.now }
{
    match number_after(stem.text(), rest.name()) {
        Some(found) => found == number,
        None => false,
    }
}

/// Passes over the next word, which is due to be this one.
pub(crate) fn take(rest: &mut Rest, piece: Piece) -> Result<(), Stop>
    ensures { Reads (λ u. Unit) (λ u. piece_word piece ∷ []) rest.old rest.new result }
{
    if is_next(rest, piece) {
        rest.pass();
        Ok(())
    } else {
        Err(Stop::Stuck)
    }
}

/// Passes over the next words, which are due to be these.
pub(crate) fn take_all(rest: &mut Rest, pieces: &[Piece]) -> Result<(), Stop>
    ensures { Reads (λ u. Unit) (λ u. map piece_word pieces.now) rest.old rest.new result }
{
    'pieces: for place in 0..pieces.len() {
        take(rest, pieces[place])?;
    }
    Ok(())
}
