//! The terminals of an instance.
ghost use Rattle.std.specs.Prelude.{◌≡◌, ◌<◌, ◌↔◌, ◌∷◌, [], IsTrue};
ghost use Rattle.token_words.specs.Word.{comma};
ghost use Rattle.netlist_reader.specs.Netlist.{closed_words, net_word, pin_words};
ghost use Rattle.netlist_reader.specs.Inside.{ArePins, GoesOn, IsNetBelow, IsRoom, Opens, Reads};
ghost use Rattle.netlist_reader.specs.Forms.{stem_text};

use crate::fault::Stop;
use crate::numbered::number_after;
use crate::piece::{Piece, Stem, take, take_all};
use crate::rest::Rest;
use emu_io::List;
use id_arena::ChipNetId;
use std::alloc::Global;
use token_words::Word;

/// How many terminals an instance has at least and at most, and how many nets its chip has.
#[derive(Clone, Copy)]
pub(crate) struct Room {
    pub(crate) least: u32,
    pub(crate) most: u32,
    pub(crate) nets: u32,
}

/// Passes over the name of a net with a number below `nets`.
fn take_net(rest: &mut Rest, nets: u32) -> Result<ChipNetId, Stop>
    requires { 0 < nets }
    ensures { Reads (IsNetBelow nets) (λ n. net_word n ∷ []) rest.old rest.new result }
{
    match number_after(Stem::Net.text(), rest.name()) {
        Some(place) if place < nets => {
            rest.pass();
            Ok(ChipNetId { place })
        }
        _ => Err(Stop::Stuck),
    }
}

/// Passes over a comma and the name of a net.
fn take_listed(rest: &mut Rest, nets: u32) -> Result<ChipNetId, Stop>
    requires { 0 < nets }
    ensures { Reads (IsNetBelow nets) (λ n. comma ∷ net_word n ∷ []) rest.old rest.new result }
{
    take(rest, Piece::Mark(b','))?;
    take_net(rest, nets)
}

/// Passes over the first terminal, where there are some.
fn take_first(alloc: Global, rest: &mut Rest, room: Room) -> Result<List<ChipNetId>, Stop>
    requires { IsRoom room }
    ensures { Opens room rest.old rest.new result }
{
    let mut pins = List::new(alloc);
    if room.most > 0 {
        let net = take_net(rest, room.nets)?;
        pins.push(net)?;
    }
    Ok(pins)
}

/// Whether a terminal is due, or comes, behind so many.
fn goes_on(rest: &Rest, room: Room, count: u64) -> bool
    ensures { IsTrue result ↔ GoesOn room count rest.now }
{
    count < u64::from(room.least) || count < u64::from(room.most) && rest.begins(&Word::mark(b','))
}

/// Passes over the terminals and the parenthesis that closes them.
fn take_pins(alloc: Global, rest: &mut Rest, room: Room) -> Result<List<ChipNetId>, Stop>
    requires { IsRoom room }
    ensures { Reads (ArePins room) closed_words rest.old rest.new result }
{
    let mut pins = take_first(alloc, rest, room)?;
    'pins: while goes_on(rest, room, pins.len()) {
        let net = take_listed(rest, room.nets)?;
        pins.push(net)?;
    }
    take(rest, Piece::Mark(b')'))?;
    Ok(pins)
}

/// Passes over what stands behind the form in the line of an instance.
pub(crate) fn take_instance(
    alloc: Global,
    rest: &mut Rest,
    stem: Stem,
    number: u32,
    room: Room,
) -> Result<List<ChipNetId>, Stop>
    requires { IsRoom room }
    ensures { Reads (ArePins room) (pin_words (stem_text stem) number) rest.old rest.new result }
{
    take_all(rest, &[Piece::Numbered(stem, number), Piece::Mark(b'(')])?;
    let pins = take_pins(alloc, rest, room)?;
    take(rest, Piece::Mark(b';'))?;
    Ok(pins)
}
