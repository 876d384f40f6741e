//! From a text to a board, or to the first fault.
ghost use Rattle.std.specs.Prelude.{◌≡◌, ◌↔◌, IsTrue, MatchOption, length};
ghost use Rattle.std.specs.List.{list_all};
ghost use Rattle.board_model.specs.Answers.{Answers, EachTextHasOneAnswer};
ghost use Rattle.id_arena.specs.BoardPlan.{BoardPlan};
ghost use Rattle.board_model.specs.Sound.{IsWithinLimits, IsFirstBadWire, FirstWiresJoin, joins, latency_is_within};
ghost use Rattle.board_model.specs.FormAnswers.{plan_of, Judges};

use crate::board::Board;
use crate::fault::BoardFault;
use crate::form::{BoardForm, read_form};
use id_arena::{Key, Wire, WireId};
use json_members::read_json;
use std::alloc::Global;

/// The most chips of a board.
const MOST_CHIPS: u64 = 16;

/// The most wires of a board.
const MOST_WIRES: u64 = 4096;

/// The greatest latency of a wire, in slots.
const MOST_LATENCY: u32 = 8;

/// The most slots of a frame.
const MOST_SLOTS: u32 = 65_535;

/// The board that a text stands for:
/// `{"version":2,"chips":[{"room":8},{"room":40}],"wires":[{"from":1,"to":0,"latency":2}],"slots":16}`. In
/// version 1 each latency is 1, whatever the wires tell of it. Other members are passed over, and of
/// members named twice the last counts. A refusal names the first fault.
pub fn read_board(alloc: Global, bytes: &[u8]) -> Result<Board, BoardFault>
    ensures { Answers bytes.now result }
{
    let tree = read_json(alloc, bytes)?;
    let form = read_form(alloc, &tree)?;
    judge(form)
}

/// The law that a text has one answer, want of memory aside.
pub fn each_text_has_one_answer()
    ensures { EachTextHasOneAnswer }
{}

/// The board of a form, or the first fault in it.
fn judge(form: BoardForm) -> Result<Board, BoardFault>
    ensures { Judges form result }
{
    if form.version != 1 && form.version != 2 {
        return Err(BoardFault::Version);
    }
    if !is_within_limits(&form) {
        return Err(BoardFault::Limit);
    }
    if let Some(wire) = first_bad_wire(&form) {
        return Err(BoardFault::BadWire { wire });
    }
    Ok(Board::from_parts(form.rooms, form.wires, form.slots))
}

/// Whether the numbers are within the limits.
fn is_within_limits(form: &BoardForm) -> bool
    ensures { IsTrue result ↔ IsWithinLimits (plan_of form.now) }
{
    let chips = form.rooms.len();
    0 < chips
        && chips <= MOST_CHIPS
        && form.wires.len() <= MOST_WIRES
        && latencies_are_within(form.wires.as_slice())
        && 0 < form.slots
        && form.slots <= MOST_SLOTS
}

/// Whether each latency is within the limits.
fn latencies_are_within(wires: &[Wire]) -> bool
    ensures { result ≡ list_all latency_is_within wires.now }
{
    'wires: for wire in wires {
        if !latency_is_within(wire) {
            return false;
        }
    }
    true
}

/// Whether a wire has a latency within the limits.
fn latency_is_within(wire: &Wire) -> bool
    ensures { result ≡ latency_is_within wire.now }
{
    1 <= wire.latency && wire.latency <= MOST_LATENCY
}

/// The first wire that does not join two different chips.
fn first_bad_wire(form: &BoardForm) -> Option<WireId>
    requires { IsWithinLimits (plan_of form.now) }
    ensures { MatchOption result
        (FirstWiresJoin (plan_of form.now) (length form.now.wires))
        (λ wire. IsFirstBadWire (plan_of form.now) wire.place) }
{
    let chips = form.rooms.len();
    'wires: for (number, wire) in form.wires.as_slice().iter().enumerate() {
        if !joins(chips, wire) {
            return Some(WireId::of(number as u32));
        }
    }
    None
}

/// Whether a wire joins two different chips of so many.
fn joins(chips: u64, wire: &Wire) -> bool
    ensures { result ≡ joins chips wire.now }
{
    let (from, to) = (wire.from.place(), wire.to.place());
    u64::from(from) < chips && u64::from(to) < chips && from != to
}
