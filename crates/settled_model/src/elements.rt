//! What an element gives to its output.

ghost use Rattle.std.specs.Prelude.{◌≡◌, ◌≤◌, ◌∷◌, [], IsTrue, length, map, option_to_list};
ghost use Rattle.design_core.specs.declared.element.Element.TheVariants as element;
ghost use Rattle.design_core.specs.Design.{element_reads, reset_nets};
ghost use Rattle.design_core.specs.Faults.{are_there, is_there, element_outputs};
ghost use Rattle.design_core.specs.Limits.{inputs_within};
ghost use Rattle.design_core.specs.Valuation.{acts, forced, has_edge, passed, reset_acts};
ghost use Rattle.settled_model.specs.Held.{shown};
ghost use Rattle.settled_model.specs.declared.turn.Turn.TheVariants.{Event};
ghost use Rattle.settled_model.specs.Passing.{element_value};

use crate::gates::{gate_value, value_of};
use crate::turn::Turn;
use design_core::{Element, Flop, Latch, Level};
use id_arena::NetId;

/// Whether a net has the value at which it acts.
pub(crate) fn acts(level: Level, nets: &[bool]) -> bool
    requires { IsTrue (is_there (length nets.now) level.net) }
    ensures { result ≡ acts (shown nets.now) level }
{
    value_of(nets, level.net) == level.high
}

/// Whether a reset pin acts; one that is not there never does.
fn reset_acts(level: Option<Level>, nets: &[bool]) -> bool
    requires { IsTrue (are_there (length nets.now) (map (λ l. l.net) (option_to_list level))) }
    ensures { result ≡ reset_acts (shown nets.now) level }
{
    match level {
        None => false,
        Some(level) => acts(level, nets),
    }
}

/// What resets force: 0 while clear acts, else 1 while preset acts, else nothing.
fn forced(clear: Option<Level>, preset: Option<Level>, nets: &[bool]) -> Option<bool>
    requires { IsTrue (are_there (length nets.now) (reset_nets clear preset)) }
    ensures { result ≡ forced clear preset (shown nets.now) }
{
    if reset_acts(clear, nets) {
        Some(false)
    } else if reset_acts(preset, nets) {
        Some(true)
    } else {
        None
    }
}

/// Whether a clock has its edge between two valuations.
pub(crate) fn has_edge(clock: NetId, rise: bool, old: &[bool], new: &[bool]) -> bool
    requires before { IsTrue (is_there (length old.now) clock) }
    requires after { IsTrue (is_there (length new.now) clock) }
    ensures { result ≡ has_edge (shown old.now) (shown new.now) clock rise }
{
    value_of(old, clock) != rise && value_of(new, clock) == rise
}

/// What a flip-flop shows. Its data is that from before.
fn flop_value(turn: Turn, flop: &Flop, old: &[bool], new: &[bool]) -> bool
    requires lengths { length old.now ≡ length new.now }
    requires reads { IsTrue (are_there (length new.now) (element_reads (element.Flop flop.now))) }
    requires output { IsTrue (is_there (length new.now) flop.now.q) }
    ensures { result ≡ element_value turn (shown old.now) (shown new.now) (element.Flop flop.now) }
{
    if let Some(value) = forced(flop.clear, flop.preset, new) {
        value
    } else if turn == Turn::Event && has_edge(flop.clock, flop.rise, old, new) {
        value_of(old, flop.feed)
    } else {
        value_of(old, flop.q)
    }
}

/// What a latch shows.
fn latch_value(latch: &Latch, old: &[bool], new: &[bool]) -> bool
    requires lengths { length old.now ≡ length new.now }
    requires reads { IsTrue (are_there (length new.now) (element_reads (element.Latch latch.now))) }
    requires output { IsTrue (is_there (length new.now) latch.now.q) }
    ensures { result ≡ element_value Event (shown old.now) (shown new.now) (element.Latch latch.now) }
{
    if let Some(value) = forced(latch.clear, latch.preset, new) {
        value
    } else if acts(latch.gate, new) {
        value_of(new, latch.feed)
    } else {
        value_of(old, latch.q)
    }
}

/// What an element gives to its output, where the nets on which it depends are new.
pub(crate) fn element_value(turn: Turn, element: &Element, old: &[bool], new: &[bool]) -> bool
    requires lengths { length old.now ≡ length new.now }
    requires reads { IsTrue (are_there (length new.now) (element_reads element.now)) }
    requires output { IsTrue (are_there (length new.now) (element_outputs element.now)) }
    requires within { IsTrue (inputs_within element.now) }
    ensures { result ≡ element_value turn (shown old.now) (shown new.now) element.now }
{
    match element {
        Element::Gate { op, inputs, .. } => gate_value(*op, inputs.as_slice(), new),
        Element::Flop(flop) => flop_value(turn, flop, old, new),
        Element::Latch(latch) => latch_value(latch, old, new),
        Element::Memory(_) => false,
    }
}
