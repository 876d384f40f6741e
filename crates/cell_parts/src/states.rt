//! What flip-flops and latches are made of.

ghost use Rattle.std.specs.Prelude.{[], ◌∷◌, ◌++◌, ◌<◌, ◌^◌, ◌≡◌, ℕ, IfOk, List, OnOk, length, option_map};
ghost use Rattle.cell_parts.specs.CellStates.{edge_at, feed_gates, feed_net, inverse_gates, level_at};

use crate::gates::table_gate;
use crate::wires::Wires;
use cell_table::{EdgePin, FeedPin, LevelPin};
use design_core::{Edge, Element, Level, Op};
use emu_io::{List, NoMemory, Text};
use id_arena::{Key, NetId};
use std::alloc::Global;

/// The net of a pin with its level.
pub(crate) fn level_at(wires: &Wires<'_>, level: &LevelPin) -> Level
    ensures { result ≡ level_at wires.now level.now }
{
    Level {
        net: wires.pin_at(level.pin.bytes()),
        high: level.high,
    }
}

/// The same for one that may be left out.
pub(crate) fn optional_level(wires: &Wires<'_>, level: &Option<LevelPin>) -> Option<Level>
    ensures { result ≡ option_map (level_at wires.now) level.now }
{
    match level {
        Some(level) => Some(level_at(wires, level)),
        None => None,
    }
}

/// The net of a clock pin with its edge, where there is a clock.
pub(crate) fn optional_edge(wires: &Wires<'_>, edge: &Option<EdgePin>) -> Option<Edge>
    ensures { result ≡ option_map (edge_at wires.now) edge.now }
{
    match edge {
        Some(edge) => Some(Edge {
            net: wires.pin_at(edge.pin.bytes()),
            rise: edge.rise,
        }),
        None => None,
    }
}

/// Adds the gate of a table over pins, whose output is the inner net.
pub(crate) fn push_feed(
    alloc: Global,
    out: &mut List<Element>,
    wires: &Wires<'_>,
    inner: u32,
    feed: &FeedPin,
) -> Result<(), NoMemory>
    ensures { OnOk result (out.new ≡ out.old ++ feed_gates wires.now inner feed.now) }
{
    match feed {
        FeedPin::Pin(_) => Ok(()),
        FeedPin::Table { pins, table } => {
            out.push(table_gate(alloc, wires, pins.as_slice(), *table, NetId::of(inner))?)
        }
    }
}

/// The net that a flip-flop or a latch takes its value from.
pub(crate) fn feed_net(wires: &Wires<'_>, inner: u32, feed: &FeedPin) -> NetId
    ensures { result ≡ feed_net wires.now inner feed.now }
{
    match feed {
        FeedPin::Pin(pin) => wires.pin_at(pin.bytes()),
        FeedPin::Table { .. } => NetId::of(inner),
    }
}

/// Adds a `not` from the output to the inverted output, where this has a net.
pub(crate) fn push_inverse(
    alloc: Global,
    out: &mut List<Element>,
    wires: &Wires<'_>,
    q: &Text,
    qn: &Option<Text>,
) -> Result<(), NoMemory>
    ensures { OnOk result (out.new ≡ out.old ++ inverse_gates wires.now q.now qn.now) }
{
    let Some(qn) = qn else {
        return Ok(());
    };
    let source = wires.pin_at(q.bytes());
    'nets: for net in wires.nets_at(qn.bytes()) {
        out.push(inverter(alloc, source, *net)?)?;
    }
    Ok(())
}

/// A `not` from one net to another.
fn inverter(alloc: Global, input: NetId, output: NetId) -> Result<Element, NoMemory>
    ensures { IfOk result (λ gate. gate ≡ Element.Gate Op.Not (input ∷ []) output) }
{
    let mut inputs = List::new(alloc);
    inputs.push(input)?;
    Ok(Element::Gate {
        op: Op::Not,
        inputs,
        output,
    })
}

/// How many nets the inverted output has.
pub(crate) fn inverse_count(wires: &Wires<'_>, qn: &Option<Text>) -> u64
    ensures count { (q : List ℕ) → result ≡ length (inverse_gates wires.now q qn.now) }
    ensures few { result < 2 ^ 63 }
{
    match qn {
        None => 0,
        Some(qn) => wires.nets_at(qn.bytes()).len() as u64,
    }
}
