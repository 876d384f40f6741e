//! The elements of an instance of a cell.

ghost use Rattle.std.specs.Prelude.{◌++◌, ◌+◌, ◌≡◌, ◌≤◌, ℕ, OnOk, length};
ghost use Rattle.cell_parts.specs.CellElements.{cell_elements, inner_count};
ghost use Rattle.cell_parts.specs.CellStates.{flop_at, latch_at};

use crate::gates::{push_clock_gate, push_comb};
use crate::states::{feed_net, inverse_count, level_at, optional_level, push_feed, push_inverse};
use crate::wires::Wires;
use cell_table::{CellKind, EdgePin, FeedPin, LevelPin};
use design_core::{Element, Flop, Latch};
use emu_io::{List, NoMemory, Text};
use id_arena::{Key, MemId};
use std::alloc::Global;

/// How many inner nets an instance of a kind needs: one for each element whose output no pin names.
pub fn inner_count(kind: &CellKind) -> u32
    ensures { result ≡ inner_count kind.now }
{
    match kind {
        CellKind::Flop { feed, .. } | CellKind::Latch { feed, .. } => match feed {
            FeedPin::Pin(_) => 0,
            FeedPin::Table { .. } => 1,
        },
        CellKind::GateClock { test, .. } => match test {
            None => 1,
            Some(_) => 2,
        },
        CellKind::Comb { .. } | CellKind::Memory { .. } => 0,
    }
}

/// How many elements an instance of a kind makes of its nets.
#[tactic(auto, unfolding(crate::specs::CellElements::cell_elements), using(crate::proofs::Lengths::lengths))]
pub fn element_count(wires: &Wires<'_>, kind: &CellKind) -> u64
    ensures { (inner memory : ℕ) → result ≡ length (cell_elements wires.now inner memory kind.now) }
{
    let inner = u64::from(inner_count(kind));
    match kind {
        CellKind::Comb { outputs, .. } => outputs.as_slice().len() as u64,
        CellKind::Flop { qn, .. } | CellKind::Latch { qn, .. } => {
            inner + 1 + inverse_count(wires, qn)
        }
        CellKind::GateClock { .. } => inner + 1,
        CellKind::Memory { .. } => 1,
    }
}

/// Adds the elements that an instance of a kind makes of its nets. Its inner nets have the numbers from
/// `inner` on, and its memory has the number `memory`.
#[tactic(auto, unfolding(crate::specs::CellElements::cell_elements))]
pub fn push_elements(
    alloc: Global,
    out: &mut List<Element>,
    wires: &Wires<'_>,
    inner: u32,
    memory: u32,
    kind: &CellKind,
) -> Result<(), NoMemory>
    requires { inner + inner_count kind.now ≤ 4294967296 }
    ensures { OnOk result (out.new ≡ out.old ++ cell_elements wires.now inner memory kind.now) }
{
    match kind {
        CellKind::Comb { inputs, outputs } => {
            push_comb(alloc, out, wires, inputs.as_slice(), outputs.as_slice())
        }
        CellKind::Flop {
            clock,
            feed,
            clear,
            preset,
            q,
            qn,
        } => {
            push_feed(alloc, out, wires, inner, feed)?;
            let flop = flop_at(wires, inner, clock, feed, clear, preset, q);
            out.push(Element::Flop(flop))?;
            push_inverse(alloc, out, wires, q, qn)
        }
        CellKind::Latch {
            gate,
            feed,
            clear,
            preset,
            q,
            qn,
        } => {
            push_feed(alloc, out, wires, inner, feed)?;
            let latch = latch_at(wires, inner, gate, feed, clear, preset, q);
            out.push(Element::Latch(latch))?;
            push_inverse(alloc, out, wires, q, qn)
        }
        CellKind::GateClock {
            clock,
            enable,
            test,
            output,
        } => push_clock_gate(alloc, out, wires, inner, clock, enable, test, output),
        CellKind::Memory { .. } => out.push(Element::Memory(MemId::of(memory))),
    }
}

/// The flip-flop of a cell.
fn flop_at(
    wires: &Wires<'_>,
    inner: u32,
    clock: &EdgePin,
    feed: &FeedPin,
    clear: &Option<LevelPin>,
    preset: &Option<LevelPin>,
    q: &Text,
) -> Flop
    ensures { result ≡ flop_at wires.now inner clock.now feed.now clear.now preset.now q.now }
{
    Flop {
        clock: wires.pin_at(clock.pin.bytes()),
        rise: clock.rise,
        feed: feed_net(wires, inner, feed),
        clear: optional_level(wires, clear),
        preset: optional_level(wires, preset),
        q: wires.pin_at(q.bytes()),
    }
}

/// The latch of a cell.
fn latch_at(
    wires: &Wires<'_>,
    inner: u32,
    gate: &LevelPin,
    feed: &FeedPin,
    clear: &Option<LevelPin>,
    preset: &Option<LevelPin>,
    q: &Text,
) -> Latch
    ensures { result ≡ latch_at wires.now inner gate.now feed.now clear.now preset.now q.now }
{
    Latch {
        gate: level_at(wires, gate),
        feed: feed_net(wires, inner, feed),
        clear: optional_level(wires, clear),
        preset: optional_level(wires, preset),
        q: wires.pin_at(q.bytes()),
    }
}
