//! The limits on parts.

ghost use Rattle.std.specs.Prelude.{◌≡◌, ◌≤◌, ◌^◌, IsTrue, MatchOption, length, nat_le, sum_by};
ghost use Rattle.std.specs.List.{list_all};
ghost use Rattle.design_core.specs.Design.{memory_fits, net_count};
ghost use Rattle.design_core.specs.Faults.{IsFirstLimit};
ghost use Rattle.design_core.specs.Most.{most_words};
ghost use Rattle.design_core.specs.Limits.{IsWithin, inputs_within, most_inputs};

use crate::{Element, LimitKind, Memory, Op, Parts};

const MOST_NETS: u64 = 400_000;

const MOST_ELEMENTS: u64 = 200_000;

const MOST_WORDS: u64 = 4_194_304;

const MOST_TABLE_INPUTS: u64 = 6;

const MOST_GATE_INPUTS: u64 = 64;

/// The most address bits of a memory.
pub(crate) const MOST_ADDRESS_BITS: u64 = 16;

/// The most bits of a word.
pub(crate) const MOST_WIDTH: u64 = 128;

/// The most ports of a memory.
pub(crate) const MOST_PORTS: u64 = 16;

/// How many inputs a gate may have.
fn most_inputs(op: Op) -> u64
    ensures { result ≡ most_inputs op }
{
    match op {
        Op::Table(_) => MOST_TABLE_INPUTS,
        _ => MOST_GATE_INPUTS,
    }
}

/// Whether an element has no more inputs than it may.
fn inputs_within(element: &Element) -> bool
    ensures { result ≡ inputs_within element.now }
{
    match element {
        Element::Gate { op, inputs, .. } => inputs.len() <= most_inputs(*op),
        Element::Flop(_) | Element::Latch(_) | Element::Memory(_) => true,
    }
}

/// Whether no element has more inputs than it may.
fn all_inputs_within(elements: &[Element]) -> bool
    ensures { result ≡ list_all inputs_within elements.now }
{
    elements.iter().all(inputs_within)
}

/// How many words a memory has.
pub(crate) fn word_number(memory: &Memory) -> u64
    requires { IsTrue (memory_fits memory.now) }
    ensures words { result ≡ 2 ^ memory.now.address_bits }
    ensures few { result ≤ 65536 }
{
    1 << memory.address_bits
}

/// Whether all memories have together no more words than they may.
fn words_within(memories: &[Memory]) -> bool
    requires { IsTrue (list_all memory_fits memories.now) }
    ensures { result ≡ nat_le (sum_by (λ memory. 2 ^ memory.address_bits) memories.now) most_words }
{
    let mut words = 0u64;
    'memories: for memory in memories {
        words += word_number(memory);
        if words > MOST_WORDS {
            return false;
        }
    }
    true
}

/// The first limit that the parts are beyond; None exactly where they are within all.
pub(crate) fn limit_passed(parts: &Parts) -> Option<LimitKind>
    requires { IsTrue (list_all memory_fits parts.now.memories) }
    ensures { MatchOption result (IsWithin parts.now) (IsFirstLimit parts.now) }
{
    if !all_inputs_within(parts.elements.as_slice()) {
        return Some(LimitKind::Inputs);
    }
    if parts.net_names.len() > MOST_NETS {
        return Some(LimitKind::Nets);
    }
    if parts.elements.len() > MOST_ELEMENTS {
        return Some(LimitKind::Elements);
    }
    if !words_within(parts.memories.as_slice()) {
        return Some(LimitKind::Words);
    }
    None
}
