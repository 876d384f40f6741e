//! From a text to an opening, or to its first fault.

ghost use Rattle.std.specs.Prelude.{◌≡◌, ◌<◌, ◌^◌, ℕ, List, Some, IfOk, IsTrue, filter_map, flat_map, length, map, slice_get};
ghost use Rattle.std.specs.List.{list_all};
ghost use Rattle.design_core.specs.declared.parts.Port.{Port};
ghost use Rattle.domain_groups.specs.Openings.{OpeningAnswers, has_address, input_fault, input_values, led_to, plain_word, state_fault, value_fault, width_of, word_fault};
ghost use Rattle.domain_groups.specs.Values.{hex_number, is_hex, shown_bits};
ghost use Rattle.settled_model.specs.Opening.{IsWord, Opens};
ghost use Rattle.event_replay.specs.Checks.{AreApart, Checks, IsAddressed, Judged, WidthAt, first_of};
ghost use Rattle.event_replay.specs.Opened.{AreStates, plain, plain_word_of};
ghost use Rattle.event_replay.specs.Settings.{AreInputBits};
ghost use Rattle.event_replay.specs.PathIndex.{Indexes};
ghost use Rattle.event_replay.specs.declared.path_names.Kind.TheVariants.{State, Memory};

use crate::given::{GivenOpening, GivenValue, GivenWord, opening_told};
use crate::path_names::{Kind, PathNames};
use crate::values::{is_value, number_of, push_bits};
use design_core::{Design, PortValues};
use domain_groups::{OpeningFault, PortNames};
use emu_io::{List, Text};
use history_law::drivers::input_is_input_bit;
use id_arena::{ElemId, Key, MemId, NetId};
use json_members::read_json;
use settled_model::{OpenWord, Opening};
use std::alloc::Global;

/// The opening of a design that a text stands for:
/// `{"inputs":{"mode":"3"},"ones":["core/busy"],"words":[["core/buffer",12,"a0"]]}`. Other members are
/// passed over, and of members named twice the last counts. A refusal names the first fault.
pub fn read_opening(alloc: Global, bytes: &[u8], design: &Design) -> Result<Opening, OpeningFault>
    ensures means { OpeningAnswers plain design.now bytes.now result }
    ensures opens { IfOk result (λ o. Opens design.now o) }
    ensures bits { IfOk result (λ o. AreInputBits design.now o.inputs) }
    ensures states { IfOk result (λ o. AreStates design.now o.ones) }
{
    design.stands();
    input_is_input_bit();
    let tree = read_json(alloc, bytes)?;
    let given = opening_told(alloc, &tree)?;
    judged(alloc, design, &given)
}

/// What an opening gives to the design, or its first fault.
fn judged(alloc: Global, design: &Design, given: &GivenOpening<'_>) -> Result<Opening, OpeningFault>
    ensures { Judged design.now given.now result }
{
    design.stands();
    let ports = PortNames::new(alloc, design.inputs().as_slice())?;
    let inputs = judged_inputs(alloc, &ports, given.inputs.as_slice())?;
    let states = PathNames::new(alloc, design, Kind::State)?;
    let ones = judged_ones(alloc, &states, given.ones.as_slice())?;
    let memories = PathNames::new(alloc, design, Kind::Memory)?;
    let words = judged_words(alloc, design, &memories, given.words.as_slice())?;
    Ok(Opening {
        inputs,
        ones,
        words,
    })
}

/// The values of inputs, or their first fault.
fn judged_inputs(
    alloc: Global,
    ports: &PortNames<'_>,
    given: &[GivenValue<'_>],
) -> Result<PortValues, OpeningFault>
    ensures { Checks
        (first_of (filter_map (input_fault ports.now) given.now))
        (λ values. values ≡ flat_map (input_values ports.now) given.now)
        result }
{
    let mut values = List::new(alloc);
    'given: for value in given {
        let nets = judged_input(alloc, ports, value)?;
        push_bits(&mut values, nets, value.digits)?;
    }
    Ok(values)
}

/// The nets of the port that a value is for, or its fault.
fn judged_input<'d>(
    alloc: Global,
    ports: &PortNames<'d>,
    given: &GivenValue<'_>,
) -> Result<&'d [NetId], OpeningFault>
    ensures { Checks
        (input_fault ports.now given.now)
        (λ nets. IsTrue (list_all is_hex given.now.digits)
        × (input_values ports.now given.now ≡ shown_bits nets.now (hex_number given.now.digits)))
        result }
{
    let Some(place) = ports.find(given.name) else {
        let name = Text::from_bytes(alloc, given.name)?;
        return Err(OpeningFault::NoPort { name });
    };
    let nets = ports.ports()[place].nets.as_slice();
    check_value(alloc, given.name, given.digits, nets.len())?;
    Ok(nets)
}

/// Whether digits are a value for so many bits; else the fault is told with this name.
fn check_value(alloc: Global, name: &[u8], digits: &[u8], width: usize) -> Result<(), OpeningFault>
    ensures { Checks
        (value_fault name.now digits.now width)
        (λ done. IsTrue (list_all is_hex digits.now) × (hex_number digits.now < 2 ^ width))
        result }
{
    if is_value(digits, width) {
        return Ok(());
    }
    let name = Text::from_bytes(alloc, name)?;
    Err(OpeningFault::BadValue { name })
}

/// The flip-flops and latches of paths, or their first fault.
fn judged_ones(
    alloc: Global,
    states: &PathNames,
    paths: &[&[u8]],
) -> Result<List<ElemId>, OpeningFault>
    ensures { Checks
        (first_of (filter_map (state_fault (led_to states.now)) (map (λ path. path.now) paths.now)))
        (λ ones. map (λ id. id.place) ones ≡ filter_map (led_to states.now) (map (λ path. path.now) paths.now))
        result }
{
    let mut ones = List::new(alloc);
    'paths: for path in paths {
        let one = judged_one(alloc, states, path)?;
        ones.push(one)?;
    }
    Ok(ones)
}

/// The flip-flop or latch of a path, or its fault.
fn judged_one(alloc: Global, states: &PathNames, path: &[u8]) -> Result<ElemId, OpeningFault>
    ensures { Checks
        (state_fault (led_to states.now) path.now)
        (λ id. led_to states.now path.now ≡ Some id.place)
        result }
{
    let Some(place) = states.find(path) else {
        let path = Text::from_bytes(alloc, path)?;
        return Err(OpeningFault::NoState { path });
    };
    Ok(ElemId::of(place))
}

/// The words of memories, or their first fault.
fn judged_words(
    alloc: Global,
    design: &Design,
    memories: &PathNames,
    given: &[GivenWord<'_>],
) -> Result<List<OpenWord>, OpeningFault>
    ensures { Checks
        (first_of (filter_map (word_fault design.now (led_to memories.now)) given.now))
        (λ words. map plain_word_of words ≡ filter_map (plain_word (led_to memories.now)) given.now)
        result }
{
    let mut words = List::new(alloc);
    'given: for entry in given {
        let word = judged_word(alloc, design, memories, entry)?;
        words.push(word)?;
    }
    Ok(words)
}

/// The word that an entry gives, or its fault.
fn judged_word(
    alloc: Global,
    design: &Design,
    memories: &PathNames,
    given: &GivenWord<'_>,
) -> Result<OpenWord, OpeningFault>
    ensures { Checks
        (word_fault design.now (led_to memories.now) given.now)
        (λ word. plain_word (led_to memories.now) given.now ≡ Some (plain_word_of word))
        result }
{
    let Some((place, width)) = addressed(design, memories, given) else {
        let path = Text::from_bytes(alloc, given.path)?;
        return Err(OpeningFault::NoWord { path });
    };
    check_value(alloc, given.path, given.digits, width)?;
    Ok(OpenWord {
        mem: MemId::of(place),
        address: given.address,
        value: number_of(given.digits),
    })
}

/// The memory of an entry and the width of its words, where it has the address.
fn addressed(design: &Design, memories: &PathNames, given: &GivenWord<'_>) -> Option<(u32, usize)>
    ensures { IsAddressed design.now (led_to memories.now) given.now result }
{
    let place = memories.find(given.path)?;
    let width = width_at(design, place, given.address)?;
    Some((place, width))
}

/// The width of a memory's words, where it is there and has the address.
fn width_at(design: &Design, place: u32, address: u32) -> Option<usize>
    ensures { WidthAt design.now address place result }
{
    if place >= design.mems() {
        return None;
    }
    let memory = design.mem(MemId::of(place));
    if u64::from(address) >= 1u64 << memory.address_bits {
        return None;
    }
    Some(memory.width as usize)
}
