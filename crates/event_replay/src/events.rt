//! The events that a text tells.

ghost use Rattle.std.specs.Prelude.{◌≡◌, ◌+◌, ◌<◌, ◌≤◌, Contains, IfOk, IfErr, OnOk, IsTrue, Some, false, true, get_or, length, option_map, slice_get};
ghost use Rattle.std.specs.List.{list_all};
ghost use Rattle.design_core.specs.Influence.{Group};
ghost use Rattle.design_core.specs.declared.values.Event.{Event};
ghost use Rattle.domain_groups.specs.Events.{EventAnswers, WordSets, are_inside, group_named};
ghost use Rattle.domain_groups.specs.Groups.{frames};
ghost use Rattle.domain_groups.specs.Lines.{has_equals, is_bad, is_passed_over, words};
ghost use Rattle.domain_groups.specs.Values.{hex_number, is_hex};
ghost use Rattle.event_replay.specs.Events.{AreEarlier, LineAnswers, WordFails, WordsAnswer};
ghost use Rattle.event_replay.specs.Settings.{AreInputBits};

use crate::lines::{cut_line, cut_word, has_equals, is_passed_over, is_plain, part_word};
use crate::values::{is_value, push_bits};
use design_core::{Design, Event, Port, PortValues};
use domain_groups::{EventFault, Events, Groups, PortNames};
use emu_io::{List, NoMemory};
use id_arena::{GroupId, Key, NetId};
use std::alloc::Global;

/// The events that a text tells, one for each of its lines that is neither blank nor a comment:
/// `bus clk=1 data=1f`. A refusal names the first fault.
pub fn read_events(
    alloc: Global,
    bytes: &[u8],
    design: &Design,
    groups: &Groups,
) -> Result<Events, EventFault>
    ensures means { EventAnswers groups.now design.now.inputs bytes.now result }
    ensures bits { IfOk result (λ events. (event : Event) → Contains events event → AreInputBits design.now event.values) }
{
    design.stands();
    let inputs = design.inputs().as_slice();
    let ports = PortNames::new(alloc, inputs)?;
    let mut last_lines = no_lines(alloc, inputs)?;
    read_lines(alloc, bytes, &ports, groups, last_lines.as_mut_slice())
}

/// The line that set each port last, where none has set any.
fn no_lines(alloc: Global, ports: &[Port]) -> Result<Vec<usize>, NoMemory>
    ensures { IfOk result (λ last_lines. AreEarlier ports.now last_lines.items 1) }
{
    Ok(vec![in alloc; 0; ports.len()]?)
}

/// The events that the lines of a text tell. `last_lines` keeps for each port the number of the line that
/// set it last, so that no line is gone through twice.
fn read_lines(
    alloc: Global,
    bytes: &[u8],
    ports: &PortNames<'_>,
    groups: &Groups,
    last_lines: &mut [usize],
) -> Result<Events, EventFault>
    requires { AreEarlier ports.now last_lines.old 1 }
    ensures { EventAnswers groups.now ports.now bytes.now result }
{
    let mut events = List::new(alloc);
    let mut rest = Some(bytes);
    let mut number = 0;
    'lines: while let Some(text) = rest {
        let (line, after) = cut_line(text);
        rest = after;
        number += 1;
        if is_passed_over(line) {
            continue;
        }
        match read_event(alloc, line, ports, groups, last_lines, number) {
            Ok(event) => events.push(event)?,
            Err(fault) => return Err(fault),
        }
    }
    Ok(events)
}

/// The event that the line of this number tells.
fn read_event(
    alloc: Global,
    line: &[u8],
    ports: &PortNames<'_>,
    groups: &Groups,
    last_lines: &mut [usize],
    number: usize,
) -> Result<Event, EventFault>
    requires earlier { AreEarlier ports.now last_lines.old number }
    requires kept { is_passed_over line.now ≡ false }
    ensures means { LineAnswers groups.now ports.now number line.now result }
    ensures lines { OnOk result (AreEarlier ports.now last_lines.new (number + 1)) }
{
    if is_bad(line) {
        return Err(EventFault::BadLine {
            line: number as u64,
        });
    }
    let Some((name, rest)) = cut_word(line) else {
        unreachable!();
    };
    let Some(group) = group_named(groups, name) else {
        return Err(EventFault::NoGroup {
            line: number as u64,
        });
    };
    match read_settings(alloc, rest, ports, groups, group, last_lines, number) {
        Ok(values) => Ok(Event { group, values }),
        Err(fault) => Err(fault),
    }
}

/// Whether a line has a byte that none may have, or a word behind the first that holds no `=`.
fn is_bad(line: &[u8]) -> bool
    ensures { result ≡ is_bad line.now }
{
    if !is_plain(line) {
        return true;
    }
    match cut_word(line) {
        Some((_, rest)) => !have_equals(rest),
        None => false,
    }
}

/// Whether each word holds `=`.
fn have_equals(text: &[u8]) -> bool
    ensures { result ≡ list_all has_equals (words text.now) }
{
    let mut rest = text;
    'words: while let Some((word, after)) = cut_word(rest) {
        if !has_equals(word) {
            return false;
        }
        rest = after;
    }
    true
}

/// The group of this name, of which there are at most 33 with `*`.
fn group_named(groups: &Groups, name: &[u8]) -> Option<GroupId>
    ensures { option_map (λ group. group.place) result ≡ group_named groups.now name.now }
{
    'groups: for place in 0..groups.len() + 1 {
        if name == groups.name(GroupId::of(place)) {
            return Some(GroupId::of(place));
        }
    }
    None
}

/// The values that words give in the line of this number.
fn read_settings(
    alloc: Global,
    text: &[u8],
    ports: &PortNames<'_>,
    groups: &Groups,
    group: GroupId,
    last_lines: &mut [usize],
    number: usize,
) -> Result<PortValues, EventFault>
    requires earlier { AreEarlier ports.now last_lines.old number }
    requires equals { list_all has_equals (words text.now) ≡ true }
    requires group { group.place ≤ length groups.now.groups }
    ensures means { (g : Group) → slice_get (frames groups.now) group.place ≡ Some g → WordsAnswer ports.now g number (words text.now) result }
    ensures lines { OnOk result (AreEarlier ports.now last_lines.new (number + 1)) }
{
    let mut values = List::new(alloc);
    let mut rest = text;
    'words: while let Some((word, after)) = cut_word(rest) {
        let (place, nets, digits) = match read_setting(
            word, ports, groups, group, last_lines, number,
        ) {
            Ok(setting) => setting,
            Err(fault) => return Err(fault),
        };
        last_lines[place] = number;
        push_bits(&mut values, nets, digits)?;
        rest = after;
    }
    Ok(values)
}

/// The place and the nets of the port that a word sets in the line of this number, and the digits of its value.
fn read_setting<'d, 't>(
    word: &'t [u8],
    ports: &PortNames<'d>,
    groups: &Groups,
    group: GroupId,
    last_lines: &[usize],
    number: usize,
) -> Result<(usize, &'d [NetId], &'t [u8]), EventFault>
    requires equals { has_equals word.now ≡ true }
    requires lines { length last_lines.now ≡ length ports.now }
    requires group { group.place ≤ length groups.now.groups }
    ensures sets { IfOk result (λ set. (g : Group) → slice_get (frames groups.now) group.place ≡ Some g → WordSets ports.now g word.now
        (record { port = set.0; nets = set.1.now; number = hex_number set.2.now })) }
    ensures hex { IfOk result (λ set. IsTrue (list_all is_hex set.2.now) × (set.0 < length ports.now)) }
    ensures first { IfOk result (λ set. get_or last_lines.now set.0 0 ≡ number → ⊥) }
    ensures fails { IfErr result (λ fault. (g : Group) → slice_get (frames groups.now) group.place ≡ Some g → WordFails ports.now g last_lines.now number word.now fault) }
{
    let line = number as u64;
    let Some((name, digits)) = part_word(word) else {
        unreachable!();
    };
    let Some(place) = ports.find(name) else {
        return Err(EventFault::NoPort { line });
    };
    let nets = ports.ports()[place].nets.as_slice();
    if !are_inside(groups, group, nets) {
        return Err(EventFault::NoPort { line });
    }
    if last_lines[place] == number {
        return Err(EventFault::PortTwice { line });
    }
    if !is_value(digits, nets.len()) {
        return Err(EventFault::BadValue { line });
    }
    Ok((place, nets, digits))
}

/// Whether nets are all of a group.
fn are_inside(groups: &Groups, group: GroupId, nets: &[NetId]) -> bool
    requires { group.place ≤ length groups.now.groups }
    ensures { (g : Group) → slice_get (frames groups.now) group.place ≡ Some g → result ≡ are_inside g nets.now }
{
    'nets: for net in nets {
        if !groups.has(group, *net) {
            return false;
        }
    }
    true
}
