//! Events on the machine of compiled results.

ghost use Rattle.std.specs.Prelude.{◌≡◌, ◌<◌, ◌≤◌, ℕ, All, Contains, IfOk, length, map};
ghost use Rattle.design_core.specs.declared.values.Event.{Event};
ghost use Rattle.design_core.specs.Design.{net_count, port_bits};
ghost use Rattle.emu_io.specs.Sink.{PutMeans};
ghost use Rattle.emu_machine.specs.declared.map.Spot.{Spot};
ghost use Rattle.emu_machine.specs.Netlist.{chip_at};
ghost use Rattle.emu_machine.specs.State.{after_frame, net_value};
ghost use Rattle.cycle_sim.specs.Tables.{state};
ghost use Rattle.domain_groups.specs.Traces.{spots_of, trace_line_of};
ghost use Rattle.event_replay.specs.Runs.{ReplayMeans};
ghost use Rattle.event_replay.specs.Settings.{AreInputBits};

use crate::putting::put_line;
use cycle_sim::Machine;
use design_core::{Design, Event, Port};
use emu_io::{List, NoMemory, Sink, StoreFault};
use emu_machine::{Results, Spot};
use history_law::drivers::{input_bit_is_input, input_is_input_bit};
use std::alloc::Global;

/// Runs events on the machine of compiled results, and puts the line of each into the sink.
///
/// After a fault the machine stands after the event whose line could not be put, and the trace breaks off
/// in that line, or before it for want of memory.
pub fn replay_lines<O: Sink>(
    alloc: Global,
    machine: &mut Machine<'_>,
    design: &Design,
    results: &Results,
    events: &List<Event>,
    out: &mut O,
) -> Result<(), StoreFault>
    requires results { machine.old.results ≡ results.now }
    requires inputs { length machine.old.tables.outside ≡ net_count design.now }
    requires frames { (event : Event) → Contains events.now event → event.group.place < length results.now.schedule.frames }
    requires values { (event : Event) → Contains events.now event → AreInputBits design.now event.values }
    requires outputs { length results.now.map.outputs ≡ length (port_bits design.now.outputs) }
    requires spots { (spot : Spot) → Contains results.now.map.outputs spot → spot.net.place < (chip_at results.now.net spot.chip.place).nets }
    ensures results { machine.new.results ≡ machine.old.results }
    ensures wires { machine.new.wires ≡ machine.old.wires }
    ensures inputs { length machine.new.tables.outside ≡ length machine.old.tables.outside }
    ensures means { ReplayMeans design.now results.now machine.old.wires events.now (state machine.old) (state machine.new) (O.written out.old) (O.written out.new) (O.faults out.old) (O.faults out.new) result }
    ensures later { O.faults out.old ≤ O.faults out.new }
{
    design.stands();
    input_is_input_bit();
    input_bit_is_input();
    'events: for place in 0..events.len() {
        let event = events.get(place);
        replay_line(
            alloc,
            machine,
            design.outputs(),
            results,
            place + 1,
            event,
            out,
        )?;
    }
    Ok(())
}

/// Runs one event on the machine, and puts its line.
fn replay_line<O: Sink>(
    alloc: Global,
    machine: &mut Machine<'_>,
    outputs: &List<Port>,
    results: &Results,
    number: u64,
    event: &Event,
    out: &mut O,
) -> Result<(), StoreFault>
    requires results { machine.old.results ≡ results.now }
    requires group { event.now.group.place < length results.now.schedule.frames }
    requires values { All (λ b. b.net.place < length machine.old.tables.outside) event.now.values }
    requires outputs { length results.now.map.outputs ≡ length (port_bits outputs.now) }
    requires spots { (spot : Spot) → Contains results.now.map.outputs spot → spot.net.place < (chip_at results.now.net spot.chip.place).nets }
    ensures results { machine.new.results ≡ machine.old.results }
    ensures wires { machine.new.wires ≡ machine.old.wires }
    ensures inputs { length machine.new.tables.outside ≡ length machine.old.tables.outside }
    ensures state { state machine.new ≡ after_frame results.now machine.old.wires event.now (state machine.old) }
    ensures means { PutMeans (O.written out.old) (O.written out.new) (O.faults out.old) (O.faults out.new) (trace_line_of number outputs.now (spots_of results.now (state machine.new))) result }
    ensures later { O.faults out.old ≤ O.faults out.new }
{
    machine.frame(event.group, &event.values);
    let bits = bits_at(alloc, machine, results.map().outputs.as_slice())?;
    put_line(alloc, number, outputs, bits.as_slice(), out)
}

/// What the nets at some spots show, spot by spot.
fn bits_at(alloc: Global, machine: &Machine<'_>, spots: &[Spot]) -> Result<Vec<bool>, NoMemory>
    requires { (spot : Spot) → Contains spots.now spot → spot.net.place < (chip_at machine.now.results.net spot.chip.place).nets }
    ensures { IfOk result (λ bits. bits.items ≡ map (λ spot. net_value machine.now.results.net (state machine.now) spot.chip.place spot.net.place) spots.now) }
{
    let mut bits = Vec::new(alloc);
    'spots: for spot in spots {
        bits.push(machine.net(spot.chip, spot.net))?;
    }
    Ok(bits)
}
