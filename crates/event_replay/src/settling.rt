//! The trace of the original.

ghost use Rattle.std.specs.Prelude.{◌≡◌, ◌≤◌, ◌+◌, ◌++◌, Contains, IfOk, IsTrue, OnOk, get_or, false, length, map};
ghost use Rattle.design_core.specs.declared.values.Event.{Event};
ghost use Rattle.design_core.specs.Design.{port_bits};
ghost use Rattle.design_core.specs.Event.{IsAfter};
ghost use Rattle.design_core.specs.Faults.{are_there};
ghost use Rattle.emu_io.specs.Sink.{PutMeans};
ghost use Rattle.domain_groups.specs.Traces.{outputs_of, trace_line_of};
ghost use Rattle.event_replay.specs.Runs.{SettleMeans};
ghost use Rattle.event_replay.specs.Settings.{AreInputBits};
ghost use Rattle.settled_model.specs.Held.{valuation};

use crate::putting::put_line;
use design_core::{Design, Event, Port};
use emu_io::{List, NoMemory, Sink, StoreFault};
use id_arena::{Key, NetId};
use settled_model::Settled;
use std::alloc::Global;

/// Runs events on the original, and puts the line of each into the sink.
///
/// After a fault in the line of an event, the events up to it are done, it among them, and the trace
/// breaks off in its line, or before it for want of memory.
pub fn settle_lines<O: Sink>(
    alloc: Global,
    settled: &mut Settled<'_>,
    design: &Design,
    events: &List<Event>,
    out: &mut O,
) -> Result<(), StoreFault>
    requires design { settled.old.parts ≡ design.now }
    requires inputs { (event : Event) → Contains events.now event → AreInputBits design.now event.values }
    ensures design { settled.new.parts ≡ settled.old.parts }
    ensures means { SettleMeans design.now events.now (valuation settled.old) (valuation settled.new) (O.written out.old) (O.written out.new) (O.faults out.old) (O.faults out.new) result }
    ensures later { O.faults out.old ≤ O.faults out.new }
{
    'events: for place in 0..events.len() {
        settle_line(alloc, settled, design, events.get(place), place + 1, out)?;
    }
    Ok(())
}

/// Runs an event on the original, and puts its line, of this number, into the sink.
fn settle_line<O: Sink>(
    alloc: Global,
    settled: &mut Settled<'_>,
    design: &Design,
    event: &Event,
    number: u64,
    out: &mut O,
) -> Result<(), StoreFault>
    requires design { settled.old.parts ≡ design.now }
    requires inputs { AreInputBits design.now event.now.values }
    ensures design { settled.new.parts ≡ settled.old.parts }
    ensures after { IsAfter design.now (valuation settled.old) event.now.values (valuation settled.new) }
    ensures means { PutMeans (O.written out.old) (O.written out.new) (O.faults out.old) (O.faults out.new) (trace_line_of number design.now.outputs (outputs_of design.now (valuation settled.new))) result }
    ensures later { O.faults out.old ≤ O.faults out.new }
{
    settled.event(&event.values);
    design.stands();
    let bits = output_bits(alloc, design.outputs().as_slice(), settled.values())?;
    put_line(alloc, number, design.outputs(), bits.as_slice(), out)
}

/// The values of the bits of ports, port by port and from bit 0, in a table of the values of all nets.
fn output_bits(alloc: Global, outputs: &[Port], values: &[bool]) -> Result<Vec<bool>, NoMemory>
    requires { IsTrue (are_there (length values.now) (port_bits outputs.now)) }
    ensures { IfOk result (λ bits. bits.items ≡ map (λ net. get_or values.now net.place false) (port_bits outputs.now)) }
{
    let mut bits = Vec::new(alloc);
    'ports: for port in outputs {
        push_values(&mut bits, port.nets.as_slice(), values)?;
    }
    Ok(bits)
}

/// Puts the values of nets at the end.
fn push_values(bits: &mut Vec<bool>, nets: &[NetId], values: &[bool]) -> Result<(), NoMemory>
    requires { IsTrue (are_there (length values.now) nets.now) }
    ensures { OnOk result (bits.new.items ≡ bits.old.items ++ map (λ net. get_or values.now net.place false) nets.now) }
{
    'nets: for net in nets {
        bits.push(values[net.place() as usize])?;
    }
    Ok(())
}
