//! Lines of traces, put into a sink.

ghost use Rattle.std.specs.Prelude.{◌≡◌, ◌≤◌, length};
ghost use Rattle.design_core.specs.Design.{port_bits};
ghost use Rattle.emu_io.specs.Sink.{PutMeans};
ghost use Rattle.domain_groups.specs.Traces.{trace_line_of};

use crate::trace::trace_line;
use design_core::Port;
use emu_io::{List, Sink, StoreFault};
use std::alloc::Global;

/// Puts the line of the event of this number. `bits` are the values of the output bits, port by port
/// and from bit 0.
///
/// Where no memory is left, the sink is as before.
pub(crate) fn put_line<O: Sink>(
    alloc: Global,
    number: u64,
    outputs: &List<Port>,
    bits: &[bool],
    out: &mut O,
) -> Result<(), StoreFault>
    requires { length bits.now ≡ length (port_bits outputs.now) }
    ensures means { PutMeans (O.written out.old) (O.written out.new) (O.faults out.old) (O.faults out.new) (trace_line_of number outputs.now bits.now) result }
    ensures later { O.faults out.old ≤ O.faults out.new }
{
    let line = trace_line(alloc, number, outputs, bits)?;
    out.put(line.as_slice())
}
