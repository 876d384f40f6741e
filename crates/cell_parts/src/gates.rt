//! The elements of combinational cells and of clock gates.

ghost use Rattle.std.specs.Prelude.{[], ◌∷◌, ◌++◌, ◌+◌, ◌≡◌, ◌≤◌, IfOk, OnOk, map};
ghost use Rattle.cell_parts.specs.CellGates.{clock_elements, clock_inner, clock_latch, clock_output, comb_elements, table_gate};
ghost use Rattle.cell_parts.specs.Wires.{pin_at};

use crate::wires::Wires;
use cell_table::CombOut;
use design_core::{Element, Latch, Level, Op};
use emu_io::{List, NoMemory, Text};
use id_arena::{Key, NetId};
use std::alloc::Global;

/// The nets of some pins, each of which has one.
fn pin_nets(alloc: Global, wires: &Wires<'_>, pins: &[Text]) -> Result<List<NetId>, NoMemory>
    ensures { IfOk result (λ nets. nets ≡ map (pin_at wires.now) pins.now) }
{
    let mut nets = List::new(alloc);
    'pins: for pin in pins {
        nets.push(wires.pin_at(pin.bytes()))?;
    }
    Ok(nets)
}

/// A table over pins, with this output.
pub(crate) fn table_gate(
    alloc: Global,
    wires: &Wires<'_>,
    pins: &[Text],
    table: u64,
    output: NetId,
) -> Result<Element, NoMemory>
    ensures { IfOk result (λ gate. gate ≡ table_gate wires.now pins.now table output) }
{
    let inputs = pin_nets(alloc, wires, pins)?;
    Ok(Element::Gate {
        op: Op::Table(table),
        inputs,
        output,
    })
}

/// A combinational cell: one table gate for each output, over all inputs.
pub(crate) fn push_comb(
    alloc: Global,
    out: &mut List<Element>,
    wires: &Wires<'_>,
    inputs: &[Text],
    outputs: &[CombOut],
) -> Result<(), NoMemory>
    ensures { OnOk result (out.new ≡ out.old ++ comb_elements wires.now inputs.now outputs.now) }
{
    'outputs: for output in outputs {
        let net = wires.pin_at(output.pin.bytes());
        out.push(table_gate(alloc, wires, inputs, output.table, net)?)?;
    }
    Ok(())
}

/// A gate with two inputs.
pub(crate) fn two_input_gate(
    alloc: Global,
    op: Op,
    first: NetId,
    second: NetId,
    output: NetId,
) -> Result<Element, NoMemory>
    ensures { IfOk result (λ gate. gate ≡ Element.Gate op (first ∷ second ∷ []) output) }
{
    let mut inputs = List::new(alloc);
    inputs.push(first)?;
    inputs.push(second)?;
    Ok(Element::Gate { op, inputs, output })
}

/// A clock gate: where it has a test pin, an `or` of enable and test; a latch that is open while the clock
/// is 0; an `and` of the latch and the clock. Its inner nets have the numbers from `inner` on.
pub(crate) fn push_clock_gate(
    alloc: Global,
    out: &mut List<Element>,
    wires: &Wires<'_>,
    inner: u32,
    clock: &Text,
    enable: &Text,
    test: &Option<Text>,
    output: &Text,
) -> Result<(), NoMemory>
    requires { inner + clock_inner test.now ≤ 4294967296 }
    ensures { OnOk result (out.new ≡ out.old ++ clock_elements wires.now inner clock.now enable.now test.now output.now) }
{
    let enable = wires.pin_at(enable.bytes());
    match test {
        None => push_latched(alloc, out, wires, clock, enable, NetId::of(inner), output),
        Some(test) => {
            let test = wires.pin_at(test.bytes());
            let either = NetId::of(inner);
            out.push(two_input_gate(alloc, Op::Or, enable, test, either)?)?;
            let q = NetId::of(inner + 1);
            push_latched(alloc, out, wires, clock, either, q, output)
        }
    }
}

/// The latch of a clock gate and the `and` behind it.
fn push_latched(
    alloc: Global,
    out: &mut List<Element>,
    wires: &Wires<'_>,
    clock: &Text,
    feed: NetId,
    q: NetId,
    output: &Text,
) -> Result<(), NoMemory>
    ensures { OnOk result (out.new ≡ out.old ++ clock_latch wires.now clock.now feed q ∷ clock_output wires.now clock.now q output.now ∷ []) }
{
    let clock = wires.pin_at(clock.bytes());
    let output = wires.pin_at(output.bytes());
    out.push(Element::Latch(Latch {
        gate: Level {
            net: clock,
            high: false,
        },
        feed,
        clear: None,
        preset: None,
        q,
    }))?;
    out.push(two_input_gate(alloc, Op::And, q, clock, output)?)
}
