//! The nets that an element reads, and the element that drives a net.
ghost use Rattle.std.specs.Prelude.{◌≡◌, ◌++◌, ◌<◌, IsTrue, IfSome, OnOk, flat_map, length, map, option_map, option_to_list};
ghost use Rattle.design_core.specs.Design.{clock_nets, element_fits, memory_reads, net_count, read_reads, reset_nets, write_reads};
ghost use Rattle.gain_place.specs.Homes.{pins, source};

use design_core::{Design, Driver, Edge, Element, Level, Memory, ReadPort, WritePort};
use emu_io::NoMemory;
use history_law::drivers::{driver_is_element, driver_is_read_bit};
use id_arena::{ElemId, Key, NetId};

/// The element that drives a net, for a bit of a read port the memory.
#[tactic(auto, using(crate::proofs::Sources::memory_source))]
pub(crate) fn source(design: &Design, net: NetId) -> Option<ElemId>
    requires { net.place < net_count design.now }
    ensures named { option_map (λ e. e.place) result ≡ source design.now net.place }
    ensures there { IfSome result (λ e. e.place < length design.now.elements) }
{
    design.stands();
    driver_is_element();
    driver_is_read_bit();
    match design.driver(net) {
        Driver::Constant(_) | Driver::Input => None,
        Driver::Elem(elem) => Some(elem),
        Driver::Read(m, _, _) => Some(design.elem_of(m)),
    }
}

/// Adds the nets at the pins that an element reads, for a memory those of all its ports.
pub(crate) fn add_pins(
    row: &mut Vec<u32>,
    design: &Design,
    element: &Element,
) -> Result<(), NoMemory>
    requires { IsTrue (element_fits design.now element.now) }
    ensures { OnOk result (row.new.items ≡ row.old.items ++ map (λ n. n.place) (pins design.now element.now)) }
{
    match element {
        Element::Gate { inputs, .. } => {
            add_nets(row, inputs.as_slice())?;
            Ok(())
        }
        Element::Flop(flop) => {
            row.push(flop.clock.place())?;
            row.push(flop.feed.place())?;
            add_resets(row, flop.clear, flop.preset)?;
            Ok(())
        }
        Element::Latch(latch) => {
            row.push(latch.gate.net.place())?;
            row.push(latch.feed.place())?;
            add_resets(row, latch.clear, latch.preset)?;
            Ok(())
        }
        Element::Memory(m) => {
            add_memory(row, design.mem(*m))?;
            Ok(())
        }
    }
}

// Adds some nets.
fn add_nets(row: &mut Vec<u32>, nets: &[NetId]) -> Result<(), NoMemory>
    ensures { OnOk result (row.new.items ≡ row.old.items ++ map (λ n. n.place) nets.now) }
{
    'nets: for net in nets {
        row.push(net.place())?;
    }
    Ok(())
}

// Adds the nets of resets that are there.
fn add_resets(
    row: &mut Vec<u32>,
    clear: Option<Level>,
    preset: Option<Level>,
) -> Result<(), NoMemory>
    ensures { OnOk result (row.new.items ≡ row.old.items ++ map (λ n. n.place) (reset_nets clear preset)) }
{
    add_reset(row, clear)?;
    add_reset(row, preset)?;
    Ok(())
}

fn add_reset(row: &mut Vec<u32>, reset: Option<Level>) -> Result<(), NoMemory>
    ensures { OnOk result (row.new.items ≡ row.old.items ++ map (λ l. l.net.place) (option_to_list reset)) }
{
    match reset {
        None => Ok(()),
        Some(level) => {
            row.push(level.net.place())?;
            Ok(())
        }
    }
}

// Adds the nets that the ports of a memory read.
#[tactic(auto, using(crate::proofs::Added::joined))]
fn add_memory(row: &mut Vec<u32>, memory: &Memory) -> Result<(), NoMemory>
    ensures { OnOk result (row.new.items ≡ row.old.items ++ map (λ n. n.place) (memory_reads memory.now)) }
{
    add_writes(row, memory.writes.as_slice())?;
    add_reads(row, memory.reads.as_slice())?;
    Ok(())
}

// Adds the nets that some write ports read.
#[tactic(auto, using(crate::proofs::Added::joined))]
fn add_writes(row: &mut Vec<u32>, ports: &[WritePort]) -> Result<(), NoMemory>
    ensures { OnOk result (row.new.items ≡ row.old.items ++ map (λ n. n.place) (flat_map write_reads ports.now)) }
{
    'ports: for port in ports {
        add_write(row, port)?;
    }
    Ok(())
}

#[tactic(auto, using(crate::proofs::Added::joined))]
fn add_write(row: &mut Vec<u32>, port: &WritePort) -> Result<(), NoMemory>
    ensures { OnOk result (row.new.items ≡ row.old.items ++ map (λ n. n.place) (write_reads port.now)) }
{
    row.push(port.clock.place())?;
    row.push(port.enable.net.place())?;
    add_nets(row, port.address.as_slice())?;
    add_nets(row, port.feed.as_slice())?;
    Ok(())
}

// Adds the nets that some read ports read.
#[tactic(auto, using(crate::proofs::Added::joined))]
fn add_reads(row: &mut Vec<u32>, ports: &[ReadPort]) -> Result<(), NoMemory>
    ensures { OnOk result (row.new.items ≡ row.old.items ++ map (λ n. n.place) (flat_map read_reads ports.now)) }
{
    'ports: for port in ports {
        add_read(row, port)?;
    }
    Ok(())
}

#[tactic(auto, using(crate::proofs::Added::joined))]
fn add_read(row: &mut Vec<u32>, port: &ReadPort) -> Result<(), NoMemory>
    ensures { OnOk result (row.new.items ≡ row.old.items ++ map (λ n. n.place) (read_reads port.now)) }
{
    add_clock(row, port.clock)?;
    add_nets(row, port.address.as_slice())?;
    Ok(())
}

fn add_clock(row: &mut Vec<u32>, clock: Option<Edge>) -> Result<(), NoMemory>
    ensures { OnOk result (row.new.items ≡ row.old.items ++ map (λ n. n.place) (clock_nets clock)) }
{
    match clock {
        None => Ok(()),
        Some(edge) => {
            row.push(edge.net.place())?;
            Ok(())
        }
    }
}
