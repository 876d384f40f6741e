//! A table of what drives each net, filled drive by drive.

ghost use Rattle.std.specs.Prelude.{◌≡◌, ◌≤◌, IfErr, IfOk, IsTrue, Some, length, map, replicate};
ghost use Rattle.std.specs.List.{list_all};
ghost use Rattle.design_core.specs.declared.drives.Driven.TheVariants.{Never};
ghost use Rattle.design_core.specs.declared.element.Driver.TheVariants.{Input};
ghost use Rattle.design_core.specs.Design.{net_count};
ghost use Rattle.design_core.specs.Most.{most_places, most_width};
ghost use Rattle.design_core.specs.Limits.{IsCountable};
ghost use Rattle.design_core.specs.Drives.{AreTold, TellsFault, drive_of, drives_of, element_drives, elements_drives, input_drives, memories_drives, memory_drives, once_more, port_drives, put, put_all, the_driver};
ghost use Rattle.design_core.specs.Reads.{is_never};
ghost use Rattle.design_core.specs.Faults.{AreThere, are_there, element_outputs, is_there, memory_good, ports_there};

use crate::{Driver, Element, Memory, Parts, Port, ReadPort};
use emu_io::NoMemory;
use id_arena::{ElemId, Key, MemId, NetId};
use std::alloc::{AllocError, AllocFailed, Global};

/// How often a net is driven, and by what.
#[derive(Clone, Copy, Debug, Drop, PartialEq, Eq)]
pub(crate) enum Driven {
    Never,
    Once(Driver),
    Twice,
}

/// Why a table tells no drivers.
#[derive(Clone, Copy, Debug, PartialEq, Eq)]
pub(crate) enum TableFault {
    /// More than one thing drives this net, and at most one each lower net.
    Twice(NetId),
    NoMemory,
}

impl From<AllocError> for TableFault {
    ghost use Rattle.std.specs.Prelude.{◌≡◌};
    ghost use Rattle.design_core.specs.declared.drives.TableFault.{TableFault};

    ghost from_gives = { λ _ fault. fault ≡ TableFault.NoMemory };

    fn from(_: AllocError) -> TableFault {
        TableFault::NoMemory
    }
}

impl From<AllocFailed<Driver>> for TableFault {
    ghost use Rattle.std.specs.Prelude.{◌≡◌};
    ghost use Rattle.design_core.specs.declared.drives.TableFault.{TableFault};

    ghost from_gives = { λ _ fault. fault ≡ TableFault.NoMemory };

    fn from(_: AllocFailed<Driver>) -> TableFault {
        TableFault::NoMemory
    }
}

impl Driven {
    /// Whether nothing drives the net.
    pub(crate) fn is_never(self) -> bool
        ensures { result ≡ is_never self }
    {
        match self {
            Driven::Never => true,
            Driven::Once(_) | Driven::Twice => false,
        }
    }

    /// The driver; None where there are two. A net that nothing drives is the constant 0.
    fn driver(self) -> Option<Driver>
        ensures { result ≡ the_driver self }
    {
        match self {
            Driven::Never => Some(Driver::Constant(false)),
            Driven::Once(driver) => Some(driver),
            Driven::Twice => None,
        }
    }

    /// What is known of the net after one more drive.
    fn once_more(self, driver: Driver) -> Driven
        ensures { result ≡ once_more self driver }
    {
        match self {
            Driven::Never => Driven::Once(driver),
            Driven::Once(_) | Driven::Twice => Driven::Twice,
        }
    }
}

/// Counts one drive of a net.
fn drive(table: &mut [Driven], net: NetId, driver: Driver)
    requires { IsTrue (is_there (length table.old) net) }
    ensures { table.new ≡ put table.old (drive_of driver net) }
{
    let place = net.place() as usize;
    table[place] = table[place].once_more(driver);
}

/// Counts the drives of an input port.
fn drive_inputs(table: &mut [Driven], nets: &[NetId])
    requires { IsTrue (are_there (length table.old) nets.now) }
    ensures { table.new ≡ put_all (map (drive_of Input) nets.now) table.old }
{
    'nets: for net in nets {
        drive(table, *net, Driver::Input);
    }
}

/// Counts the drives of all input ports.
fn drive_ports(table: &mut [Driven], ports: &[Port])
    requires { IsTrue (ports_there (length table.old) ports.now) }
    ensures { table.new ≡ put_all (input_drives ports.now) table.old }
{
    'ports: for port in ports {
        drive_inputs(table, port.nets.as_slice());
    }
}

/// Counts what an element drives; a memory's nets are counted by its ports.
fn drive_element(table: &mut [Driven], id: ElemId, element: &Element)
    requires { IsTrue (are_there (length table.old) (element_outputs element.now)) }
    ensures { table.new ≡ put_all (element_drives id.place element.now) table.old }
{
    match element {
        Element::Gate { output, .. } => drive(table, *output, Driver::Elem(id)),
        Element::Flop(flop) => drive(table, flop.q, Driver::Elem(id)),
        Element::Latch(latch) => drive(table, latch.q, Driver::Elem(id)),
        Element::Memory(_) => {}
    }
}

/// Counts what all elements drive.
fn drive_elements(table: &mut [Driven], elements: &[Element])
    requires few { length elements.now ≤ most_places }
    requires there { IsTrue (list_all (λ e. are_there (length table.old) (element_outputs e)) elements.now) }
    ensures { table.new ≡ put_all (elements_drives 0 elements.now) table.old }
{
    'elements: for (place, element) in elements.iter().enumerate() {
        drive_element(table, ElemId::of(place as u32), element);
    }
}

/// Counts the bits of a memory's read port.
fn drive_bits(table: &mut [Driven], mem: MemId, port: u32, bits: &[NetId])
    requires few { length bits.now ≤ most_width }
    requires there { IsTrue (are_there (length table.old) bits.now) }
    ensures { table.new ≡ put_all (port_drives mem.place port bits.now) table.old }
{
    'bits: for (bit, net) in bits.iter().enumerate() {
        drive(table, *net, Driver::Read(mem, port, bit as u32));
    }
}

/// Counts the bits of all read ports of a memory.
fn drive_memory(table: &mut [Driven], mem: MemId, memory: &Memory)
    requires { IsTrue (memory_good (length table.old) (Some memory.now)) }
    ensures { table.new ≡ put_all (memory_drives mem.place memory.now) table.old }
{
    let reads = memory.reads.as_slice();
    'ports: for (port, read) in reads.iter().enumerate() {
        drive_bits(table, mem, port as u32, read.bits.as_slice());
    }
}

/// Counts the bits of all memories.
fn drive_memories(table: &mut [Driven], memories: &[Memory])
    requires few { length memories.now ≤ most_places }
    requires good { IsTrue (list_all (λ memory. memory_good (length table.old) (Some memory)) memories.now) }
    ensures { table.new ≡ put_all (memories_drives memories.now) table.old }
{
    'memories: for (place, memory) in memories.iter().enumerate() {
        drive_memory(table, MemId::of(place as u32), memory);
    }
}

/// Counts everything that drives a net.
#[tactic(auto, using(crate::proofs::Filling::append_rules))]
fn drive_all(table: &mut [Driven], parts: &Parts)
    requires size { length table.old ≡ net_count parts.now }
    requires there { AreThere parts.now }
    requires few { IsCountable parts.now }
    ensures { table.new ≡ put_all (drives_of parts.now) table.old }
{
    drive(table, NetId::of(0), Driver::Constant(false));
    drive(table, NetId::of(1), Driver::Constant(true));
    drive_ports(table, parts.inputs.as_slice());
    drive_elements(table, parts.elements.as_slice());
    drive_memories(table, parts.memories.as_slice());
}

/// The table of what drives each net.
pub(crate) fn driven_nets(alloc: Global, parts: &Parts) -> Result<Vec<Driven>, NoMemory>
    requires there { AreThere parts.now }
    requires few { IsCountable parts.now }
    ensures { IfOk result (λ table. table.items
        ≡ put_all (drives_of parts.now) (replicate (net_count parts.now) Never)) }
{
    let mut table = vec![in alloc; Driven::Never; parts.net_names.len() as usize]?;
    drive_all(&mut table, parts);
    Ok(table)
}

/// The driver of each net.
pub(crate) fn drivers_of(alloc: Global, table: &[Driven]) -> Result<Vec<Driver>, TableFault>
    requires { length table.now ≤ most_places }
    ensures told { IfOk result (λ drivers. AreTold table.now drivers.items) }
    ensures fault { IfErr result (TellsFault table.now) }
{
    let mut drivers = Vec::with_capacity(alloc, table.len())?;
    'nets: for (place, driven) in table.iter().enumerate() {
        let Some(driver) = driven.driver() else {
            return Err(TableFault::Twice(NetId::of(place as u32)));
        };
        drivers.push(driver)?;
    }
    Ok(drivers)
}
