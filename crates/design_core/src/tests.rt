//! A small design by hand, its readers' answers, and each refusal once.

ghost use Rattle.std.specs.Prelude.{◌≡◌, IsTrue};
ghost use Rattle.design_core.specs.Limits.{IsCountable};

use crate::{
    Design, DesignFault, Driver, Edge, Element, Flop, Level, LimitKind, Memory, NetName, Op, Parts,
    Port, ReadPort, Scope, WritePort,
};
use emu_io::{List, NoMemory, Text};
use id_arena::{ElemId, Key, MemId, NetId};
use std::alloc::Global;
use std::test::Fail;

fn net(place: u32) -> NetId
    ensures { result ≡ record { place = place } }
{
    NetId::of(place)
}

fn nets(alloc: Global, places: &[u32]) -> Result<List<NetId>, NoMemory> {
    let mut list = List::new(alloc);
    for place in places {
        list.push(net(*place))?;
    }
    Ok(list)
}

fn port(alloc: Global, name: &[u8], places: &[u32]) -> Result<List<Port>, NoMemory> {
    let mut ports = List::new(alloc);
    ports.push(Port {
        name: Text::from_bytes(alloc, name)?,
        nets: nets(alloc, places)?,
    })?;
    Ok(ports)
}

fn gate(alloc: Global, op: Op, inputs: &[u32], output: u32) -> Result<Element, NoMemory> {
    Ok(Element::Gate {
        op,
        inputs: nets(alloc, inputs)?,
        output: net(output),
    })
}

/// A write port that stores net 6 at the address of net 2.
fn writes(alloc: Global) -> Result<List<WritePort>, NoMemory> {
    let mut writes = List::new(alloc);
    writes.push(WritePort {
        clock: net(3),
        rise: true,
        enable: Level {
            net: net(1),
            high: true,
        },
        address: nets(alloc, &[2])?,
        feed: nets(alloc, &[6])?,
    })?;
    Ok(writes)
}

/// A read port that shows in net 7 the word at the address of net 6.
fn reads(alloc: Global) -> Result<List<ReadPort>, NoMemory> {
    let mut reads = List::new(alloc);
    reads.push(ReadPort {
        clock: None,
        address: nets(alloc, &[6])?,
        bits: nets(alloc, &[7])?,
    })?;
    Ok(reads)
}

/// A memory of two words of one bit.
fn memory(alloc: Global) -> Result<Memory, NoMemory> {
    Ok(Memory {
        address_bits: 1,
        width: 1,
        writes: writes(alloc)?,
        reads: reads(alloc)?,
    })
}

/// The names of nine nets; one of the top's is a bit of a vector, and two stand in the instance.
fn net_names(alloc: Global) -> Result<List<NetName>, NoMemory> {
    let mut names = List::new(alloc);
    for (name, scope, index) in [
        ("zero", 0u32, None),
        ("one", 0, None),
        ("a", 0, Some(2u32)),
        ("a", 0, Some(3)),
        ("w", 0, None),
        ("n", 0, None),
        ("q/~", 1, Some(6)),
        ("y", 0, None),
        ("z", 1, None),
    ] {
        let name = Text::from_bytes(alloc, name.as_bytes())?;
        names.push(NetName { scope, name, index })?;
    }
    Ok(names)
}

/// The top, an instance of a strange name in it, and another in that.
fn scopes(alloc: Global) -> Result<List<Scope>, NoMemory> {
    let mut scopes = List::new(alloc);
    for (parent, name) in [(None, "t"), (Some(0u32), "u~/1"), (Some(1), "v")] {
        let name = Text::from_bytes(alloc, name.as_bytes())?;
        scopes.push(Scope { parent, name })?;
    }
    Ok(scopes)
}

/// A gate, a flip-flop and a memory.
fn elements(alloc: Global) -> Result<List<Element>, NoMemory> {
    let mut elements = List::new(alloc);
    elements.push(gate(alloc, Op::Not, &[2], 5)?)?;
    elements.push(Element::Flop(Flop {
        clock: net(3),
        rise: true,
        feed: net(5),
        clear: None,
        preset: None,
        q: net(6),
    }))?;
    elements.push(Element::Memory(MemId::of(0)))?;
    Ok(elements)
}

/// The scopes of the three elements.
fn paths(alloc: Global) -> Result<List<u32>, NoMemory> {
    let mut paths = List::new(alloc);
    for scope in [0, 1, 2] {
        paths.push(scope)?;
    }
    Ok(paths)
}

/// The one memory.
fn memories(alloc: Global) -> Result<List<Memory>, NoMemory> {
    let mut memories = List::new(alloc);
    memories.push(memory(alloc)?)?;
    Ok(memories)
}

/// The top with inputs 2 and 3 and output 7, and in it an instance of a strange name with a flip-flop
/// and a memory. Nets 4 and 8 are neither driven nor read.
fn parts(alloc: Global) -> Result<Parts, NoMemory> {
    Ok(Parts {
        net_names: net_names(alloc)?,
        scopes: scopes(alloc)?,
        elements: elements(alloc)?,
        paths: paths(alloc)?,
        memories: memories(alloc)?,
        inputs: port(alloc, b"a", &[2, 3])?,
        outputs: port(alloc, b"y", &[7])?,
    })
}

/// Whether there is one output port, and places are numbers of 32 bits.
fn is_countable(parts: &Parts) -> bool
    ensures { IsTrue result → IsCountable parts.now }
{
    let most = 4_294_967_294u64;
    let [port] = parts.outputs.as_slice() else {
        return false;
    };
    parts.net_names.len() <= most
        && parts.scopes.len() <= most
        && parts.elements.len() <= most
        && parts.memories.len() <= most
        && parts.inputs.len() <= most
        && port.nets.len() <= most
}

/// The kind of a fault, and the number in it.
fn kind(fault: &DesignFault) -> (&'static str, u32) {
    match fault {
        DesignFault::BadNet { elem } => ("bad", elem.place()),
        DesignFault::Limit { which } => match which {
            LimitKind::Inputs => ("inputs", 0),
            _ => ("limit", 0),
        },
        DesignFault::TwoDrivers { net, .. } => ("twice", net.place()),
        DesignFault::Undriven { net, .. } => ("undriven", net.place()),
        DesignFault::NoMemory => ("memory", 0),
    }
}

/// The name in a fault.
fn name_in(fault: &DesignFault) -> &[u8] {
    match fault {
        DesignFault::TwoDrivers { name, .. } | DesignFault::Undriven { name, .. } => name.bytes(),
        _ => b"",
    }
}

/// Whether building gives just this fault.
fn refuses(alloc: Global, parts: Parts, word: &str, place: u32, name: &str) -> bool {
    if !is_countable(&parts) {
        return false;
    }
    match Design::build(alloc, parts) {
        Ok(_design) => false,
        Err(fault) => {
            let told = kind(&fault);
            told.0 == word && told.1 == place && name_in(&fault) == name.as_bytes()
        }
    }
}

/// What is changed in those parts.
#[derive(Clone, Copy, Drop)]
enum Change {
    Nothing,
    /// One gate more, in the top: its operation, inputs and output.
    Gate(Op, &'static [u32], u32),
    /// One `and` more, of net 2 so many times, to an output.
    Wide(u32, u32),
    /// A second element for the memory.
    Element,
    Path,
    Memory,
    /// A read port more, with the address of net 2: the nets of its clock and of its bit.
    Read(u32, u32),
    /// The net of the output.
    Output(u32),
}

/// The gate of so many inputs.
fn wide_gate(alloc: Global, inputs: u32, output: u32) -> Result<Element, NoMemory> {
    let mut list = List::new(alloc);
    for _ in 0..inputs {
        list.push(net(2))?;
    }
    Ok(Element::Gate {
        op: Op::And,
        inputs: list,
        output: net(output),
    })
}

/// The parts with one element more, in the top.
fn with_element(alloc: Global, element: Element) -> Result<Parts, NoMemory> {
    let mut more = parts(alloc)?;
    more.elements.push(element)?;
    more.paths.push(0)?;
    Ok(more)
}

/// The parts with one path more.
fn with_path(alloc: Global) -> Result<Parts, NoMemory> {
    let mut more = parts(alloc)?;
    more.paths.push(0)?;
    Ok(more)
}

/// The parts with one memory more.
fn with_memory(alloc: Global) -> Result<Parts, NoMemory> {
    let mut more = parts(alloc)?;
    more.memories.push(memory(alloc)?)?;
    Ok(more)
}

/// The parts with one read port more, which takes a word at the falling edge of its clock.
fn with_read(alloc: Global, clock: u32, bit: u32) -> Result<Parts, NoMemory> {
    let mut wider = memory(alloc)?;
    wider.reads.push(ReadPort {
        clock: Some(Edge {
            net: net(clock),
            rise: false,
        }),
        address: nets(alloc, &[2])?,
        bits: nets(alloc, &[bit])?,
    })?;
    let mut memories = List::new(alloc);
    memories.push(wider)?;
    let mut more = parts(alloc)?;
    more.memories = memories;
    Ok(more)
}

/// The parts with another output.
fn with_output(alloc: Global, output: u32) -> Result<Parts, NoMemory> {
    let mut other = parts(alloc)?;
    other.outputs = port(alloc, b"y", &[output])?;
    Ok(other)
}

fn changed(alloc: Global, change: &Change) -> Result<Parts, NoMemory> {
    match change {
        Change::Nothing => parts(alloc),
        Change::Gate(op, inputs, output) => with_element(alloc, gate(alloc, *op, inputs, *output)?),
        Change::Wide(inputs, output) => with_element(alloc, wide_gate(alloc, *inputs, *output)?),
        Change::Element => with_element(alloc, Element::Memory(MemId::of(0))),
        Change::Path => with_path(alloc),
        Change::Memory => with_memory(alloc),
        Change::Read(clock, bit) => with_read(alloc, *clock, *bit),
        Change::Output(output) => with_output(alloc, *output),
    }
}

/// Changes, and the fault that each must get: its kind, its number and its name.
const REFUSED: [(Change, &str, u32, &str); 18] = [
    // nets that are not there, and inputs or a table that the operation can't have
    (Change::Gate(Op::And, &[2, 9], 4), "bad", 3, ""),
    (Change::Gate(Op::And, &[2, 2], 9), "bad", 3, ""),
    (Change::Gate(Op::And, &[], 4), "bad", 3, ""),
    (Change::Gate(Op::Not, &[2, 3], 4), "bad", 3, ""),
    (Change::Gate(Op::Table(16), &[2, 3], 4), "bad", 3, ""),
    (Change::Element, "bad", 3, ""),
    (Change::Read(9, 4), "bad", 2, ""),
    // the rest
    (Change::Path, "bad", 3, ""),
    (Change::Memory, "bad", 3, ""),
    (Change::Output(9), "bad", 3, ""),
    // a limit comes before two drivers, and those before a net without one
    (Change::Wide(65, 6), "inputs", 0, ""),
    (Change::Gate(Op::Buf, &[8], 6), "twice", 6, "u~0~11/q/~[6]"),
    (Change::Gate(Op::Buf, &[2], 1), "twice", 1, "1'b1"),
    (Change::Gate(Op::Buf, &[2], 2), "twice", 2, "a[2]"),
    (Change::Gate(Op::Buf, &[8], 4), "undriven", 8, "u~0~11/z"),
    (Change::Output(4), "undriven", 4, "w"),
    (Change::Read(3, 6), "twice", 6, "u~0~11/q/~[6]"),
    (Change::Read(4, 8), "undriven", 4, "w"),
];

#[test]
fn the_first_fault_is_told(rt: HostRuntime) -> Result<(), Fail> {
    let alloc = rt.alloc();
    for (change, word, place, name) in &REFUSED {
        let parts = changed(alloc, change)?;
        assert!(rt; refuses(alloc, parts, word, *place, name), "{word} {place}");
    }
    Ok(())
}

/// Whether building gives a design.
fn stands(alloc: Global, parts: Parts) -> bool {
    is_countable(&parts) && Design::build(alloc, parts).is_ok()
}

/// Changes that leave the parts sound.
const TAKEN: [Change; 5] = [
    Change::Nothing,
    Change::Wide(64, 4),
    Change::Gate(Op::Table(15), &[2, 3], 8),
    Change::Output(0),
    Change::Read(3, 4),
];

#[test]
fn sound_parts_are_built(rt: HostRuntime) -> Result<(), Fail> {
    let alloc = rt.alloc();
    for change in &TAKEN {
        let parts = changed(alloc, change)?;
        assert!(rt; stands(alloc, parts));
    }
    Ok(())
}

/// Whether a net has this driver and this name.
fn net_is(
    alloc: Global,
    design: &Design,
    place: u32,
    driver: Driver,
    name: &str,
) -> Result<bool, NoMemory> {
    if place >= design.nets() {
        return Ok(false);
    }
    let told = design.net_name(alloc, net(place))?;
    Ok(design.driver(net(place)) == driver && told.bytes() == name.as_bytes())
}

/// Whether an element has this weight and this path.
fn elem_is(
    alloc: Global,
    design: &Design,
    place: u32,
    weight: u64,
    path: &str,
) -> Result<bool, NoMemory> {
    let id = ElemId::of(place);
    if place >= design.elems() {
        return Ok(false);
    }
    let told = design.path(alloc, id)?;
    Ok(design.weight(id) == weight && told.bytes() == path.as_bytes())
}

/// Whether the one memory and the flip-flop are where they should be.
fn items_stand(design: &Design) -> bool {
    if design.mems() != 1 || design.elems() != 3 {
        return false;
    }
    let Element::Flop(flop) = design.elem(ElemId::of(1)) else {
        return false;
    };
    flop.q == net(6)
        && design.elem_of(MemId::of(0)) == ElemId::of(2)
        && design.mem(MemId::of(0)).width == 1
}

/// The drivers and names of the nets.
const NETS: [(Driver, &str); 9] = [
    (Driver::Constant(false), "1'b0"),
    (Driver::Constant(true), "1'b1"),
    (Driver::Input, "a[2]"),
    (Driver::Input, "a[3]"),
    (Driver::Constant(false), "w"),
    (Driver::Elem(ElemId { place: 0 }), "n"),
    (Driver::Elem(ElemId { place: 1 }), "u~0~11/q/~[6]"),
    (Driver::Read(MemId { place: 0 }, 0, 0), "y"),
    (Driver::Constant(false), "u~0~11/z"),
];

/// The answers of the readers of a design of those parts.
fn readers_answer(alloc: Global, design: &Design) -> Result<bool, NoMemory> {
    let mut right = design.nets() == 9 && items_stand(design);
    for (place, (driver, name)) in NETS.iter().enumerate() {
        right = right && net_is(alloc, design, place as u32, *driver, name)?;
    }
    for (place, weight, path) in [(0u32, 1u64, ""), (1, 8, "u~0~11"), (2, 2, "u~0~11/v")] {
        right = right && elem_is(alloc, design, place, weight, path)?;
    }
    Ok(right && design.inputs().len() == 1 && design.outputs().len() == 1)
}

#[test]
fn readers_give_the_parts(rt: HostRuntime) -> Result<(), Fail> {
    let alloc = rt.alloc();
    let sound = parts(alloc)?;
    assert!(rt; is_countable(&sound));
    match Design::build(alloc, sound) {
        Ok(design) => assert!(rt; readers_answer(alloc, &design)?),
        Err(_fault) => panic!(rt; "the parts are sound"),
    }
    Ok(())
}

/// Whether the bit of the clocked port drives net 4, and the memory weighs what it did.
fn clocked_bit_drives(alloc: Global, design: &Design) -> Result<bool, NoMemory> {
    let driver = Driver::Read(MemId::of(0), 1, 0);
    Ok(net_is(alloc, design, 4, driver, "w")? && elem_is(alloc, design, 2, 2, "u~0~11/v")?)
}

#[test]
fn a_clocked_port_drives_its_bits(rt: HostRuntime) -> Result<(), Fail> {
    let alloc = rt.alloc();
    let sound = with_read(alloc, 3, 4)?;
    assert!(rt; is_countable(&sound));
    match Design::build(alloc, sound) {
        Ok(design) => assert!(rt; clocked_bit_drives(alloc, &design)?),
        Err(_fault) => panic!(rt; "the parts are sound"),
    }
    Ok(())
}
