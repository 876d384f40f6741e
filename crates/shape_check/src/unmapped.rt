//! A9: the least input bit, element or output bit that is not mapped.

ghost use Rattle.std.specs.Prelude.{◌≡◌, ◌<◌, ◌≤◌, ◌+◌, ◌==◌, ◌&&◌, ◌∷◌, [], IfOk, Some, true, get_or, length, slice_get};
ghost use Rattle.std.specs.List.{list_all};
ghost use Rattle.std.specs.Option.{option_map_or};
ghost use Rattle.design_core.specs.Design.{net_count, port_bits};
ghost use Rattle.design_core.specs.declared.element.Element.TheVariants.{Memory};
ghost use Rattle.emu_machine.specs.Acceptance.{FailsA9, bits_kept, is_element_mapped, is_register_kept, times_named};
ghost use Rattle.use_check.specs.Least.{IsLeast, IsLeastUnder};
ghost use Rattle.shape_check.specs.Mapped.{AreKept, AreNamed, AreNets, AreOutputs, ArePorts, IsFirstOutput, NoOutputBefore, clocked, differs, is_lost};

use crate::ShapeCase;
use crate::actions::same_subjects;
use crate::mapped::{kept_nets, named_memories};
use design_core::{Element, ReadPort};
use emu_io::{List, NoMemory};
use emu_machine::{Place, Subject};
use id_arena::{ElemId, Key, MemId, NetId};
use std::alloc::Global;

/// A9: each input bit, each output of a flip-flop or latch and each bit of a read port with a clock has a kept
/// register, each memory stands on one chip once, and each output bit has its net in the map and none is
/// more. The least input bit is named that has none, else the least element, else the least output bit.
/// Takes a step for each register, net, element, port bit and entry, and a byte for each net and memory.
pub fn find_a9(alloc: Global, case: &ShapeCase) -> Result<Option<Place>, NoMemory>
    ensures { IfOk result (λ found. IsLeast (FailsA9 case.now) found) }
{
    let kept = kept_nets(alloc, case)?;
    let named = named_memories(alloc, case)?;
    Ok(find_unmapped(case, &kept, &named))
}

/// The same, with the tables of what is kept and named.
fn find_unmapped(case: &ShapeCase, kept: &List<bool>, named: &List<u8>) -> Option<Place>
    requires kept { AreKept case.now kept.now }
    requires named { AreNamed case.now named.now }
    ensures { IsLeast (FailsA9 case.now) result }
{
    if let Some(at) = find_input(case, kept) {
        return Some(at);
    }
    if let Some(at) = find_element(case, kept, named) {
        return Some(at);
    }
    find_output(case)
}

/// The least input bit that has no kept register.
fn find_input(case: &ShapeCase, kept: &List<bool>) -> Option<Place>
    requires { AreKept case.now kept.now }
    ensures { IsLeastUnder (FailsA9 case.now) (0 ∷ []) result }
{
    case.stands();
    'each: for n in 0..case.design().nets() {
        let net = NetId::of(n);
        if is_lost(case, kept, net) {
            return Some(Place::Input { net });
        }
    }
    None
}

/// Whether a net is an input bit and has no kept register.
fn is_lost(case: &ShapeCase, kept: &List<bool>, net: NetId) -> bool
    requires kept { AreKept case.now kept.now }
    requires there { net.place < net_count case.now.design }
    ensures { result ≡ is_lost case.now net }
{
    case.is_bit(net) && !is_kept(case, kept, net)
}

/// Whether a kept register stands for a net.
fn is_kept(case: &ShapeCase, kept: &List<bool>, net: NetId) -> bool
    requires kept { AreKept case.now kept.now }
    requires there { net.place < net_count case.now.design }
    ensures { result ≡ is_register_kept case.now.results net }
{
    *kept.get(u64::from(net.place))
}

/// The least element that is not mapped.
fn find_element(case: &ShapeCase, kept: &List<bool>, named: &List<u8>) -> Option<Place>
    requires kept { AreKept case.now kept.now }
    requires named { AreNamed case.now named.now }
    ensures { IsLeastUnder (FailsA9 case.now) (1 ∷ []) result }
{
    let design = case.design();
    'each: for k in 0..design.elems() {
        let elem = ElemId::of(k);
        if !is_mapped(case, kept, named, elem, design.elem(elem)) {
            return Some(Place::Element { elem });
        }
    }
    None
}

/// Whether an element is mapped.
fn is_mapped(
    case: &ShapeCase,
    kept: &List<bool>,
    named: &List<u8>,
    elem: ElemId,
    element: &Element,
) -> bool
    requires kept { AreKept case.now kept.now }
    requires named { AreNamed case.now named.now }
    requires here { slice_get case.now.design.elements elem.place ≡ Some element.now }
    ensures { result ≡ is_element_mapped case.now.design case.now.results element.now }
{
    case.stands();
    match element {
        Element::Gate { .. } => true,
        Element::Flop(flop) => is_kept(case, kept, flop.q),
        Element::Latch(latch) => is_kept(case, kept, latch.q),
        Element::Memory(mem) => is_memory_mapped(case, kept, named, *mem),
    }
}

/// Whether a memory stands on one chip once, and each bit of its read ports with a clock is kept.
fn is_memory_mapped(case: &ShapeCase, kept: &List<bool>, named: &List<u8>, mem: MemId) -> bool
    requires kept { AreKept case.now kept.now }
    requires named { AreNamed case.now named.now }
    requires there { mem.place < length case.now.design.memories }
    ensures { result ≡ is_element_mapped case.now.design case.now.results (Memory mem) }
{
    case.stands();
    let memory = case.design().mem(mem);
    is_once(named, mem) && ports_kept(case, kept, memory.reads.as_slice())
}

/// Whether a memory is counted once.
fn is_once(named: &List<u8>, mem: MemId) -> bool
    requires { mem.place < length named.now }
    ensures { result ≡ (get_or named.now mem.place 0 == 1) }
{
    *named.get(u64::from(mem.place)) == 1
}

/// Whether each bit of the ports that have a clock is kept.
fn ports_kept(case: &ShapeCase, kept: &List<bool>, ports: &[ReadPort]) -> bool
    requires kept { AreKept case.now kept.now }
    requires there { ArePorts case.now ports.now }
    ensures { result ≡ list_all (is_register_kept case.now.results) (clocked ports.now) }
{
    'each: for k in 0..ports.len() {
        let port = &ports[k];
        if port.clock.is_some() && !nets_kept(case, kept, port.bits.as_slice()) {
            return false;
        }
    }
    true
}

/// Whether each of some nets is kept.
fn nets_kept(case: &ShapeCase, kept: &List<bool>, nets: &[NetId]) -> bool
    requires kept { AreKept case.now kept.now }
    requires there { AreNets case.now nets.now }
    ensures { result ≡ list_all (is_register_kept case.now.results) nets.now }
{
    'each: for k in 0..nets.len() {
        if !is_kept(case, kept, nets[k]) {
            return false;
        }
    }
    true
}

/// The least output bit that is not mapped, or the first net of the map that is more.
fn find_output(case: &ShapeCase) -> Option<Place>
    ensures { IsLeastUnder (FailsA9 case.now) (2 ∷ []) result }
{
    case.stands();
    let ports = case.design().outputs().as_slice();
    let mut next = 0u32;
    'ports: for k in 0..ports.len() {
        let nets = ports[k].nets.as_slice();
        if let Some(at) = find_in_port(case, next, nets) {
            return Some(at);
        }
        next += nets.len() as u32;
    }
    if case.outputs().len() > next as usize {
        return Some(Place::Output { output: next });
    }
    None
}

/// The least output bit of a port that is not mapped.
fn find_in_port(case: &ShapeCase, start: u32, nets: &[NetId]) -> Option<Place>
    requires few { start + length nets.now ≤ 4294967294 }
    requires bits { AreOutputs case.now start nets.now }
    requires before { NoOutputBefore case.now start }
    ensures { IsFirstOutput case.now (start + length nets.now) result }
{
    'each: for i in 0..nets.len() {
        let output = start + i as u32;
        if differs(case, output, nets[i]) {
            return Some(Place::Output { output });
        }
    }
    None
}

/// Whether an output bit has no net of the map that stands for its net.
fn differs(case: &ShapeCase, output: u32, net: NetId) -> bool
    requires { slice_get (port_bits case.now.design.outputs) output ≡ Some net }
    ensures { result ≡ differs case.now output }
{
    match case.outputs().get(output as usize) {
        Some(spot) => !same_subjects(case.subject(spot.chip, spot.net), Some(Subject::Net(net))),
        None => true,
    }
}
