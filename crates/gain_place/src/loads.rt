//! For each net the elements at it, and for each element its nets.
ghost use Rattle.std.specs.Prelude.{◌≡◌, ◌++◌, ◌∷◌, ◌<◌, ℕ, [], false, All, IfOk, OnOk, length, map, option_map, option_to_list, slice_get, unwrap_or};
ghost use Rattle.design_core.specs.Design.{net_count};
ghost use Rattle.gain_place.specs.Homes.{pins_at, source};
ghost use Rattle.gain_place.specs.Tables.{AreDriven, AreLoads, AreNetLoads, AreNets, homed_loads, touched};
ghost use Rattle.gain_place.specs.Lists.{at, is_last, HasUnder};

use crate::pins::{add_pins, source};
use crate::tables::{empty_lists, put_under};
use design_core::Design;
use emu_io::{List, NoMemory};
use id_arena::{ElemId, Key, NetId};
use std::alloc::Global;
use std::marker::Model;

/// For each net the list by number of the elements that drive or read it, each once; and for each element
/// the list by number of the nets that it drives or reads, of those that have a home.
#[derive(Debug, Drop)]
pub struct Loads {
    loads: Vec<List<u32>>,
    nets: Vec<List<u32>>,
}

impl Model for Loads {
    ghost use Rattle.gain_place.specs.Tables.{NetLoads};

    ghost Value = { NetLoads };

    ghost view = { λ l. record { loads = l.loads.items; nets = l.nets.items } };
}

impl Loads {
    /// The loads of a design. It goes over all pins of all elements twice.
    pub fn of(alloc: Global, design: &Design) -> Result<Loads, NoMemory>
        ensures { IfOk result (AreLoads design.now) }
    {
        let driven = driven_nets(alloc, design)?;
        let loads = net_loads(alloc, design, driven.as_slice())?;
        let nets = element_nets(alloc, design, loads.as_slice())?;
        Ok(Loads { loads, nets })
    }

    /// The elements that drive or read a net.
    pub fn at_net(&self, net: u32) -> &[u32]
        requires { net < length self.now.loads }
        ensures { result.now ≡ at self.now.loads net }
    {
        self.loads[net as usize].as_slice()
    }

    /// The nets that have a home and that an element drives or reads.
    pub fn at_element(&self, elem: u32) -> &[u32]
        requires { elem < length self.now.nets }
        ensures { result.now ≡ at self.now.nets elem }
    {
        self.nets[elem as usize].as_slice()
    }
}

// For each element the nets that it drives.
fn driven_nets(alloc: Global, design: &Design) -> Result<Vec<List<u32>>, NoMemory>
    ensures { IfOk result (λ driven. AreDriven design.now (net_count design.now) driven.items) }
{
    let mut driven = empty_lists(alloc, design.elems())?;
    let mut heads = Vec::new(alloc);
    'nets: for net in 0..design.nets() {
        heads.clear();
        add_source(&mut heads, design, NetId::of(net))?;
        put_under(&mut driven, heads.as_slice(), net)?;
    }
    Ok(driven)
}

// Adds the element that drives a net, where one does.
fn add_source(heads: &mut Vec<u32>, design: &Design, net: NetId) -> Result<(), NoMemory>
    requires { net.place < net_count design.now }
    ensures added { OnOk result (heads.new.items ≡ heads.old.items ++ option_to_list (source design.now net.place)) }
    ensures there { OnOk result (All (λ k. k < length design.now.elements) (option_to_list (source design.now net.place))) }
{
    match source(design, net) {
        None => Ok(()),
        Some(elem) => {
            heads.push(elem.place())?;
            Ok(())
        }
    }
}

// For each net the elements that drive or read it.
fn net_loads(
    alloc: Global,
    design: &Design,
    driven: &[List<u32>],
) -> Result<Vec<List<u32>>, NoMemory>
    requires { AreDriven design.now (net_count design.now) driven.now }
    ensures { IfOk result (λ loads. AreNetLoads design.now (length design.now.elements) loads.items) }
{
    design.stands();
    let mut loads = empty_lists(alloc, design.nets())?;
    let mut heads = Vec::new(alloc);
    'elements: for elem in 0..design.elems() {
        heads.clear();
        add_touched(&mut heads, design, driven, ElemId::of(elem))?;
        put_under(&mut loads, heads.as_slice(), elem)?;
    }
    Ok(loads)
}

// Adds the nets that an element reads or drives.
fn add_touched(
    heads: &mut Vec<u32>,
    design: &Design,
    driven: &[List<u32>],
    elem: ElemId,
) -> Result<(), NoMemory>
    requires driven { AreDriven design.now (net_count design.now) driven.now }
    requires elem { elem.place < length design.now.elements }
    ensures { OnOk result (heads.new.items ≡ heads.old.items ++ touched design.now elem.place) }
{
    add_pins(heads, design, design.elem(elem))?;
    heads.extend_from_slice(driven[elem.place() as usize].as_slice())?;
    Ok(())
}

// For each element the nets that have a home and that it drives or reads.
fn element_nets(
    alloc: Global,
    design: &Design,
    loads: &[List<u32>],
) -> Result<Vec<List<u32>>, NoMemory>
    requires { AreNetLoads design.now (length design.now.elements) loads.now }
    ensures { IfOk result (λ nets. AreNets design.now (net_count design.now) nets.items) }
{
    let mut nets = empty_lists(alloc, design.elems())?;
    'nets: for net in 0..design.nets() {
        put_homed(&mut nets, design, loads, net)?;
    }
    Ok(nets)
}

// Puts a net that has a home to each element at it.
fn put_homed(
    nets: &mut Vec<List<u32>>,
    design: &Design,
    loads: &[List<u32>],
    net: u32,
) -> Result<(), NoMemory>
    requires loads { AreNetLoads design.now (length design.now.elements) loads.now }
    requires there { net < net_count design.now }
    requires count { length nets.old.items ≡ length design.now.elements }
    requires fresh { (head : ℕ) → is_last net (at nets.old.items head) ≡ false }
    ensures { OnOk result (HasUnder (homed_loads design.now net) net nets.old.items nets.new.items) }
{
    match source(design, NetId::of(net)) {
        None => Ok(()),
        Some(_) => {
            put_under(nets, loads[net as usize].as_slice(), net)?;
            Ok(())
        }
    }
}
