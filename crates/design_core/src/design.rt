//! The design as one value.

ghost use Rattle.std.specs.Prelude.{◌≡◌, ◌<◌, ◌≤◌, IfOk, IsTrue, Some, length, option_map, slice_get};

use crate::limits::word_number;
use crate::names::{element_path, net_text};
use crate::{Driver, Element, Memory, Parts, Port};
use emu_io::{List, NoMemory, Text};
use id_arena::{ElemId, Key, MemId, NetId};
use std::alloc::Global;
use std::marker::Model;

/// A design that stands: each net has at most one driver, each net that is read has one, every name
/// in it is there, and it is within the limits.
///
/// A clause sees a design as its parts.
#[derive(Debug, Drop)]
pub struct Design {
    parts: Parts,
    /// The driver of each net.
    drivers: Vec<Driver>,
    /// The element of each memory.
    owners: Vec<ElemId>,
}

impl Model for Design {
    ghost use Rattle.design_core.specs.declared.parts.Parts.{Parts};
    ghost use Rattle.design_core.specs.Tables.{AreDrivers, AreOwners, IsSound};

    ghost Value = { Parts };

    ghost view = { λ d. d.parts };

    ghost invariant = { λ d. IsSound d.parts
        × AreDrivers d.parts d.drivers.items
        × AreOwners d.parts d.owners.items };
}

impl Design {
    ghost use Rattle.design_core.specs.Design.{IsDesign, driver, element_fits, memory_fits, net_count};
    ghost use Rattle.design_core.specs.Limits.{IsCountable, IsWithin};
    ghost use Rattle.design_core.specs.Most.{most_elements, most_nets};
    ghost use Rattle.design_core.specs.Names.{IsElementPath, IsNamed, IsNetText};
    ghost use Rattle.design_core.specs.Tables.{AreDrivers, AreOwners, IsMemoryAt, IsSound};
    ghost use Rattle.design_core.specs.Weight.{memory_weight, weight};

    /// The design of sound parts, with its tables. Takes no memory.
    pub(crate) fn from_parts(parts: Parts, drivers: Vec<Driver>, owners: Vec<ElemId>) -> Design
        requires sound { IsSound parts }
        requires drivers { AreDrivers parts drivers.items }
        requires owners { AreOwners parts owners.items }
        ensures { result ≡ parts }
    {
        Design {
            parts,
            drivers,
            owners,
        }
    }

    /// What holds of every design, for its callers.
    pub fn stands(&self)
        ensures design { IsDesign self.now }
        ensures named { IsNamed self.now }
        ensures within { IsWithin self.now }
        ensures countable { IsCountable self.now }
    {
        let _ = &self.parts;
    }

    /// The number of nets, at most 400,000.
    pub fn nets(&self) -> u32
        ensures count { result ≡ net_count self.now }
        ensures some { 2 ≤ result }
        ensures few { result ≤ most_nets }
    {
        self.parts.net_names.len() as u32
    }

    /// The number of elements, at most 200,000.
    pub fn elems(&self) -> u32
        ensures count { result ≡ length self.now.elements }
        ensures few { result ≤ most_elements }
    {
        self.parts.elements.len() as u32
    }

    /// The number of memories.
    pub fn mems(&self) -> u32
        ensures { result ≡ length self.now.memories }
    {
        self.parts.memories.len() as u32
    }

    /// The element of this number.
    #[tactic(auto, using(crate::proofs::Bounds::every))]
    pub fn elem(&self, id: ElemId) -> &Element
        requires { id.place < length self.now.elements }
        ensures here { slice_get self.now.elements id.place ≡ Some result.now }
        ensures fits { IsTrue (element_fits self.now result.now) }
    {
        self.parts.elements.get(u64::from(id.place()))
    }

    /// The memory of this number.
    #[tactic(auto, using(crate::proofs::Bounds::every))]
    pub fn mem(&self, id: MemId) -> &Memory
        requires { id.place < length self.now.memories }
        ensures here { slice_get self.now.memories id.place ≡ Some result.now }
        ensures fits { IsTrue (memory_fits result.now) }
    {
        self.parts.memories.get(u64::from(id.place()))
    }

    /// The one element that is this memory.
    pub fn elem_of(&self, id: MemId) -> ElemId
        requires { id.place < length self.now.memories }
        ensures { IsMemoryAt self.now id.place result }
    {
        self.owners[id.place() as usize]
    }

    /// What drives a net.
    pub fn driver(&self, id: NetId) -> Driver
        requires { id.place < net_count self.now }
        ensures { result ≡ driver self.now id.place }
    {
        self.drivers[id.place() as usize]
    }

    /// The input ports.
    pub fn inputs(&self) -> &List<Port>
        ensures { result.now ≡ self.now.inputs }
    {
        &self.parts.inputs
    }

    /// The output ports.
    pub fn outputs(&self) -> &List<Port>
        ensures { result.now ≡ self.now.outputs }
    {
        &self.parts.outputs
    }

    /// What an element weighs on a chip.
    pub fn weight(&self, id: ElemId) -> u64
        requires { id.place < length self.now.elements }
        ensures { option_map (weight self.now) (slice_get self.now.elements id.place) ≡ Some result }
    {
        match self.elem(id) {
            Element::Gate { inputs, .. } => inputs.len(),
            Element::Flop(_) | Element::Latch(_) => 8,
            Element::Memory(id) => self.memory_weight(*id),
        }
    }

    /// What a memory weighs.
    fn memory_weight(&self, id: MemId) -> u64
        requires { id.place < length self.now.memories }
        ensures { option_map memory_weight (slice_get self.now.memories id.place) ≡ Some result }
    {
        let memory = self.mem(id);
        word_number(memory) * u64::from(memory.width)
    }

    /// The name of a net, with the path of its scope before it.
    pub fn net_name(&self, alloc: Global, id: NetId) -> Result<Text, NoMemory>
        requires { id.place < net_count self.now }
        ensures { IfOk result (IsNetText self.now id.place) }
    {
        net_text(alloc, &self.parts, id)
    }

    /// The path of an element, which is empty where it stands in the top itself.
    pub fn path(&self, alloc: Global, id: ElemId) -> Result<Text, NoMemory>
        requires { id.place < length self.now.elements }
        ensures { IfOk result (IsElementPath self.now id.place) }
    {
        element_path(alloc, &self.parts, id)
    }
}
