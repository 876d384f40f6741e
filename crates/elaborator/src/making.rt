//! What was made so far, with the words of its memories.

ghost use Rattle.std.specs.Prelude.{◌+◌, ◌++◌, ◌≡◌, ◌<◌, ◌≤◌, ◌^◌, ◌∷◌, [], IfOk, None, OnOk, flat_map, length, map, replicate};
ghost use Rattle.design_core.specs.declared.element.Element.TheVariants as element;
ghost use Rattle.design_core.specs.declared.fault.LimitKind.TheVariants.{Nets};
ghost use Rattle.design_core.specs.Most.{most_nets, most_words};
ghost use Rattle.cell_parts.specs.CellElements.{cell_elements, inner_count};
ghost use Rattle.cell_parts.specs.Wires.{inner_names, new_names, tied_by};
ghost use Rattle.flattening.specs.Instances.{most_modules};
ghost use Rattle.flattening.specs.Pieces.{beyond, buffers, elements_in, joined, nothing, performed, words_in};
ghost use Rattle.flattening.specs.Steps.{first_fault};
ghost use Rattle.elaborator.specs.Outcomes.{Does};
ghost use Rattle.elaborator.specs.Room.{elements_alone, limits};
ghost use Rattle.elaborator.specs.Walk.{nets_alone};

use crate::room::{MOST_ELEMENTS, MOST_NETS, MOST_WORDS, beyond, word_count};
use cell_parts::{Pins, Wires, element_count, push_elements, push_inner_names, push_new_names};
use cell_table::CellKind;
use design_core::{Element, LimitKind, Memory, NetName, Op, Scope};
use emu_io::{List, NoMemory};
use flattening::{ElabFault, Made};
use id_arena::NetId;
use std::alloc::Global;
use std::marker::Model;

/// What was made so far. The words of all memories are kept beside it, so that no limit counts them again.
/// Contracts see what was made.
#[derive(Debug, Drop)]
pub struct Making {
    made: Made,
    words: u64,
}

impl Model for Making {
    ghost use Rattle.std.specs.Prelude.{◌≡◌};
    ghost use Rattle.flattening.specs.declared.made.Made.{Made};
    ghost use Rattle.flattening.specs.Pieces.{words_in};

    ghost Value = { Made };

    ghost view = { λ m. m.made };

    ghost invariant = { λ m. m.words ≡ words_in m.made.memories };
}

impl Making {
    /// Nothing is made.
    pub fn new(alloc: Global) -> Making
        ensures { result ≡ nothing }
    {
        Making {
            made: Made {
                net_names: List::new(alloc),
                scopes: List::new(alloc),
                elements: List::new(alloc),
                paths: List::new(alloc),
                memories: List::new(alloc),
                modules: 0,
            },
            words: 0,
        }
    }

    /// What was made.
    pub fn into_made(self) -> Made
        ensures { result ≡ self }
    {
        self.made
    }

    /// The fault of the limit on nets, where there are to be so many more.
    pub(crate) fn net_fault(&self, at: u32, nets: u64) -> Option<ElabFault>
        ensures fault { result ≡ beyond Nets at most_nets (length self.now.net_names + nets) }
        ensures room { result ≡ None → length self.now.net_names + nets ≤ 400000 }
    {
        beyond(
            LimitKind::Nets,
            at,
            MOST_NETS,
            self.made.net_names.len(),
            nets,
        )
    }

    /// The fault of the first limit that a piece passes which has so many nets, elements and words.
    pub fn room_fault(&self, at: u32, nets: u64, elements: u64, words: u64) -> Option<ElabFault>
        ensures { result ≡ first_fault (limits at self.now nets elements words) }
    {
        if let Some(fault) = self.net_fault(at, nets) {
            return Some(fault);
        }
        let count = self.made.elements.len();
        if let Some(fault) = beyond(LimitKind::Elements, at, MOST_ELEMENTS, count, elements) {
            return Some(fault);
        }
        beyond(LimitKind::Words, at, MOST_WORDS, self.words, words)
    }

    /// The number of the next scope. Scopes that are too many to be numbered are want of memory.
    pub fn next_scope(&self) -> Result<u32, NoMemory>
        ensures { IfOk result (λ scope. scope ≡ length self.now.scopes) }
    {
        let count = self.made.scopes.len();
        if count > u64::from(u32::MAX) {
            return Err(NoMemory);
        }
        Ok(count as u32)
    }

    /// The instances of modules so far.
    pub(crate) fn module_count(&self) -> u32
        ensures { result ≡ self.now.modules }
    {
        self.made.modules
    }

    /// The number of the next net. Nets that are too many to be numbered are want of memory.
    pub(crate) fn next_net(&self) -> Result<u32, NoMemory>
        ensures { IfOk result (λ net. net ≡ length self.now.net_names) }
    {
        let count = self.made.net_names.len();
        if count > u64::from(u32::MAX) {
            return Err(NoMemory);
        }
        Ok(count as u32)
    }

    /// Puts the name of a net behind all others.
    pub(crate) fn push_net(&mut self, name: NetName) -> Result<(), NoMemory>
        ensures { OnOk result (self.new ≡ joined self.old (record nothing { net_names = name ∷ [] })) }
    {
        self.made.net_names.push(name)
    }

    /// Counts an instance of a module.
    pub(crate) fn count_module(&mut self)
        requires { self.old.modules < most_modules }
        ensures { self.new ≡ joined self.old (record nothing { modules = 1 }) }
    {
        self.made.modules += 1;
    }

    /// Puts a scope behind all others.
    pub fn push_scope(&mut self, scope: Scope) -> Result<(), NoMemory>
        ensures { OnOk result (self.new ≡ joined self.old (record nothing { scopes = scope ∷ [] })) }
    {
        self.made.scopes.push(scope)
    }

    /// Puts an element behind all others; its path ends in this scope.
    pub fn push_element(&mut self, scope: u32, element: Element) -> Result<(), NoMemory>
        ensures { OnOk result (self.new ≡ joined self.old (elements_in scope (element ∷ []))) }
    {
        self.made.elements.push(element)?;
        self.made.paths.push(scope)
    }

    /// Puts a gate of one input behind all elements.
    fn push_gate(
        &mut self,
        alloc: Global,
        scope: u32,
        op: Op,
        input: NetId,
        output: NetId,
    ) -> Result<(), NoMemory>
        ensures { OnOk result (self.new ≡ joined self.old (elements_in scope (element.Gate op (input ∷ []) output ∷ []))) }
    {
        let mut inputs = List::new(alloc);
        inputs.push(input)?;
        self.push_element(scope, Element::Gate { op, inputs, output })
    }

    /// Puts a `buf` for each bit behind all elements, from bit 0 on; their paths end in this scope.
    pub fn push_buffers(
        &mut self,
        alloc: Global,
        scope: u32,
        from: &[NetId],
        to: &[NetId],
    ) -> Result<(), NoMemory>
        ensures { OnOk result (self.new ≡ joined self.old (elements_in scope (buffers from.now to.now))) }
    {
        'bits: for (source, target) in from.iter().zip(to) {
            self.push_gate(alloc, scope, Op::Buf, *source, *target)?;
        }
        Ok(())
    }

    /// Puts a gate of this input behind all elements for each output; their paths end in this scope.
    pub fn push_fan(
        &mut self,
        alloc: Global,
        scope: u32,
        op: Op,
        input: NetId,
        outputs: &[NetId],
    ) -> Result<(), NoMemory>
        ensures { OnOk result (self.new ≡ joined self.old (elements_in scope (map (element.Gate op (input ∷ [])) outputs.now))) }
    {
        'outputs: for output in outputs {
            self.push_gate(alloc, scope, op, input, *output)?;
        }
        Ok(())
    }

    /// Does the step of buffers alone: the limits stand at this byte.
    pub fn add_buffers(
        &mut self,
        alloc: Global,
        at: u32,
        scope: u32,
        from: &[NetId],
        to: &[NetId],
    ) -> Result<(), ElabFault>
        ensures { Does (performed at (elements_alone scope (buffers from.now to.now))) self.old self.new result }
    {
        let count = from.len().min(to.len()) as u64;
        if let Some(fault) = self.room_fault(at, 0, count, 0) {
            return Err(fault);
        }
        self.push_buffers(alloc, scope, from, to)?;
        Ok(())
    }

    /// Does the step of gates of one input alone: the limits stand at this byte.
    pub fn add_fan(
        &mut self,
        alloc: Global,
        at: u32,
        scope: u32,
        op: Op,
        input: NetId,
        outputs: &[NetId],
    ) -> Result<(), ElabFault>
        ensures { Does (performed at (elements_alone scope (map (element.Gate op (input ∷ [])) outputs.now))) self.old self.new result }
    {
        if let Some(fault) = self.room_fault(at, 0, outputs.len() as u64, 0) {
            return Err(fault);
        }
        self.push_fan(alloc, scope, op, input, outputs)?;
        Ok(())
    }
}

/// Lets the paths of so many elements more end in this scope.
fn push_paths(ends: &mut List<u32>, scope: u32, count: u64) -> Result<(), NoMemory>
    ensures { OnOk result (ends.new ≡ ends.old ++ replicate count scope) }
{
    'paths: for _ in 0..count {
        ends.push(scope)?;
    }
    Ok(())
}

/// What an instance of a cell makes.
impl Making {
    /// The number of the next memory. Memories that are too many to be numbered are want of memory.
    fn next_memory(&self) -> Result<u32, NoMemory>
        ensures { IfOk result (λ memory. memory ≡ length self.now.memories) }
    {
        let count = self.made.memories.len();
        if count > u64::from(u32::MAX) {
            return Err(NoMemory);
        }
        Ok(count as u32)
    }

    /// Puts the names of a cell's nets behind all others: those of its new nets, and those of its inner nets,
    /// of which there are so many.
    pub(crate) fn push_cell_names(
        &mut self,
        alloc: Global,
        scope: u32,
        pins: &Pins,
        ties: &List<Option<List<NetId>>>,
        inner: u32,
    ) -> Result<(), NoMemory>
        requires { length ties.now ≡ length pins.now }
        ensures { OnOk result (self.new ≡ joined self.old (nets_alone (flat_map (new_names scope) (tied_by pins.now ties.now) ++ inner_names scope inner))) }
    {
        push_new_names(alloc, &mut self.made.net_names, scope, pins, ties)?;
        push_inner_names(alloc, &mut self.made.net_names, scope, inner)
    }

    /// Puts the elements of a cell behind all others; their paths end in this scope. Its inner nets have the
    /// numbers from `inner` on, and its memory is the next.
    pub(crate) fn push_cell_elements(
        &mut self,
        alloc: Global,
        scope: u32,
        wires: &Wires<'_>,
        inner: u32,
        kind: &CellKind,
    ) -> Result<(), NoMemory>
        requires { inner + inner_count kind.now ≤ 4294967296 }
        ensures { OnOk result (self.new ≡ joined self.old (elements_in scope (cell_elements wires.now inner (length self.old.memories) kind.now))) }
    {
        let memory = self.next_memory()?;
        push_elements(alloc, &mut self.made.elements, wires, inner, memory, kind)?;
        push_paths(&mut self.made.paths, scope, element_count(wires, kind))?;
        Ok(())
    }

    /// Puts a memory behind all others, whose words there is room for.
    pub(crate) fn push_memory(&mut self, memory: Memory) -> Result<(), NoMemory>
        requires bits { memory.address_bits ≤ 16 }
        requires room { words_in self.old.memories + 2 ^ memory.address_bits ≤ most_words }
        ensures { OnOk result (self.new ≡ joined self.old (record nothing { memories = memory ∷ [] })) }
    {
        let words = word_count(memory.address_bits);
        self.made.memories.push(memory)?;
        self.words += words;
        Ok(())
    }
}
