//! Which element is which memory, found while elements are judged one by one.

ghost use Rattle.std.specs.Prelude.{◌≡◌, ◌&&◌, ◌<◌, ◌≤◌, ℕ, None, IfErr, IfOk, IsTrue, MatchOption, Option, Some, false, is_some, map, length, replicate, slice_get, take, true};
ghost use Rattle.std.specs.List.{list_all};
ghost use Rattle.design_core.specs.Faults.{AreOwned, TellsBad, claimed, claims_within, element_good, is_free, memory_good, place_good, scope_there, shape_good};
ghost use Rattle.design_core.specs.Design.{net_count};
ghost use Rattle.design_core.specs.Limits.{IsCountable};

use crate::good::{element_there, inputs_fit, memory_good};
use crate::{DesignFault, Element, Parts};
use emu_io::NoMemory;
use id_arena::{ElemId, Key, MemId};
use std::alloc::Global;

/// Whether no element so far is this memory.
fn is_free(owners: &[Option<ElemId>], id: MemId) -> bool
    requires { id.place < length owners.now }
    ensures { result ≡ is_free owners.now id.place }
{
    owners[id.place() as usize].is_none()
}

/// Whether a memory is there and good, and no element so far is it.
fn memory_fresh(parts: &Parts, owners: &[Option<ElemId>], id: MemId) -> bool
    requires { length owners.now ≡ length parts.now.memories }
    ensures { result
        ≡ (is_free owners.now id.place
        && memory_good (net_count parts.now) (slice_get parts.now.memories id.place)) }
{
    let place = u64::from(id.place());
    if place >= parts.memories.len() {
        return false;
    }
    is_free(owners, id) && memory_good(parts.net_names.len(), parts.memories.get(place))
}

/// Whether an element has its shape, and where it is a memory, one without an owner so far.
fn shape_good(parts: &Parts, owners: &[Option<ElemId>], element: &Element) -> bool
    requires { length owners.now ≡ length parts.now.memories }
    ensures { (k : ℕ) → AreOwned parts.now k owners.now
        → result ≡ shape_good parts.now (take k parts.now.elements) element.now }
{
    match element {
        Element::Gate { op, inputs, .. } => inputs_fit(*op, inputs.len()),
        Element::Flop(_) | Element::Latch(_) => true,
        Element::Memory(id) => memory_fresh(parts, owners, *id),
    }
}

/// Whether the scope of a path is there.
fn scope_there(parts: &Parts, path: Option<u32>) -> bool
    ensures { result ≡ scope_there parts.now path }
{
    match path {
        None => true,
        Some(scope) => u64::from(scope) < parts.scopes.len(),
    }
}

/// Whether the element of a place is good.
fn element_good(parts: &Parts, owners: &[Option<ElemId>], place: usize, element: &Element) -> bool
    requires { AreOwned parts.now place owners.now }
    ensures { result ≡ element_good parts.now (take place parts.now.elements) (slice_get parts.now.paths place) element.now }
{
    shape_good(parts, owners, element)
        && element_there(parts.net_names.len(), element)
        && scope_there(parts, parts.paths.as_slice().get(place).copied())
}

/// Writes down the memory that an element is, if it is one.
fn claim(owners: &mut [Option<ElemId>], id: ElemId, element: &Element)
    requires { IsTrue (claims_within (length owners.old) element.now) }
    ensures { owners.new ≡ claimed id element.now owners.old }
{
    if let Element::Memory(mem) = element {
        owners[mem.place() as usize] = Some(id);
    }
}

/// A table without owners.
fn no_owners(alloc: Global, memories: u64) -> Result<Vec<Option<ElemId>>, NoMemory>
    ensures { IfOk result (λ owners. owners.items ≡ replicate memories None) }
{
    Ok(vec![in alloc; None; memories as usize]?)
}

/// The element of each memory that has one, where all elements are good.
pub(crate) fn owners_of(alloc: Global, parts: &Parts) -> Result<Vec<Option<ElemId>>, DesignFault>
    requires { IsCountable parts.now }
    ensures owned { IfOk result (λ owners. AreOwned parts.now (length parts.now.elements) owners.items) }
    ensures good { IfOk result (λ owners. (k : ℕ) → k < length parts.now.elements → place_good parts.now k ≡ true) }
    ensures fault { IfErr result (TellsBad parts.now) }
{
    let mut owners = no_owners(alloc, parts.memories.len())?;
    let elements = parts.elements.as_slice();
    'elements: for (place, element) in elements.iter().enumerate() {
        let id = ElemId::of(place as u32);
        if !element_good(parts, &owners, place, element) {
            return Err(DesignFault::BadNet { elem: id });
        }
        claim(&mut owners, id, element);
    }
    Ok(owners)
}

/// The element of each memory; None where a memory has none.
pub(crate) fn all_owners(
    alloc: Global,
    owners: &[Option<ElemId>],
) -> Result<Option<Vec<ElemId>>, NoMemory>
    ensures { IfOk result (λ found. MatchOption found
        (list_all is_some owners.now ≡ false)
        (λ elems. map Some elems.items ≡ owners.now)) }
{
    let mut elems = Vec::with_capacity(alloc, owners.len())?;
    'memories: for owner in owners {
        let Some(elem) = owner else {
            return Ok(None);
        };
        elems.push(*elem)?;
    }
    Ok(Some(elems))
}
