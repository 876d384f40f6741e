//! Elements of a design, found by their paths.

ghost use Rattle.std.specs.Prelude.{◌≡◌, ◌<◌, IfOk, OnOk, Some, length, slice_get};
ghost use Rattle.design_core.specs.Names.{IsElementPath};
ghost use Rattle.domain_groups.specs.Openings.{led_to};
ghost use Rattle.id_arena.specs.Arena.{item_limit};
ghost use Rattle.event_replay.specs.PathIndex.{Indexes, TakesIn, number_of};

use design_core::{Design, Element};
use emu_io::NoMemory;
use id_arena::{ArenaFault, ElemId, Key, Names};
use std::alloc::Global;
use std::marker::Model;

/// What is looked for: flip-flops and latches by their own numbers, or memories by theirs.
#[derive(Clone, Copy, Debug, Drop, PartialEq, Eq)]
pub(crate) enum Kind {
    State,
    Memory,
}

/// Elements of one kind, each of which is found by its path without a walk over all. Of elements with one
/// path the first is found. A clause sees the paths with their numbers.
#[derive(Drop)]
pub(crate) struct PathNames {
    names: Names,
    /// The number of the first element of each path.
    numbers: Vec<u32>,
}

impl Model for PathNames {
    ghost use Rattle.std.specs.Prelude.{◌≡◌, ℕ, List, length, zip};

    ghost Value = { List (List ℕ × ℕ) };

    ghost view = { λ p. zip p.names p.numbers.items };

    ghost invariant = { λ p. length p.numbers.items ≡ length p.names };
}

impl PathNames {
    /// Takes in the paths of all elements of a kind.
    pub(crate) fn new(alloc: Global, design: &Design, kind: Kind) -> Result<PathNames, NoMemory>
        ensures { IfOk result (λ index. Indexes design.now kind index) }
    {
        design.stands();
        let mut names = Names::new(alloc);
        let mut numbers = Vec::new(alloc);
        'elements: for place in 0..design.elems() {
            let id = ElemId::of(place);
            if let Some(number) = number_of(kind, place, design.elem(id)) {
                let path = design.path(alloc, id)?;
                take_in(&mut names, &mut numbers, path.bytes(), number)?;
            }
        }
        Ok(PathNames { names, numbers })
    }

    /// Where a path leads, or `None` where no element of the kind has it.
    pub(crate) fn find(&self, path: &[u8]) -> Option<u32>
        ensures { result ≡ led_to self.now path.now }
    {
        match self.names.find(path) {
            Some(place) => Some(self.numbers[place as usize]),
            None => None,
        }
    }
}

/// The number of an element of a kind.
fn number_of(kind: Kind, place: u32, element: &Element) -> Option<u32>
    ensures { result ≡ number_of kind place element.now }
{
    match (kind, element) {
        (Kind::State, Element::Flop(_) | Element::Latch(_)) => Some(place),
        (Kind::Memory, Element::Memory(id)) => Some(id.place()),
        _ => None,
    }
}

/// Takes in a path with a number, if it is new.
fn take_in(
    names: &mut Names,
    numbers: &mut Vec<u32>,
    path: &[u8],
    number: u32,
) -> Result<(), NoMemory>
    requires same { length numbers.old.items ≡ length names.old }
    requires room { length names.old < item_limit }
    ensures { OnOk result (TakesIn names.old names.new numbers.old.items numbers.new.items path.now number) }
{
    let known = names.len();
    let place = match names.intern(path) {
        Ok(place) => place,
        Err(ArenaFault::NoMemory) => return Err(NoMemory),
        Err(ArenaFault::Full) => unreachable!(),
    };
    if place < known {
        return Ok(());
    }
    numbers.push(number)?;
    Ok(())
}
