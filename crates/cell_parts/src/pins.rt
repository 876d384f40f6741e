//! The pins of a cell, each once.

ghost use Rattle.std.specs.Prelude.{◌<◌, ◌≡◌, IfOk, OnOk, Some, length, slice_get};
ghost use Rattle.id_arena.specs.Names.{place_among};
ghost use Rattle.cell_parts.specs.Pins.{named_pins, once, pin_names, pins_of};
ghost use Rattle.cell_parts.specs.Named.{pin_seen, with_pin};

use crate::named::{NamedPin, NamedPins};
use cell_table::CellKind;
use emu_io::{List, NoMemory, Text};
use id_arena::Names;
use std::alloc::Global;
use std::marker::Model;

/// A pin of a cell.
#[derive(Debug, Drop)]
pub struct Pin {
    pub name: Text,
    /// How many bits it has: 1, but for the addresses and words of memories.
    pub width: u32,
    /// Whether it gets new nets where nothing is connected to it.
    pub needed: bool,
}

/// Pins in their order, found by name. No two have one name.
///
/// A clause sees the list of the pins.
#[derive(Drop)]
pub struct Pins {
    names: Names,
    pins: List<Pin>,
}

impl Model for Pins {
    ghost use Rattle.std.specs.Prelude.{List, ◌≡◌};
    ghost use Rattle.cell_parts.specs.declared.pins.Pin.{Pin};
    ghost use Rattle.cell_parts.specs.Pins.{pin_names};

    ghost Value = { List Pin };

    ghost view = { λ p. p.pins };

    ghost invariant = { λ p. p.names ≡ pin_names p.pins };
}

impl Pins {
    /// The number of pins.
    pub fn len(&self) -> u32
        ensures { result ≡ length self.now }
    {
        self.names.len()
    }

    /// All pins, in their order.
    pub fn as_slice(&self) -> &[Pin]
        ensures { result.now ≡ self.now }
    {
        self.pins.as_slice()
    }

    /// The pin at a place.
    pub fn get(&self, place: u32) -> &Pin
        requires { place < length self.now }
        ensures { slice_get self.now place ≡ Some result.now }
    {
        self.pins.get(u64::from(place))
    }

    /// The place of the pin of this name; None exactly where no pin has it.
    pub fn find(&self, name: &[u8]) -> Option<u32>
        ensures { result ≡ place_among (pin_names self.now) name.now }
    {
        self.names.find(name)
    }
}

/// The pins of a kind of cell, in their order: outputs before inputs, and the ports of a memory one after
/// the other; a pin that the kind names twice stands at its first place.
#[tactic(auto, unfolding(crate::specs::Pins::pins_of), using(crate::proofs::Gathering::gathered))]
pub fn pins_of(alloc: Global, kind: &CellKind) -> Result<Pins, NoMemory>
    ensures { IfOk result (λ pins. pins ≡ pins_of kind.now) }
{
    let named = NamedPins::of(alloc, kind)?;
    let mut names = Names::new(alloc);
    let mut pins = List::new(alloc);
    'named: for pin in named.as_slice() {
        push_once(alloc, &mut names, &mut pins, pin)?;
    }
    Ok(Pins { names, pins })
}

/// Puts a pin last, unless there is one of its name.
fn push_once(
    alloc: Global,
    names: &mut Names,
    pins: &mut List<Pin>,
    pin: &NamedPin<'_>,
) -> Result<(), NoMemory>
    requires { names.old ≡ pin_names pins.old }
    ensures pins { OnOk result (pins.new ≡ with_pin pins.old (pin_seen pin.now)) }
    ensures names { OnOk result (names.new ≡ pin_names pins.new) }
{
    let name = pin.name.bytes();
    if names.find(name).is_some() {
        return Ok(());
    }
    if names.intern(name).is_err() {
        return Err(NoMemory);
    }
    pins.push(Pin {
        name: Text::from_bytes(alloc, name)?,
        width: pin.width,
        needed: pin.needed,
    })
}
