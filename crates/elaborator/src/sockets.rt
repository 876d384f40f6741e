//! The ports of a module or the pins of a cell, as connections find them.

ghost use Rattle.std.specs.Prelude.{◌≡◌, ◌∷◌, ◌++◌, ◌<◌, [], IfOk, OnOk, Some, length, option_map, true};
ghost use Rattle.id_arena.specs.Names.{place_among};
ghost use Rattle.module_nets.specs.Declarations.{width_of};
ghost use Rattle.module_nets.specs.Names.{is_among};
ghost use Rattle.flattening.specs.Links.{port_sockets, socket_names};
ghost use Rattle.elaborator.specs.Sockets.{first_place_at, name_at, noted_first, width_at};

use crate::setting::Setting;
use emu_io::{List, NoMemory};
use id_arena::Names;
use module_bits::{Direction, port_shapes};
use module_nets::width_of;
use std::alloc::Global;
use std::marker::Model;
use verilog_tree::Module;

/// A port or pin: the place of its name among the names, and its width, if it has one.
#[derive(Clone, Copy, Debug, Drop)]
struct Row {
    name: u32,
    width: Option<u64>,
}

/// What an instance may connect: the ports of a module or the pins of a cell, in their order, each
/// with its name and its width, if it has one. A name that stands twice means the first that has it.
///
/// Made once for a module or a cell and shared by all its instances. Each name is found in constant
/// time.
#[derive(Drop)]
pub struct Sockets {
    names: Names,
    firsts: List<u64>,
    rows: List<Row>,
}

impl Model for Sockets {
    ghost use Rattle.std.specs.Prelude.{List};
    ghost use Rattle.flattening.specs.Links.{Socket};
    ghost use Rattle.elaborator.specs.Sockets.{AreSockets, sockets_of};

    ghost Value = { List Socket };

    ghost view = { λ s. sockets_of s.names s.rows };

    ghost invariant = { λ s. AreSockets s.names s.firsts s.rows };
}

/// Notes the first port or pin of the name at a place, if the name is new.
fn note_first(firsts: &mut List<u64>, place: u32, first: u64) -> Result<(), NoMemory>
    ensures { OnOk result (firsts.new ≡ noted_first firsts.old place first) }
{
    if u64::from(place) == firsts.len() {
        firsts.push(first)?;
    }
    Ok(())
}

impl Sockets {
    /// No ports or pins.
    pub fn new(alloc: Global) -> Sockets
        ensures { result ≡ [] }
    {
        Sockets {
            names: Names::new(alloc),
            firsts: List::new(alloc),
            rows: List::new(alloc),
        }
    }

    /// The same with one more at the end.
    pub fn with(self, name: &[u8], width: Option<u64>) -> Result<Sockets, NoMemory>
        ensures { IfOk result (λ sockets. sockets ≡ self ++ record { name = name.now; width = width } ∷ []) }
    {
        let Sockets {
            mut names,
            mut firsts,
            mut rows,
        } = self;
        let Ok(place) = names.intern(name) else {
            return Err(NoMemory);
        };
        note_first(&mut firsts, place, rows.len())?;
        rows.push(Row { name: place, width })?;
        Ok(Sockets {
            names,
            firsts,
            rows,
        })
    }

    /// How many there are.
    pub fn len(&self) -> u64
        ensures { result ≡ length self.now }
    {
        self.rows.len()
    }

    /// The place of the first that has this name.
    pub fn find(&self, name: &[u8]) -> Option<u64>
        ensures { result ≡ place_among (socket_names self.now) name.now }
    {
        let place = self.names.find(name)?;
        Some(*self.firsts.get(u64::from(place)))
    }

    /// The place of the first that has this name, where one has it.
    pub(crate) fn place(&self, name: &[u8]) -> u64
        requires { is_among (socket_names self.now) name.now ≡ true }
        ensures { place_among (socket_names self.now) name.now ≡ Some result }
    {
        match self.find(name) {
            Some(place) => place,
            None => unreachable!(),
        }
    }

    /// The name of the one at a place.
    pub fn name(&self, place: u64) -> &[u8]
        requires { place < length self.now }
        ensures { name_at self.now place ≡ Some result.now }
    {
        self.names.text(self.rows.get(place).name)
    }

    /// The width of the one at a place, if it has one.
    pub fn width(&self, place: u64) -> Option<u64>
        requires { place < length self.now }
        ensures { result ≡ width_at self.now place }
    {
        self.rows.get(place).width
    }

    /// The place of the first that has the name of the one at a place.
    pub fn first(&self, place: u64) -> u64
        requires { place < length self.now }
        ensures { first_place_at self.now place ≡ Some result }
    {
        let name = self.rows.get(place).name;
        *self.firsts.get(u64::from(name))
    }
}

/// The width of a port by its first direction, if it has one.
fn given_width(given: Option<Direction>) -> Option<u64>
    ensures { result ≡ option_map (λ d. width_of d.range) given }
{
    match given {
        None => None,
        Some(direction) => Some(width_of(direction.range)),
    }
}

/// The ports of a module, in the order of its header, whatever faults its declarations have.
pub fn port_sockets(alloc: Global, setting: &Setting, module: &Module) -> Result<Sockets, NoMemory>
    ensures { IfOk result (λ sockets. sockets ≡ port_sockets setting.now module.now) }
{
    let shapes = port_shapes(alloc, setting.source, setting.tokens, module)?;
    let mut sockets = Sockets::new(alloc);
    'shapes: for shape in shapes.as_slice() {
        sockets = sockets.with(setting.name(shape.name), given_width(shape.given))?;
    }
    Ok(sockets)
}
