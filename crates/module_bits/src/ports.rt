//! The directions and ranges of a module's ports, as those who connect them need them.

ghost use Rattle.std.specs.Prelude.{◌≡◌, IfOk, OnOk, flat_map, map, [], ◌∷◌};
ghost use Rattle.module_nets.specs.Names.{text_of};
ghost use Rattle.module_bits.specs.Noted.{HasFirsts, IsGiven, Notes, first_direction};
ghost use Rattle.module_bits.specs.Ports.{direction, head_directions, item_directions, shapes_of};

use emu_io::{List, NoMemory};
use id_arena::Names;
use module_nets::text_at;
use std::alloc::Global;
use verilog_lex::Tokens;
use verilog_tree::{Dir, IndexRange, Item, Module, PortName};

/// A direction that a module gives to a name, by the name's token, and the range beside it.
#[derive(Clone, Copy, Debug, Drop)]
pub struct Direction {
    pub name: u32,
    pub dir: Dir,
    pub range: Option<IndexRange>,
}

/// A place of a module's header, by its token, and the first direction that the module gives to this
/// name; none where it gives none.
#[derive(Clone, Copy, Debug, Drop)]
pub struct PortShape {
    pub name: u32,
    pub given: Option<Direction>,
}

/// Names, and the first direction of each, at the same place.
#[derive(Drop)]
pub(crate) struct Given {
    pub(crate) names: Names,
    pub(crate) firsts: List<Direction>,
}

/// Notes a direction, if its name has none.
fn note(
    given: &mut Given,
    source: &[u8],
    tokens: &Tokens,
    direction: Direction,
) -> Result<(), NoMemory>
    ensures { OnOk result (Notes (text_of source.now tokens.now) given.old given.new (direction ∷ [])) }
{
    let text = text_at(source, tokens, direction.name);
    if given.names.find(text).is_none() {
        let Ok(_) = given.names.intern(text) else {
            return Err(NoMemory);
        };
        given.firsts.push(direction)?;
    }
    Ok(())
}

/// Notes the direction of a port of the header, if it has one there.
fn note_port(
    given: &mut Given,
    source: &[u8],
    tokens: &Tokens,
    port: PortName,
) -> Result<(), NoMemory>
    ensures { OnOk result (Notes (text_of source.now tokens.now) given.old given.new (head_directions port)) }
{
    match port.dir {
        None => Ok(()),
        Some(dir) => {
            let direction = Direction {
                name: port.name,
                dir,
                range: port.range,
            };
            note(given, source, tokens, direction)
        }
    }
}

/// Notes the directions of a header.
fn note_header(
    given: &mut Given,
    source: &[u8],
    tokens: &Tokens,
    ports: &[PortName],
) -> Result<(), NoMemory>
    ensures { OnOk result (Notes (text_of source.now tokens.now) given.old given.new (flat_map head_directions ports.now)) }
{
    'ports: for port in ports {
        note_port(given, source, tokens, *port)?;
    }
    Ok(())
}

/// Notes one direction of several names.
fn note_names(
    given: &mut Given,
    source: &[u8],
    tokens: &Tokens,
    dir: Dir,
    range: Option<IndexRange>,
    names: &[u32],
) -> Result<(), NoMemory>
    ensures { OnOk result (Notes (text_of source.now tokens.now) given.old given.new (map (direction dir range) names.now)) }
{
    'names: for name in names {
        let direction = Direction {
            name: *name,
            dir,
            range,
        };
        note(given, source, tokens, direction)?;
    }
    Ok(())
}

/// Notes the directions of an item.
fn note_item(given: &mut Given, source: &[u8], tokens: &Tokens, item: &Item) -> Result<(), NoMemory>
    ensures { OnOk result (Notes (text_of source.now tokens.now) given.old given.new (item_directions item.now)) }
{
    match item {
        Item::Ports {
            dir,
            range,
            names,
            ..
        } => note_names(given, source, tokens, *dir, *range, names.as_slice()),
        _ => Ok(()),
    }
}

/// Notes the directions of items.
fn note_items(
    given: &mut Given,
    source: &[u8],
    tokens: &Tokens,
    items: &[Item],
) -> Result<(), NoMemory>
    ensures { OnOk result (Notes (text_of source.now tokens.now) given.old given.new (flat_map item_directions items.now)) }
{
    'items: for item in items {
        note_item(given, source, tokens, item)?;
    }
    Ok(())
}

impl Given {
    /// The first direction of a name.
    fn first(&self, source: &[u8], tokens: &Tokens, name: u32) -> Option<Direction>
        requires { HasFirsts (text_of source.now tokens.now) self.now }
        ensures { result ≡ first_direction (text_of source.now tokens.now) self.now.firsts (text_of source.now tokens.now name) }
    {
        let place = self.names.find(text_at(source, tokens, name))?;
        Some(*self.firsts.get(u64::from(place)))
    }
}

/// All directions of a module, the first of each name.
fn given_by(
    alloc: Global,
    source: &[u8],
    tokens: &Tokens,
    module: &Module,
) -> Result<Given, NoMemory>
    ensures { IfOk result (IsGiven (text_of source.now tokens.now) module.now) }
{
    let mut given = Given {
        names: Names::new(alloc),
        firsts: List::new(alloc),
    };
    note_header(&mut given, source, tokens, module.ports.as_slice())?;
    note_items(&mut given, source, tokens, module.items.as_slice())?;
    Ok(given)
}

/// For each place of a module's header, the first direction that the module gives to its name, with
/// its range, whatever faults the module's declarations have.
///
/// `tokens` are those of `source`, and `module` is of their tree. Takes one pass over the module and a
/// table of the names that have directions.
pub fn port_shapes(
    alloc: Global,
    source: &[u8],
    tokens: &Tokens,
    module: &Module,
) -> Result<List<PortShape>, NoMemory>
    ensures { IfOk result (λ shapes. shapes ≡ shapes_of (text_of source.now tokens.now) module.now) }
{
    let given = given_by(alloc, source, tokens, module)?;
    let mut shapes = List::new(alloc);
    'ports: for port in module.ports.as_slice() {
        shapes.push(PortShape {
            name: port.name,
            given: given.first(source, tokens, port.name),
        })?;
    }
    Ok(shapes)
}
