//! From the tree of a text to the design that it describes.

ghost use Rattle.std.specs.Prelude.{◌≡◌, IfOk, Ok, OnOk, map, true};
ghost use Rattle.module_bits.specs.Names.{AreNumbered};
ghost use Rattle.module_nets.specs.Names.{is_among};
ghost use Rattle.verilog_lex.specs.Reads.{Reads};
ghost use Rattle.verilog_tree.specs.Source.{Explains};
ghost use Rattle.verilog_tree.specs.Terminal.{terminal_at};
ghost use Rattle.flattening.specs.Flattening.{constants_alone, flattened, parts_of, ports_with};
ghost use Rattle.flattening.specs.Laws.{IsTable, IsWhole};
ghost use Rattle.flattening.specs.Pieces.{joined};
ghost use Rattle.flattening.specs.Places.{module_names};
ghost use Rattle.flattening.specs.Stands.{Answers, given_by};
ghost use Rattle.elaborator.specs.Top.{BuildsWhole, Tells, added_port, constant_alone, is_side};

use crate::cells::ReadyCells;
use crate::entering::{admit, around_of};
use crate::feeding::direction;
use crate::making::Making;
use crate::modules::Modules;
use crate::setting::{Instance, Setting};
use crate::walk::do_items;
use cell_table::CellTable;
use design_core::{Design, DesignFault, NetName, Parts, Port};
use emu_io::{List, NoMemory, Text};
use flattening::ElabFault;
use flattening::laws::flattened_parts_are_whole;
use std::alloc::Global;
use verilog_lex::Tokens;
use verilog_tree::{Dir, Source};

/// The levels that may stand below the top, which is the first of 64.
const LEVELS_BELOW_TOP: u32 = 63;

/// Whether a module has the name of the top.
fn has_module(setting: &Setting, top: &[u8]) -> bool
    ensures { result ≡ is_among (module_names setting.now) top.now }
{
    'modules: for module in setting.modules {
        if top == setting.name(module.name) {
            return true;
        }
    }
    false
}

/// Puts a constant behind all nets. It stands in the scope of the top.
fn push_constant(alloc: Global, name: &[u8], making: &mut Making) -> Result<(), NoMemory>
    ensures { OnOk result (making.new ≡ joined making.old (constant_alone name.now)) }
{
    let name = Text::from_bytes(alloc, name)?;
    making.push_net(NetName {
        scope: 0,
        name,
        index: None,
    })
}

/// Nets 0 and 1 alone.
fn constants(alloc: Global) -> Result<Making, NoMemory>
    ensures { IfOk result (λ making. making ≡ constants_alone) }
{
    let mut making = Making::new(alloc);
    push_constant(alloc, b"1'b0", &mut making)?;
    push_constant(alloc, b"1'b1", &mut making)?;
    Ok(making)
}

/// Puts a port of the top behind others, where it has the direction.
fn push_port(
    alloc: Global,
    side: Dir,
    here: &Instance,
    name: &[u8],
    ports: &mut List<Port>,
) -> Result<(), NoMemory>
    requires { AreNumbered here.now.base here.now.nets }
    ensures { OnOk result (ports.new ≡ added_port side here.now name.now ports.old) }
{
    if direction(here, name) == Some(side) {
        let nets = here.bits_named(alloc, name)?;
        let name = Text::from_bytes(alloc, name)?;
        ports.push(Port { name, nets })?;
    }
    Ok(())
}

/// The ports of the top that have the direction, in the order of the header.
fn ports_with(
    alloc: Global,
    setting: &Setting,
    side: Dir,
    here: &Instance,
) -> Result<List<Port>, NoMemory>
    requires { AreNumbered here.now.base here.now.nets }
    ensures { IfOk result (λ ports. ports ≡ ports_with (is_side side) setting.now here.now) }
{
    let mut ports = List::new(alloc);
    'ports: for port in here.module_of.ports.as_slice() {
        push_port(alloc, side, here, setting.name(port.name), &mut ports)?;
    }
    Ok(ports)
}

/// The parts of the design: all that was made, and the ports of the top.
fn parts_of(
    alloc: Global,
    setting: &Setting,
    here: &Instance,
    making: Making,
) -> Result<Parts, NoMemory>
    requires { AreNumbered here.now.base here.now.nets }
    ensures { IfOk result (λ parts. parts ≡ parts_of setting.now here.now making) }
{
    let inputs = ports_with(alloc, setting, Dir::Input, here)?;
    let outputs = ports_with(alloc, setting, Dir::Output, here)?;
    let made = making.into_made();
    Ok(Parts {
        net_names: made.net_names,
        scopes: made.scopes,
        elements: made.elements,
        paths: made.paths,
        memories: made.memories,
        inputs,
        outputs,
    })
}

/// The parts that a text stands for, or its first fault but for those of drivers. That no module has the name
/// of the top is told before a name that two modules have.
fn flat_parts(alloc: Global, setting: &Setting, top: &[u8]) -> Result<Parts, ElabFault>
    ensures { Tells (flattened setting.now top.now) result }
{
    if !has_module(setting, top) {
        return Err(ElabFault::NoTop);
    }
    let modules = Modules::new(alloc, setting)?;
    let Some(place) = modules.find(setting, top) else {
        return Err(ElabFault::NoTop);
    };
    let cells = ReadyCells::new(alloc, setting)?;
    let module = setting.module_at(place);
    let ready = modules.ready(setting, place);
    let around = around_of(alloc, place, &[])?;
    let around = around.as_slice();
    let mut making = constants(alloc)?;
    let here = admit(
        alloc,
        setting,
        None,
        top,
        around,
        module,
        ready,
        &mut making,
    )?;
    do_items(
        alloc,
        setting,
        &modules,
        &cells,
        &here,
        LEVELS_BELOW_TOP,
        &mut making,
    )?;
    let parts = parts_of(alloc, setting, &here, making)?;
    Ok(parts)
}

/// The design of whole parts, or the first fault of drivers.
fn build_whole(alloc: Global, parts: Parts) -> Result<Design, ElabFault>
    requires { IsWhole parts }
    ensures { BuildsWhole parts result }
{
    match Design::build(alloc, parts) {
        Ok(design) => Ok(design),
        Err(DesignFault::TwoDrivers { net, name }) => Err(ElabFault::TwoDrivers { net, name }),
        Err(DesignFault::Undriven { net, name }) => Err(ElabFault::Undriven { net, name }),
        Err(DesignFault::NoMemory) => Err(ElabFault::NoMemory),
        Err(DesignFault::BadNet { .. }) => unreachable!(),
        Err(DesignFault::Limit { .. }) => unreachable!(),
    }
}

/// The design that the tree of a text describes with a table of cells, or the first fault. The faults of
/// drivers come last.
pub fn elaborate(
    alloc: Global,
    source: &[u8],
    tokens: &Tokens,
    tree: &Source,
    cells: &CellTable,
    top: &[u8],
) -> Result<Design, ElabFault>
    requires tokens { Reads source.now true 0 (Ok tokens.now) }
    requires tree { Explains (map terminal_at tokens.now) (Ok tree.now) }
    requires cells { IsTable cells.now }
    ensures { Answers (given_by source.now tokens.now tree.now cells.now) top.now result }
{
    flattened_parts_are_whole();
    let setting = Setting {
        source,
        tokens,
        modules: tree.modules.as_slice(),
        cells,
    };
    let parts = flat_parts(alloc, &setting, top)?;
    build_whole(alloc, parts)
}
