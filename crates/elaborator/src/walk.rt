//! The walk over a design: the items of an instance of a module, and the instances among them.

ghost use Rattle.std.specs.Prelude.{◌<◌, ◌≡◌, Some, length, slice_get};
ghost use Rattle.verilog_tree.specs.declared.source.Module.{Module};
ghost use Rattle.module_bits.specs.Names.{AreNumbered};
ghost use Rattle.flattening.specs.Flattening.{instance_step, item_step, items_step};
ghost use Rattle.flattening.specs.Steps.{in_turn};
ghost use Rattle.elaborator.specs.Outcomes.{Does};
ghost use Rattle.elaborator.specs.ReadyCells.{AreReadyCells};
ghost use Rattle.elaborator.specs.Walk.{AreReady, enter_of, module_step};

use crate::assign::{do_nets, do_pairs};
use crate::cells::{ReadyCells, do_cell};
use crate::entering::{admit, around_of};
use crate::feeding::do_ports;
use crate::making::Making;
use crate::modules::Modules;
use crate::primitive::do_prims;
use crate::setting::{Instance, Setting};
use crate::standing::stand;
use crate::supply::do_supplies;
use flattening::ElabFault;
use std::alloc::Global;
use verilog_tree::{Dir, Inst, Item};

/// Does the items of an instance of a module, in the order of the text. So many levels may stand below it.
#[cycle(walk)]
pub(crate) fn do_items(
    alloc: Global,
    setting: &Setting,
    modules: &Modules,
    cells: &ReadyCells,
    instance: &Instance,
    room: u32,
    making: &mut Making,
) -> Result<(), ElabFault>
    requires numbered { AreNumbered instance.now.base instance.now.nets }
    requires modules { AreReady setting.now modules.now }
    requires cells { AreReadyCells setting.now cells.now }
    ensures { Does (items_step (enter_of room setting.now) setting.now instance.now) making.old making.new result }
{
    'items: for item in instance.module_of.items.as_slice() {
        do_item(alloc, setting, modules, cells, instance, item, room, making)?;
    }
    Ok(())
}

/// Does an item. Its limits stand at its first token.
#[cycle(walk)]
fn do_item(
    alloc: Global,
    setting: &Setting,
    modules: &Modules,
    cells: &ReadyCells,
    here: &Instance,
    item: &Item,
    room: u32,
    making: &mut Making,
) -> Result<(), ElabFault>
    requires numbered { AreNumbered here.now.base here.now.nets }
    requires modules { AreReady setting.now modules.now }
    requires cells { AreReadyCells setting.now cells.now }
    ensures { Does (item_step (enter_of room setting.now) setting.now here.now item.now) making.old making.new result }
{
    match item {
        Item::Ports { .. } => Ok(()),
        Item::Nets { at, nets, .. } => {
            let start = setting.start(*at);
            do_nets(alloc, setting, here, start, nets.as_slice(), making)
        }
        Item::Supply { at, one, names, .. } => {
            let start = setting.start(*at);
            do_supplies(alloc, setting, here, start, *one, names.as_slice(), making)
        }
        Item::Assign { at, pairs } => {
            let start = setting.start(*at);
            do_pairs(alloc, setting, here, start, pairs.as_slice(), making)
        }
        Item::Gates { at, prims } => {
            let start = setting.start(*at);
            do_prims(alloc, setting, here, start, *at, prims.as_slice(), making)
        }
        Item::Instances { at, insts } => do_instances(
            alloc,
            setting,
            modules,
            cells,
            here,
            *at,
            insts.as_slice(),
            room,
            making,
        ),
    }
}

/// Does the instances of an item, one by one. The token names their module or cell.
#[cycle(walk)]
fn do_instances(
    alloc: Global,
    setting: &Setting,
    modules: &Modules,
    cells: &ReadyCells,
    here: &Instance,
    token: u32,
    insts: &[Inst],
    room: u32,
    making: &mut Making,
) -> Result<(), ElabFault>
    requires numbered { AreNumbered here.now.base here.now.nets }
    requires modules { AreReady setting.now modules.now }
    requires cells { AreReadyCells setting.now cells.now }
    ensures { Does (in_turn (instance_step (enter_of room setting.now) setting.now here.now token) insts.now) making.old making.new result }
{
    'insts: for inst in insts {
        do_instance(
            alloc, setting, modules, cells, here, token, inst, room, making,
        )?;
    }
    Ok(())
}

/// Does an instance. The token names its module or cell; a module of the text comes before a cell.
#[cycle(walk)]
fn do_instance(
    alloc: Global,
    setting: &Setting,
    modules: &Modules,
    cells: &ReadyCells,
    here: &Instance,
    token: u32,
    inst: &Inst,
    room: u32,
    making: &mut Making,
) -> Result<(), ElabFault>
    requires numbered { AreNumbered here.now.base here.now.nets }
    requires modules { AreReady setting.now modules.now }
    requires cells { AreReadyCells setting.now cells.now }
    ensures { Does (instance_step (enter_of room setting.now) setting.now here.now token inst.now) making.old making.new result }
{
    let at = setting.start(token);
    let name = setting.name(token);
    match modules.find(setting, name) {
        None => do_cell(alloc, setting, cells, here, at, inst, name, making),
        Some(place) => do_module(
            alloc, setting, modules, cells, here, at, inst, place, room, making,
        ),
    }
}

/// Does an instance of the module at a place: whether it may stand there is asked; it is entered; its input
/// ports; its items; its output ports.
#[cycle(walk)]
fn do_module(
    alloc: Global,
    setting: &Setting,
    modules: &Modules,
    cells: &ReadyCells,
    here: &Instance,
    at: u32,
    inst: &Inst,
    place: u32,
    room: u32,
    making: &mut Making,
) -> Result<(), ElabFault>
    requires numbered { AreNumbered here.now.base here.now.nets }
    requires modules { AreReady setting.now modules.now }
    requires cells { AreReadyCells setting.now cells.now }
    requires place { place < length setting.now.modules }
    ensures { (m : Module) → slice_get setting.now.modules place ≡ Some m → Does (module_step room setting.now here.now at inst.now place m) making.old making.new result }
{
    let module = setting.module_at(place);
    let ready = modules.ready(setting, place);
    let tied = stand(
        alloc,
        setting,
        here,
        at,
        inst,
        place,
        &ready.sockets,
        making,
        room,
    )?;
    let around = around_of(alloc, place, here.around)?;
    let parent = Some(here.scope);
    let name = setting.name(inst.name);
    let child = admit(
        alloc,
        setting,
        parent,
        name,
        around.as_slice(),
        module,
        ready,
        making,
    )?;
    let ports = module.ports.as_slice();
    let tied = tied.as_slice();
    do_ports(
        alloc,
        setting,
        Dir::Input,
        here,
        at,
        inst,
        &child,
        ports,
        tied,
        making,
    )?;
    do_items(alloc, setting, modules, cells, &child, room - 1, making)?;
    do_ports(
        alloc,
        setting,
        Dir::Output,
        here,
        at,
        inst,
        &child,
        ports,
        tied,
        making,
    )
}
