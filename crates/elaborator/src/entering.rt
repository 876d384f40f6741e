//! Entering an instance of a module.

ghost use Rattle.std.specs.Prelude.{◌≡◌, ◌∷◌, ◌<◌, ◌≤◌, [], IfOk, OnOk, Some, length, min};
ghost use Rattle.module_nets.specs.Declarations.{width_of};
ghost use Rattle.flattening.specs.Pieces.{joined};
ghost use Rattle.flattening.specs.Places.{bit_names, index_at};
ghost use Rattle.module_bits.specs.Names.{AreNumbered};
ghost use Rattle.flattening.specs.Instances.{entering, most_modules};
ghost use Rattle.elaborator.specs.Outcomes.{Does};
ghost use Rattle.elaborator.specs.Walk.{IsReady, bit_count, declared_as, entry_piece, instance_at, names_in, nets_alone};

use crate::making::Making;
use crate::modules::Ready;
use crate::room::MOST_NETS;
use crate::setting::{Instance, Setting};
use crate::value::fault_of;
use design_core::{NetName, Scope};
use emu_io::{List, NoMemory, Text};
use flattening::ElabFault;
use flattening::laws::declarations_are_told;
use module_bits::nets_are_numbered;
use module_nets::{ModuleNets, NetFault, width_of};
use std::alloc::Global;
use verilog_tree::{IndexRange, Module};

/// The modules around an instance of the module at a place, its own first.
pub(crate) fn around_of(alloc: Global, place: u32, around: &[u32]) -> Result<List<u32>, NoMemory>
    ensures { IfOk result (λ list. list ≡ place ∷ around.now) }
{
    let mut list = List::new(alloc);
    list.push(place)?;
    'around: for other in around {
        list.push(*other)?;
    }
    Ok(list)
}

/// The fault of a module's declarations as one of the text.
fn declared(fault: NetFault) -> ElabFault
    ensures { result ≡ declared_as fault }
{
    match fault {
        NetFault::Refused { cause, at } => fault_of(cause, at),
        NetFault::NoMemory => ElabFault::NoMemory,
    }
}

/// The bits of all nets of a module; where they are more than a design may have, one more than that.
fn count_bits(nets: &ModuleNets) -> u64
    ensures { result ≡ min (bit_count nets.now.rows) 400001 }
{
    let mut count = 0;
    'nets: for place in 0..nets.len() {
        count += width_of(nets.net(place as u32).range);
        if count > MOST_NETS {
            return MOST_NETS + 1;
        }
    }
    count
}

/// The index of a bit of a range.
fn index_at(range: IndexRange, bit: u64) -> u32
    requires { bit < width_of (Some range) }
    ensures { result ≡ index_at range bit }
{
    if range.left < range.right {
        range.right - bit as u32
    } else {
        range.right + bit as u32
    }
}

/// Puts the name of a bit of a net behind all others.
fn push_bit(
    alloc: Global,
    scope: u32,
    name: &[u8],
    index: Option<u32>,
    making: &mut Making,
) -> Result<(), NoMemory>
    ensures { OnOk result (making.new ≡ joined making.old (nets_alone (record { scope = scope; name = name.now; index = index } ∷ []))) }
{
    let name = Text::from_bytes(alloc, name)?;
    making.push_net(NetName { scope, name, index })
}

/// Puts the names of the bits of a range behind all others, from bit 0 on.
fn push_range(
    alloc: Global,
    scope: u32,
    name: &[u8],
    range: IndexRange,
    making: &mut Making,
) -> Result<(), NoMemory>
    ensures { OnOk result (making.new ≡ joined making.old (nets_alone (bit_names scope name.now (Some range)))) }
{
    'bits: for bit in 0..width_of(Some(range)) {
        push_bit(alloc, scope, name, Some(index_at(range, bit)), making)?;
    }
    Ok(())
}

/// Puts the names of the bits of a net behind all others, from bit 0 on.
fn push_bits(
    alloc: Global,
    scope: u32,
    name: &[u8],
    range: Option<IndexRange>,
    making: &mut Making,
) -> Result<(), NoMemory>
    ensures { OnOk result (making.new ≡ joined making.old (nets_alone (bit_names scope name.now range))) }
{
    match range {
        None => push_bit(alloc, scope, name, None, making),
        Some(range) => push_range(alloc, scope, name, range, making),
    }
}

/// Puts the names of all nets of a module behind all others, in a scope.
fn push_own(
    alloc: Global,
    scope: u32,
    nets: &ModuleNets,
    making: &mut Making,
) -> Result<(), NoMemory>
    requires sized { length nets.now.rows ≡ length nets.now.names }
    requires few { length nets.now.rows ≤ 400000 }
    ensures { OnOk result (making.new ≡ joined making.old (nets_alone (names_in scope nets.now.names nets.now.rows))) }
{
    'nets: for place in 0..nets.len() {
        let place = place as u32;
        let range = nets.net(place).range;
        push_bits(alloc, scope, nets.name(place), range, making)?;
    }
    Ok(())
}

/// What is made where the next instance of a module is entered: the names of its nets, a scope, and the count.
fn push_entry(
    alloc: Global,
    parent: Option<u32>,
    name: &[u8],
    child: &Instance,
    making: &mut Making,
) -> Result<(), NoMemory>
    requires sized { length child.now.nets.rows ≡ length child.now.nets.names }
    requires few { length child.now.nets.rows ≤ 400000 }
    requires modules { making.old.modules < most_modules }
    ensures { OnOk result (making.new ≡ joined making.old (entry_piece parent name.now child.now)) }
{
    push_own(alloc, child.scope, child.nets, making)?;
    let name = Text::from_bytes(alloc, name)?;
    making.push_scope(Scope { parent, name })?;
    making.count_module();
    Ok(())
}

/// Enters the next instance of a module, whose place stands first among those around it: its declarations are
/// right, and its nets are not too many.
pub(crate) fn admit<'a>(
    alloc: Global,
    setting: &Setting,
    parent: Option<u32>,
    name: &[u8],
    around: &'a [u32],
    module: &'a Module,
    ready: &'a Ready,
    making: &mut Making,
) -> Result<Instance<'a>, ElabFault>
    requires ready { IsReady setting.now module.now ready.now }
    requires few { making.old.modules < most_modules }
    ensures child { IfOk result (λ child. child ≡ instance_at setting.now around.now module.now making.old) }
    ensures numbered { IfOk result (λ child. AreNumbered child.base child.nets) }
    ensures enters { Does (entering setting.now parent name.now (instance_at setting.now around.now module.now making.old)) making.old making.new result }
{
    declarations_are_told();
    nets_are_numbered();
    let nets = match &ready.nets {
        Ok(nets) => nets,
        Err(fault) => return Err(declared(*fault)),
    };
    if let Some(fault) = making.room_fault(setting.start(module.name), count_bits(nets), 0, 0) {
        return Err(fault);
    }
    let child = Instance {
        scope: making.next_scope()?,
        base: making.next_net()?,
        around,
        module_of: module,
        nets,
    };
    push_entry(alloc, parent, name, &child, making)?;
    Ok(child)
}
