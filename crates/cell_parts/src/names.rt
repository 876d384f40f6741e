//! How many new nets an instance needs, and their names.

ghost use Rattle.std.specs.Prelude.{[], ◌++◌, ◌∷◌, ◌≡◌, OnOk, flat_map, length};
ghost use Rattle.cell_parts.specs.Wires.{indexed_names, inner_names, new_count, new_indices, new_names, new_width, tied_by};

use crate::pins::{Pin, Pins};
use design_core::NetName;
use emu_io::{List, NoMemory, Text};
use id_arena::NetId;
use std::alloc::Global;

/// How many new nets a pin with this tie needs.
pub(crate) fn new_width(pin: &Pin, tie: &Option<List<NetId>>) -> u32
    ensures { result ≡ new_width (record { pin = pin.now; tie = tie.now }) }
{
    if tie.is_none() && pin.needed {
        pin.width
    } else {
        0
    }
}

/// How many new nets the pins need together: as many as each is wide that is not connected and needs nets.
pub fn new_count(pins: &Pins, ties: &List<Option<List<NetId>>>) -> u64
    requires { length ties.now ≡ length pins.now }
    ensures { result ≡ new_count (tied_by pins.now ties.now) }
{
    let _few = pins.len();
    let mut count = 0;
    'pins: for (place, pin) in pins.as_slice().iter().enumerate() {
        count += u64::from(new_width(pin, ties.get(place as u64)));
    }
    count
}

/// Adds the names of the new nets, in the order of pins: that of the pin, with an index where it is wide.
pub fn push_new_names(
    alloc: Global,
    out: &mut List<NetName>,
    scope: u32,
    pins: &Pins,
    ties: &List<Option<List<NetId>>>,
) -> Result<(), NoMemory>
    requires { length ties.now ≡ length pins.now }
    ensures { OnOk result (out.new ≡ out.old ++ flat_map (new_names scope) (tied_by pins.now ties.now)) }
{
    'pins: for (place, pin) in pins.as_slice().iter().enumerate() {
        let width = new_width(pin, ties.get(place as u64));
        push_pin_names(alloc, out, scope, pin.name.bytes(), width)?;
    }
    Ok(())
}

/// Adds the names of the new nets of one pin, of which there are so many.
fn push_pin_names(
    alloc: Global,
    out: &mut List<NetName>,
    scope: u32,
    name: &[u8],
    width: u32,
) -> Result<(), NoMemory>
    ensures { OnOk result (out.new ≡ out.old ++ indexed_names scope name.now (new_indices width)) }
{
    if width == 1 {
        return push_name(alloc, out, scope, name, None);
    }
    'bits: for bit in 0..width {
        push_name(alloc, out, scope, name, Some(bit))?;
    }
    Ok(())
}

/// Adds the names of so many inner nets.
pub fn push_inner_names(
    alloc: Global,
    out: &mut List<NetName>,
    scope: u32,
    count: u32,
) -> Result<(), NoMemory>
    ensures { OnOk result (out.new ≡ out.old ++ inner_names scope count) }
{
    'nets: for _ in 0..count {
        push_name(alloc, out, scope, b"$", None)?;
    }
    Ok(())
}

/// Adds one name.
fn push_name(
    alloc: Global,
    out: &mut List<NetName>,
    scope: u32,
    name: &[u8],
    index: Option<u32>,
) -> Result<(), NoMemory>
    ensures { OnOk result (out.new ≡ out.old ++ record { scope = scope; name = name.now; index = index } ∷ []) }
{
    let name = Text::from_bytes(alloc, name)?;
    out.push(NetName { scope, name, index })
}
