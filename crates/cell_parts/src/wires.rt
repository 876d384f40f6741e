//! The nets at the pins of one instance of a cell.

ghost use Rattle.std.specs.Prelude.{◌++◌, ◌+◌, ◌≡◌, ◌≤◌, IfOk, OnOk, length, map};
ghost use Rattle.std.specs.List.{range_with_len};
ghost use Rattle.cell_parts.specs.Wires.{net_numbered, nets_at, nets_in_order, new_count, pin_at, tied_by, wires_of};
ghost use Rattle.cell_parts.specs.Tied.{all_nets, tie_nets};

use crate::names::new_width;
use crate::pins::{Pin, Pins};
use emu_io::{List, NoMemory};
use id_arena::{Key, NetId};
use std::alloc::Global;
use std::marker::Model;

/// The pins of an instance by name, each with its nets from bit 0 on.
///
/// A clause sees the names and the nets.
#[derive(Drop)]
pub struct Wires<'p> {
    pins: &'p Pins,
    nets: List<Option<List<NetId>>>,
}

impl<'p> Model for Wires<'p> {
    ghost use Rattle.cell_parts.specs.Pins.{pin_names};
    ghost use Rattle.cell_parts.specs.Tied.{all_nets};
    ghost use Rattle.cell_parts.specs.Wires.{Wires};

    ghost Value = { Wires };

    ghost view = { λ w. record { names = pin_names w.pins.now; nets = all_nets w.nets } };
}

impl<'p> Wires<'p> {
    /// The nets of pins with these ties, one for each pin: what is connected, and new nets where nothing is.
    /// New nets have the numbers from `next` on, in the order of pins.
    pub fn new(
        alloc: Global,
        next: u32,
        pins: &'p Pins,
        ties: List<Option<List<NetId>>>,
    ) -> Result<Wires<'p>, NoMemory>
        requires together { length ties ≡ length pins.now }
        requires few { next + new_count (tied_by pins.now ties) ≤ 4294967296 }
        ensures { IfOk result (λ wires. wires ≡ wires_of next (tied_by pins.now ties)) }
    {
        let mut nets = ties;
        tie_rest(alloc, u64::from(next), pins.as_slice(), &mut nets)?;
        Ok(Wires { pins, nets })
    }

    /// The nets of the pin of this name, from bit 0 on; none where no pin has it.
    pub fn nets_at(&self, name: &[u8]) -> &[NetId]
        ensures { result.now ≡ nets_at self.now name.now }
    {
        let Some(place) = self.pins.find(name) else {
            return &[];
        };
        match self.nets.as_slice().get(place as usize) {
            Some(Some(nets)) => nets.as_slice(),
            Some(None) | None => &[],
        }
    }

    /// The net of the pin of this name, which is bit 0 of the pin; net 0 where it has none.
    pub fn pin_at(&self, name: &[u8]) -> NetId
        ensures { result ≡ pin_at self.now name.now }
    {
        match self.nets_at(name).first() {
            Some(net) => *net,
            None => NetId::of(0),
        }
    }
}

/// Gives new nets to each pin that has no tie, with the numbers from `next` on.
fn tie_rest(
    alloc: Global,
    next: u64,
    pins: &[Pin],
    ties: &mut List<Option<List<NetId>>>,
) -> Result<(), NoMemory>
    requires together { length ties.old ≡ length pins.now }
    requires few { next + new_count (tied_by pins.now ties.old) ≤ 4294967296 }
    ensures { OnOk result (all_nets ties.new ≡ nets_in_order next (tied_by pins.now ties.old)) }
{
    let mut next = next;
    'pins: for (place, pin) in pins.iter().enumerate() {
        let tie = ties.get(place as u64);
        let width = u64::from(new_width(pin, tie));
        if tie.is_none() {
            let nets = new_nets(alloc, next, width)?;
            ties.set(place as u64, Some(nets));
        }
        next += width;
    }
    Ok(())
}

/// So many nets in a row.
fn new_nets(alloc: Global, next: u64, width: u64) -> Result<List<NetId>, NoMemory>
    requires { next + width ≤ 4294967296 }
    ensures { IfOk result (λ nets. nets ≡ map net_numbered (range_with_len next width)) }
{
    let mut nets = List::new(alloc);
    'nets: for k in 0..width {
        nets.push(NetId::of((next + k) as u32))?;
    }
    Ok(nets)
}
