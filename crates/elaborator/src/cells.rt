//! Instances of cells.

ghost use Rattle.std.specs.Prelude.{◌≡◌, ◌+◌, ◌≤◌, [], IfOk, OnOk, length};
ghost use Rattle.cell_table.specs.Sound.{IsSoundKind};
ghost use Rattle.cell_parts.specs.CellElements.{cell_memories};
ghost use Rattle.cell_parts.specs.Wires.{Wires, tied_by};
ghost use Rattle.design_core.specs.Most.{most_words};
ghost use Rattle.module_bits.specs.Names.{AreNumbered};
ghost use Rattle.flattening.specs.Cells.{cell_deed, cell_piece_with, pin_sockets};
ghost use Rattle.flattening.specs.Flattening.{cell_named, cell_step};
ghost use Rattle.flattening.specs.Pieces.{joined, nothing, performed, words_in};
ghost use Rattle.elaborator.specs.Outcomes.{Does};
ghost use Rattle.elaborator.specs.ReadyCells.{AreReadyCells, ready_of};

use crate::making::Making;
use crate::room::word_count;
use crate::setting::{Instance, Setting};
use crate::sockets::Sockets;
use crate::ties::read_links;
use cell_parts::{Pin, Pins, Wires, element_count, inner_count, new_count, pins_of, push_memory};
use cell_table::{Cell, CellKind};
use design_core::Scope;
use emu_io::{List, NoMemory, Text};
use flattening::ElabFault;
use id_arena::{CellId, Key, NetId};
use std::alloc::Global;
use verilog_tree::Inst;

/// The pins of a cell: as an instance connects them, and as its nets are made for them.
#[derive(Drop)]
pub(crate) struct ReadyCell {
    sockets: Sockets,
    pins: Pins,
}

/// What is known of each cell of the table before any instance of it is made: its pins, as sockets and as
/// pins, at the cell's place.
#[derive(Drop)]
pub(crate) struct ReadyCells {
    rows: List<ReadyCell>,
}

/// Pins as an instance connects them.
fn pin_sockets(alloc: Global, pins: &[Pin]) -> Result<Sockets, NoMemory>
    ensures { IfOk result (λ sockets. sockets ≡ pin_sockets pins.now) }
{
    let mut sockets = Sockets::new(alloc);
    'pins: for pin in pins {
        sockets = sockets.with(pin.name.bytes(), Some(u64::from(pin.width)))?;
    }
    Ok(sockets)
}

/// What is known of a cell.
fn make_ready(alloc: Global, cell: &Cell) -> Result<ReadyCell, NoMemory>
    ensures { IfOk result (λ ready. ready ≡ ready_of cell.now) }
{
    let pins = pins_of(alloc, &cell.kind)?;
    let sockets = pin_sockets(alloc, pins.as_slice())?;
    Ok(ReadyCell { sockets, pins })
}

impl ReadyCells {
    /// What is known of each cell. This takes time once for a cell, and not for each of its instances.
    pub(crate) fn new(alloc: Global, setting: &Setting) -> Result<ReadyCells, NoMemory>
        ensures { IfOk result (AreReadyCells setting.now) }
    {
        let mut rows = List::new(alloc);
        'cells: for place in 0..setting.cells.len() {
            let cell = setting.cells.cell(CellId::of(place));
            rows.push(make_ready(alloc, cell)?)?;
        }
        Ok(ReadyCells { rows })
    }
}

/// How many words the memory of an instance has; none where the cell is no memory.
#[tactic(auto, unfolding(cell_parts::specs::CellElements::cell_memories))]
fn words_of(kind: &CellKind) -> u64
    requires { IsSoundKind kind.now }
    ensures { (wires : Wires) → result ≡ words_in (cell_memories wires kind.now) }
{
    match kind {
        CellKind::Memory { address_bits, .. } => word_count(*address_bits),
        CellKind::Comb { .. }
        | CellKind::Flop { .. }
        | CellKind::Latch { .. }
        | CellKind::GateClock { .. } => 0,
    }
}

/// Puts the memory of an instance behind all others, where the cell is a memory.
fn push_own_memory(
    alloc: Global,
    wires: &Wires<'_>,
    kind: &CellKind,
    making: &mut Making,
) -> Result<(), NoMemory>
    requires sound { IsSoundKind kind.now }
    requires room { words_in making.old.memories + words_in (cell_memories wires.now kind.now) ≤ most_words }
    ensures { OnOk result (making.new ≡ joined making.old (record nothing { memories = cell_memories wires.now kind.now })) }
{
    let mut memories = List::new(alloc);
    push_memory(alloc, &mut memories, wires, kind)?;
    match memories.pop() {
        None => Ok(()),
        Some(memory) => making.push_memory(memory),
    }
}

/// Makes an instance of a cell whose pins are tied to these nets. The limits stand at the byte `at`: that on
/// nets comes first, for the nets are made before it is known how many elements there are.
fn do_tied(
    alloc: Global,
    setting: &Setting,
    here: &Instance,
    at: u32,
    inst: &Inst,
    kind: &CellKind,
    pins: &Pins,
    ties: List<Option<List<NetId>>>,
    making: &mut Making,
) -> Result<(), ElabFault>
    requires tied { length ties ≡ length pins.now }
    requires sound { IsSoundKind kind.now }
    ensures { Does (λ made. performed at (record { tests = []; piece = cell_piece_with setting.now here.now inst.now kind.now (tied_by pins.now ties) made }) made) making.old making.new result }
{
    let inner = inner_count(kind);
    let new = new_count(pins, &ties);
    if let Some(fault) = making.net_fault(at, new.saturating_add(u64::from(inner))) {
        return Err(fault);
    }
    let scope = making.next_scope()?;
    let next = making.next_net()?;
    making.push_cell_names(alloc, scope, pins, &ties, inner)?;
    let wires = Wires::new(alloc, next, pins, ties)?;
    let elements = element_count(&wires, kind);
    if let Some(fault) = making.room_fault(at, 0, elements, words_of(kind)) {
        return Err(fault);
    }
    making.push_scope(Scope {
        parent: Some(here.scope),
        name: Text::from_bytes(alloc, setting.name(inst.name))?,
    })?;
    making.push_cell_elements(alloc, scope, &wires, next + new as u32, kind)?;
    push_own_memory(alloc, &wires, kind, making)?;
    Ok(())
}

/// Does an instance of a cell of which this is known; the item begins at the byte `at`.
fn do_ready(
    alloc: Global,
    setting: &Setting,
    here: &Instance,
    at: u32,
    inst: &Inst,
    cell: &Cell,
    ready: &ReadyCell,
    making: &mut Making,
) -> Result<(), ElabFault>
    requires numbered { AreNumbered here.now.base here.now.nets }
    requires sound { IsSoundKind cell.now.kind }
    requires ready { ready.now ≡ ready_of cell.now }
    ensures { Does (λ made. performed at (cell_deed setting.now here.now inst.now cell.now made) made) making.old making.new result }
{
    let ties = read_links(alloc, setting, here, &ready.sockets, inst)?;
    do_tied(
        alloc,
        setting,
        here,
        at,
        inst,
        &cell.kind,
        &ready.pins,
        ties,
        making,
    )
}

/// Does an instance of the cell of this name; the item begins at the byte `at`.
pub(crate) fn do_cell(
    alloc: Global,
    setting: &Setting,
    cells: &ReadyCells,
    here: &Instance,
    at: u32,
    inst: &Inst,
    name: &[u8],
    making: &mut Making,
) -> Result<(), ElabFault>
    requires numbered { AreNumbered here.now.base here.now.nets }
    requires ready { AreReadyCells setting.now cells.now }
    ensures { Does (cell_step setting.now here.now at inst.now (cell_named setting.now name.now)) making.old making.new result }
{
    let Some(id) = setting.cells.find(name) else {
        return Err(ElabFault::UnknownModule { at });
    };
    let cell = setting.cells.cell(id);
    let ready = cells.rows.get(u64::from(id.place()));
    do_ready(alloc, setting, here, at, inst, cell, ready, making)
}
