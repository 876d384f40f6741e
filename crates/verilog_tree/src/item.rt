//! Reading the items of a module.

ghost use Rattle.std.specs.Prelude.{◌≡◌, ◌<◌, ◌≤◌, ◌+◌, ◌^◌, [], ◌∷◌, IfOk, Some, length, slice_get};
ghost use Rattle.verilog_tree.specs.Grammar.{IsItem, Many};
ghost use Rattle.verilog_tree.specs.Predict.{Answers, Closed, due, inst, item, items, more, net, pair, prim, range, wire};

use crate::expression::read_range;
use crate::part::read_list;
use crate::reader::{Read, Reader, Stop};
use crate::source::{AssignPair, Dir, GatePart, Inst, Item, NetPart};
use crate::terminal::Terminal;
use emu_io::List;
use std::alloc::Global;

/// Reads the items of a module, and the word after them.
pub(crate) fn read_items(
    alloc: Global,
    reader: &Reader,
    from: u32,
) -> Result<Read<List<Item>>, Stop>
    requires { from ≤ length reader.now }
    ensures { Answers reader.now (items ∷ []) (Closed reader.now (Many (IsItem reader.now)) Terminal.EndModule) from result }
{
    let mut items = List::new(alloc);
    let mut at = from;
    'items: while !reader.is_at(at, Terminal::EndModule) {
        let item = read_item(alloc, reader, at)?;
        items.push(item.node)?;
        at = item.next;
    }
    Ok(Read {
        node: items,
        next: at + 1,
    })
}

/// Reads an item.
fn read_item(alloc: Global, reader: &Reader, at: u32) -> Result<Read<Item>, Stop>
    requires { at ≤ length reader.now }
    ensures stands { Answers reader.now (item ∷ []) (IsItem reader.now) at result }
    ensures further { IfOk result (λ r. at < r.next) }
{
    match reader.at(at) {
        Some(Terminal::Direction(dir)) => read_ports(alloc, reader, at, dir),
        Some(Terminal::Wire) => read_nets(alloc, reader, at),
        Some(Terminal::Supply(one)) => read_supply(alloc, reader, at, one),
        Some(Terminal::Assign) => read_assign(alloc, reader, at),
        Some(Terminal::Gate) => read_gates(alloc, reader, at),
        Some(Terminal::Name) => read_instances(alloc, reader, at),
        _ => Err(Stop::Stuck(at)),
    }
}

/// Reads what follows the direction of ports.
fn read_ports(alloc: Global, reader: &Reader, at: u32, dir: Dir) -> Result<Read<Item>, Stop>
    requires within { at < length reader.now }
    requires small { length reader.now < 2 ^ 32 }
    requires begun { slice_get reader.now at ≡ Some (Terminal.Direction dir) }
    ensures { Answers reader.now (wire ∷ range ∷ due Terminal.Name ∷ more (due Terminal.Name) Terminal.Semicolon ∷ []) (λ _ n i. IsItem reader.now at n i) (at + 1) result }
{
    let after = reader.skip_wire(at + 1);
    let range = read_range(reader, after)?;
    let names = read_list(alloc, reader, range.next, Terminal::Semicolon)?;
    Ok(Read {
        node: Item::Ports {
            at,
            dir,
            range: range.node,
            names: names.node,
        },
        next: names.next,
    })
}

/// Reads what follows the word of wires.
fn read_nets(alloc: Global, reader: &Reader, at: u32) -> Result<Read<Item>, Stop>
    requires within { at < length reader.now }
    requires small { length reader.now < 2 ^ 32 }
    requires begun { slice_get reader.now at ≡ Some Terminal.Wire }
    ensures { Answers reader.now (range ∷ net ∷ more net Terminal.Semicolon ∷ []) (λ _ n i. IsItem reader.now at n i) (at + 1) result }
{
    let range = read_range(reader, at + 1)?;
    let nets = read_list::<NetPart>(alloc, reader, range.next, Terminal::Semicolon)?;
    Ok(Read {
        node: Item::Nets {
            at,
            range: range.node,
            nets: nets.node,
        },
        next: nets.next,
    })
}

/// Reads what follows the word of supply nets.
fn read_supply(alloc: Global, reader: &Reader, at: u32, one: bool) -> Result<Read<Item>, Stop>
    requires within { at < length reader.now }
    requires small { length reader.now < 2 ^ 32 }
    requires begun { slice_get reader.now at ≡ Some (Terminal.Supply one) }
    ensures { Answers reader.now (range ∷ due Terminal.Name ∷ more (due Terminal.Name) Terminal.Semicolon ∷ []) (λ _ n i. IsItem reader.now at n i) (at + 1) result }
{
    let range = read_range(reader, at + 1)?;
    let names = read_list(alloc, reader, range.next, Terminal::Semicolon)?;
    Ok(Read {
        node: Item::Supply {
            at,
            one,
            range: range.node,
            names: names.node,
        },
        next: names.next,
    })
}

/// Reads what follows the word of assignments.
fn read_assign(alloc: Global, reader: &Reader, at: u32) -> Result<Read<Item>, Stop>
    requires within { at < length reader.now }
    requires small { length reader.now < 2 ^ 32 }
    requires begun { slice_get reader.now at ≡ Some Terminal.Assign }
    ensures { Answers reader.now (pair ∷ more pair Terminal.Semicolon ∷ []) (λ _ n i. IsItem reader.now at n i) (at + 1) result }
{
    let pairs = read_list::<AssignPair>(alloc, reader, at + 1, Terminal::Semicolon)?;
    Ok(Read {
        node: Item::Assign {
            at,
            pairs: pairs.node,
        },
        next: pairs.next,
    })
}

/// Reads what follows the word of a gate.
fn read_gates(alloc: Global, reader: &Reader, at: u32) -> Result<Read<Item>, Stop>
    requires within { at < length reader.now }
    requires small { length reader.now < 2 ^ 32 }
    requires begun { slice_get reader.now at ≡ Some Terminal.Gate }
    ensures { Answers reader.now (prim ∷ more prim Terminal.Semicolon ∷ []) (λ _ n i. IsItem reader.now at n i) (at + 1) result }
{
    let prims = read_list::<GatePart>(alloc, reader, at + 1, Terminal::Semicolon)?;
    Ok(Read {
        node: Item::Gates {
            at,
            prims: prims.node,
        },
        next: prims.next,
    })
}

/// Reads what follows the module's name of instances.
fn read_instances(alloc: Global, reader: &Reader, at: u32) -> Result<Read<Item>, Stop>
    requires within { at < length reader.now }
    requires small { length reader.now < 2 ^ 32 }
    requires begun { slice_get reader.now at ≡ Some Terminal.Name }
    ensures { Answers reader.now (inst ∷ more inst Terminal.Semicolon ∷ []) (λ _ n i. IsItem reader.now at n i) (at + 1) result }
{
    let insts = read_list::<Inst>(alloc, reader, at + 1, Terminal::Semicolon)?;
    Ok(Read {
        node: Item::Instances {
            at,
            insts: insts.node,
        },
        next: insts.next,
    })
}
