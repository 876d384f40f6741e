//! Going over a module, name by name, in the order of its text.

ghost use Rattle.std.specs.Prelude.{◌≡◌, ◌++◌, [], ◌∷◌, filter, flat_map, map, IfOk, OnOk};
ghost use Rattle.module_nets.specs.declared.mention.Role.{Role};
ghost use Rattle.module_nets.specs.Mentions.{is_kept, head_mention, head_role, item_mentions, label_mention, links_mentions, mentions, pair_mentions, place_mentions, prim_mentions, inst_mentions, uses};

use crate::mention::{Mention, Role};
use crate::sieve::Sieve;
use emu_io::{List, NoMemory};
use std::alloc::Global;
use verilog_tree::{
    AssignPair, Dir, Expr, GatePart, IndexRange, Inst, Item, Links, Module, NamedLink, NetPart,
    PortName,
};

/// Adds a mention, if it counts.
fn add(out: &mut List<Mention>, sieve: &Sieve, token: u32, role: Role) -> Result<(), NoMemory>
    ensures { OnOk result (out.new ≡ out.old ++ filter (is_kept sieve.now) (record { token = token; role = role } ∷ [])) }
{
    let mention = Mention { token, role };
    if sieve.keeps(mention) {
        out.push(mention)?;
    }
    Ok(())
}

/// Adds the whole names of an expression.
#[tactic(auto, using(crate::proofs::Gathering::uses_inside))]
#[cycle(uses)]
fn add_uses(out: &mut List<Mention>, sieve: &Sieve, expr: &Expr) -> Result<(), NoMemory>
    ensures { OnOk result (out.new ≡ out.old ++ filter (is_kept sieve.now) (uses expr.now)) }
{
    match expr {
        Expr::Whole(name) => add(out, sieve, *name, Role::Used)?,
        Expr::Bit(_, _) => {}
        Expr::Part(_, _, _) => {}
        Expr::Constant(_) => {}
        Expr::Join(parts) => add_parts(out, sieve, parts.as_slice())?,
        Expr::Repeat(_, parts) => add_parts(out, sieve, parts.as_slice())?,
    }
    Ok(())
}

/// Adds the whole names of expressions.
#[cycle(uses)]
fn add_parts(out: &mut List<Mention>, sieve: &Sieve, parts: &[Expr]) -> Result<(), NoMemory>
    ensures { OnOk result (out.new ≡ out.old ++ filter (is_kept sieve.now) (flat_map uses parts.now)) }
{
    'parts: for part in parts {
        add_uses(out, sieve, part)?;
    }
    Ok(())
}

/// Adds names with one role.
fn add_names(
    out: &mut List<Mention>,
    sieve: &Sieve,
    role: Role,
    names: &[u32],
) -> Result<(), NoMemory>
    ensures { OnOk result (out.new ≡ out.old ++ filter (is_kept sieve.now) (map (λ name. record { token = name; role = role }) names.now)) }
{
    'names: for name in names {
        add(out, sieve, *name, role)?;
    }
    Ok(())
}

/// Adds the names of wires.
fn add_wires(
    out: &mut List<Mention>,
    sieve: &Sieve,
    range: Option<IndexRange>,
    nets: &[NetPart],
) -> Result<(), NoMemory>
    ensures { OnOk result (out.new ≡ out.old ++ filter (is_kept sieve.now) (map (λ net. record { token = net.name; role = Role.Wired range }) nets.now)) }
{
    'nets: for net in nets {
        add(out, sieve, net.name, Role::Wired(range))?;
    }
    Ok(())
}

/// Adds the left sides of assignments that are whole names.
fn add_pairs(out: &mut List<Mention>, sieve: &Sieve, pairs: &[AssignPair]) -> Result<(), NoMemory>
    ensures { OnOk result (out.new ≡ out.old ++ filter (is_kept sieve.now) (flat_map pair_mentions pairs.now)) }
{
    'pairs: for pair in pairs {
        if let Expr::Whole(name) = &pair.left {
            add(out, sieve, *name, Role::Used)?;
        }
    }
    Ok(())
}

/// Adds the names of primitives and of their terminals.
fn add_prims(out: &mut List<Mention>, sieve: &Sieve, prims: &[GatePart]) -> Result<(), NoMemory>
    ensures { OnOk result (out.new ≡ out.old ++ filter (is_kept sieve.now) (flat_map prim_mentions prims.now)) }
{
    'prims: for prim in prims {
        add_label(out, sieve, prim.name)?;
        add_parts(out, sieve, prim.terminals.as_slice())?;
    }
    Ok(())
}

/// Adds the name of a primitive, if it has one.
fn add_label(out: &mut List<Mention>, sieve: &Sieve, name: Option<u32>) -> Result<(), NoMemory>
    ensures { OnOk result (out.new ≡ out.old ++ filter (is_kept sieve.now) (label_mention name)) }
{
    if let Some(name) = name {
        add(out, sieve, name, Role::Owned)?;
    }
    Ok(())
}

/// Adds the names of connections by order.
fn add_places(
    out: &mut List<Mention>,
    sieve: &Sieve,
    places: &[Option<Expr>],
) -> Result<(), NoMemory>
    ensures { OnOk result (out.new ≡ out.old ++ filter (is_kept sieve.now) (flat_map place_mentions places.now)) }
{
    'places: for place in places {
        if let Some(expr) = place {
            add_uses(out, sieve, expr)?;
        }
    }
    Ok(())
}

/// Adds the names of connections by name.
fn add_named(out: &mut List<Mention>, sieve: &Sieve, links: &[NamedLink]) -> Result<(), NoMemory>
    ensures { OnOk result (out.new ≡ out.old ++ filter (is_kept sieve.now) (flat_map (λ link. place_mentions link.expr) links.now)) }
{
    'links: for link in links {
        if let Some(expr) = &link.expr {
            add_uses(out, sieve, expr)?;
        }
    }
    Ok(())
}

/// Adds the names of connections.
fn add_links(out: &mut List<Mention>, sieve: &Sieve, links: &Links) -> Result<(), NoMemory>
    ensures { OnOk result (out.new ≡ out.old ++ filter (is_kept sieve.now) (links_mentions links.now)) }
{
    match links {
        Links::Empty => {}
        Links::Ordered(places) => add_places(out, sieve, places.as_slice())?,
        Links::Named(named) => add_named(out, sieve, named.as_slice())?,
    }
    Ok(())
}

/// Adds the names of instances and of their connections.
fn add_insts(out: &mut List<Mention>, sieve: &Sieve, insts: &[Inst]) -> Result<(), NoMemory>
    ensures { OnOk result (out.new ≡ out.old ++ filter (is_kept sieve.now) (flat_map inst_mentions insts.now)) }
{
    'insts: for inst in insts {
        add(out, sieve, inst.name, Role::Owned)?;
        add_links(out, sieve, &inst.links)?;
    }
    Ok(())
}

/// Adds the names of an item.
fn add_item(out: &mut List<Mention>, sieve: &Sieve, item: &Item) -> Result<(), NoMemory>
    ensures { OnOk result (out.new ≡ out.old ++ filter (is_kept sieve.now) (item_mentions item.now)) }
{
    match item {
        Item::Ports {
            dir,
            range,
            names,
            ..
        } => add_names(out, sieve, Role::Directed(*dir, *range), names.as_slice())?,
        Item::Nets { range, nets, .. } => add_wires(out, sieve, *range, nets.as_slice())?,
        Item::Supply { range, names, .. } => {
            add_names(out, sieve, Role::Supplied(*range), names.as_slice())?
        }
        Item::Assign { pairs, .. } => add_pairs(out, sieve, pairs.as_slice())?,
        Item::Gates { prims, .. } => add_prims(out, sieve, prims.as_slice())?,
        Item::Instances { insts, .. } => add_insts(out, sieve, insts.as_slice())?,
    }
    Ok(())
}

/// The role of a port in the header.
fn head_role(dir: Option<Dir>, range: Option<IndexRange>) -> Role
    ensures { result ≡ head_role dir range }
{
    match dir {
        Some(dir) => Role::Headed(dir, range),
        None => Role::Bare,
    }
}

/// Adds the names of a header.
fn add_header(out: &mut List<Mention>, sieve: &Sieve, ports: &[PortName]) -> Result<(), NoMemory>
    ensures { OnOk result (out.new ≡ out.old ++ filter (is_kept sieve.now) (map head_mention ports.now)) }
{
    'ports: for port in ports {
        add(out, sieve, port.name, head_role(port.dir, port.range))?;
    }
    Ok(())
}

/// Adds the names of items.
fn add_items(out: &mut List<Mention>, sieve: &Sieve, items: &[Item]) -> Result<(), NoMemory>
    ensures { OnOk result (out.new ≡ out.old ++ filter (is_kept sieve.now) (flat_map item_mentions items.now)) }
{
    'items: for item in items {
        add_item(out, sieve, item)?;
    }
    Ok(())
}

/// The names of a module that count, in the order of its text.
pub(crate) fn gather(
    alloc: Global,
    sieve: &Sieve,
    module: &Module,
) -> Result<List<Mention>, NoMemory>
    ensures { IfOk result (λ found. found ≡ filter (is_kept sieve.now) (mentions module.now)) }
{
    let mut found = List::new(alloc);
    add_header(&mut found, sieve, module.ports.as_slice())?;
    add_items(&mut found, sieve, module.items.as_slice())?;
    Ok(found)
}
