//! One pass over the nodes of a design, in an order in which each stands after all on which it depends.

ghost use Rattle.std.specs.Prelude.{◌≡◌, ◌<◌, IsTrue, length};
ghost use Rattle.design_core.specs.Dependency.{IsNode};
ghost use Rattle.design_core.specs.Design.{IsDesign, driver, net_count};
ghost use Rattle.design_core.specs.Faults.{is_there};
ghost use Rattle.design_core.specs.Limits.{IsWithin, word_count};
ghost use Rattle.settled_model.specs.declared.turn.Turn.TheVariants.{Event};
ghost use Rattle.design_core.specs.declared.node.NodeId.{NodeId};
ghost use Rattle.design_core.specs.declared.node.NodeId.TheVariants.{Write};
ghost use Rattle.settled_model.specs.Held.{AreBases, shown, word_in};
ghost use Rattle.settled_model.specs.Passing.{AreRenewed, HasRenewed, HasStored, clocked_value, driver_value};
ghost use Rattle.settled_model.specs.Steps.{ArePlanned, IsStep, IsStepThere};

use crate::clocked::{port_of, word_bit};
use crate::elements::{element_value, has_edge};
use crate::gates::value_of;
use crate::memory::store;
use crate::steps::Step;
use crate::turn::Turn;
use clock_rank::{Ranked, orders_are_sorted};
use design_core::{Design, Driver, Edge, NodeId};
use id_arena::{Key, MemId, NetId};

/// Gives each net what its driver gives it, and in an event lets each write port act. Inputs keep what
/// they have, and a bit of a read port with a clock finds in its place what it takes. The steps tell how each node of the order gets its turn.
pub(crate) fn run_pass(
    ranked: &Ranked<'_>,
    steps: &[Step],
    bases: &[usize],
    turn: Turn,
    old: &[bool],
    new: &mut [bool],
    words: &mut [u128],
)
    requires steps { ArePlanned ranked.now.design ranked.now.order steps.now }
    requires bases { AreBases ranked.now.design bases.now }
    requires old_size { length old.now ≡ net_count ranked.now.design }
    requires new_size { length new.old ≡ net_count ranked.now.design }
    requires room { length words.old ≡ word_count ranked.now.design }
    ensures { AreRenewed ranked.now.design turn old.now new.old words.old new.new words.new }
{
    let design = ranked.design();
    design.stands();
    ranked.stands();
    orders_are_sorted();
    'nodes: for place in 0..ranked.len() {
        take_step(design, bases, steps[place as usize], turn, old, new, words);
    }
}

/// Gives the node of a step its turn.
fn take_step(
    design: &Design,
    bases: &[usize],
    step: Step,
    turn: Turn,
    old: &[bool],
    new: &mut [bool],
    words: &mut [u128],
)
    requires design { IsDesign design.now }
    requires within { IsWithin design.now }
    requires bases { AreBases design.now bases.now }
    requires step { IsStepThere design.now step }
    requires old_size { length old.now ≡ net_count design.now }
    requires new_size { length new.old ≡ net_count design.now }
    requires room { length words.old ≡ word_count design.now }
    ensures { (node : NodeId) → IsStep design.now node step → HasRenewed design.now turn old.now node new.old words.old new.new words.new }
{
    match step {
        Step::Follow {
            net,
            input,
            inverts,
        } => new[net.place() as usize] = value_of(new, input) != inverts,
        Step::Node(node) => renew(design, bases, node, turn, old, new, words),
    }
}

/// Gives a node its turn.
fn renew(
    design: &Design,
    bases: &[usize],
    node: NodeId,
    turn: Turn,
    old: &[bool],
    new: &mut [bool],
    words: &mut [u128],
)
    requires design { IsDesign design.now }
    requires within { IsWithin design.now }
    requires bases { AreBases design.now bases.now }
    requires node { IsNode design.now node }
    requires old_size { length old.now ≡ net_count design.now }
    requires new_size { length new.old ≡ net_count design.now }
    requires room { length words.old ≡ word_count design.now }
    ensures { HasRenewed design.now turn old.now node new.old words.old new.new words.new }
{
    match node {
        NodeId::Net(net) => {
            new[net.place() as usize] = next_value(design, bases, net, turn, old, new, words);
        }
        NodeId::Write(mem, port) => {
            if turn == Turn::Event {
                act(design, bases, mem, port, old, new, words);
            }
        }
    }
}

/// What the driver of a net gives it, where the nodes on which it depends have had their turn.
fn next_value(
    design: &Design,
    bases: &[usize],
    net: NetId,
    turn: Turn,
    old: &[bool],
    new: &[bool],
    words: &[u128],
) -> bool
    requires design { IsDesign design.now }
    requires within { IsWithin design.now }
    requires bases { AreBases design.now bases.now }
    requires there { net.place < net_count design.now }
    requires old_size { length old.now ≡ net_count design.now }
    requires new_size { length new.now ≡ net_count design.now }
    requires room { length words.now ≡ word_count design.now }
    ensures { result ≡ driver_value design.now turn (shown new.now).net (word_in design.now words.now) (shown old.now) (shown new.now) net.place (driver design.now net.place) }
{
    match design.driver(net) {
        Driver::Constant(value) => value,
        Driver::Input => value_of(new, net),
        Driver::Elem(id) => element_value(turn, design.elem(id), old, new),
        Driver::Read(mem, port, bit) => {
            let from = (mem, port, bit);
            match port_of(design, net, from).clock {
                None => word_bit(design, bases, net, from, new, words),
                Some(edge) => clocked_value(turn, edge, net, old, new),
            }
        }
    }
}

/// What a bit of a read port with this clock gives to its net: what it takes, which stands in the place of
/// the net, where an event has the edge, else its old value.
fn clocked_value(turn: Turn, edge: Edge, net: NetId, old: &[bool], new: &[bool]) -> bool
    requires lengths { length old.now ≡ length new.now }
    requires clock { IsTrue (is_there (length new.now) edge.net) }
    requires there { IsTrue (is_there (length new.now) net) }
    ensures { result ≡ clocked_value turn (shown old.now) (shown new.now) net.place ((shown new.now).net net.place) edge }
{
    if turn == Turn::Event && has_edge(edge.net, edge.rise, old, new) {
        value_of(new, net)
    } else {
        value_of(old, net)
    }
}

/// Lets a memory's write port act in an event.
fn act(
    design: &Design,
    bases: &[usize],
    mem: MemId,
    port: u32,
    old: &[bool],
    new: &[bool],
    words: &mut [u128],
)
    requires design { IsDesign design.now }
    requires bases { AreBases design.now bases.now }
    requires node { IsNode design.now (Write mem port) }
    requires old_size { length old.now ≡ net_count design.now }
    requires new_size { length new.now ≡ net_count design.now }
    requires room { length words.old ≡ word_count design.now }
    ensures { HasStored design.now Event old.now new.now mem.place port words.old words.new }
{
    let port = design.mem(mem).writes.get(u64::from(port));
    store(port, bases[mem.place() as usize], old, new, words);
}
