//! How each node of an order gets its turn, told once so that a pass has little to read.

ghost use Rattle.std.specs.Prelude.{◌≡◌, ◌<◌, IfOk, IfSome};
ghost use Rattle.design_core.specs.Dependency.{IsNode};
ghost use Rattle.design_core.specs.Design.{net_count};
ghost use Rattle.design_core.specs.declared.node.NodeId.TheVariants.{Net};
ghost use Rattle.settled_model.specs.Steps.{ArePlanned, IsFollowing, IsStep};

use clock_rank::Ranked;
use design_core::{Design, Driver, Element, NodeId, Op};
use emu_io::NoMemory;
use id_arena::NetId;
use std::alloc::Global;

/// How a node gets its turn. Gates of one input, which most designs are full of, are kept whole, so that
/// a pass reads nothing else for them.
#[derive(Clone, Copy, Debug, Drop, PartialEq, Eq)]
pub(crate) enum Step {
    /// A net takes the value of the only input of its gate, inverted or as it is.
    Follow {
        net: NetId,
        input: NetId,
        inverts: bool,
    },
    /// Any other node.
    Node(NodeId),
}

/// The steps of the nodes of a ranked design, in their order.
pub(crate) fn steps_of(alloc: Global, ranked: &Ranked<'_>) -> Result<Vec<Step>, NoMemory>
    ensures { IfOk result (λ steps. ArePlanned ranked.now.design ranked.now.order steps.items) }
{
    let design = ranked.design();
    design.stands();
    ranked.stands();
    let mut steps = Vec::with_capacity(alloc, ranked.len() as usize)?;
    'places: for place in 0..ranked.len() {
        steps.push(step_of(design, ranked.at(place)))?;
    }
    Ok(steps)
}

/// The step of a node.
fn step_of(design: &Design, node: NodeId) -> Step
    requires { IsNode design.now node }
    ensures { IsStep design.now node result }
{
    match node {
        NodeId::Net(net) => step_of_net(design, net),
        NodeId::Write(..) => Step::Node(node),
    }
}

/// The step of a net, by what drives it.
fn step_of_net(design: &Design, net: NetId) -> Step
    requires { net.place < net_count design.now }
    ensures { IsStep design.now (Net net) result }
{
    let Driver::Elem(id) = design.driver(net) else {
        return Step::Node(NodeId::Net(net));
    };
    match followed(design.elem(id)) {
        Some((input, inverts)) => Step::Follow {
            net,
            input,
            inverts,
        },
        None => Step::Node(NodeId::Net(net)),
    }
}

/// The only input of a gate `buf` or `not`, and whether the gate inverts it.
fn followed(element: &Element) -> Option<(NetId, bool)>
    ensures { IfSome result (λ (input, inverts). IsFollowing element.now input inverts) }
{
    let Element::Gate { op, inputs, .. } = element else {
        return None;
    };
    let [input] = inputs.as_slice() else {
        return None;
    };
    match op {
        Op::Buf => Some((*input, false)),
        Op::Not => Some((*input, true)),
        _ => None,
    }
}
