//! The order of a design's nodes, or the names on its cycle.

ghost use Rattle.std.specs.Prelude.{◌+◌, ◌≡◌, ◌∷◌, [], ◌++◌, All, IfOk, OnOk};
ghost use Rattle.design_core.specs.Dependency.{IsNode};
ghost use Rattle.case_texts.specs.Cycles.{AreNodeTexts, IsNodeText, RankMeans};

use crate::refusal::{Refusal, Unread};
use clock_rank::{RankFault, Ranked, rank};
use design_core::{Design, NodeId};
use emu_io::{List, NoMemory, Text};
use id_arena::MemId;
use itoa::Buffer;
use std::alloc::Global;

/// The design with its nodes in order, or the names on the cycle of those that depend on themselves.
pub fn rank_design(alloc: Global, design: &Design) -> Result<Ranked<'_>, Unread>
    ensures { RankMeans design.now result }
{
    match rank(alloc, design) {
        Ok(ranked) => Ok(ranked),
        Err(RankFault::Cycle(nodes)) => {
            let names = node_texts(alloc, design, nodes.as_slice())?;
            Err(Unread::Refused(Refusal::Cycle(names)))
        }
        Err(RankFault::NoMemory) => Err(Unread::NoMemory),
    }
}

/// The texts that name some nodes.
fn node_texts(alloc: Global, design: &Design, nodes: &[NodeId]) -> Result<List<Text>, NoMemory>
    requires { All (IsNode design.now) nodes.now }
    ensures { IfOk result (AreNodeTexts design.now nodes.now) }
{
    let mut texts = List::new(alloc);
    'nodes: for node in nodes {
        texts.push(node_text(alloc, design, *node)?)?;
    }
    Ok(texts)
}

/// The text that names a node: a net's name, or a memory's path and the write port.
fn node_text(alloc: Global, design: &Design, node: NodeId) -> Result<Text, NoMemory>
    requires { IsNode design.now node }
    ensures { IfOk result (IsNodeText design.now node) }
{
    match node {
        NodeId::Net(net) => design.net_name(alloc, net),
        NodeId::Write(mem, port) => write_text(alloc, design, mem, port),
    }
}

/// The text that names a write node.
fn write_text(alloc: Global, design: &Design, mem: MemId, port: u32) -> Result<Text, NoMemory>
    requires { IsNode design.now (NodeId.Write mem port) }
    ensures { IfOk result (IsNodeText design.now (NodeId.Write mem port)) }
{
    let path = design.path(alloc, design.elem_of(mem))?;
    let mut buffer = Buffer::new();
    let mut text = Vec::new(alloc);
    text.extend_from_slice(path.bytes())?;
    text.extend_from_slice(b":")?;
    text.extend_from_slice(buffer.format(port).as_bytes())?;
    Ok(Text::from_vec(text))
}
