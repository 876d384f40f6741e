//! What an event of each frame's group can change.

ghost use Rattle.std.specs.Prelude.{◌≡◌, ◌<◌, IfOk, length};
ghost use Rattle.clock_rank.specs.Numbers.{number_of};
ghost use Rattle.design_core.specs.Dependency.{IsNode};
ghost use Rattle.link_rows.specs.BitRows.{bits_at, is_set};
ghost use Rattle.design_core.specs.declared.node.NodeId.TheVariants.{Net, Write};
ghost use Rattle.domain_groups.specs.Groups.{AreOf};
ghost use Rattle.domain_groups.specs.Influences.{AreInfluences, has_write};
ghost use Rattle.shape_check.specs.Influences.{inside_of};

use clock_rank::Ranked;
use design_core::NodeId;
use domain_groups::{Groups, influence};
use emu_io::NoMemory;
use id_arena::{Key, MemId, NetId};
use link_rows::BitRows;
use mark_rule::Inside;
use std::alloc::Global;
use std::marker::Model;

/// For each frame the nodes that an event of its group can change.
#[derive(Drop)]
pub(crate) struct Influences<'a> {
    ranked: &'a Ranked<'a>,
    frames: u32,
    bits: BitRows,
}

impl<'a> Model for Influences<'a> {
    ghost use Rattle.std.specs.Prelude.{◌≡◌, length};
    ghost use Rattle.clock_rank.specs.Numbers.{all_nodes};
    ghost use Rattle.shape_check.specs.Influences.{Spread};

    ghost Value = { Spread };

    ghost view = { λ i. record { design = i.ranked.now.design; table = i.bits } };

    ghost invariant = { λ i. (i.frames ≡ length i.bits.rows)
        × (i.bits.width ≡ length (all_nodes i.ranked.now.design)) };
}

impl<'a> Influences<'a> {
    /// The influences of the groups of a design.
    pub(crate) fn new(
        alloc: Global,
        ranked: &'a Ranked<'a>,
        groups: &Groups,
    ) -> Result<Influences<'a>, NoMemory>
        requires { AreOf ranked.now.design groups.now }
        ensures design { IfOk result (λ i. i.design ≡ ranked.now.design) }
        ensures table { IfOk result (λ i. AreInfluences ranked.now.design groups.now.groups i.table) }
    {
        groups.stands();
        let bits = influence(alloc, ranked, groups)?;
        Ok(Influences {
            ranked,
            frames: groups.len() + 1,
            bits,
        })
    }

    /// Whether a frame's event can change a net, which need not be there. Takes constant time.
    pub(crate) fn has_net(&self, frame: u32, net: NetId) -> bool
        ensures { result ≡ inside_of self.now frame (Net net) }
    {
        frame < self.frames
            && net.place() < self.ranked.design().nets()
            && self.is_set(frame, NodeId::Net(net))
    }

    /// Whether a frame's event can change a write node, which need not be there. Takes constant time.
    pub(crate) fn has_write(&self, frame: u32, mem: MemId, port: u32) -> bool
        ensures { result ≡ inside_of self.now frame (Write mem port) }
    {
        frame < self.frames
            && self.is_there(mem, port)
            && self.is_set(frame, NodeId::Write(mem, port))
    }

    /// Whether the bit of a node is set in the row of a frame.
    fn is_set(&self, frame: u32, node: NodeId) -> bool
        requires frame { frame < length self.now.table.rows }
        requires node { IsNode self.now.design node }
        ensures { result ≡ is_set (bits_at self.now.table frame) (number_of self.now.design node) }
    {
        self.bits.test(frame, self.ranked.number(node))
    }

    /// Whether a memory of the design has a write port of this number.
    fn is_there(&self, mem: MemId, port: u32) -> bool
        ensures { result ≡ has_write self.now.design mem port }
    {
        let design = self.ranked.design();
        mem.place() < design.mems() && u64::from(port) < design.mem(mem).writes.len()
    }
}

/// What an event of the group of one frame can change.
#[derive(Drop)]
pub(crate) struct FrameInfluence<'a> {
    influences: &'a Influences<'a>,
    frame: u32,
}

impl<'a> Model for FrameInfluence<'a> {
    ghost use Rattle.shape_check.specs.Influences.{FrameSpread};

    ghost Value = { FrameSpread };

    ghost view = { λ i. record { spread = i.influences.now; frame = i.frame } };
}

impl<'a> FrameInfluence<'a> {
    /// That of the frame of this number.
    pub(crate) fn new(influences: &'a Influences<'a>, frame: u32) -> FrameInfluence<'a>
        ensures { result ≡ record { spread = influences.now; frame = frame } }
    {
        FrameInfluence { influences, frame }
    }
}

impl<'a> Inside for FrameInfluence<'a> {
    ghost inside = { λ i. inside_of i.spread i.frame };

    fn has_net(&self, net: NetId) -> bool {
        self.influences.has_net(self.frame, net)
    }

    fn has_write(&self, mem: MemId, port: u32) -> bool {
        self.influences.has_write(self.frame, mem, port)
    }
}
