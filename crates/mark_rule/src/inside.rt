//! Which nets an event can change, and the marks of those that it cannot.
ghost use Rattle.std.specs.Prelude.{◌≡◌, Bool};
ghost use Rattle.design_core.specs.declared.node.NodeId.{NodeId};
ghost use Rattle.design_core.specs.declared.node.NodeId.TheVariants.{Net, Write};
ghost use Rattle.emu_machine.specs.Marks.{widened};

use crate::NetMarks;
use emu_machine::Subject;
use id_arena::{MemId, NetId};

/// Tells which nets and write ports of a design are in an influence.
pub trait Inside {
    /// Whether a node is in the influence.
    ghost inside: { Self → NodeId → Bool };

    /// Whether a net is in the influence.
    fn has_net(&self, net: NetId) -> bool
        ensures { result ≡ inside self.now (Net net) };

    /// Whether a write port of a memory is in the influence.
    fn has_write(&self, mem: MemId, port: u32) -> bool
        ensures { result ≡ inside self.now (Write mem port) };
}

/// The marks of what stands for a subject: both, where there is one and the subject is a net outside the
/// influence.
pub fn widen<I: Inside>(inside: &I, what: Option<Subject>, marks: NetMarks) -> NetMarks
    ensures { result ≡ widened (I.inside inside.now) what marks }
{
    match what {
        Some(Subject::Net(net)) if marks.has_some() && !inside.has_net(net) => NetMarks::both(),
        _ => marks,
    }
}
