//! The groups of a design's inputs.
ghost use Rattle.std.specs.Prelude.{◌≡◌, ◌≤◌, ◌<◌, Some, IfOk, length, slice_get, option_map, bytes_eq, position};
ghost use Rattle.design_core.specs.Design.{includes};
ghost use Rattle.domain_groups.specs.Groups.{frames, AreGroups};
ghost use Rattle.domain_groups.specs.Members.{all_seen, AreBelow, HasMembers, SetsNets};

use emu_io::{List, NoMemory, Text};
use id_arena::{GroupId, Key, NetId};
use link_rows::BitRows;
use std::alloc::Global;
use std::marker::Model;

/// The name of the group that has all inputs.
const ALL: &[u8] = b"*";

/// One group: its name, and the bits of its ports.
#[derive(Debug, Drop)]
pub(crate) struct NamedGroup {
    pub(crate) name: Text,
    pub(crate) nets: List<NetId>,
}

/// Groups of the inputs of a design. Behind them stands the group `*` of all inputs, whose number is that
/// of the groups.
///
/// A clause sees the list of the groups, and beside it the bits of all input ports.
#[derive(Drop)]
pub struct Groups {
    groups: List<NamedGroup>,
    inputs: List<NetId>,
    /// For each group, and last for `*`, which nets it has.
    members: BitRows,
}

impl Model for Groups {
    ghost use Rattle.domain_groups.specs.Groups.{InputGroups, AreGroups};
    ghost use Rattle.domain_groups.specs.Members.{all_seen, HasMembers};

    ghost Value = { InputGroups };

    ghost view = { λ g. all_seen g.groups g.inputs };

    ghost invariant = { λ g. AreGroups (all_seen g.groups g.inputs)
        × HasMembers (all_seen g.groups g.inputs) g.members };
}

impl Groups {
    /// The groups of a design of so many nets.
    pub(crate) fn from_parts(
        alloc: Global,
        groups: List<NamedGroup>,
        inputs: List<NetId>,
        nets: u32,
    ) -> Result<Groups, NoMemory>
        requires sound { AreGroups (all_seen groups inputs) }
        requires below { AreBelow nets inputs }
        ensures { IfOk result (λ made. made ≡ all_seen groups inputs) }
    {
        let members = members_of(alloc, groups.as_slice(), inputs.as_slice(), nets)?;
        Ok(Groups {
            groups,
            inputs,
            members,
        })
    }

    /// What holds of all groups, for their callers.
    pub fn stands(&self)
        ensures { AreGroups self.now }
    {
        let _ = &self.groups;
    }

    /// The number of groups, `*` not counted, at most 32.
    pub fn len(&self) -> u32
        ensures count { result ≡ length self.now.groups }
        ensures few { result ≤ 32 }
    {
        self.groups.len() as u32
    }

    /// The name of a group, which is `*` for the last.
    pub fn name(&self, g: GroupId) -> &[u8]
        requires { g.place ≤ length self.now.groups }
        ensures { option_map (λ group. group.name) (slice_get (frames self.now) g.place) ≡ Some result.now }
    {
        if g.place() < self.len() {
            self.groups.get(u64::from(g.place())).name.bytes()
        } else {
            ALL
        }
    }

    /// The bits of a group's ports; for `*` these are the bits of all input ports.
    pub fn nets(&self, g: GroupId) -> &List<NetId>
        requires { g.place ≤ length self.now.groups }
        ensures { option_map (λ group. group.nets) (slice_get (frames self.now) g.place) ≡ Some result.now }
    {
        if g.place() < self.len() {
            &self.groups.get(u64::from(g.place())).nets
        } else {
            &self.inputs
        }
    }

    /// Whether a net is a bit of one of the group's ports. Takes constant time.
    pub fn has(&self, g: GroupId, net: NetId) -> bool
        requires { g.place ≤ length self.now.groups }
        ensures { option_map (λ group. includes group.nets net.place) (slice_get (frames self.now) g.place) ≡ Some result }
    {
        net.place() < self.members.width() && self.members.test(g.place(), net.place())
    }
}

// For each group, and last for `*`, which nets it has.
fn members_of(
    alloc: Global,
    groups: &[NamedGroup],
    inputs: &[NetId],
    nets: u32,
) -> Result<BitRows, NoMemory>
    requires sound { AreGroups (all_seen groups.now inputs.now) }
    requires below { AreBelow nets inputs.now }
    ensures { IfOk result (λ members. HasMembers (all_seen groups.now inputs.now) members) }
{
    let count = groups.len() as u32;
    let mut members = BitRows::new(alloc, count + 1, nets)?;
    'groups: for k in 0..groups.len() {
        set_nets(&mut members, k as u32, groups[k].nets.as_slice());
    }
    set_nets(&mut members, count, inputs);
    Ok(members)
}

/// Sets the bits of nets in a row.
pub(crate) fn set_nets(table: &mut BitRows, row: u32, nets: &[NetId])
    requires row { row < length table.old.rows }
    requires below { AreBelow table.old.width nets.now }
    ensures { SetsNets table.old table.new row nets.now }
{
    'nets: for net in nets {
        table.set(row, net.place(), true);
    }
}
