//! Reading the groups of a design's inputs.

ghost use Rattle.std.specs.Prelude.{◌≡◌};
ghost use Rattle.case_texts.specs.Faults.{groups_refusal};
ghost use Rattle.case_texts.specs.Reading.{GroupsMean};

use crate::refusal::{GroupsFault, Refusal, Unread};
use design_core::Design;
use domain_groups::{GroupFault, Groups, read_groups};
use std::alloc::Global;

/// The answer to a text that has this fault.
fn faulty(fault: GroupsFault) -> Unread
    ensures { result ≡ Unread.Refused (Refusal.Groups fault) }
{
    Unread::Refused(Refusal::Groups(fault))
}

/// The answer to a text of which the reader of groups tells this fault.
fn groups_refusal(fault: GroupFault) -> Unread
    ensures { result ≡ groups_refusal fault }
{
    match fault {
        GroupFault::NotJson => faulty(GroupsFault::NotJson),
        GroupFault::BadShape => faulty(GroupsFault::BadShape),
        GroupFault::Limit => faulty(GroupsFault::Limit),
        GroupFault::NameTaken { group } => faulty(GroupsFault::NameTaken { group }),
        GroupFault::EmptyGroup { group } => faulty(GroupsFault::EmptyGroup { group }),
        GroupFault::NoPort { group } => faulty(GroupsFault::NoPort { group }),
        GroupFault::PortTwice { group } => faulty(GroupsFault::PortTwice { group }),
        GroupFault::NoMemory => Unread::NoMemory,
    }
}

/// The groups of a design that a text stands for, or its first fault.
pub fn read_group_list(alloc: Global, text: &[u8], design: &Design) -> Result<Groups, Unread>
    ensures { GroupsMean design.now text.now result }
{
    match read_groups(alloc, text, design) {
        Ok(groups) => Ok(groups),
        Err(fault) => Err(groups_refusal(fault)),
    }
}
