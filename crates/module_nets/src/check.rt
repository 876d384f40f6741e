//! Judging all mentions of a module, in the order of its text.

ghost use Rattle.std.specs.Prelude.{◌≡◌, ◌<◌, IfOk, length, replicate};
ghost use Rattle.module_nets.specs.Seen.{fresh};
ghost use Rattle.module_nets.specs.Surveys.{Checks, IsSurvey};

use crate::fault::NetFault;
use crate::mention::Mention;
use crate::name::start_of;
use crate::seen::Seen;
use crate::survey::Survey;
use emu_io::{List, NoMemory};
use std::alloc::Global;

/// So many names of which nothing is seen.
fn all_fresh(alloc: Global, count: u32) -> Result<List<Seen>, NoMemory>
    ensures { IfOk result (λ seen. seen ≡ replicate count fresh) }
{
    let mut seen = Vec::with_capacity(alloc, count as usize)?;
    seen.resize(count as usize, Seen::fresh())?;
    Ok(List::from_vec(seen))
}

/// What the names of a module are seen as, or its first fault.
pub(crate) fn check(
    alloc: Global,
    survey: &Survey,
    mentions: &[Mention],
) -> Result<List<Seen>, NetFault>
    requires { IsSurvey survey.now mentions.now }
    ensures { Checks survey.now mentions.now result }
{
    let mut seen = all_fresh(alloc, survey.names.len())?;
    'mentions: for mention in mentions {
        let place = u64::from(survey.place(mention.token));
        let before = *seen.get(place);
        if let Some(cause) = survey.cause(before, *mention) {
            return Err(NetFault::Refused {
                cause,
                at: start_of(survey.tokens, mention.token),
            });
        }
        seen.set(place, before.noted(mention.role));
    }
    Ok(seen)
}
