//! The command `check`: judges results.

ghost use Rattle.std.specs.Prelude.{◌≡◌, IfOk, length};
ghost use Rattle.domain_groups.specs.Groups.{AreOf};
ghost use Rattle.emu_app.specs.Answers.{JudgeMeans, JudgesAll};
ghost use Rattle.emu_app.specs.Command.{text_count};
ghost use Rattle.emu_app.specs.Fetching.{AreWithin, texts_of};
ghost use Rattle.emu_app.specs.Reading.{AllMean, case_of};

use crate::answer::Answer;
use crate::command::Command;
use crate::reading::{Planned, read_first, read_order, read_plan};
use accepted_law::acceptance::accepted_agrees;
use case_texts::{Unread, texts_tell_cases_apart};
use clock_rank::Ranked;
use domain_groups::Groups;
use emu_io::{List, NoMemory, Text};
use shape_check::{Verdict, judge};
use std::alloc::Global;

/// Reads the texts and judges the case that they stand for.
pub fn judge_texts(alloc: Global, top: &[u8], texts: &List<Text>) -> Result<Answer, NoMemory>
    requires count { length texts.now ≡ text_count Command.Check }
    requires within { AreWithin (texts_of Command.Check texts.now) }
    ensures { IfOk result (JudgeMeans top.now (texts_of Command.Check texts.now)) }
{
    match judge_read(alloc, top, texts) {
        Ok(found) => Ok(found),
        Err(Unread::Refused(why)) => Ok(Answer::Refused(why)),
        Err(Unread::NoMemory) => Err(NoMemory),
    }
}

/// The verdict on what the texts stand for, or why they are refused.
fn judge_read(alloc: Global, top: &[u8], texts: &List<Text>) -> Result<Answer, Unread>
    requires count { length texts.now ≡ text_count Command.Check }
    requires within { AreWithin (texts_of Command.Check texts.now) }
    ensures { AllMean Command.Check top.now (texts_of Command.Check texts.now) (JudgeMeans top.now (texts_of Command.Check texts.now)) result }
{
    texts_tell_cases_apart();
    let design = read_first(alloc, Command::Check, top, texts)?;
    let (ranked, groups) = read_order(alloc, Command::Check, top, texts, &design)?;
    let plan = read_plan(alloc, Command::Check, top, texts)?;
    let found = judge_case(alloc, &ranked, &groups, plan)?;
    Ok(found)
}

/// The verdict on a case.
fn judge_case(
    alloc: Global,
    ranked: &Ranked<'_>,
    groups: &Groups,
    plan: Planned,
) -> Result<Answer, NoMemory>
    requires { AreOf ranked.now.design groups.now }
    ensures { IfOk result (JudgesAll (case_of ranked.now.design groups.now plan)) }
{
    accepted_agrees();
    ranked.design().stands();
    ranked.stands();
    groups.stands();
    plan.results.stand();
    match judge(alloc, ranked, groups, &plan.board, &plan.results)? {
        Verdict::Accepted => Ok(Answer::Accepted {
            results: plan.results,
        }),
        Verdict::Rejected { rule, place } => Ok(Answer::Rejected { rule, place }),
    }
}
