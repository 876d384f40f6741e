//! The judge of all twelve rules.

ghost use Rattle.std.specs.Prelude.{IfOk};
ghost use Rattle.domain_groups.specs.Groups.{AreOf};
ghost use Rattle.domain_groups.specs.Influences.{AreInfluences};
ghost use Rattle.shape_check.specs.Influences.{inside_of};
ghost use Rattle.shape_check.specs.ShapeCase.{shape_case};
ghost use Rattle.shape_check.specs.Verdict.{HoldBefore, IsVerdict, IsVerdictOn};

use crate::actions::find_a10;
use crate::following::find_a11;
use crate::influences::Influences;
use crate::judging::judge_case;
use crate::outputs::find_a12;
use crate::{ShapeCase, Verdict};
use board_model::Board;
use clock_rank::Ranked;
use domain_groups::Groups;
use emu_io::NoMemory;
use emu_machine::{Results, Rule};
use std::alloc::Global;

/// Judges any results by the twelve rules: accepted where they hold, else rejected with the first that fails
/// and its least place.
///
/// Beside the work of [`judge_shape`](crate::judge_shape) that is one step for each dependency of the design and
/// each group, for each frame a step for each gate, net and action, and for each slot a step for each gate of which
/// an input changed its marks.
pub fn judge(
    alloc: Global,
    ranked: &Ranked,
    groups: &Groups,
    board: &Board,
    results: &Results,
) -> Result<Verdict, NoMemory>
    requires { AreOf ranked.now.design groups.now }
    ensures { IfOk result (λ verdict. IsVerdict (shape_case ranked.now.design groups.now board.now results.now) verdict) }
{
    let case = ShapeCase::new(ranked.design(), groups, board, results);
    let influences = Influences::new(alloc, ranked, groups)?;
    judge_whole(alloc, &case, &influences)
}

/// The same, where the influences of the groups are known.
fn judge_whole<'a>(
    alloc: Global,
    case: &'a ShapeCase<'a>,
    influences: &'a Influences<'a>,
) -> Result<Verdict, NoMemory>
    requires { AreInfluences case.now.design case.now.groups influences.now.table }
    ensures { IfOk result (λ verdict. IsVerdictOn case.now (inside_of influences.now) verdict) }
{
    match judge_case(alloc, case)? {
        Verdict::Accepted => judge_marks(alloc, case, influences),
        Verdict::Rejected { rule, place } => Ok(Verdict::Rejected { rule, place }),
    }
}

/// The rules from A10 on, where those before them hold.
fn judge_marks<'a>(
    alloc: Global,
    case: &'a ShapeCase<'a>,
    influences: &'a Influences<'a>,
) -> Result<Verdict, NoMemory>
    requires { HoldBefore case.now 10 }
    ensures { IfOk result (λ verdict. IsVerdictOn case.now (inside_of influences.now) verdict) }
{
    if let Some(place) = find_a10(case, influences) {
        return Ok(Verdict::Rejected {
            rule: Rule::A10,
            place,
        });
    }
    if let Some(place) = find_a11(alloc, case, influences)? {
        return Ok(Verdict::Rejected {
            rule: Rule::A11,
            place,
        });
    }
    match find_a12(alloc, case)? {
        Some(place) => Ok(Verdict::Rejected {
            rule: Rule::A12,
            place,
        }),
        None => Ok(Verdict::Accepted),
    }
}
