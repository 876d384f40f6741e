//! The rules A1 to A9, one after the other.

ghost use Rattle.std.specs.Prelude.{◌≡◌, ◌≤◌, ◌<◌, ◌+◌, ℕ, Bool, IfOk};
ghost use Rattle.design_core.specs.declared.node.NodeId.{NodeId};
ghost use Rattle.domain_groups.specs.Groups.{AreOf};
ghost use Rattle.emu_machine.specs.Acceptance.{Fails, rule_number};
ghost use Rattle.use_check.specs.Least.{IsLeast};
ghost use Rattle.shape_check.specs.ShapeCase.{shape_case};
ghost use Rattle.shape_check.specs.Verdict.{HoldBefore, IsShapeVerdict};

use crate::actions::{find_a5, find_a8};
use crate::chips::find_a1;
use crate::cycles::find_a2;
use crate::fitting::find_a7;
use crate::frames::find_a4;
use crate::unmapped::find_a9;
use crate::using::find_a6;
use crate::weights::find_a3;
use crate::{ShapeCase, Verdict};
use board_model::Board;
use clock_rank::Ranked;
use domain_groups::Groups;
use emu_io::NoMemory;
use emu_machine::{Place, Results, Rule};
use std::alloc::Global;

/// Judges any results by the rules A1 to A9: accepted where they hold, else rejected with the first that fails
/// and its least place.
///
/// The work is linear in gates and their inputs, nets, registers, memories, actions, elements and port bits,
/// and for each frame in wires, registers and memories.
pub fn judge_shape(
    alloc: Global,
    ranked: &Ranked,
    groups: &Groups,
    board: &Board,
    results: &Results,
) -> Result<Verdict, NoMemory>
    requires { AreOf ranked.now.design groups.now }
    ensures { IfOk result (λ verdict. IsShapeVerdict (shape_case ranked.now.design groups.now board.now results.now) verdict) }
{
    let case = ShapeCase::new(ranked.design(), groups, board, results);
    judge_case(alloc, &case)
}

/// The same of a case. Each rule is asked where those before it hold.
pub(crate) fn judge_case(alloc: Global, case: &ShapeCase) -> Result<Verdict, NoMemory>
    ensures { IfOk result (λ verdict. IsShapeVerdict case.now verdict) }
{
    'each: for k in 0..9u8 {
        let rule = rule_at(k);
        if let Some(place) = find_least(alloc, case, rule)? {
            return Ok(Verdict::Rejected { rule, place });
        }
    }
    Ok(Verdict::Accepted)
}

/// The rule with this number of rules before it.
fn rule_at(k: u8) -> Rule
    requires { k < 9 }
    ensures { rule_number result ≡ k + 1 }
{
    match k {
        0 => Rule::A1,
        1 => Rule::A2,
        2 => Rule::A3,
        3 => Rule::A4,
        4 => Rule::A5,
        5 => Rule::A6,
        6 => Rule::A7,
        7 => Rule::A8,
        _ => Rule::A9,
    }
}

/// The least place at which a rule fails, where those before it hold. The rules from A10 on are never asked.
fn find_least(alloc: Global, case: &ShapeCase, rule: Rule) -> Result<Option<Place>, NoMemory>
    requires shape { rule_number rule ≤ 9 }
    requires before { HoldBefore case.now (rule_number rule) }
    ensures { IfOk result (λ at. (inside : ℕ → NodeId → Bool) → IsLeast (Fails case.now inside rule) at) }
{
    match rule {
        Rule::A1 => Ok(find_a1(case)),
        Rule::A2 => find_a2(alloc, case),
        Rule::A3 => Ok(find_a3(case)),
        Rule::A4 => Ok(find_a4(case)),
        Rule::A5 => Ok(find_a5(case)),
        Rule::A6 => find_a6(alloc, case),
        Rule::A7 => Ok(find_a7(case)),
        Rule::A8 => Ok(find_a8(case)),
        Rule::A9 => find_a9(alloc, case),
        Rule::A10 | Rule::A11 | Rule::A12 => Ok(None),
    }
}
