//! Whether a plan that reaches the goal has a solution.

ghost use Rattle.std.specs.Prelude.{IfOk, IfErr};
ghost use Rattle.hv_world.specs.WorldViews.{world_view};
ghost use Rattle.hv_plan.specs.BuiltTrees.{tree_view};
ghost use Rattle.hv_order.specs.Certified.{Certifies};
ghost use Rattle.hv_order.specs.Settings.{BelongTogether, IsSolved};
ghost use Rattle.hv_judge.specs.Solutions.{judged_in};
ghost use Rattle.hv_judge.specs.inside.Ends.{Explains, IsEndInOrder};

use crate::not_solved::NotSolved;
use hv_certificate::Certificate;
use hv_match::Matcher;
use hv_order::certified_plans::certified_plans_are_solved;
use hv_order::solution::{has_solution, solution};
use hv_plan::Tree;
use hv_state::{BitState, Trace};
use hv_world::World;
use std::alloc::Global;

/// That a plan which reaches the goal has a solution, with its certificate where `explain` asks for
/// it, or why there is none.
pub(crate) fn find_solution<'s>(
    alloc: Global,
    world: &World<'s>,
    matcher: &Matcher<'_>,
    tree: &Tree,
    trace: &Trace<'_, BitState>,
    explain: bool,
) -> Result<Option<Certificate<'s>>, NotSolved>
    requires { BelongTogether (world_view world.now) matcher.now (tree_view tree.now) trace.now }
    ensures solved { IfOk result
        (λ _. IsSolved (judged_in (world_view world.now) (tree_view tree.now))) }
    ensures certificate { IfOk result
        (Explains explain (Certifies (judged_in (world_view world.now) (tree_view tree.now)))) }
    ensures err { IfErr result (IsEndInOrder (world_view world.now) (tree_view tree.now)) }
{
    certified_plans_are_solved();
    if explain {
        let certificate = solution(alloc, world, matcher, tree, trace)?;
        Ok(Some(certificate))
    } else {
        has_solution(alloc, world, matcher, tree, trace)?;
        Ok(None)
    }
}
