//! The verdict on a plan in a world.

ghost use Rattle.std.specs.Prelude.{◌≡◌, ◌<◌, length, IfOk, IfErr};
ghost use Rattle.hv_world.specs.WorldViews.{world_view};
ghost use Rattle.hv_plan.specs.BuiltTrees.{tree_view};
ghost use Rattle.hv_plan.specs.Causes.{IsTreeFault};
ghost use Rattle.hv_plan.specs.LineViews.{plan_view};
ghost use Rattle.hv_order.specs.Settings.{HasNoPrecondition};
ghost use Rattle.hv_answer.specs.declared.answer.Verdict.TheVariants as verdicts;
ghost use Rattle.hv_judge.specs.Solutions.{HasTree, SolvesBy};
ghost use Rattle.hv_judge.specs.Verdicts.{IsVerdict};
ghost use Rattle.hv_judge.specs.inside.Ends.{Ends, Explains, run_end};

use crate::limit::first_above;
use crate::not_solved::NotSolved;
use crate::order::find_solution;
use hv_answer::{Cause, CauseKind};
use hv_certificate::Certificate;
use hv_match::Matcher;
use hv_plan::{PlanText, Tree, TreeFault};
use hv_state::{BitState, Stop, Trace};
use hv_world::World;
use std::alloc::Global;

/// The tree of a plan. The plan goes when its tree stands, which takes some times less memory.
///
/// # Errors
///
/// The cause for which its lines form no tree that fits the world, or want of memory.
pub(crate) fn tree_of<'s>(
    alloc: Global,
    world: &World<'s>,
    plan: PlanText<'s>,
) -> Result<Tree, TreeFault>
    ensures ok { IfOk result
        (λ t. HasTree (world_view world.now) (plan_view plan.entry) (tree_view t)) }
    ensures err { IfErr result (IsTreeFault (world_view world.now) (plan_view plan.entry)) }
{
    Tree::build(alloc, world, &plan)
}

// A plan with an action that is not applicable fails at that action's line.
fn stopped(stop: Stop, tree: &Tree) -> NotSolved
    ensures { result ≡ run_end (tree_view tree.now).action_lines stop }
{
    match stop {
        Stop::Inapplicable(action) => NotSolved::Fails(Cause {
            kind: CauseKind::Inapplicable,
            line: tree.action_line(action),
        }),
        Stop::Memory => NotSolved::Memory,
    }
}

/// That a plan solves the problem of a world, with its certificate where `explain` asks for it, or
/// why that is not said.
pub(crate) fn judge_plan<'s>(
    alloc: Global,
    world: &World<'s>,
    plan: PlanText<'s>,
    limit: u64,
    explain: bool,
) -> Result<Option<Certificate<'s>>, NotSolved>
    requires top { HasNoPrecondition (world_view world.now) }
    requires small { length (plan_view plan).actions < 4294967295 }
    ensures solves { IfOk result
        (λ _. IsVerdict limit verdicts.Solves (world_view world.now) (plan_view plan.entry)) }
    ensures certificate { IfOk result
        (Explains explain (SolvesBy (world_view world.now) (plan_view plan.entry))) }
    ensures err { IfErr result
        (Ends (λ v. IsVerdict limit v (world_view world.now) (plan_view plan.entry))) }
{
    let tree = tree_of(alloc, world, plan)?;
    let trace = match Trace::<BitState>::run(alloc, &*world, tree.actions()) {
        Ok(trace) => trace,
        Err(stop) => return Err(stopped(stop, &tree)),
    };
    if !trace.goal_holds() {
        return Err(NotSolved::Fails(Cause::nowhere(CauseKind::GoalFalse)));
    }
    let matcher = Matcher::new(alloc, &*world)?;
    if let Some(line) = first_above(&matcher, &tree, limit) {
        return Err(NotSolved::Undecided(line));
    }
    find_solution(alloc, world, &matcher, &tree, &trace, explain)
}
