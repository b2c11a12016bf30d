//! What all lines of a plan say, or the cause that is reported of those for which a line is at
//! fault by itself.

ghost use Rattle.std.specs.Prelude.{◌≡◌, ◌++◌, map, IfOk, IfErr, OnOk};
ghost use Rattle.std.specs.List.{AllZip};
ghost use Rattle.hv_world.specs.Bindings.{ground_actions_view};
ghost use Rattle.hv_world.specs.WorldViews.{world_view};
ghost use Rattle.hv_plan.specs.Causes.{IsTreeFault};
ghost use Rattle.hv_plan.specs.inside.FitViews.{decomposed_view, decomposed_lines, grounded_view, AreTidy, IsDecomposed, AreFitted, IsTold, kept, cause_at};
ghost use Rattle.hv_plan.specs.inside.LineFaults.{action_entry, line_entry, earlier};
ghost use Rattle.hv_plan.specs.LineViews.{actions_view, decompositions_view, plan_view};
ghost use Rattle.hv_plan.specs.PlanTrees.{IsActionOf};
ghost use Rattle.hv_plan.specs.Shapes.{FormTree};

use crate::cause::{Cause, TreeFault, earlier};
use crate::fit::lines::DecomposedLines;
use crate::fit::{Decomposed, Grounded, LineFault, fit_action, fit_line};
use crate::plan::{ActionLines, DecompositionLines, PlanText};
use hv_text::Memory;
use hv_world::{GroundAction, GroundActions, ObjectId, World};
use std::alloc::Global;

/// What the lines of a plan say: the action of each action line, and what each
/// decomposition line says.
#[derive(Drop)]
pub(crate) struct Fits {
    pub(crate) actions: GroundActions,
    pub(crate) lines: DecomposedLines,
}

// What action lines say, and the cause that is reported of them.
#[derive(Drop)]
struct FittedActions {
    actions: GroundActions,
    cause: Option<Cause>,
}

// What decomposition lines say, and the cause that is reported of them.
#[derive(Drop)]
struct FittedLines {
    lines: DecomposedLines,
    cause: Option<Cause>,
}

// Notes what an action line says, or the cause where it comes before the one that was found. The
// list of its objects is given back, to be used again.
fn note_action(
    alloc: Global,
    actions: &mut GroundActions,
    cause: &mut Option<Cause>,
    fit: Result<Grounded, LineFault>,
    line: u32,
) -> Result<Vec<ObjectId>, Memory>
    ensures told { OnOk result (IsTold fit) }
    ensures actions { OnOk result (ground_actions_view actions.new
        ≡ ground_actions_view actions.old ++ map grounded_view (kept fit)) }
    ensures cause { OnOk result (cause.new ≡ earlier cause.old (cause_at fit line)) }
{
    match fit {
        Ok(ground) => {
            actions.push(ground.action, &ground.objects)?;
            Ok(ground.objects)
        }
        Err(LineFault::Cause(kind)) => {
            *cause = earlier(*cause, Some(Cause { kind, line }));
            Ok(Vec::new(alloc))
        }
        Err(LineFault::Memory) => Err(Memory),
    }
}

// Notes what a decomposition line says, or the cause where it comes before the one that was found.
// The list of its objects is given back, to be used again.
fn note_line(
    alloc: Global,
    lines: &mut DecomposedLines,
    cause: &mut Option<Cause>,
    fit: Result<Decomposed, LineFault>,
    line: u32,
) -> Result<Vec<ObjectId>, Memory>
    requires { AreTidy lines.old }
    ensures told { OnOk result (IsTold fit) }
    ensures lines { OnOk result (decomposed_lines lines.new
        ≡ decomposed_lines lines.old ++ map decomposed_view (kept fit)) }
    ensures tidy { OnOk result (AreTidy lines.new) }
    ensures cause { OnOk result (cause.new ≡ earlier cause.old (cause_at fit line)) }
{
    match fit {
        Ok(item) => {
            lines.push(&item)?;
            Ok(item.objects)
        }
        Err(LineFault::Cause(kind)) => {
            *cause = earlier(*cause, Some(Cause { kind, line }));
            Ok(Vec::new(alloc))
        }
        Err(LineFault::Memory) => Err(Memory),
    }
}

// The last of some actions.
fn last(actions: &GroundActions) -> Option<GroundAction<'_>> {
    actions.get(actions.len().wrapping_sub(1))
}

// What action lines say.
fn fit_actions<'s>(
    alloc: Global,
    world: &World<'s>,
    lines: &ActionLines<'s>,
) -> Result<FittedActions, Memory>
    ensures { IfOk result (λ f. AreFitted (world_view world.now) action_entry
        (IsActionOf (world_view world.now)) (actions_view lines.now) (ground_actions_view f.actions)
        f.cause) }
{
    let mut actions = GroundActions::with_capacity(alloc, lines.len())?;
    let mut cause = None;
    let mut room = Vec::new(alloc);
    for line in lines.iter() {
        let fit = fit_action(room, world, last(&actions), line);
        room = note_action(alloc, &mut actions, &mut cause, fit, line.line)?;
    }
    Ok(FittedActions { actions, cause })
}

// What decomposition lines say.
fn fit_lines<'s>(
    alloc: Global,
    world: &World<'s>,
    decompositions: &DecompositionLines<'s>,
) -> Result<FittedLines, Memory>
    ensures { IfOk result (λ f. AreFitted (world_view world.now) line_entry
        (IsDecomposed (world_view world.now)) (decompositions_view decompositions.now)
        (decomposed_lines f.lines) f.cause) }
{
    let mut lines = DecomposedLines::with_capacity(alloc, decompositions.len())?;
    let mut cause = None;
    let mut room = Vec::new(alloc);
    for line in decompositions.iter() {
        let fit = fit_line(room, world, lines.before(), line);
        room = note_line(alloc, &mut lines, &mut cause, fit, line.line)?;
    }
    Ok(FittedLines { lines, cause })
}

/// What the lines of a plan say.
///
/// # Errors
///
/// The cause of the smallest number for which a line is at fault by itself, at the first such line;
/// `Memory` where a growth was refused.
pub(crate) fn fit<'s>(
    alloc: Global,
    world: &World<'s>,
    plan: &PlanText<'s>,
) -> Result<Fits, TreeFault>
    requires { FormTree (plan_view plan.now) }
    ensures actions { IfOk result (λ f. AllZip (IsActionOf (world_view world.now))
        (plan_view plan.now).actions (ground_actions_view f.actions)) }
    ensures lines { IfOk result (λ f. AllZip (IsDecomposed (world_view world.now))
        (plan_view plan.now).decompositions (decomposed_lines f.lines)) }
    ensures err { IfErr result (IsTreeFault (world_view world.now) (plan_view plan.now)) }
{
    let FittedActions { actions, cause } = fit_actions(alloc, world, &plan.actions)?;
    let of_actions = cause;
    let FittedLines { lines, cause } = fit_lines(alloc, world, &plan.decompositions)?;
    match earlier(of_actions, cause) {
        Some(cause) => Err(TreeFault::Cause(cause)),
        None => Ok(Fits { actions, lines }),
    }
}
