//! Ids and lines, one after another.

ghost use Rattle.std.specs.Prelude.{◌≡◌, ◌<◌, ◌++◌, map, length, slice_index, IfOk, OnOk};
ghost use Rattle.std.specs.List.{flat_map};
ghost use Rattle.hv_plan.specs.LineViews.{actions_view, decompositions_view, plan_view};
ghost use Rattle.hv_plan.specs.Shapes.{ids, heads, all_children, line_parent};
ghost use Rattle.hv_plan.specs.inside.Shaping.{lines_of_heads, lines_of_children, child_lines};

use crate::plan::{ActionLines, DecompositionLines, PlanText};
use hv_text::Memory;
use std::alloc::Global;

/// How many lines there are, the root line aside.
pub(super) fn line_count(plan: &PlanText<'_>) -> usize
    ensures { result ≡ length (ids (plan_view plan.now)) }
{
    plan.actions.len() + plan.decompositions.len()
}

/// The ids that begin lines, the root line aside: those of action lines, and then those of
/// decomposition lines. The place of a line is the place of its id here.
pub(super) fn line_ids(alloc: Global, plan: &PlanText<'_>) -> Result<Vec<u64>, Memory>
    ensures { IfOk result (λ v. v.items ≡ ids (plan_view plan.now)) }
{
    let mut ids = Vec::with_capacity(alloc, line_count(plan))?;
    push_action_ids(&mut ids, &plan.actions)?;
    push_decomposition_ids(&mut ids, &plan.decompositions)?;
    Ok(ids)
}

fn push_action_ids(ids: &mut Vec<u64>, lines: &ActionLines<'_>) -> Result<(), Memory>
    ensures { OnOk result (ids.new.items ≡ ids.old.items ++ map (λ a. a.id)
        (actions_view lines.now)) }
{
    for line in lines.iter() {
        ids.push(line.id)?;
    }
    Ok(())
}

fn push_decomposition_ids(ids: &mut Vec<u64>, lines: &DecompositionLines<'_>) -> Result<(), Memory>
    ensures { OnOk result (ids.new.items ≡ ids.old.items ++ map (λ d. d.id)
        (decompositions_view lines.now)) }
{
    for line in lines.iter() {
        ids.push(line.id)?;
    }
    Ok(())
}

/// The number of the line of a place.
pub(super) fn line_at(plan: &PlanText<'_>, place: usize) -> u32
    requires { place < length (ids (plan_view plan.now)) }
    ensures { result ≡ slice_index (lines_of_heads (plan_view plan.now)) place }
{
    match place.checked_sub(plan.actions.len()) {
        None => plan.actions.at(place).line,
        Some(line) => plan.decompositions.at(line).line,
    }
}

/// The numbers of action lines and then of decomposition lines.
pub(super) fn line_numbers(alloc: Global, plan: &PlanText<'_>) -> Result<Vec<u32>, Memory>
    ensures { IfOk result (λ v. v.items ≡ lines_of_heads (plan_view plan.now)) }
{
    let mut lines = Vec::with_capacity(alloc, line_count(plan))?;
    push_action_numbers(&mut lines, &plan.actions)?;
    push_decomposition_numbers(&mut lines, &plan.decompositions)?;
    Ok(lines)
}

fn push_action_numbers(numbers: &mut Vec<u32>, lines: &ActionLines<'_>) -> Result<(), Memory>
    ensures { OnOk result (numbers.new.items
        ≡ numbers.old.items ++ map (λ a. a.line) (actions_view lines.now)) }
{
    for line in lines.iter() {
        numbers.push(line.line)?;
    }
    Ok(())
}

fn push_decomposition_numbers(
    numbers: &mut Vec<u32>,
    lines: &DecompositionLines<'_>,
) -> Result<(), Memory>
    ensures { OnOk result (numbers.new.items
        ≡ numbers.old.items ++ map (λ d. d.line) (decompositions_view lines.now)) }
{
    for line in lines.iter() {
        numbers.push(line.line)?;
    }
    Ok(())
}

/// How many children there are.
pub(super) fn child_count(plan: &PlanText<'_>) -> usize {
    let below = plan.decompositions.child_count();
    plan.root.len().saturating_add(below)
}

/// The number of the line of each child, those of the root line first.
pub(super) fn child_numbers(alloc: Global, plan: &PlanText<'_>) -> Result<Vec<u32>, Memory>
    ensures { IfOk result (λ v. v.items ≡ lines_of_children (plan_view plan.now)) }
{
    let mut lines = Vec::with_capacity(alloc, child_count(plan))?;
    push_number(&mut lines, plan.root_line, &plan.root)?;
    push_child_numbers(&mut lines, &plan.decompositions)?;
    Ok(lines)
}

fn push_child_numbers(numbers: &mut Vec<u32>, lines: &DecompositionLines<'_>) -> Result<(), Memory>
    ensures { OnOk result (numbers.new.items
        ≡ numbers.old.items ++ flat_map child_lines
        (map line_parent (decompositions_view lines.now))) }
{
    for line in lines.iter() {
        push_number(numbers, line.line, line.children)?;
    }
    Ok(())
}

// The number of a line, once for each of its children.
fn push_number(numbers: &mut Vec<u32>, line: u32, children: &[u64]) -> Result<(), Memory>
    ensures { OnOk result (numbers.new.items ≡ numbers.old.items ++ map (λ _. line) children.now) }
{
    for _child in children {
        numbers.push(line)?;
    }
    Ok(())
}
