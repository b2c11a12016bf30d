//! The shape of a plan: what stands below what, and the number of each node.
//!
//! The ids that begin lines stand in one table, in which each child is looked up once. Each step
//! drops the lists and the table that it made, before the next makes its own.

mod begins;
mod nodes;
mod numbers;
mod places;
mod repeats;
mod table;
mod walk;

ghost use Rattle.std.specs.Prelude.{◌≡◌, ◌↔◌, ◌<◌, ◌+◌, ℕ, None, true, length, IfOk, IfErr, OnOk};
ghost use Rattle.hv_lists.specs.Lists.{Once};
ghost use Rattle.hv_plan.specs.Causes.{number};
ghost use Rattle.hv_plan.specs.LineViews.{plan_view};
ghost use Rattle.hv_plan.specs.Shapes.{ids, all_children, FormTree};
ghost use Rattle.hv_plan.specs.inside.ShapeViews.{shape_view, IsShape};
ghost use Rattle.hv_plan.specs.inside.ShapeCauses.{NoneBelow, IsFirstFor, IsFormFault};
ghost use Rattle.hv_plan.specs.inside.Shaping.{line_unless, IsFirst, IsMissed, HasMetAll, is_marked, lines_of_heads, kids};
ghost use Rattle.hv_plan.specs.inside.Tables.{line_places, root_places, AreKnown, HasPlaces};
ghost use Rattle.hv_plan.specs.declared.cause.CauseKind.TheVariants as kinds;

use crate::cause::{Cause, CauseKind, TreeFault};
use crate::plan::PlanText;
use begins::{line_count, line_numbers};
use hv_text::Memory;
pub(crate) use nodes::Shape;
use numbers::{node_children, number_met, short};
use places::{Below, child_places, places_below};
use repeats::{Tabled, earlier, line_table};
use std::alloc::Global;
use table::Table;
use walk::walk_from;

/// The shape of a plan.
///
/// # Errors
///
/// `RepeatedId`, else `UnknownChild`, else `TwoParents`, else `Unreached`, each at the first line
/// at fault; `Memory` where a growth was refused.
pub(crate) fn shape_of(alloc: Global, plan: &PlanText<'_>) -> Result<Shape, TreeFault>
    ensures ok { IfOk result (λ s. FormTree (plan_view plan.now)
        × IsShape (plan_view plan.now) (shape_view s)) }
    ensures err { IfErr result (IsFormFault (plan_view plan.now)) }
{
    let table = known_lines(alloc, plan)?;
    let below = known_places(alloc, plan, table)?;
    let shape = shape_below(alloc, plan, &below)?;
    Ok(shape)
}

// The cause at a line, where there is a line.
fn none_at(plan: &PlanText<'_>, kind: CauseKind, line: Option<u32>) -> Result<(), TreeFault>
    requires below { NoneBelow (plan_view plan.now) (number kind) }
    requires first { IsFirstFor (plan_view plan.now) kind line }
    ensures ok { OnOk result (NoneBelow (plan_view plan.now) (number kind + 1)) }
    ensures none { OnOk result (line ≡ None) }
    ensures err { IfErr result (IsFormFault (plan_view plan.now)) }
{
    match line {
        None => Ok(()),
        Some(line) => Err(TreeFault::Cause(Cause { kind, line })),
    }
}

// The table of the ids that begin lines, where each begins one.
fn known_lines(alloc: Global, plan: &PlanText<'_>) -> Result<Table, TreeFault>
    ensures table { IfOk result (λ t. HasPlaces t (ids (plan_view plan.now))) }
    ensures none { OnOk result (NoneBelow (plan_view plan.now) 51) }
    ensures once { OnOk result (Once (ids (plan_view plan.now))) }
    ensures err { IfErr result (IsFormFault (plan_view plan.now)) }
{
    let Tabled { table, repeat } = line_table(alloc, plan)?;
    none_at(plan, CauseKind::RepeatedId, repeat)?;
    Ok(table)
}

// The children of each line as places, where each child begins a line and is a child once.
fn known_places(alloc: Global, plan: &PlanText<'_>, table: Table) -> Result<Below, TreeFault>
    requires table { HasPlaces table (ids (plan_view plan.now)) }
    requires none { NoneBelow (plan_view plan.now) 51 }
    ensures root { IfOk result (λ b. b.root.items ≡ root_places (plan_view plan.now)) }
    ensures lists { IfOk result (λ b. b.lists ≡ line_places (plan_view plan.now)) }
    ensures known { OnOk result (AreKnown (plan_view plan.now)) }
    ensures single { OnOk result (Once (all_children (plan_view plan.now))) }
    ensures none { OnOk result (NoneBelow (plan_view plan.now) 53) }
    ensures err { IfErr result (IsFormFault (plan_view plan.now)) }
{
    let places = child_places(alloc, plan, table)?;
    let below = places_below(alloc, plan, &places)?;
    Ok(below)
}

// The shape of a plan in which each child begins one line and is a child once.
fn shape_below(alloc: Global, plan: &PlanText<'_>, below: &Below) -> Result<Shape, TreeFault>
    requires root { below.now.root.items ≡ root_places (plan_view plan.now) }
    requires lists { below.now.lists ≡ line_places (plan_view plan.now) }
    requires once { Once (ids (plan_view plan.now)) }
    requires known { AreKnown (plan_view plan.now) }
    requires single { Once (all_children (plan_view plan.now)) }
    requires none { NoneBelow (plan_view plan.now) 53 }
    ensures ok { IfOk result (λ s. FormTree (plan_view plan.now)
        × IsShape (plan_view plan.now) (shape_view s)) }
    ensures err { IfErr result (IsFormFault (plan_view plan.now)) }
{
    let met = walk_below(alloc, plan, below)?;
    let shape = numbered(alloc, plan, met, below)?;
    Ok(shape)
}

// What a walk has met that has met all lines.
fn walk_below(alloc: Global, plan: &PlanText<'_>, below: &Below) -> Result<Vec<u32>, TreeFault>
    requires root { below.now.root.items ≡ root_places (plan_view plan.now) }
    requires lists { below.now.lists ≡ line_places (plan_view plan.now) }
    requires once { Once (ids (plan_view plan.now)) }
    requires known { AreKnown (plan_view plan.now) }
    requires none { NoneBelow (plan_view plan.now) 53 }
    ensures met { IfOk result (λ v. HasMetAll below.now.root.items
        (kids below.now.lists (length (plan_view plan.now).actions))
        (length (ids (plan_view plan.now))) v.items) }
    ensures err { IfErr result (IsFormFault (plan_view plan.now)) }
{
    let actions = plan.actions.len();
    let walk = walk_from(alloc, actions, line_count(plan), &below.root, &below.lists)?;
    let unmet = unmet_line(alloc, plan, &walk.is_met)?;
    none_at(plan, CauseKind::Unreached, unmet)?;
    Ok(walk.met)
}

// A line, where it was not met.
fn line_unless(is_met: bool, line: u32) -> Option<u32>
    ensures { result ≡ line_unless is_met line }
{
    if is_met { None } else { Some(line) }
}

// The first of lines that was not met.
fn first_unmet(is_met: &[bool], lines: &[u32]) -> Option<u32>
    requires { length is_met.now ≡ length lines.now }
    ensures { IsFirst (IsMissed (is_marked is_met.now) lines.now (length is_met.now)) result }
{
    let mut found = None;
    for place in 0..is_met.len() {
        found = earlier(found, line_unless(is_met[place], lines[place]));
    }
    found
}

// Whether all places are marked.
fn are_all(marks: &[bool]) -> bool
    ensures { (result ≡ true) ↔
        ((k : ℕ) → k < length marks.now → is_marked marks.now k ≡ true) }
{
    for mark in marks {
        if !*mark {
            return false;
        }
    }
    true
}

// The first line that was not met. The lines are gathered only where there is one.
fn unmet_line(alloc: Global, plan: &PlanText<'_>, is_met: &[bool]) -> Result<Option<u32>, Memory>
    requires { length is_met.now ≡ length (ids (plan_view plan.now)) }
    ensures { IfOk result (IsFirst (IsMissed (is_marked is_met.now)
        (lines_of_heads (plan_view plan.now)) (length is_met.now))) }
{
    if are_all(is_met) {
        return Ok(None);
    }
    let lines = line_numbers(alloc, plan)?;
    Ok(first_unmet(is_met, &lines))
}

// The shape of a plan whose lines were all met.
fn numbered(
    alloc: Global,
    plan: &PlanText<'_>,
    met: Vec<u32>,
    below: &Below,
) -> Result<Shape, Memory>
    requires root { below.now.root.items ≡ root_places (plan_view plan.now) }
    requires lists { below.now.lists ≡ line_places (plan_view plan.now) }
    requires once { Once (ids (plan_view plan.now)) }
    requires known { AreKnown (plan_view plan.now) }
    requires single { Once (all_children (plan_view plan.now)) }
    requires met { HasMetAll below.now.root.items
        (kids below.now.lists (length (plan_view plan.now).actions))
        (length (ids (plan_view plan.now))) met.items }
    ensures { IfOk result (λ s. FormTree (plan_view plan.now)
        × IsShape (plan_view plan.now) (shape_view s)) }
{
    let actions = plan.actions.len();
    let numbering = number_met(alloc, actions, below.lists.len(), met)?;
    let children = node_children(alloc, actions, &numbering, &below.root, &below.lists)?;
    let count = short(numbering.lines.len().saturating_add(1))?;
    Ok(Shape {
        root: count - 1,
        lines: numbering.lines,
        numbers: numbering.numbers,
        children,
    })
}
