//! The places of children.

ghost use Rattle.std.specs.Prelude.{◌≡◌, ◌↔◌, ◌++◌, ◌<◌, ℕ, true, length, slice_index, unwrap_or, IfOk, IfErr, OnOk};
ghost use Rattle.hv_lists.specs.Lists.{Once};
ghost use Rattle.hv_plan.specs.LineViews.{decompositions_view, plan_view};
ghost use Rattle.hv_plan.specs.Shapes.{ids, all_children};
ghost use Rattle.hv_plan.specs.inside.Shaping.{lines_of_children};
ghost use Rattle.hv_plan.specs.inside.ShapeCauses.{NoneBelow, IsFormFault};
ghost use Rattle.hv_plan.specs.inside.Tables.{child_places, line_children, line_places, place_by, places_by, places_of_rest, root_places, AreKnown, HasPlaces, IsUnplaced};

use super::begins::{child_count, child_numbers, line_count};
use super::numbers::short;
use super::repeats::{earlier, second_line};
use super::table::Table;
use super::{line_unless, none_at};
use crate::cause::{CauseKind, TreeFault};
use crate::plan::{DecompositionLines, PlanText};
use hv_text::{Lists, Memory};
use std::alloc::Global;

/// The children of the root line and those of each decomposition line, as places.
#[derive(Drop)]
pub(super) struct Below {
    pub(super) root: Vec<u32>,
    pub(super) lists: Lists<u32>,
}

// The place of an id; a number of lines where it begins none of them.
fn place_of(table: &Table, count: u32, id: u64) -> u32
    ensures { result ≡ unwrap_or (place_by table.now id) count }
{
    match table.get(id) {
        Some(place) => place,
        None => count,
    }
}

// Pushes the places of ids; a number of lines for those that begin none of them.
fn push_places(places: &mut Vec<u32>, table: &Table, count: u32, ids: &[u64]) -> Result<(), Memory>
    ensures { OnOk result (places.new.items
        ≡ places.old.items ++ places_by table.now count ids.now) }
{
    for id in ids {
        places.push(place_of(table, count, *id))?;
    }
    Ok(())
}

// Pushes those of the children of decomposition lines.
fn push_places_below(
    places: &mut Vec<u32>,
    table: &Table,
    count: u32,
    lines: &DecompositionLines<'_>,
) -> Result<(), Memory>
    ensures { OnOk result (places.new.items ≡ places.old.items
        ++ places_by table.now count (line_children (decompositions_view lines.now))) }
{
    for line in lines.iter() {
        push_places(places, table, count, line.children)?;
    }
    Ok(())
}

// Those of all children, the children of the root line first.
fn places_of_all(
    alloc: Global,
    plan: &PlanText<'_>,
    table: &Table,
    count: u32,
) -> Result<Vec<u32>, Memory>
    ensures { IfOk result
        (λ v. v.items ≡ places_by table.now count (all_children (plan_view plan.now))) }
{
    let mut places = Vec::with_capacity(alloc, child_count(plan))?;
    push_places(&mut places, table, count, &plan.root)?;
    push_places_below(&mut places, table, count, &plan.decompositions)?;
    Ok(places)
}

// The first line that names a child which begins none of so many lines.
fn unknown_child(count: usize, places: &[u32], lines: &[u32]) -> Option<u32>
    requires { length places.now ≡ length lines.now }
    ensures { IsUnplaced count places.now lines.now result }
{
    let mut unknown = None;
    for k in 0..places.len() {
        unknown = earlier(unknown, line_unless((places[k] as usize) < count, lines[k]));
    }
    unknown
}

// Whether all places are below a number.
fn are_below(count: usize, places: &[u32]) -> bool
    ensures { (result ≡ true) ↔
        ((k : ℕ) → k < length places.now → slice_index places.now k < count) }
{
    for place in places {
        if *place as usize >= count {
            return false;
        }
    }
    true
}

// The first line that names a child which begins none of so many lines, where these are the places
// of all children. Which line names which is not asked where each of them begins one.
fn unknown_line(
    alloc: Global,
    plan: &PlanText<'_>,
    count: usize,
    places: &[u32],
) -> Result<Option<u32>, Memory>
    requires { length places.now ≡ length (lines_of_children (plan_view plan.now)) }
    ensures { IfOk result
        (IsUnplaced count places.now (lines_of_children (plan_view plan.now))) }
{
    if are_below(count, places) {
        return Ok(None);
    }
    let lines = child_numbers(alloc, plan)?;
    Ok(unknown_child(count, places, &lines))
}

// Whether each child begins a line and is a child once, where these are the places of all children.
fn check_places(alloc: Global, plan: &PlanText<'_>, places: &[u32]) -> Result<(), TreeFault>
    requires places { places.now ≡ child_places (plan_view plan.now) }
    requires none { NoneBelow (plan_view plan.now) 51 }
    ensures known { OnOk result (AreKnown (plan_view plan.now)) }
    ensures single { OnOk result (Once (all_children (plan_view plan.now))) }
    ensures none { OnOk result (NoneBelow (plan_view plan.now) 53) }
    ensures err { IfErr result (IsFormFault (plan_view plan.now)) }
{
    let count = line_count(plan);
    let unknown = unknown_line(alloc, plan, count, places)?;
    none_at(plan, CauseKind::UnknownChild, unknown)?;
    let second = second_line(alloc, plan, count, places)?;
    none_at(plan, CauseKind::TwoParents, second)?;
    Ok(())
}

/// The places of all children, where each begins a line and is a child once.
///
/// # Errors
///
/// `UnknownChild`, else `TwoParents`, each at the first line at fault; `Memory` where a
/// growth was refused.
pub(super) fn child_places(
    alloc: Global,
    plan: &PlanText<'_>,
    table: Table,
) -> Result<Vec<u32>, TreeFault>
    requires table { HasPlaces table (ids (plan_view plan.now)) }
    requires none { NoneBelow (plan_view plan.now) 51 }
    ensures places { IfOk result (λ v. v.items ≡ child_places (plan_view plan.now)) }
    ensures known { OnOk result (AreKnown (plan_view plan.now)) }
    ensures single { OnOk result (Once (all_children (plan_view plan.now))) }
    ensures none { OnOk result (NoneBelow (plan_view plan.now) 53) }
    ensures err { IfErr result (IsFormFault (plan_view plan.now)) }
{
    let count = short(line_count(plan))?;
    let places = places_of_all(alloc, plan, &table, count)?;
    check_places(alloc, plan, &places)?;
    Ok(places)
}

// The places of the children of each decomposition line, from those of all of them.
fn lists_of(alloc: Global, plan: &PlanText<'_>, places: &[u32]) -> Result<Lists<u32>, Memory>
    requires { places.now ≡ places_of_rest (plan_view plan.now) }
    ensures { IfOk result (λ ls. ls ≡ line_places (plan_view plan.now)) }
{
    let mut lists = Lists::with_capacity(alloc, plan.decompositions.len())?;
    let mut left = places;
    for line in plan.decompositions.iter() {
        let (own, others) = left.split_at(line.children.len());
        lists.push(own)?;
        left = others;
    }
    Ok(lists)
}

/// The places of the children of each line, from those of all children.
///
/// # Errors
///
/// `Memory` where a growth was refused.
pub(super) fn places_below(
    alloc: Global,
    plan: &PlanText<'_>,
    places: &[u32],
) -> Result<Below, Memory>
    requires { places.now ≡ child_places (plan_view plan.now) }
    ensures root { IfOk result (λ b. b.root.items ≡ root_places (plan_view plan.now)) }
    ensures lists { IfOk result (λ b. b.lists ≡ line_places (plan_view plan.now)) }
{
    let (own, others) = places.split_at(plan.root.len());
    let mut root = Vec::with_capacity(alloc, own.len())?;
    root.extend_from_slice(own)?;
    let lists = lists_of(alloc, plan, others)?;
    Ok(Below { root, lists })
}
