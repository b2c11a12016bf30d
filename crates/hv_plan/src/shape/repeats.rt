//! Ids that stand twice.

ghost use Rattle.std.specs.Prelude.{◌≡◌, ◌↔◌, ◌+◌, ◌<◌, ℕ, None, true, length, get_or, slice_index, IfOk, OnOk};
ghost use Rattle.hv_lists.specs.Lists.{Once};
ghost use Rattle.hv_plan.specs.LineViews.{plan_view};
ghost use Rattle.hv_plan.specs.Shapes.{ids};
ghost use Rattle.hv_plan.specs.inside.Shaping.{again_of, earlier, lines_of_children, lines_of_heads};
ghost use Rattle.hv_plan.specs.inside.Tables.{line_again, ArePlaces, HasFirst, HasPlaces, IsLineRepeat, IsSecond, TakesIn};

use super::begins::{child_numbers, line_at, line_ids};
use super::numbers::short;
use super::table::Table;
use crate::plan::PlanText;
use hv_text::Memory;
use std::alloc::Global;

/// The places of ids, and where an id stands on two places, the later of their lines; of all these
/// lines the first.
#[derive(Drop)]
pub(super) struct Tabled {
    pub(super) table: Table,
    pub(super) repeat: Option<u32>,
}

/// The earlier of two lines, where there are lines.
pub(super) fn earlier(one: Option<u32>, other: Option<u32>) -> Option<u32>
    ensures { result ≡ earlier one other }
{
    match one {
        None => other,
        Some(line) => match other {
            None => one,
            Some(next) => Some(line.min(next)),
        },
    }
}

// Takes in the id at a place: the later of its line and the first one with the id so far, where
// there is one.
fn note(
    table: &mut Table,
    plan: &PlanText<'_>,
    begins: &[u64],
    place: usize,
) -> Result<Option<u32>, Memory>
    requires begins { place < length begins.now }
    requires lines { place < length (ids (plan_view plan.now)) }
    requires places { ArePlaces table.old begins.now place }
    ensures places { OnOk result (ArePlaces table.new begins.now (place + 1)) }
    ensures first { OnOk result
        (TakesIn table.old table.new begins.now (lines_of_heads (plan_view plan.now)) place) }
    ensures again { IfOk result
        (λ o. o ≡ line_again table.old begins.now (lines_of_heads (plan_view plan.now)) place) }
{
    let id = begins[place];
    let Some(first) = table.put(id, short(place)?)? else {
        return Ok(None);
    };
    let line = line_at(plan, place);
    let first_line = line_at(plan, first as usize);
    if first_line < line {
        table.put(id, first)?;
    }
    Ok(Some(first_line.max(line)))
}

// The table of the ids that begin lines, each with the first of its lines.
fn table_of(alloc: Global, plan: &PlanText<'_>, begins: &[u64]) -> Result<Tabled, Memory>
    requires { begins.now ≡ ids (plan_view plan.now) }
    ensures repeat { IfOk result
        (λ t. IsSecond begins.now (lines_of_heads (plan_view plan.now)) t.repeat) }
    ensures places { IfOk result (λ t. t.repeat ≡ None → HasPlaces t.table begins.now) }
{
    let mut table = Table::for_ids(alloc, begins)?;
    let mut repeat = None;
    for place in 0..begins.len() {
        let again = note(&mut table, plan, begins, place)?;
        repeat = earlier(repeat, again);
    }
    Ok(Tabled { table, repeat })
}

/// The table of the ids that begin lines; and where an id begins two lines, the later of them, of
/// all these lines the first.
pub(super) fn line_table(alloc: Global, plan: &PlanText<'_>) -> Result<Tabled, Memory>
    ensures repeat { IfOk result (λ t. IsLineRepeat (plan_view plan.now) t.repeat) }
    ensures places { IfOk result (λ t. t.repeat ≡ None
        → HasPlaces t.table (ids (plan_view plan.now))) }
{
    let begins = line_ids(alloc, plan)?;
    let tabled = table_of(alloc, plan, &begins)?;
    Ok(tabled)
}

// Takes in a place with the line that names it: the later of this line and the first one with the
// place so far, where there is one.
fn note_parent(first_lines: &mut [Option<u32>], place: usize, line: u32) -> Option<u32>
    requires { place < length first_lines.old }
    ensures size { length first_lines.new ≡ length first_lines.old }
    ensures first { HasFirst first_lines.old first_lines.new place line }
    ensures again { result ≡ again_of line (get_or first_lines.old place None) }
{
    match first_lines[place] {
        None => {
            first_lines[place] = Some(line);
            None
        }
        Some(first) => {
            first_lines[place] = Some(line.min(first));
            Some(first.max(line))
        }
    }
}

// Where a place stands twice: the later of the lines that name it; of all these lines the first.
fn second_parent(
    alloc: Global,
    count: usize,
    places: &[u32],
    lines: &[u32],
) -> Result<Option<u32>, Memory>
    requires lines { length places.now ≡ length lines.now }
    requires within { (k : ℕ) → k < length places.now → slice_index places.now k < count }
    ensures { IfOk result (IsSecond places.now lines.now) }
{
    let mut first_lines = vec![in alloc; None; count]?;
    let mut second = None;
    for k in 0..places.len() {
        let again = note_parent(&mut first_lines, places[k] as usize, lines[k]);
        second = earlier(second, again);
    }
    Ok(second)
}

// Whether none of these places, which are below a number, stands twice.
fn are_once(alloc: Global, count: usize, places: &[u32]) -> Result<bool, Memory>
    requires { (k : ℕ) → k < length places.now → slice_index places.now k < count }
    ensures { IfOk result (λ yes. (yes ≡ true) ↔ Once places.now) }
{
    let mut is_met = vec![in alloc; false; count]?;
    for place in places {
        if is_met[*place as usize] {
            return Ok(false);
        }
        is_met[*place as usize] = true;
    }
    Ok(true)
}

/// Where a place of a child stands twice, the later of the lines that name it, of all these lines
/// the first. Which line names which is not asked where none stands twice.
pub(super) fn second_line(
    alloc: Global,
    plan: &PlanText<'_>,
    count: usize,
    places: &[u32],
) -> Result<Option<u32>, Memory>
    requires lines { length places.now ≡ length (lines_of_children (plan_view plan.now)) }
    requires within { (k : ℕ) → k < length places.now → slice_index places.now k < count }
    ensures { IfOk result (IsSecond places.now (lines_of_children (plan_view plan.now))) }
{
    if are_once(alloc, count, places)? {
        return Ok(None);
    }
    let lines = child_numbers(alloc, plan)?;
    second_parent(alloc, count, places, &lines)
}
