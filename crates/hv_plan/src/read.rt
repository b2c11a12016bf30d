//! Reading a plan from a text.

ghost use Rattle.std.specs.Prelude.{◌≡◌, ◌<◌, ◌≤◌, ◌+◌, ℕ, true, false, length, IfOk, IfErr, MatchOption};
ghost use Rattle.std.specs.List.{list_any};
ghost use Rattle.hv_plan.specs.Lines.{is_end, is_start, behind_start, before_end};
ghost use Rattle.hv_plan.specs.LineViews.{plan_view};
ghost use Rattle.hv_plan.specs.inside.Views.{lines_left, IsWithin};
ghost use Rattle.hv_plan.specs.Plans.{IsBody, IsBodyFault, IsPlanRead, IsFaultRead};
ghost use Rattle.hv_plan.specs.Shapes.{IsInTextOrder};
ghost use Rattle.hv_plan.specs.Spellings.{IsPlan, IsPlanFault};

use crate::fault::PlanFault;
use crate::form::{LineText, Room, read_line};
use crate::lines::{Lines, is_marker};
use crate::plan::{ActionLines, DecompositionLines, PlanText};
use hv_text::MOST_BYTES;
use std::alloc::Global;

/// The plan that stands between the markers of a text.
///
/// # Errors
///
/// `TooLong`, `NoStart` or `NoEnd`, else the fault of the first faulty line, else `NoRoot`. On one
/// line `BadByte` comes before `BadLine`, that before `IdTooLarge`, and that before `RepeatedRoot`.
/// `Memory` where a growth was refused.
pub fn read_plan<'s>(alloc: Global, text: &'s [u8]) -> Result<PlanText<'s>, PlanFault>
    ensures ok { IfOk result (λ p. IsPlan text.now (plan_view p)) }
    ensures order { IfOk result (λ p. IsInTextOrder (plan_view p)) }
    ensures err { IfErr result (λ f. IsPlanFault text.now f) }
{
    read_text(alloc, text)
}

// The plan that stands between the markers of a text.
fn read_text<'s>(alloc: Global, text: &'s [u8]) -> Result<PlanText<'s>, PlanFault>
    ensures ok { IfOk result (λ p. IsPlanRead text.now (plan_view p)) }
    ensures err { IfErr result (λ f. IsFaultRead text.now f) }
{
    if text.len() > MOST_BYTES {
        return Err(PlanFault::TooLong);
    }
    let Some(mut lines) = behind_start(Lines {
        left: text,
        number: 1,
    }) else {
        return Err(PlanFault::NoStart);
    };
    let plan = read_body(alloc, &mut lines);
    if !has_end(lines) {
        return Err(PlanFault::NoEnd);
    }
    plan
}

// What stands behind the first start marker.
fn behind_start<'s>(lines: Lines<'s>) -> Option<Lines<'s>>
    requires { IsWithin lines }
    ensures exact { MatchOption result (list_any is_start (lines_left lines.entry) ≡ false)
        (λ ls. list_any is_start (lines_left lines.entry) ≡ true) }
    ensures behind { MatchOption result (Unit {0})
        (λ ls. behind_start (lines_left lines.entry) ≡ lines_left ls) }
    ensures within { MatchOption result (Unit {0}) IsWithin }
{
    let mut lines = lines;
    'lines: while let Some(line) = lines.next() {
        if is_marker(line, b"==>") {
            return Some(lines);
        }
    }
    None
}

// Whether an end marker stands among the lines.
fn has_end(lines: Lines<'_>) -> bool
    requires { IsWithin lines }
    ensures { result ≡ list_any is_end (lines_left lines.entry) }
{
    let mut lines = lines;
    'lines: while let Some(line) = lines.next() {
        if is_marker(line, b"<==") {
            return true;
        }
    }
    false
}

// The plan of the lines before the first end marker, which is left, and so is what stands behind a
// line at fault.
fn read_body<'s>(alloc: Global, lines: &mut Lines<'s>) -> Result<PlanText<'s>, PlanFault>
    requires { IsWithin lines.old }
    ensures ok { IfOk result (λ p. IsBody (before_end (lines_left lines.old)) (plan_view p)) }
    ensures err { IfErr result (λ f. IsBodyFault (before_end (lines_left lines.old)) f) }
    ensures end { list_any is_end (lines_left lines.new) ≡ list_any is_end (lines_left lines.old) }
    ensures within { IsWithin lines.new }
{
    let mut actions = ActionLines::new(alloc)?;
    let mut decompositions = DecompositionLines::new(alloc)?;
    let mut root = None;
    let mut room = Room::new(alloc);
    'lines: loop {
        let mut behind = *lines;
        let Some(line) = behind.next() else {
            break;
        };
        if is_marker(line, b"<==") {
            break;
        }
        *lines = behind;
        match read_line(&mut room, line)? {
            LineText::Blank => {}
            LineText::Action(action) => actions.push(action)?,
            LineText::Decomposition(decomposition) => decompositions.push(decomposition)?,
            LineText::Root(ids, number) => {
                if root.is_some() {
                    return Err(PlanFault::RepeatedRoot(line.number));
                }
                let Ok(ids) = Vec::from_slice(alloc, ids) else {
                    return Err(PlanFault::Memory);
                };
                root = Some((ids, number));
            }
        }
    }
    match root {
        None => Err(PlanFault::NoRoot),
        Some((root, root_line)) => Ok(PlanText {
            actions,
            root,
            root_line,
            decompositions,
        }),
    }
}
