//! Task networks: subtasks with their labels, pairs of an ordering, and constraints.

ghost use Rattle.std.specs.Prelude.{◌≡◌, map, option_map};
ghost use Rattle.hv_text.specs.Trees.{tree, trees};
ghost use Rattle.hv_reading.specs.inside.Reading.{Gives, every};
ghost use Rattle.hv_reading.specs.inside.Lists.{listed};
ghost use Rattle.hv_reading.specs.inside.Networks.{labelled, subtask_of, sides, pair_of};
ghost use Rattle.hv_reading.specs.inside.Networks.{equation_of, constraint_of, listed_at};
ghost use Rattle.hv_reading.specs.inside.Networks.{subtasks_by, network_of};
ghost use Rattle.hv_syntax.specs.Views.{word_view, term_view, atom_view};
ghost use Rattle.hv_syntax.specs.NetworkViews.{subtask_view, pair_view, constraint_view};
ghost use Rattle.hv_syntax.specs.NetworkViews.{network_view};

use crate::field::{Slot, field};
use crate::list::{conjuncts, negated, two};
use crate::refusal::Refusal;
use crate::term::{read_atom, read_term};
use crate::word::{is_the_word, read_symbol};
use hv_syntax::{ConstraintText, NetworkText, PairText, SubtaskText, TermText};
use hv_text::Sexp;
use std::alloc::Global;

// The label and the task of a list of an expression and a list.
fn labelled<'a, 's>(e: &'a Sexp<'s>) -> Option<(&'a Sexp<'s>, &'a Sexp<'s>)>
    ensures { option_map (λ p. (tree p.0.now, tree p.1.now)) result ≡ labelled (tree e.now) }
{
    let Sexp::List(members, _) = e else {
        return None;
    };
    let (label, task) = two(members)?;
    match task {
        Sexp::Word(..) => None,
        Sexp::List(..) => Some((label, task)),
    }
}

// A task, or a label and a task.
fn read_subtask<'s>(alloc: Global, e: &Sexp<'s>) -> Result<SubtaskText<'s>, Refusal>
    ensures { Gives subtask_view result (subtask_of (tree e.now)) }
{
    match labelled(e) {
        Some((label, task)) => {
            let label = read_symbol(label)?;
            let task = read_atom(alloc, task)?;
            Ok(SubtaskText::new(Some(label), task))
        }
        None => {
            let task = read_atom(alloc, e)?;
            Ok(SubtaskText::new(None, task))
        }
    }
}

// The two others of three members, where the first or the second of them is `<`.
fn sides<'a, 's>(e: &'a Sexp<'s>) -> Option<(&'a Sexp<'s>, &'a Sexp<'s>)>
    ensures { option_map (λ p. (tree p.0.now, tree p.1.now)) result ≡ sides (tree e.now) }
{
    let Sexp::List(members, _) = e else {
        return None;
    };
    match members.as_slice() {
        [] => None,
        [first, others @ ..] => {
            let (second, third) = two(others)?;
            if is_the_word(first, b"<") {
                Some((second, third))
            } else if is_the_word(second, b"<") {
                Some((first, third))
            } else {
                None
            }
        }
    }
}

// `(< symbol symbol)` or `(symbol < symbol)`.
fn read_pair<'s>(e: &Sexp<'s>) -> Result<PairText<'s>, Refusal>
    ensures { Gives pair_view result (pair_of (tree e.now)) }
{
    let Some((earlier, later)) = sides(e) else {
        return Err(Refusal::NoSpelling);
    };
    let earlier = read_symbol(earlier)?;
    let later = read_symbol(later)?;
    Ok(PairText::new(earlier, later))
}

// The terms of `(= term term)`.
fn read_equation<'s>(e: &Sexp<'s>) -> Result<(TermText<'s>, TermText<'s>), Refusal>
    ensures { Gives (λ p. (term_view p.0, term_view p.1)) result (equation_of (tree e.now)) }
{
    let Sexp::List(members, _) = e else {
        return Err(Refusal::NoSpelling);
    };
    match members.as_slice() {
        [] => Err(Refusal::NoSpelling),
        [first, others @ ..] => {
            let Some((left, right)) = two(others) else {
                return Err(Refusal::NoSpelling);
            };
            if !is_the_word(first, b"=") {
                return Err(Refusal::NoSpelling);
            }
            let left = read_term(left)?;
            let right = read_term(right)?;
            Ok((left, right))
        }
    }
}

// `(= term term)`, or its negation.
fn read_constraint<'s>(e: &Sexp<'s>) -> Result<ConstraintText<'s>, Refusal>
    ensures { Gives constraint_view result (constraint_of (tree e.now)) }
{
    match negated(e) {
        Some(part) => {
            let (left, right) = read_equation(part)?;
            Ok(ConstraintText::new(false, left, right))
        }
        None => {
            let (left, right) = read_equation(e)?;
            Ok(ConstraintText::new(true, left, right))
        }
    }
}

fn read_subtasks<'s>(alloc: Global, es: &[Sexp<'s>]) -> Result<Vec<SubtaskText<'s>>, Refusal>
    ensures { Gives (λ v. map subtask_view v.items) result (every subtask_of (trees es.now)) }
{
    let mut subtasks = Vec::with_capacity(alloc, es.len())?;
    for e in es {
        subtasks.push(read_subtask(alloc, e)?)?;
    }
    Ok(subtasks)
}

fn read_pairs<'s>(alloc: Global, es: &[Sexp<'s>]) -> Result<Vec<PairText<'s>>, Refusal>
    ensures { Gives (λ v. map pair_view v.items) result (every pair_of (trees es.now)) }
{
    let mut pairs = Vec::with_capacity(alloc, es.len())?;
    for e in es {
        pairs.push(read_pair(e)?)?;
    }
    Ok(pairs)
}

fn read_constraints<'s>(alloc: Global, es: &[Sexp<'s>]) -> Result<Vec<ConstraintText<'s>>, Refusal>
    ensures { Gives (λ v. map constraint_view v.items) result (every constraint_of (trees es.now)) }
{
    let mut constraints = Vec::with_capacity(alloc, es.len())?;
    for e in es {
        constraints.push(read_constraint(e)?)?;
    }
    Ok(constraints)
}

// `()`, a subtask, or subtasks behind `and`.
fn read_listed_subtasks<'s>(alloc: Global, e: &Sexp<'s>) -> Result<Vec<SubtaskText<'s>>, Refusal>
    ensures { Gives (λ v. map subtask_view v.items) result (listed subtask_of (tree e.now)) }
{
    match conjuncts(e) {
        Some(es) => read_subtasks(alloc, es),
        None => {
            let mut one = Vec::with_capacity(alloc, 1)?;
            one.push(read_subtask(alloc, e)?)?;
            Ok(one)
        }
    }
}

// `()`, a pair, or pairs behind `and`; none where the field is absent.
fn read_ordering<'s>(alloc: Global, e: Option<&Sexp<'s>>) -> Result<Vec<PairText<'s>>, Refusal>
    ensures { Gives (λ v. map pair_view v.items) result
        (listed_at pair_of (option_map (λ e. tree e.now) e.entry)) }
{
    let Some(e) = e else {
        return Ok(Vec::new(alloc));
    };
    match conjuncts(e) {
        Some(es) => read_pairs(alloc, es),
        None => {
            let mut one = Vec::with_capacity(alloc, 1)?;
            one.push(read_pair(e)?)?;
            Ok(one)
        }
    }
}

// `()`, a constraint, or constraints behind `and`; none where the field is absent.
fn read_constraints_at<'s>(
    alloc: Global,
    e: Option<&Sexp<'s>>,
) -> Result<Vec<ConstraintText<'s>>, Refusal>
    ensures { Gives (λ v. map constraint_view v.items) result
        (listed_at constraint_of (option_map (λ e. tree e.now) e.entry)) }
{
    let Some(e) = e else {
        return Ok(Vec::new(alloc));
    };
    match conjuncts(e) {
        Some(es) => read_constraints(alloc, es),
        None => {
            let mut one = Vec::with_capacity(alloc, 1)?;
            one.push(read_constraint(e)?)?;
            Ok(one)
        }
    }
}

// The subtasks of one of the two forms, and whether it orders them; none where both are absent.
fn read_form<'s>(
    alloc: Global,
    unordered: Option<&Sexp<'s>>,
    ordered: Option<&Sexp<'s>>,
) -> Result<(bool, Vec<SubtaskText<'s>>), Refusal>
    ensures { Gives (λ p. (p.0, map subtask_view p.1.items)) result
        (subtasks_by (option_map (λ e. tree e.now) unordered.entry)
        (option_map (λ e. tree e.now) ordered.entry)) }
{
    match unordered {
        None => match ordered {
            None => Ok((false, Vec::new(alloc))),
            Some(e) => {
                let subtasks = read_listed_subtasks(alloc, e)?;
                Ok((true, subtasks))
            }
        },
        Some(e) => match ordered {
            None => {
                let subtasks = read_listed_subtasks(alloc, e)?;
                Ok((false, subtasks))
            }
            Some(_) => Err(Refusal::NoSpelling),
        },
    }
}

/// Reads the network that fields spell.
///
/// # Errors
///
/// `NoSpelling` where a field of a network has another form, or both forms of subtasks
/// stand, and `Memory`.
pub(crate) fn read_network<'s>(
    alloc: Global,
    fields: &[Sexp<'s>],
) -> Result<NetworkText<'s>, Refusal>
    ensures { Gives network_view result (network_of (trees fields.now)) }
{
    let pairs = read_ordering(alloc, field(Slot::Ordering, fields))?;
    let constraints = read_constraints_at(alloc, field(Slot::Constraints, fields))?;
    let (is_ordered, subtasks) = read_form(
        alloc,
        field(Slot::Subtasks, fields),
        field(Slot::OrderedSubtasks, fields),
    )?;
    Ok(NetworkText::new(subtasks, is_ordered, pairs, constraints))
}
