//! Task networks.

ghost use Rattle.std.specs.Prelude.{◌≡◌, ◌++◌, map, OnOk, codes};
ghost use Rattle.hv_text.specs.Trees.{none};
ghost use Rattle.hv_reading.specs.Canonical.{text, spaced, each, conjunction, equation};
ghost use Rattle.hv_reading.specs.Canonical.{subtask_expression, pair_expression};
ghost use Rattle.hv_reading.specs.Canonical.{constraint_expression, subtasks_keyword, with_members};
ghost use Rattle.hv_reading.specs.Canonical.{network_fields};
ghost use Rattle.hv_syntax.specs.Views.{term_view};
ghost use Rattle.hv_syntax.specs.NetworkViews.{subtask_view, pair_view, constraint_view};
ghost use Rattle.hv_syntax.specs.NetworkViews.{network_view};

use crate::print::terms::{put_atom, put_term, put_word};
use hv_syntax::{ConstraintText, NetworkText, PairText, SubtaskText, TermText};
use hv_text::Memory;

// Puts a subtask: its task, behind its label where it has one.
fn put_subtask(out: &mut Vec<u8>, subtask: &SubtaskText<'_>) -> Result<(), Memory>
    ensures { OnOk result (out.new.items ≡ out.old.items
        ++ text (subtask_expression (subtask_view subtask.now))) }
{
    match subtask.label() {
        None => put_atom(out, subtask.task().lend()),
        Some(label) => {
            out.push(b'(')?;
            put_word(out, label)?;
            out.push(b' ')?;
            put_atom(out, subtask.task().lend())?;
            out.push(b')')?;
            Ok(())
        }
    }
}

// Puts subtasks, a space before each.
fn put_subtasks(out: &mut Vec<u8>, subtasks: &[SubtaskText<'_>]) -> Result<(), Memory>
    ensures { OnOk result (out.new.items ≡ out.old.items
        ++ spaced (each subtask_expression (map subtask_view subtasks.now))) }
{
    for subtask in subtasks {
        out.push(b' ')?;
        put_subtask(out, subtask)?;
    }
    Ok(())
}

// Puts subtasks as `()` where there are none, and else behind `and`.
fn put_listed_subtasks(out: &mut Vec<u8>, subtasks: &[SubtaskText<'_>]) -> Result<(), Memory>
    ensures { OnOk result (out.new.items ≡ out.old.items
        ++ text (conjunction (each subtask_expression (map subtask_view subtasks.now)))) }
{
    match subtasks {
        [] => {
            out.extend_from_slice(b"()")?;
            Ok(())
        }
        [first, others @ ..] => {
            out.extend_from_slice(b"(and ")?;
            put_subtask(out, first)?;
            put_subtasks(out, others)?;
            out.push(b')')?;
            Ok(())
        }
    }
}

// Puts a pair of labels.
fn put_pair(out: &mut Vec<u8>, pair: PairText<'_>) -> Result<(), Memory>
    ensures { OnOk result (out.new.items ≡ out.old.items
        ++ text (pair_expression (pair_view pair.entry))) }
{
    out.extend_from_slice(b"(< ")?;
    put_word(out, pair.earlier())?;
    out.push(b' ')?;
    put_word(out, pair.later())?;
    out.push(b')')?;
    Ok(())
}

// Puts pairs, a space before each.
fn put_pairs(out: &mut Vec<u8>, pairs: &[PairText<'_>]) -> Result<(), Memory>
    ensures { OnOk result (out.new.items ≡ out.old.items
        ++ spaced (each pair_expression (map pair_view pairs.now))) }
{
    for pair in pairs {
        out.push(b' ')?;
        put_pair(out, *pair)?;
    }
    Ok(())
}

// Puts pairs as `()` where there are none, and else behind `and`.
fn put_listed_pairs(out: &mut Vec<u8>, pairs: &[PairText<'_>]) -> Result<(), Memory>
    ensures { OnOk result (out.new.items ≡ out.old.items
        ++ text (conjunction (each pair_expression (map pair_view pairs.now)))) }
{
    match pairs {
        [] => {
            out.extend_from_slice(b"()")?;
            Ok(())
        }
        [first, others @ ..] => {
            out.extend_from_slice(b"(and ")?;
            put_pair(out, *first)?;
            put_pairs(out, others)?;
            out.push(b')')?;
            Ok(())
        }
    }
}

// Puts the field `:ordering` where there are pairs.
fn put_ordering(out: &mut Vec<u8>, pairs: &[PairText<'_>]) -> Result<(), Memory>
    ensures { OnOk result (out.new.items ≡ out.old.items
        ++ spaced (with_members (codes ":ordering") (each pair_expression (map pair_view pairs.now))
        none)) }
{
    match pairs {
        [] => Ok(()),
        [_, ..] => {
            out.extend_from_slice(b" :ordering ")?;
            put_listed_pairs(out, pairs)?;
            Ok(())
        }
    }
}

// Puts that two terms are one.
fn put_equation(out: &mut Vec<u8>, left: TermText<'_>, right: TermText<'_>) -> Result<(), Memory>
    ensures { OnOk result (out.new.items ≡ out.old.items
        ++ text (equation (term_view left.entry) (term_view right.entry))) }
{
    out.extend_from_slice(b"(= ")?;
    put_term(out, left)?;
    out.push(b' ')?;
    put_term(out, right)?;
    out.push(b')')?;
    Ok(())
}

// Puts a constraint.
fn put_constraint(out: &mut Vec<u8>, constraint: ConstraintText<'_>) -> Result<(), Memory>
    ensures { OnOk result (out.new.items ≡ out.old.items
        ++ text (constraint_expression (constraint_view constraint.entry))) }
{
    if constraint.is_equal() {
        return put_equation(out, constraint.left(), constraint.right());
    }
    out.extend_from_slice(b"(not ")?;
    put_equation(out, constraint.left(), constraint.right())?;
    out.push(b')')?;
    Ok(())
}

// Puts constraints, a space before each.
fn put_constraints(out: &mut Vec<u8>, constraints: &[ConstraintText<'_>]) -> Result<(), Memory>
    ensures { OnOk result (out.new.items ≡ out.old.items
        ++ spaced (each constraint_expression (map constraint_view constraints.now))) }
{
    for constraint in constraints {
        out.push(b' ')?;
        put_constraint(out, *constraint)?;
    }
    Ok(())
}

// Puts constraints as `()` where there are none, and else behind `and`.
fn put_listed_constraints(
    out: &mut Vec<u8>,
    constraints: &[ConstraintText<'_>],
) -> Result<(), Memory>
    ensures { OnOk result (out.new.items ≡ out.old.items
        ++ text (conjunction (each constraint_expression (map constraint_view constraints.now)))) }
{
    match constraints {
        [] => {
            out.extend_from_slice(b"()")?;
            Ok(())
        }
        [first, others @ ..] => {
            out.extend_from_slice(b"(and ")?;
            put_constraint(out, *first)?;
            put_constraints(out, others)?;
            out.push(b')')?;
            Ok(())
        }
    }
}

// Puts the field `:constraints` where there are any.
fn put_constraint_field(out: &mut Vec<u8>, constraints: &[ConstraintText<'_>]) -> Result<(), Memory>
    ensures { OnOk result (out.new.items ≡ out.old.items
        ++ spaced (with_members (codes ":constraints")
        (each constraint_expression (map constraint_view constraints.now)) none)) }
{
    match constraints {
        [] => Ok(()),
        [_, ..] => {
            out.extend_from_slice(b" :constraints ")?;
            put_listed_constraints(out, constraints)?;
            Ok(())
        }
    }
}

// Puts the keyword of subtasks.
fn put_subtasks_keyword(out: &mut Vec<u8>, is_ordered: bool) -> Result<(), Memory>
    ensures { OnOk result (out.new.items ≡ out.old.items ++ subtasks_keyword is_ordered) }
{
    if is_ordered {
        out.extend_from_slice(b":ordered-subtasks")?;
    } else {
        out.extend_from_slice(b":subtasks")?;
    }
    Ok(())
}

/// Puts the fields of a network, a space before each.
///
/// # Errors
///
/// `Memory` where a growth was refused.
pub(crate) fn put_network(out: &mut Vec<u8>, network: &NetworkText<'_>) -> Result<(), Memory>
    ensures { OnOk result (out.new.items ≡ out.old.items
        ++ spaced (network_fields (network_view network.now))) }
{
    out.push(b' ')?;
    put_subtasks_keyword(out, network.is_ordered())?;
    out.push(b' ')?;
    put_listed_subtasks(out, network.subtasks())?;
    put_ordering(out, network.pairs())?;
    put_constraint_field(out, network.constraints())
}
