//! Which constraints, and which atoms, are decided by how many choices.

use crate::sources::Source;
use hv_text::Memory;
use hv_world::{Atom, Constraint, Term};
use std::alloc::Global;

// How many choices say which object a parameter has: none where the task says it, those of the
// children up to one that says it, or those of all children and of the parameters up to itself.
fn choices_for(parameter: usize, subtasks: usize, sources: &[Option<Source>]) -> usize {
    match sources.get(parameter) {
        Some(Some(source)) => match source.subtask {
            None => 0,
            Some(subtask) => subtask.saturating_add(1),
        },
        _ => subtasks.saturating_add(parameter).saturating_add(1),
    }
}

// The same of a term.
fn choices_for_term(term: Term, subtasks: usize, sources: &[Option<Source>]) -> usize {
    match term {
        Term::Object(_) => 0,
        Term::Variable(parameter) => choices_for(parameter, subtasks, sources),
    }
}

// The same of several terms.
fn choices_for_terms(terms: &[Term], subtasks: usize, sources: &[Option<Source>]) -> usize {
    let mut choices = 0;
    for term in terms {
        choices = choices.max(choices_for_term(*term, subtasks, sources));
    }
    choices
}

// A list for each number of choices that there may be.
fn no_numbers(
    alloc: Global,
    subtasks: usize,
    sources: &[Option<Source>],
) -> Result<Vec<Vec<usize>>, Memory> {
    let levels = subtasks.saturating_add(sources.len()).saturating_add(1);
    Ok(vec![in alloc; Vec::new(alloc); levels]?)
}

// Puts a number into the list of so many choices.
fn put(lists: &mut [Vec<usize>], choices: usize, number: usize) -> Result<(), Memory> {
    if choices < lists.len() {
        lists[choices].push(number)?;
    }
    Ok(())
}

/// For each number of choices the numbers of the constraints that so many decide, and fewer do not.
/// Every whole choice is tested for all constraints, so only the time of the search hangs on this
/// table. It is empty where there are no constraints.
pub(crate) fn decided(
    alloc: Global,
    subtasks: usize,
    sources: &[Option<Source>],
    constraints: &[Constraint],
) -> Result<Vec<Vec<usize>>, Memory> {
    if constraints.is_empty() {
        return Ok(Vec::new(alloc));
    }
    let mut decided = no_numbers(alloc, subtasks, sources)?;
    for (number, constraint) in constraints.iter().enumerate() {
        let left = choices_for_term(constraint.left, subtasks, sources);
        let right = choices_for_term(constraint.right, subtasks, sources);
        put(&mut decided, left.max(right), number)?;
    }
    Ok(decided)
}

/// The same of atoms.
pub(crate) fn decided_atoms(
    alloc: Global,
    subtasks: usize,
    sources: &[Option<Source>],
    atoms: &[&Atom],
) -> Result<Vec<Vec<usize>>, Memory> {
    if atoms.is_empty() {
        return Ok(Vec::new(alloc));
    }
    let mut decided = no_numbers(alloc, subtasks, sources)?;
    for (number, atom) in atoms.iter().enumerate() {
        let choices = choices_for_terms(&atom.terms, subtasks, sources);
        put(&mut decided, choices, number)?;
    }
    Ok(decided)
}
