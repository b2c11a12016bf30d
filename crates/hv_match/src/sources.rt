//! The places from which parameters have their objects.

ghost use Rattle.std.specs.Prelude.{◌≡◌, length, map, IfOk};
ghost use Rattle.hv_world.specs.Views.{term_view, subtask_view};
ghost use Rattle.hv_match.specs.inside.Tables.{source_view, AreAllWritten, AreSourcesOf, AreWritten, IsWritten};

use hv_text::Memory;
use hv_world::{Subtask, Term};
use std::alloc::Global;

/// A position among the terms of the subtask of a number, or of the task.
#[derive(Clone, Copy)]
pub(crate) struct Source {
    pub(crate) subtask: Option<usize>,
    pub(crate) position: usize,
}

// Writes down a source for the parameter that a term is, if it is one.
fn write(sources: &mut [Option<Source>], term: Term, source: Source)
    ensures size { length sources.new ≡ length sources.old }
    ensures sources { IsWritten sources.old (term_view term) (source_view source) sources.new }
{
    if let Term::Variable(variable) = term
        && variable < sources.len()
    {
        sources[variable] = Some(source);
    }
}

/// Writes down a source for each parameter among the terms of a subtask or of the task, from the
/// last to the first, so that the first stays.
pub(crate) fn write_terms(sources: &mut [Option<Source>], subtask: Option<usize>, terms: &[Term])
    ensures size { length sources.new ≡ length sources.old }
    ensures sources { AreWritten sources.old subtask (map term_view terms.now) sources.new }
{
    let mut position = terms.len();
    while position > 0 {
        position -= 1;
        write(sources, terms[position], Source { subtask, position });
    }
}

// The same for all subtasks.
fn write_subtasks(sources: &mut [Option<Source>], subtasks: &[Subtask])
    ensures size { length sources.new ≡ length sources.old }
    ensures sources { AreAllWritten sources.old (map subtask_view subtasks.now) sources.new }
{
    let mut number = subtasks.len();
    while number > 0 {
        number -= 1;
        write_terms(sources, Some(number), &subtasks[number].terms);
    }
}

/// For each parameter the first of its places, first in the task, and then in the subtasks.
pub(crate) fn sources(
    alloc: Global,
    parameters: usize,
    task: &[Term],
    subtasks: &[Subtask],
) -> Result<Vec<Option<Source>>, Memory>
    ensures { IfOk result (λ v. AreSourcesOf parameters task.now subtasks.now v.items) }
{
    let mut sources = vec![in alloc; None; parameters]?;
    write_subtasks(&mut sources, subtasks);
    write_terms(&mut sources, None, task);
    Ok(sources)
}
