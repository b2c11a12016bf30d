//! Parameters that a later subtask tells before its child is chosen: where just one child is tried
//! for it.

ghost use Rattle.std.specs.Prelude.{◌≡◌, ◌<◌, length, map, true, IfSome, Some, slice_get};
ghost use Rattle.hv_world.specs.Values.{variable};
ghost use Rattle.hv_world.specs.Views.{term_view};
ghost use Rattle.hv_match.specs.inside.Search.{NothingBegins};
ghost use Rattle.hv_match.specs.inside.Puzzles.{IsForetold};

use crate::child_rows::class_size;
use crate::puzzle::{Puzzle, object_at};
use crate::sources::{Source, write_terms};
use hv_text::Memory;
use hv_world::{Network, Term};
use std::alloc::Global;

/// For each parameter its place in the last subtask that has it and is alone in its class. The
/// table is empty where each subtask is alone in its class, so that no child has a rival. Only the
/// time of the search hangs on it.
pub(crate) fn tellers(
    alloc: Global,
    parameters: usize,
    network: &Network,
) -> Result<Vec<Option<Source>>, Memory> {
    let subtasks = network.subtasks();
    if network.class_sizes().len() == subtasks.len() {
        return Ok(Vec::new(alloc));
    }
    let mut tellers = vec![in alloc; None; parameters]?;
    for (number, subtask) in subtasks.iter().enumerate() {
        if class_size(network, number) == 1 {
            write_terms(&mut tellers, Some(number), &subtask.terms);
        }
    }
    Ok(tellers)
}

// Whether a parameter stands at a position among terms.
fn stands_at(terms: &[Term], position: usize, parameter: usize) -> bool
    ensures { result ≡ true
        → slice_get (map term_view terms.now) position ≡ Some (variable parameter) }
{
    match terms.get(position) {
        Some(Term::Variable(variable)) => *variable == parameter,
        _ => false,
    }
}

impl Puzzle<'_> {
    ghost use Rattle.hv_match.specs.inside.PuzzleViews.{puzzle_view, search_of};

    // What the child of a subtask says of a parameter that stands there at a position, if just one
    // child is tried for the subtask.
    fn told_by(&self, subtask: usize, position: usize, parameter: usize) -> Option<usize>
        requires { subtask < length self.now.table.now.subtasks.now }
        ensures { IfSome result (IsForetold (puzzle_view self.now) parameter) }
    {
        let terms = &self.table.subtasks[subtask].terms;
        let row = self.places.row(subtask);
        if row.len() != 1 || !stands_at(terms, position, parameter) {
            return None;
        }
        match self.child(row[0]) {
            None => None,
            Some(work) => object_at(work.objects, position),
        }
    }

    // What the only child that is tried for a subtask says of a parameter, if there is one.
    fn foretold(&self, parameter: usize) -> Option<usize>
        ensures { IfSome result (IsForetold (puzzle_view self.now) parameter) }
    {
        let Some(Some(teller)) = self.table.tellers.get(parameter) else {
            return None;
        };
        match teller.subtask {
            Some(subtask) if subtask < self.table.subtasks.len() => {
                self.told_by(subtask, teller.position, parameter)
            }
            _ => None,
        }
    }

    /// Whether a parameter is bound to another object than the only child that is tried for some
    /// subtask says.
    pub(crate) fn is_foretold_otherwise(&self, chosen: &[usize], parameter: usize) -> bool
        ensures { result ≡ true → NothingBegins (search_of self.now) chosen.now }
    {
        match (self.foretold(parameter), self.bound(chosen, parameter)) {
            (Some(object), Some(other)) => object != other,
            _ => false,
        }
    }
}
