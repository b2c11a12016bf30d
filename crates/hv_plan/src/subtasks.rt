//! Whether the children of each line are as the subtasks of its method.

pub(crate) mod counts;
pub(crate) mod names;

ghost use Rattle.std.specs.Prelude.{◌≡◌, ◌+◌, ℕ, length, map, get_or, true, IfOk, OnOk, MatchBool, MatchOption, IsSome};
ghost use Rattle.hv_world.specs.Views.{name_view, subtask_view};
ghost use Rattle.hv_plan.specs.Fits.{multiplicity, names_of};
ghost use Rattle.hv_world.specs.Values as value;
ghost use Rattle.hv_plan.specs.Forms.{every};
ghost use Rattle.hv_plan.specs.inside.Tallies.{number_in, HaveSameNames, IsNamesFault};

use crate::cause::CauseKind;
use crate::subtasks::counts::have_same_counts;
use crate::subtasks::names::{Sizes, put_numbers, put_numbers_of_subtasks};
use hv_text::Memory;
use hv_world::{Subtask, TaskName};
use std::alloc::Global;

/// Where the names of children and of subtasks are counted: a count for each task and each
/// action, all 0 between one line and the next, and room for names and numbers that is used again
/// for each line.
#[derive(Drop)]
pub(crate) struct Tally {
    pub(crate) counts: Vec<usize>,
    pub(crate) names: Vec<TaskName>,
    found: Vec<usize>,
    wanted: Vec<usize>,
}

// Whether these are the names of subtasks, one after another, as they are for most lines.
fn are_named(names: &[TaskName], subtasks: &[Subtask]) -> bool
    ensures { result ≡ true → map name_view names.now ≡ names_of (map subtask_view subtasks.now) }
{
    let mut left = subtasks;
    for name in names {
        match left {
            [] => return false,
            [first, others @ ..] => {
                if first.name != *name {
                    return false;
                }
                left = others;
            }
        }
    }
    left.is_empty()
}

impl Tally {
    /// With nothing counted.
    ///
    /// # Errors
    ///
    /// `Memory` where the room was refused.
    pub(crate) fn new(alloc: Global, sizes: Sizes) -> Result<Tally, Memory>
        ensures size { IfOk result (λ t. length t.counts.items ≡ sizes.tasks + sizes.actions) }
        ensures empty { IfOk result (λ t. (n : ℕ) → get_or t.counts.items n 0 ≡ 0) }
    {
        Ok(Tally {
            counts: vec![in alloc; 0; sizes.tasks + sizes.actions]?,
            names: Vec::new(alloc),
            found: Vec::new(alloc),
            wanted: Vec::new(alloc),
        })
    }

    // Whether the names of children are those of subtasks, each as often.
    fn have_same_names(&mut self, sizes: Sizes, subtasks: &[Subtask]) -> Result<bool, Memory>
        requires size { length self.old.counts.items ≡ sizes.tasks + sizes.actions }
        requires empty { (n : ℕ) → get_or self.old.counts.items n 0 ≡ 0 }
        requires known { IsSome (every (number_in sizes.tasks sizes.actions)
            (map name_view self.old.names.items)) }
        ensures size { length self.new.counts.items ≡ length self.old.counts.items }
        ensures empty { OnOk result ((n : ℕ) → get_or self.new.counts.items n 0 ≡ 0) }
        ensures same { IfOk result (λ b. MatchBool b
            ((n : value.TaskName) → multiplicity n (map name_view self.old.names.items)
            ≡ multiplicity n (names_of (map subtask_view subtasks.now)))
            ((n : value.TaskName) × (multiplicity n (map name_view self.old.names.items)
            ≡ multiplicity n (names_of (map subtask_view subtasks.now)) → ⊥))) }
    {
        if !put_numbers(&mut self.found, sizes, &self.names)? {
            return Ok(false);
        }
        if !put_numbers_of_subtasks(&mut self.wanted, sizes, subtasks)? {
            return Ok(false);
        }
        Ok(have_same_counts(&mut self.counts, &self.wanted, &self.found))
    }

    /// What keeps the names of children from being those of subtasks, each as often.
    ///
    /// # Errors
    ///
    /// `Memory` where a growth was refused.
    pub(crate) fn names_fault(
        &mut self,
        sizes: Sizes,
        subtasks: &[Subtask],
    ) -> Result<Option<CauseKind>, Memory>
        requires size { length self.old.counts.items ≡ sizes.tasks + sizes.actions }
        requires empty { (n : ℕ) → get_or self.old.counts.items n 0 ≡ 0 }
        requires known { IsSome (every (number_in sizes.tasks sizes.actions)
            (map name_view self.old.names.items)) }
        ensures size { length self.new.counts.items ≡ length self.old.counts.items }
        ensures empty { OnOk result ((n : ℕ) → get_or self.new.counts.items n 0 ≡ 0) }
        ensures fault { IfOk result
            (λ o. MatchOption o (HaveSameNames (map name_view self.old.names.items)
            (names_of (map subtask_view subtasks.now)))
            (IsNamesFault (map name_view self.old.names.items)
            (names_of (map subtask_view subtasks.now)))) }
    {
        if self.names.len() != subtasks.len() {
            return Ok(Some(CauseKind::ChildCount));
        }
        if are_named(&self.names, subtasks) {
            return Ok(None);
        }
        if self.have_same_names(sizes, subtasks)? {
            Ok(None)
        } else {
            Ok(Some(CauseKind::ChildNames))
        }
    }
}
