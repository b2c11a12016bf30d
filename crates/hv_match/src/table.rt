//! What the search keeps of a method.

ghost use Rattle.std.specs.Prelude.{◌≡◌, map, length};
ghost use Rattle.hv_world.specs.NetworkViews.{network_view};
ghost use Rattle.hv_world.specs.Views.{subtask_view};
ghost use Rattle.hv_match.specs.inside.Tables.{AreSourcesOf};

use crate::sources::Source;
use hv_world::{Atom, Constraint, Network, Range, Subtask, Term};

/// What the search keeps of a method, whichever node it decomposes.
#[derive(Drop)]
pub(crate) struct MethodTable<'w> {
    /// For each parameter the objects of its type.
    pub(crate) ranges: Vec<Range<'w>>,
    /// The terms of the task.
    pub(crate) task: &'w [Term],
    pub(crate) network: &'w Network,
    /// Those of the network.
    pub(crate) subtasks: &'w [Subtask],
    pub(crate) constraints: &'w [Constraint],
    /// For each parameter the place from which it has its object.
    pub(crate) sources: Vec<Option<Source>>,
    /// For each parameter a place in a subtask that is alone in its class, if some are not.
    pub(crate) tellers: Vec<Option<Source>>,
    /// For each number of choices the numbers of the constraints that so many decide.
    pub(crate) decided: Vec<Vec<usize>>,
    /// The atoms that the precondition needs.
    pub(crate) needed: Vec<&'w Atom>,
    /// For each number of choices the numbers of the needed atoms that so many decide.
    pub(crate) needed_by: Vec<Vec<usize>>,
    /// The count, if 64 bits hold it.
    pub(crate) count: Option<u64>,
    pub(crate) ghost listed: { map subtask_view subtasks.now
        ≡ (network_view network.now).subtasks },
    pub(crate) ghost sourced: { AreSourcesOf (length ranges.items) task.now subtasks.now
        sources.items },
}
