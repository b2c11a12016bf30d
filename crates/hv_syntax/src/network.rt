//! Task networks: subtasks with their labels, pairs of an ordering, and constraints.

ghost use Rattle.std.specs.Prelude.{◌≡◌, map, option_map};
ghost use Rattle.hv_syntax.specs.Values.{subtask, pair, constraint, network};
ghost use Rattle.hv_syntax.specs.Views.{word_view, term_view, atom_view};
ghost use Rattle.hv_syntax.specs.NetworkViews.{subtask_view, pair_view, constraint_view};
ghost use Rattle.hv_syntax.specs.NetworkViews.{network_view};

use crate::term::{AtomText, TermText};
use crate::word::Placed;

/// A subtask of a network: a task, with the label that it may have.
#[derive(Drop)]
pub struct SubtaskText<'s> {
    label: Option<Placed<'s>>,
    task: AtomText<'s>,
}

impl<'s> SubtaskText<'s> {
    /// The subtask of this task, with the label that it may have.
    pub fn new(label: Option<Placed<'s>>, task: AtomText<'s>) -> SubtaskText<'s>
        ensures { subtask_view result
            ≡ subtask (option_map word_view label.entry) (atom_view task.entry) }
    {
        SubtaskText { label, task }
    }

    /// Its label, if one is written.
    pub fn label(&self) -> Option<Placed<'s>>
        ensures { option_map word_view result ≡ (subtask_view self.now).label }
    {
        self.label
    }

    /// Its task.
    pub fn task(&self) -> &AtomText<'s>
        ensures { atom_view result.now ≡ (subtask_view self.now).task }
    {
        &self.task
    }
}

/// A pair of an ordering: the subtask of the first label comes before that of the second.
#[derive(Clone, Copy)]
pub struct PairText<'s> {
    earlier: Placed<'s>,
    later: Placed<'s>,
}

impl<'s> PairText<'s> {
    /// The pair of these labels.
    pub fn new(earlier: Placed<'s>, later: Placed<'s>) -> PairText<'s>
        ensures { pair_view result ≡ pair (word_view earlier.entry) (word_view later.entry) }
    {
        PairText { earlier, later }
    }

    /// The label of the subtask that comes first.
    pub fn earlier(self) -> Placed<'s>
        ensures { word_view result ≡ (pair_view self.entry).earlier }
    {
        self.earlier
    }

    /// The label of the subtask that comes behind it.
    pub fn later(self) -> Placed<'s>
        ensures { word_view result ≡ (pair_view self.entry).later }
    {
        self.later
    }
}

/// A constraint: two terms are one object, or they are not.
#[derive(Clone, Copy)]
pub struct ConstraintText<'s> {
    is_equal: bool,
    left: TermText<'s>,
    right: TermText<'s>,
}

impl<'s> ConstraintText<'s> {
    /// That these terms are one object, or that they are not.
    pub fn new(is_equal: bool, left: TermText<'s>, right: TermText<'s>) -> ConstraintText<'s>
        ensures { constraint_view result
            ≡ constraint is_equal (term_view left.entry, term_view right.entry) }
    {
        ConstraintText {
            is_equal,
            left,
            right,
        }
    }

    /// Whether the terms must be one object.
    pub fn is_equal(self) -> bool
        ensures { result ≡ (constraint_view self.entry).is_equal }
    {
        self.is_equal
    }

    /// The first term.
    pub fn left(self) -> TermText<'s>
        ensures { term_view result ≡ (constraint_view self.entry).left }
    {
        self.left
    }

    /// The second term.
    pub fn right(self) -> TermText<'s>
        ensures { term_view result ≡ (constraint_view self.entry).right }
    {
        self.right
    }
}

/// A task network: its subtasks, whether their form orders them as written, the pairs of its
/// ordering, and its constraints.
#[derive(Drop)]
pub struct NetworkText<'s> {
    subtasks: Vec<SubtaskText<'s>>,
    is_ordered: bool,
    pairs: Vec<PairText<'s>>,
    constraints: Vec<ConstraintText<'s>>,
}

impl<'s> NetworkText<'s> {
    /// The network of these parts.
    pub fn new(
        subtasks: Vec<SubtaskText<'s>>,
        is_ordered: bool,
        pairs: Vec<PairText<'s>>,
        constraints: Vec<ConstraintText<'s>>,
    ) -> NetworkText<'s>
        ensures { network_view result ≡ network (map subtask_view subtasks.entry.items) is_ordered
            (map pair_view pairs.entry.items) (map constraint_view constraints.entry.items) }
    {
        NetworkText {
            subtasks,
            is_ordered,
            pairs,
            constraints,
        }
    }

    /// The subtasks, as written.
    pub fn subtasks(&self) -> &[SubtaskText<'s>]
        ensures { map subtask_view result.now ≡ (network_view self.now).subtasks }
    {
        &self.subtasks
    }

    /// Whether the subtasks stand in the form that orders them as written.
    pub fn is_ordered(&self) -> bool
        ensures { result ≡ (network_view self.now).is_ordered }
    {
        self.is_ordered
    }

    /// The pairs of the ordering, as written.
    pub fn pairs(&self) -> &[PairText<'s>]
        ensures { map pair_view result.now ≡ (network_view self.now).pairs }
    {
        &self.pairs
    }

    /// The constraints, as written.
    pub fn constraints(&self) -> &[ConstraintText<'s>]
        ensures { map constraint_view result.now ≡ (network_view self.now).constraints }
    {
        &self.constraints
    }
}
