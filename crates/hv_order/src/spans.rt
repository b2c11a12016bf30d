//! Where in the plan the actions stand that are at and below the children of a candidate, and
//! whether that is as their subtasks are ordered.
ghost use Rattle.std.specs.Prelude.{◌≡◌, ◌∷◌, [], nat_le, length, IsTrue, IfOk, IfSome};
ghost use Rattle.hv_plan.specs.BuiltTrees.{tree_view};
ghost use Rattle.hv_plan.specs.TreeViews.{child_view};
ghost use Rattle.hv_order.specs.inside.Children as inside;
ghost use Rattle.hv_order.specs.inside.Ends.{item_end};
ghost use Rattle.hv_order.specs.inside.Firsts.{never};
ghost use Rattle.hv_order.specs.inside.Spans as spans;
ghost use Rattle.hv_order.specs.inside.Spans.{AreSpans, TellsInFront, TellsMisplaced, TellsStuck};
ghost use Rattle.hv_order.specs.inside.Spans.{IsChain, HasActions, HaveActions, IsMet, IsBlocked};

use crate::ends::{end_at, ends_of};
use crate::firsts::{child_first, firsts_of};
use crate::memory::Memory;
use hv_plan::{Child, Tree};
use hv_text::Lists;
use std::alloc::Global;

/// For each node of a tree the state that the first action below it begins in, and the one behind
/// the last.
#[derive(Drop)]
pub struct Spans {
    pub firsts: Vec<u32>,
    pub ends: Vec<u32>,
}

/// The child that stands for a subtask.
pub fn child_at(children: &[Child], subtask: usize) -> Child
    ensures { result ≡ inside.child_at children.now subtask }
{
    match children.get(subtask) {
        Some(child) => *child,
        None => Child::Action(0),
    }
}

/// Whether all actions at or below a child are over by a state.
pub fn is_over_by(ends: &[u32], child: Child, state: u32) -> bool
    ensures { result ≡ nat_le (item_end ends.now (child_view child)) state }
{
    match child {
        Child::Action(action) => action < state,
        Child::Node(node) => end_at(ends, node) <= state,
    }
}

// Whether a list has just one number, which is this.
fn is_just(list: &[usize], number: usize) -> bool
    ensures { IsTrue result → list.now ≡ number ∷ [] }
{
    match list {
        [only] => *only == number,
        _ => false,
    }
}

// Whether just the one before it stands directly before each subtask, as they are written.
fn is_chain(direct: &Lists<usize>) -> bool
    ensures { IsTrue result → IsChain direct.now }
{
    for latter in 1..direct.len() {
        if !is_just(direct.at(latter), latter - 1) {
            return false;
        }
    }
    true
}

/// Whether a state is behind all of every plan.
pub fn is_never(state: u32) -> bool
    ensures { result ≡ nat_le never state }
{
    state >= u32::MAX
}

impl Spans {
    /// The spans of the nodes of a tree.
    pub(crate) fn new(alloc: Global, tree: &Tree) -> Result<Spans, Memory>
        ensures { IfOk result (AreSpans (tree_view tree.now)) }
    {
        Ok(Spans {
            firsts: firsts_of(alloc, tree)?,
            ends: ends_of(alloc, tree)?,
        })
    }

    /// Whether no action at or below one child stands in front of one at or below another.
    pub fn is_behind(&self, former: Child, latter: Child) -> bool
        ensures { result ≡ spans.is_behind self.now (child_view former) (child_view latter) }
    {
        let first = child_first(&self.firsts, latter);
        is_never(first) || is_over_by(&self.ends, former, first)
    }

    /// One of these subtasks whose child a child is not behind, if there is one.
    pub fn in_front(&self, children: &[Child], latter: Child, formers: &[usize]) -> Option<usize>
        ensures { TellsInFront self.now children.now latter formers.now result }
    {
        for former in formers {
            if !self.is_behind(child_at(children, *former), latter) {
                return Some(*former);
            }
        }
        None
    }

    // The later in written order of two subtasks, one directly before the other, whose children
    // stand in the plan the other way round, or meet; if there are such.
    fn misplaced(&self, children: &[Child], direct: &Lists<usize>) -> Option<usize>
        ensures { TellsMisplaced self.now children.now direct.now result }
    {
        for latter in 0..direct.len() {
            let child = child_at(children, latter);
            if let Some(former) = self.in_front(children, child, direct.at(latter)) {
                return Some(former.max(latter));
            }
        }
        None
    }

    // Whether some action stands at or below a child, by its span.
    fn has_actions(&self, child: Child) -> bool
        ensures { IsTrue result → HasActions self.now (child_view child) }
    {
        let first = child_first(&self.firsts, child);
        !is_never(first) && !is_over_by(&self.ends, child, first)
    }

    // Whether it does so for each of these.
    fn have_actions(&self, children: &[Child]) -> bool
        ensures { IsTrue result → HaveActions self.now children.now }
    {
        for child in children {
            if !self.has_actions(*child) {
                return false;
            }
        }
        true
    }

    // The first subtask, as they are written, whose child is not over when that of a
    // later one begins.
    fn first_met(&self, children: &[Child]) -> Option<usize>
        ensures { IfSome result (IsMet self.now children.now) }
    {
        let (last, before) = children.split_last()?;
        let mut soonest = child_first(&self.firsts, *last);
        let mut met = None;
        for place in (0..before.len()).rev() {
            let child = child_at(children, place);
            if !is_over_by(&self.ends, child, soonest) {
                met = Some(place);
            }
            soonest = soonest.min(child_first(&self.firsts, child));
        }
        met
    }

    // The first subtask whose child is not over when another begins that is left for a later one.
    // Where the subtasks stand in one chain, nothing helps then but another child for this one, or
    // for one before it. It is told of children each of which has actions.
    fn blocked(&self, children: &[Child], direct: &Lists<usize>) -> Option<usize>
        ensures { IfSome result (IsBlocked self.now children.now direct.now) }
    {
        if direct.len() == children.len() && is_chain(direct) && self.have_actions(children) {
            self.first_met(children)
        } else {
            None
        }
    }

    /// A subtask, as they are written, up to which the children cannot stay as they are, where they
    /// are not in the order of the subtasks.
    pub fn stuck(&self, children: &[Child], direct: &Lists<usize>) -> Option<usize>
        ensures { TellsStuck self.now children.now direct.now result }
    {
        let last = self.misplaced(children, direct)?;
        match self.blocked(children, direct) {
            Some(first) => Some(first),
            None => Some(last),
        }
    }
}
