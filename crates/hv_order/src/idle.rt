//! Nodes that finish where they start, whatever the start: no action stands below them, and their
//! preconditions are true in each state.
ghost use Rattle.std.specs.Prelude.{◌≡◌, ◌≤◌, ◌↔◌, IsTrue, length};
ghost use Rattle.hv_order.specs.inside.Arrangements.{arrangement_of};
ghost use Rattle.hv_order.specs.inside.Idle.{IsIdle, IsIdleBy, IsIdleChild, AreIdle, HoldsThroughout};
ghost use Rattle.hv_order.specs.inside.Nodes.{AreNodes, IsSettled};
ghost use Rattle.hv_order.specs.inside.Runs.{AreRows};

use crate::nodes::Nodes;
use crate::runs::Row;
use crate::settle::Settled;
use crate::trial::{Arranged, Stretch};
use hv_plan::Child;

/// Whether a child is a node that finishes where it starts, by the rows of the nodes.
pub fn is_idle_child<N: Nodes>(_nodes: &N, rows: &[Row], child: Child) -> bool
    requires rows { AreRows (N.facts _nodes.now) rows.now }
    ensures { IsTrue result → IsIdleChild (N.facts _nodes.now) child }
{
    match child {
        Child::Action(_) => false,
        Child::Node(node) => match rows.get(node as usize) {
            None => false,
            Some(row) => row.is_idle(),
        },
    }
}

/// Whether all of these children are nodes that finish where they start.
pub fn are_idle<N: Nodes>(nodes: &N, rows: &[Row], children: &[Child]) -> bool
    requires rows { AreRows (N.facts nodes.now) rows.now }
    ensures { IsTrue result → AreIdle (N.facts nodes.now) children.now }
{
    for child in children {
        if !is_idle_child(nodes, rows, *child) {
            return false;
        }
    }
    true
}

// Whether a stretch has all indices up to this one.
fn is_whole(truth: Stretch, last: u32) -> bool
    ensures { IsTrue result ↔ ((truth.first ≡ 0) × (last ≤ truth.last)) }
{
    truth.first == 0 && last <= truth.last
}

/// Whether the precondition of a candidate is true in each state, as far as is told from the first
/// one on.
pub fn holds_throughout<N: Nodes>(nodes: &N, candidate: &Arranged) -> bool
    ensures { IsTrue result
        → HoldsThroughout (N.facts nodes.now) (arrangement_of candidate.now) }
{
    let last = nodes.last();
    match nodes.first_true(candidate, 0, last) {
        None => false,
        Some(truth) => is_whole(truth, last),
    }
}

/// Whether a candidate stands where it starts, whatever the start: all its children do, and its
/// precondition is true there.
pub fn is_idle_by<N: Nodes>(nodes: &N, rows: &[Row], candidate: &Arranged) -> bool
    requires rows { AreRows (N.facts nodes.now) rows.now }
    ensures { IsTrue result → IsIdleBy (N.facts nodes.now) (arrangement_of candidate.now) }
{
    if !are_idle(nodes, rows, &candidate.children) {
        return false;
    }
    holds_throughout(nodes, candidate)
}

/// Whether the node behind these rows finishes where it starts, by the candidate that gives its
/// finish from the first state.
pub fn is_idle<N: Nodes>(nodes: &N, rows: &[Row], first: &Settled) -> bool
    requires nodes { AreNodes (N.facts nodes.now) }
    requires rows { AreRows (N.facts nodes.now) rows.now }
    requires first { IsSettled (N.facts nodes.now) (length rows.now) 0 first.now }
    ensures { IsTrue result → IsIdle (N.facts nodes.now) (length rows.now) }
{
    match &first.winner {
        None => false,
        Some(candidate) => is_idle_by(nodes, rows, candidate),
    }
}
