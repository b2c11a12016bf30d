//! The first node without a candidate.

ghost use Rattle.std.specs.Prelude.{◌↔◌, ◌<◌, length, IfOk, IsTrue};
ghost use Rattle.hv_plan.specs.BuiltTrees.{tree_view};
ghost use Rattle.hv_plan.specs.PlanTrees.{IsTreeIn};
ghost use Rattle.hv_order.specs.inside.Writings.{AreBound, HasOne, TellsFirst};

use crate::lines::{line_of, number_at};
use hv_match::{CandidateRoom, Candidates, Matcher};
use hv_plan::Tree;
use hv_text::Memory;
use std::alloc::Global;

/// Whether a node has a candidate.
pub fn has_candidate<'a>(
    alloc: Global,
    matcher: &'a Matcher<'_>,
    tree: &'a Tree,
    node: u32,
) -> Result<bool, Memory>
    requires tree { IsTreeIn matcher.now (tree_view tree.now) }
    requires node { node < length (tree_view tree.now).nodes }
    ensures { IfOk result (λ b. IsTrue b ↔ HasOne matcher.now (tree_view tree.now) node) }
{
    let mut candidates = Candidates::new(
        alloc,
        CandidateRoom::new(alloc),
        matcher,
        tree,
        node,
        None,
    )?;
    let is_some = candidates.has_next()?;
    Ok(is_some)
}

// Whether a node has a candidate, where some are known to have one.
fn is_bound(
    alloc: Global,
    matcher: &Matcher<'_>,
    tree: &Tree,
    bound: &[bool],
    node: u32,
) -> Result<bool, Memory>
    requires tree { IsTreeIn matcher.now (tree_view tree.now) }
    requires bound { AreBound matcher.now (tree_view tree.now) bound.now }
    requires node { node < length (tree_view tree.now).nodes }
    ensures { IfOk result (λ b. IsTrue b ↔ HasOne matcher.now (tree_view tree.now) node) }
{
    if bound.get(node as usize).copied().unwrap_or(false) {
        return Ok(true);
    }
    has_candidate(alloc, matcher, tree, node)
}

/// The number of the line of the first node without a candidate, in the order of nodes. Each node
/// is asked once, but for those that are known to have one.
pub fn first_without(
    alloc: Global,
    matcher: &Matcher<'_>,
    tree: &Tree,
    bound: &[bool],
) -> Result<Option<u32>, Memory>
    requires tree { IsTreeIn matcher.now (tree_view tree.now) }
    requires bound { AreBound matcher.now (tree_view tree.now) bound.now }
    ensures { IfOk result (TellsFirst matcher.now (tree_view tree.now)) }
{
    for place in 0..tree.node_count() as usize {
        let node = number_at(tree, place);
        if !is_bound(alloc, matcher, tree, bound, node)? {
            return Ok(Some(line_of(tree, node)));
        }
    }
    Ok(None)
}
