//! The states that the nodes of a tree are over no earlier than, by the actions below them.
ghost use Rattle.std.specs.Prelude.{◌≡◌, ◌≤◌, map, IfOk, slice_index};
ghost use Rattle.hv_plan.specs.BuiltTrees.{tree_view};
ghost use Rattle.hv_plan.specs.TreeViews.{child_view};
ghost use Rattle.hv_order.specs.inside.Ends.{item_end, IsEndOf, AreEnds};

use crate::memory::Memory;
use crate::node_methods::node_of;
use hv_plan::{Child, Tree};
use std::alloc::Global;

/// The end of a node, or the first state, where none is known.
pub fn end_at(ends: &[u32], node: u32) -> u32
    ensures { result ≡ slice_index ends.now node }
{
    match ends.get(node as usize) {
        Some(end) => *end,
        None => 0,
    }
}

/// The state behind an action, and the end of a node.
pub fn child_end(ends: &[u32], child: Child) -> u32
    ensures { result ≤ item_end ends.now (child_view child) }
{
    match child {
        Child::Action(action) => action.saturating_add(1),
        Child::Node(node) => end_at(ends, node),
    }
}

/// The latest of the ends of children.
pub fn latest_end(ends: &[u32], children: &[Child]) -> u32
    ensures { IsEndOf ends.now (map child_view children.now) result }
{
    let mut end: u32 = 0;
    for child in children {
        end = end.max(child_end(ends, *child));
    }
    end
}

/// For each node of a tree the state behind the last action below it, which it is over no earlier
/// than; the first state, where there is none.
pub(crate) fn ends_of(alloc: Global, tree: &Tree) -> Result<Vec<u32>, Memory>
    ensures { IfOk result (λ ends. AreEnds (tree_view tree.now) ends.items) }
{
    let count = tree.node_count();
    let mut ends = Vec::with_capacity(alloc, count as usize)?;
    for number in 0..count {
        let end = latest_end(&ends, node_of(tree, number).children());
        ends.push(end)?;
    }
    Ok(ends)
}
