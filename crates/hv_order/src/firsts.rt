//! The states that the nodes of a tree begin no later than, by the actions below them.
ghost use Rattle.std.specs.Prelude.{◌≡◌, map, IfOk};
ghost use Rattle.hv_plan.specs.BuiltTrees.{tree_view};
ghost use Rattle.hv_plan.specs.TreeViews.{child_view};
ghost use Rattle.hv_order.specs.inside.Firsts.{first_of, item_first, IsFirstOf, AreFirsts};

use crate::memory::Memory;
use crate::node_methods::node_of;
use hv_plan::{Child, Tree};
use std::alloc::Global;

/// The first of a node. It is behind all states of the plan, where none is known.
pub fn first_at(firsts: &[u32], node: u32) -> u32
    ensures { result ≡ first_of firsts.now node }
{
    match firsts.get(node as usize) {
        Some(first) => *first,
        None => u32::MAX,
    }
}

/// The state that an action begins in, and the first of a node.
pub fn child_first(firsts: &[u32], child: Child) -> u32
    ensures { result ≡ item_first firsts.now (child_view child) }
{
    match child {
        Child::Action(action) => action,
        Child::Node(node) => first_at(firsts, node),
    }
}

/// The earliest of the firsts of children.
pub fn earliest_first(firsts: &[u32], children: &[Child]) -> u32
    ensures { IsFirstOf firsts.now (map child_view children.now) result }
{
    let mut first = u32::MAX;
    for child in children {
        first = first.min(child_first(firsts, *child));
    }
    first
}

/// For each node of a tree the state that the first action below it begins in, which it begins no
/// later than; a state behind all of the plan, where there is none.
pub(crate) fn firsts_of(alloc: Global, tree: &Tree) -> Result<Vec<u32>, Memory>
    ensures { IfOk result (λ firsts. AreFirsts (tree_view tree.now) firsts.items) }
{
    let count = tree.node_count();
    let mut firsts = Vec::with_capacity(alloc, count as usize)?;
    for number in 0..count {
        let first = earliest_first(&firsts, node_of(tree, number).children());
        firsts.push(first)?;
    }
    Ok(firsts)
}
