//! Nodes for which no precondition counts: neither their own nor one of a node below them.

ghost use Rattle.std.specs.Prelude.{◌≡◌, map, true, IfOk};
ghost use Rattle.hv_world.specs.WorldViews.{world_view};
ghost use Rattle.hv_plan.specs.BuiltTrees.{tree_view};
ghost use Rattle.hv_plan.specs.TreeViews.{child_view};
ghost use Rattle.hv_order.specs.inside.Plain.{AllPlain, ArePlain, IsPlain};

use crate::memory::Memory;
use crate::node_methods::method_for;
use crate::told::is_empty;
use hv_plan::{Child, Tree};
use hv_world::World;
use std::alloc::Global;

// Whether all nodes among these children are plain.
fn are_plain(plain: &[bool], children: &[Child]) -> bool
    ensures { result ≡ true → AllPlain plain.now (map child_view children.now) }
{
    for child in children {
        if let Child::Node(node) = child {
            if !plain.get(*node as usize).copied().unwrap_or(false) {
                return false;
            }
        }
    }
    true
}

// Whether the method of a node has no precondition, and all nodes among its children are plain.
fn is_plain(world: &World<'_>, tree: &Tree, plain: &[bool], number: u32) -> bool
    ensures { result ≡ true
        → IsPlain (world_view world.now) (tree_view tree.now) plain.now number }
{
    match tree.node(number) {
        None => false,
        Some(node) => match method_for(world, &node) {
            None => false,
            Some(method) => is_empty(method.precondition()) && are_plain(plain, node.children()),
        },
    }
}

/// For each node whether it is plain: its method has no precondition, nor has that of a
/// node below it.
pub(crate) fn plain_nodes(
    alloc: Global,
    world: &World<'_>,
    tree: &Tree,
) -> Result<Vec<bool>, Memory>
    ensures { IfOk result
        (λ plain. ArePlain (world_view world.now) (tree_view tree.now) plain.items) }
{
    let count = tree.node_count();
    let mut plain = Vec::with_capacity(alloc, count as usize)?;
    for number in 0..count {
        let is = is_plain(world, tree, &plain, number);
        plain.push(is)?;
    }
    Ok(plain)
}
