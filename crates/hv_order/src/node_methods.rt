//! The nodes of a tree with their methods.
ghost use Rattle.std.specs.Prelude.{◌≡◌, ◌<◌, Some, length, option_map, slice_get};
ghost use Rattle.hv_world.specs.MethodViews.{method_view};
ghost use Rattle.hv_world.specs.WorldViews.{world_view};
ghost use Rattle.hv_plan.specs.BuiltTrees.{tree_view};
ghost use Rattle.hv_plan.specs.PlanTrees.{IsTreeIn};
ghost use Rattle.hv_plan.specs.TreeViews.{node_view};
ghost use Rattle.hv_match.specs.Candidates.{node_method, method_at};

use hv_plan::{Node, Tree};
use hv_world::{Method, World};

/// The method of a node, which for the root line's is the initial network.
pub(crate) fn method_for<'a, 's>(world: &'a World<'s>, node: &Node<'_>) -> Option<&'a Method<'s>>
    ensures { option_map (λ m. method_view m.now) result
        ≡ node_method (world_view world.now) (node_view node.now) }
{
    match node.method() {
        None => Some(world.top()),
        Some(method) => world.method(method),
    }
}

/// The method of the node of a number, where there is one.
pub(crate) fn method_if<'a, 's>(
    world: &'a World<'s>,
    tree: &Tree,
    number: u32,
) -> Option<&'a Method<'s>>
    ensures { option_map (λ m. method_view m.now) result
        ≡ method_at (world_view world.now) (tree_view tree.now) number }
{
    let node = tree.node(number)?;
    method_for(world, &node)
}

/// The node of a number. It is inlined, so that what is not asked of the node is not looked up.
#[inline(always)]
pub(crate) fn node_of<'a>(tree: &'a Tree, number: u32) -> Node<'a>
    requires number { number < length (tree_view tree.now).nodes }
    ensures { slice_get (tree_view tree.now).nodes number ≡ Some (node_view result) }
{
    match tree.node(number) {
        Some(node) => node,
        None => unreachable!(),
    }
}

/// The method of the node of a number, in a tree of this world.
pub(crate) fn method_of<'a, 's>(world: &'a World<'s>, tree: &Tree, number: u32) -> &'a Method<'s>
    requires tree { IsTreeIn (world_view world.now) (tree_view tree.now) }
    requires number { number < length (tree_view tree.now).nodes }
    ensures { method_at (world_view world.now) (tree_view tree.now) number
        ≡ Some (method_view result.now) }
{
    match method_if(world, tree, number) {
        Some(method) => method,
        None => unreachable!(),
    }
}
