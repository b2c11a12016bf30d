//! What a node of a tree has to do with the world.

ghost use Rattle.std.specs.Prelude.{◌≡◌, ◌<◌, Some, length, option_map, slice_get};
ghost use Rattle.hv_world.specs.MethodViews.{method_view};
ghost use Rattle.hv_world.specs.WorldViews.{world_view};
ghost use Rattle.hv_plan.specs.BuiltTrees.{tree_view};
ghost use Rattle.hv_plan.specs.PlanTrees.{IsTreeIn};
ghost use Rattle.hv_plan.specs.TreeViews.{node_view};
ghost use Rattle.hv_match.specs.Candidates as candidates;

use hv_plan::{Node, Tree};
use hv_world::{Method, World};

// The method of a node, which for the root line's is the initial network.
fn node_method<'a, 's>(world: &'a World<'s>, node: &Node<'_>) -> Option<&'a Method<'s>>
    ensures { option_map (λ m. method_view m.now) result
        ≡ candidates.node_method (world_view world.now) (node_view node.now) }
{
    match node.method() {
        None => Some(world.top()),
        Some(method) => world.method(method),
    }
}

/// The node of a number of a tree of this world, and its method.
pub(crate) fn node_and_method<'a, 's>(
    world: &'a World<'s>,
    tree: &'a Tree,
    node: u32,
) -> (Node<'a>, &'a Method<'s>)
    requires tree { IsTreeIn (world_view world.now) (tree_view tree.now) }
    requires node { node < length (tree_view tree.now).nodes }
    ensures node { slice_get (tree_view tree.now).nodes node ≡ Some (node_view result.0) }
    ensures method { candidates.node_method (world_view world.now) (node_view result.0)
        ≡ Some (method_view result.1.now) }
{
    match tree.node(node) {
        Some(node) => match node_method(world, &node) {
            Some(method) => (node, method),
            None => unreachable!(),
        },
        None => unreachable!(),
    }
}
