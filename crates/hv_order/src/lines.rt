//! What a tree says of nodes that it has.

ghost use Rattle.std.specs.Prelude.{◌≡◌, ◌<◌, Some, length, slice_get};
ghost use Rattle.hv_plan.specs.BuiltTrees.{tree_view};
ghost use Rattle.hv_plan.specs.PlanTrees.{NodeIs};
ghost use Rattle.hv_plan.specs.TreeViews.{child_view};
ghost use Rattle.hv_order.specs.inside.Writings.{IsIdOf, HasId};

use hv_plan::{Child, Tree};

/// The number of the node at a place in the order of nodes.
pub fn number_at(tree: &Tree, place: usize) -> u32
    requires { place < length (tree_view tree.now).order }
    ensures { slice_get (tree_view tree.now).order place ≡ Some result }
{
    match tree.node_at(place) {
        Some(node) => node,
        None => unreachable!(),
    }
}

/// The number of the line of a node.
pub fn line_of(tree: &Tree, node: u32) -> u32
    requires { node < length (tree_view tree.now).nodes }
    ensures { NodeIs (tree_view tree.now) (λ n. n.line ≡ result) node }
{
    match tree.node(node) {
        Some(node) => node.line(),
        None => unreachable!(),
    }
}

/// The id with which the line of a child begins.
pub fn child_id(tree: &Tree, child: Child) -> u64
    requires { HasId (tree_view tree.now) (child_view child) }
    ensures { IsIdOf (tree_view tree.now) (child_view child) result }
{
    match child {
        Child::Action(action) => match tree.action_id(action as usize) {
            Some(id) => id,
            None => unreachable!(),
        },
        Child::Node(number) => match tree.node(number) {
            Some(node) => match node.id() {
                Some(id) => id,
                None => unreachable!(),
            },
            None => unreachable!(),
        },
    }
}
