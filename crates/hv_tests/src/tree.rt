//! Trees of plans in a world.

use crate::texts::{ONE, PLAN1, TRANSPORT};
use crate::worlds::{plan_of, tree_of, world_of};
use hv_plan::{Child, Node, Tree};
use hv_world::ObjectId;
use std::alloc::Global;

// Whether the action of a place in plan order is this one, with these objects.
fn is_action(tree: &Tree, place: usize, action: usize, objects: &[ObjectId]) -> bool {
    match tree.actions().get(place) {
        Some(found) => found.action().0 == action && found.objects() == objects,
        None => false,
    }
}

// Whether the actions are those of the plan, in its order.
fn has_actions(tree: &Tree) -> bool {
    is_action(tree, 0, 1, &[ObjectId(0), ObjectId(1), ObjectId(2)])
        && is_action(tree, 1, 0, &[ObjectId(0), ObjectId(2), ObjectId(3)])
        && is_action(tree, 2, 2, &[ObjectId(0), ObjectId(1), ObjectId(3)])
        && tree.actions().len() == 3
}

fn has_action_ids(tree: &Tree) -> bool {
    tree.action_id(0) == Some(1) && tree.action_id(2) == Some(3) && tree.action_id(3).is_none()
}

// The id of a node, its line, and the numbers of its task and its method.
fn says(node: Node<'_>) -> (Option<u64>, u32, Option<usize>, Option<usize>) {
    let task = match node.task() {
        Some(task) => Some(task.0),
        None => None,
    };
    let method = match node.method() {
        Some(method) => Some(method.0),
        None => None,
    };
    (node.id(), node.line(), task, method)
}

fn has_root(tree: &Tree) -> Option<bool> {
    let root = tree.node(3)?;
    Some(says(root) == (None, 5, None, None) && root.children().len() == 1)
}

fn begins_with_root(tree: &Tree) -> Option<bool> {
    let is_last = tree.node_count() == 4 && tree.node_at(0) == Some(3);
    Some(is_last && tree.node_at(4).is_none() && has_root(tree)?)
}

// The k-th node in the order of nodes.
fn nth<'a>(tree: &'a Tree, k: usize) -> Option<Node<'a>> {
    tree.node(tree.node_at(k)?)
}

// The k-th node in the order of nodes as a child.
fn child_at(tree: &Tree, k: usize) -> Option<Child> {
    Some(Child::Node(tree.node_at(k)?))
}

// Whether the node of the delivery says what its line says, and its children stand in the order of
// the line.
fn is_delivery(tree: &Tree) -> Option<bool> {
    let node = nth(tree, 1)?;
    let children = [
        child_at(tree, 2)?,
        Child::Action(0),
        child_at(tree, 3)?,
        Child::Action(2),
    ];
    let is_said = says(node) == (Some(10), 6, Some(0), Some(0));
    let has_objects = node.objects() == [ObjectId(1), ObjectId(3)].as_slice();
    Some(is_said && has_objects && node.children() == children.as_slice())
}

// Whether the last node says what its line says.
fn is_drive(tree: &Tree) -> Option<bool> {
    let node = nth(tree, 3)?;
    let is_said = says(node) == (Some(12), 8, Some(1), Some(1));
    Some(is_said && node.children() == [Child::Action(1)].as_slice())
}

// Whether the actions, the root line's node and the other nodes of the tree of the plan for the
// package are as its lines say.
fn is_as_said(alloc: Global) -> Option<(bool, bool, bool)> {
    let world = world_of(alloc, TRANSPORT, ONE)?;
    let plan = plan_of(alloc, PLAN1)?;
    let tree = tree_of(alloc, &world, &plan)?;
    let has_actions = has_actions(&tree) && has_action_ids(&tree);
    let has_nodes = is_delivery(&tree)? && is_drive(&tree)?;
    Some((has_actions, begins_with_root(&tree)?, has_nodes))
}

// The actions stand in plan order, the root line comes first in the order of nodes and has the last
// number, and a node says what its line says.
#[test]
fn a_tree_says_what_the_lines_say(rt: HostRuntime) {
    assert_eq!(rt; is_as_said(rt.alloc()), Some((true, true, true)));
}

// A task that does itself and an action, or nothing.
const STEPS: &[u8] = b"(define (domain d) (:task t) (:action a)\n\
    (:method m :task (t) :subtasks (and (t) (a))) (:method e :task (t) :subtasks ()))";

const STEP: &[u8] = b"(define (problem q) (:domain d) (:init) (:htn :subtasks (t)))";

// Lines in an order of which none follows from the tree.
const MIXED: &[u8] = b"==>\n2 t -> m 3 1\n1 a\nroot 0\n3 t -> e\n0 t -> m 2 4\n4 a\n<==";

// Whether the k-th nodes have these numbers.
fn are_in_order(tree: &Tree, numbers: &[u32]) -> bool {
    for (k, number) in numbers.iter().enumerate() {
        if tree.node_at(k) != Some(*number) {
            return false;
        }
    }
    true
}

fn is_node(tree: &Tree, node: u32, id: Option<u64>, children: &[Child]) -> bool {
    match tree.node(node) {
        Some(node) => node.id() == id && node.children() == children,
        None => false,
    }
}

fn are_nodes(tree: &Tree) -> bool {
    tree.node_count() == 4
        && is_node(tree, 0, Some(3), &[])
        && is_node(tree, 1, Some(2), &[Child::Node(0), Child::Action(0)])
        && is_node(tree, 2, Some(0), &[Child::Node(1), Child::Action(1)])
        && is_node(tree, 3, None, &[Child::Node(2)])
        && tree.node(4).is_none()
}

fn is_numbered(alloc: Global) -> Option<bool> {
    let world = world_of(alloc, STEPS, STEP)?;
    let plan = plan_of(alloc, MIXED)?;
    let tree = tree_of(alloc, &world, &plan)?;
    Some(are_in_order(&tree, &[3, 1, 0, 2]) && are_nodes(&tree))
}

#[test]
fn numbers_children_before_parents(rt: HostRuntime) {
    assert!(rt; is_numbered(rt.alloc()) == Some(true));
}
