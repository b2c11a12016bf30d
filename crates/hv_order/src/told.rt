//! What is told of how the children of a node are laid out before any candidate is looked for. Only
//! the time of the search hangs on it.

ghost use Rattle.std.specs.Prelude.{◌≡◌, true};
ghost use Rattle.hv_world.specs.Values.{and, no_formulas};
ghost use Rattle.hv_world.specs.Views.{formula_view};

use crate::solve::FEW;
use hv_plan::{Child, Node, Tree};
use hv_world::{Formula, Method, Order, Subtask, TaskName};

/// The state that the children of a node begin behind, and those of them that are laid out one
/// behind the other and behind no other, up to the first of which that is not told.
#[derive(Clone, Copy)]
pub struct Told {
    pub begin: u32,
    pub children: [Option<Child>; FEW],
}

/// Whether a precondition has no part, so that it is true everywhere.
pub(crate) fn is_empty(precondition: &Formula) -> bool
    ensures { result ≡ true → formula_view precondition.now ≡ and no_formulas }
{
    match precondition {
        Formula::And(parts) => parts.is_empty(),
        _ => false,
    }
}

// The name of what a child does, where the tree has it.
fn name_of(tree: &Tree, child: Child) -> Option<TaskName> {
    match child {
        Child::Action(action) => {
            let action = tree.actions().get(action as usize)?;
            Some(TaskName::Primitive(action.action()))
        }
        Child::Node(node) => {
            let task = tree.node(node)?.task()?;
            Some(TaskName::Compound(task))
        }
    }
}

// The names of what a few children do.
fn names_of(tree: &Tree, children: &[Child]) -> [Option<TaskName>; FEW] {
    let mut names = [None; FEW];
    for (name, child) in names.iter_mut().zip(children) {
        *name = name_of(tree, *child);
    }
    names
}

// The one of these children that does what has a name, if there is just one.
fn only_one(children: &[Child], names: &[Option<TaskName>], wanted: TaskName) -> Option<Child> {
    let mut found = None;
    for (child, name) in children.iter().zip(names) {
        if *name == Some(wanted) {
            if found.is_some() {
                return None;
            }
            found = Some(*child);
        }
    }
    found
}

// Whether directly before the subtask at a place of an arrangement stands the one at the place
// before it and no other.
fn is_next(order: &Order, place: usize, subtask: usize) -> bool {
    match place.checked_sub(1) {
        None => true,
        Some(former) => match order.directly_before(subtask) {
            [only] => order.arrangement().get(former) == Some(only),
            _ => false,
        },
    }
}

// The child that is laid out at a place of an order, behind the one at the place before it and no
// other: the only one with its subtask's name.
fn told_child(
    order: &Order,
    subtasks: &[Subtask],
    children: &[Child],
    names: &[Option<TaskName>],
    place: usize,
) -> Option<Child> {
    let subtask = *order.arrangement().get(place)?;
    if !is_next(order, place, subtask) {
        return None;
    }
    only_one(children, names, subtasks.get(subtask)?.name)
}

// Whether there is a node among these.
fn has_node(children: &[Child]) -> bool {
    for child in children {
        if let Child::Node(_) = child {
            return true;
        }
    }
    false
}

/// The children of a node with this method that are told, where they are few and nodes among them.
pub(crate) fn told_children(
    tree: &Tree,
    method: &Method<'_>,
    node: &Node<'_>,
) -> Option<[Option<Child>; FEW]> {
    let children = node.children();
    if FEW < children.len() || !has_node(children) {
        return None;
    }
    let network = method.network();
    let names = names_of(tree, children);
    let mut told = [None; FEW];
    for (place, child) in told.iter_mut().enumerate() {
        *child = told_child(network.order(), network.subtasks(), children, &names, place);
    }
    Some(told)
}

/// Whether a node is told behind a place among these children.
pub(crate) fn is_node_told_behind(children: &[Option<Child>], place: usize) -> bool {
    for child in children.iter().skip(place).skip(1) {
        match child {
            None => return false,
            Some(Child::Node(_)) => return true,
            Some(Child::Action(_)) => {}
        }
    }
    false
}
