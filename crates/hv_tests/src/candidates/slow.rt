//! The candidates of a node by trial of all children for all subtasks and all objects for
//! all parameters.

use crate::candidates::Candidate;
use hv_plan::{Child, Node, Tree};
use hv_world::{Constraint, Method, ObjectId, Subtask, TaskName, Term, TypeId, World};
use std::alloc::Global;

// The object of a term under objects for the parameters.
fn object_of(objects: &[ObjectId], term: Term) -> Option<ObjectId> {
    match term {
        Term::Object(object) => Some(object),
        Term::Variable(parameter) => objects.get(parameter).copied(),
    }
}

// Whether terms are these objects.
fn are(objects: &[ObjectId], terms: &[Term], wanted: &[ObjectId]) -> bool {
    for (term, object) in terms.iter().zip(wanted) {
        if object_of(objects, *term) != Some(*object) {
            return false;
        }
    }
    terms.len() == wanted.len()
}

// Whether a child does a subtask.
fn does(tree: &Tree, child: Child, subtask: &Subtask, objects: &[ObjectId]) -> bool {
    match child {
        Child::Action(place) => match tree.actions().get(place as usize) {
            Some(action) => {
                subtask.name == TaskName::Primitive(action.action())
                    && are(objects, &subtask.terms, action.objects())
            }
            None => false,
        },
        Child::Node(number) => match tree.node(number) {
            Some(node) => match node.task() {
                Some(task) => {
                    subtask.name == TaskName::Compound(task)
                        && are(objects, &subtask.terms, node.objects())
                }
                None => false,
            },
            None => false,
        },
    }
}

// Whether the children of these places do the subtasks.
fn do_all(
    tree: &Tree,
    node: &Node<'_>,
    subtasks: &[Subtask],
    children: &[usize],
    objects: &[ObjectId],
) -> bool {
    for (subtask, place) in subtasks.iter().zip(children) {
        let Some(child) = node.children().get(*place) else {
            return false;
        };
        if !does(tree, *child, subtask, objects) {
            return false;
        }
    }
    subtasks.len() == children.len()
}

// Whether the constraints hold.
fn hold(constraints: &[Constraint], objects: &[ObjectId]) -> bool {
    for constraint in constraints {
        let are_equal = object_of(objects, constraint.left) == object_of(objects, constraint.right);
        if are_equal != constraint.is_equal {
            return false;
        }
    }
    true
}

// Whether objects are of these types.
fn are_typed(world: &World<'_>, types: &[TypeId], objects: &[ObjectId]) -> bool {
    for (of, object) in types.iter().zip(objects) {
        if !world.is_of(*object, *of) {
            return false;
        }
    }
    types.len() == objects.len()
}

// Whether the method's task has the objects of the node's.
fn fits_task(node: &Node<'_>, method: &Method<'_>, objects: &[ObjectId]) -> bool {
    match method.task() {
        Some(task) => are(objects, &task.terms, node.objects()),
        None => node.objects().is_empty(),
    }
}

// A number by its digits to a base, the lowest first.
fn digits(alloc: Global, number: usize, base: usize, len: usize) -> Option<Vec<usize>> {
    let mut digits = Vec::new(alloc);
    let mut rest = number;
    for _ in 0..len {
        digits.push(rest.checked_rem(base)?).ok()?;
        rest = rest.checked_div(base)?;
    }
    Some(digits)
}

// How many numbers have so many digits.
fn power(base: usize, len: usize) -> Option<usize> {
    let mut power = 1usize;
    for _ in 0..len {
        power = power.checked_mul(base)?;
    }
    Some(power)
}

// Whether no number stands twice.
fn are_once(numbers: &[usize]) -> bool {
    for i in 0..numbers.len() {
        if numbers[..i].contains(&numbers[i]) {
            return false;
        }
    }
    true
}

// So many objects, by the digits of a number.
fn objects_by(alloc: Global, number: usize, base: usize, len: usize) -> Option<Vec<ObjectId>> {
    let mut objects = Vec::new(alloc);
    for digit in &digits(alloc, number, base, len)? {
        objects.push(ObjectId(*digit)).ok()?;
    }
    Some(objects)
}

// Adds the candidates with these children.
fn add(
    alloc: Global,
    world: &World<'_>,
    tree: &Tree,
    node: &Node<'_>,
    method: &Method<'_>,
    children: &[usize],
    found: &mut Vec<Candidate>,
) -> Option<()> {
    let network = method.network();
    let types = method.parameters();
    let many = world.objects_of(TypeId(0)).len();
    for number in 0..power(many, types.len())? {
        let objects = objects_by(alloc, number, many, types.len())?;
        if are_typed(world, types, &objects)
            && fits_task(node, method, &objects)
            && do_all(tree, node, network.subtasks(), children, &objects)
            && hold(network.constraints(), &objects)
        {
            let children = Vec::from_slice(alloc, children).ok()?;
            found.push(Candidate { children, objects }).ok()?;
        }
    }
    Some(())
}

/// The candidates of a node, each once.
pub(crate) fn candidates(
    alloc: Global,
    world: &World<'_>,
    tree: &Tree,
    node: u32,
) -> Option<Vec<Candidate>> {
    let node = tree.node(node)?;
    let method = world.method(node.method()?)?;
    let many = node.children().len();
    let mut found = Vec::new(alloc);
    for number in 0..power(many, many)? {
        let children = digits(alloc, number, many, many)?;
        if are_once(&children) {
            add(alloc, world, tree, &node, method, &children, &mut found)?;
        }
    }
    Some(found)
}

// Whether a candidate is among others.
fn is_among(candidate: &Candidate, others: &[Candidate]) -> bool {
    for other in others {
        if candidate.children == other.children && candidate.objects == other.objects {
            return true;
        }
    }
    false
}

/// Whether two lists, of which the second has each candidate once, have the same candidates.
pub(crate) fn are_same(found: &[Candidate], wanted: &[Candidate]) -> bool {
    for candidate in wanted {
        if !is_among(candidate, found) {
            return false;
        }
    }
    found.len() == wanted.len()
}
