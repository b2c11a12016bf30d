//! What a world works out of networks: alike subtasks, free parameters and orders.

use crate::worlds::world_of;
use hv_world::{ActionId, Network, ObjectId, Order, TaskName};
use std::alloc::Global;

const DOMAIN: &[u8] = b"(define (domain d) (:constants o1 o2 o4 o5)\n\
    (:task t :parameters (?x)) (:task u :parameters (?x ?y ?z))\n\
    (:action a :parameters (?x)) (:action b :parameters (?x))\n\
    (:action c :parameters (?x ?y)) (:action d :parameters (?x ?y)) (:action e :parameters (?x ?y ?z))\n\
    (:method m :parameters (?p ?q ?r ?s ?v) :task (u ?p o2 ?s) :subtasks (e o4 ?s ?q)))";

// Initial networks, and the sizes of their classes of alike subtasks.
const CLASSES: [(&[u8], &[usize]); 5] = [
    // no subtasks have no classes
    (b"(define (problem q) (:domain d) (:htn) (:init))", &[]),
    // deliveries of two packages are two classes
    (
        b"(define (problem q) (:domain d) (:init)\n\
        (:htn :parameters (?x) :subtasks (and (c o1 ?x) (c o2 ?x))))",
        &[1, 1],
    ),
    // subtasks of variables are one
    (
        b"(define (problem q) (:domain d) (:init)\n\
        (:htn :parameters (?x ?y) :subtasks (and (a ?x) (a ?y))))",
        &[2],
    ),
    // names are classes of their own
    (
        b"(define (problem q) (:domain d) (:init)\n\
        (:htn :parameters (?x ?y) :subtasks (and (a ?x) (t ?x) (a ?y) (b ?y))))",
        &[2, 1, 1],
    ),
    // at the first position each c has an object, and one d has none
    (
        b"(define (problem q) (:domain d) (:init)\n\
        (:htn :parameters (?x ?y) :subtasks (and (c o1 o5) (c o1 ?x) (c o2 ?x) (d o1 o5) (d ?y o5))))",
        &[2, 1, 2],
    ),
];

// Whether the classes of an initial network have these sizes.
fn has_classes(alloc: Global, problem: &'static [u8], sizes: &[usize]) -> Option<bool> {
    let world = world_of(alloc, DOMAIN, problem)?;
    Some(world.top().network().class_sizes() == sizes)
}

#[test]
fn alike_subtasks_are_counted(rt: HostRuntime) {
    for (problem, sizes) in CLASSES {
        assert!(rt; has_classes(rt.alloc(), problem, sizes) == Some(true));
    }
}

// The classes of the subtasks of the last of these networks, and that there is no subtask more.
const CLASSES_AT: [Option<usize>; 6] = [Some(0), Some(0), Some(1), Some(2), Some(2), None];

// Actions of two objects, and of which class of that network what does them is.
const CLASSES_FOR: [(usize, [usize; 2], Option<usize>); 6] = [
    // c o1 o4, c o2 o1 and c o5 o5
    (2, [0, 2], Some(0)),
    (2, [1, 0], Some(1)),
    (2, [3, 3], None),
    // d o4 o5 and d o4 o4
    (3, [2, 3], Some(2)),
    (3, [2, 2], None),
    // an action that no subtask names
    (4, [0, 3], None),
];

fn are_at(network: &Network) -> bool {
    for (subtask, class) in CLASSES_AT.iter().enumerate() {
        if network.class_at(subtask) != *class {
            return false;
        }
    }
    true
}

fn are_for(alloc: Global, network: &Network) -> Option<bool> {
    for (action, [left, right], class) in CLASSES_FOR {
        let name = TaskName::Primitive(ActionId(action));
        let objects = [ObjectId(left), ObjectId(right)];
        if network.class_for(alloc, name, &objects).ok()? != class {
            return Some(false);
        }
    }
    Some(true)
}

fn are_told(alloc: Global) -> Option<bool> {
    let (problem, _) = CLASSES[4];
    let world = world_of(alloc, DOMAIN, problem)?;
    let network = world.top().network();
    Some(are_at(network) && are_for(alloc, network)?)
}

#[test]
fn classes_of_subtasks_and_children_are_told(rt: HostRuntime) {
    assert!(rt; are_told(rt.alloc()) == Some(true));
}

// Whether parameters 2 and 4 of the method are free.
fn are_free(alloc: Global) -> Option<bool> {
    let problem = b"(define (problem q) (:domain d) (:htn) (:init))";
    let world = world_of(alloc, DOMAIN, problem)?;
    let method = world.methods().first()?;
    Some(method.free_parameters() == [2usize, 4].as_slice())
}

// Parameter 0 is an argument of the task alone, 1 of a subtask alone, 3 of both; 2 and 4 stand in
// no term.
#[test]
fn parameters_in_no_argument_are_free(rt: HostRuntime) {
    assert!(rt; are_free(rt.alloc()) == Some(true));
}

// Which of two subtasks come before which, by number.
type Pairs = &'static [(usize, usize, bool)];

// Puts what stands directly before a subtask behind others, up to the one that is looked for; says
// whether it is there.
fn reaches(order: &Order, subtask: usize, wanted: usize, reached: &mut Vec<usize>) -> Option<bool> {
    for direct in order.directly_before(subtask) {
        if *direct == wanted {
            return Some(true);
        }
        reached.push(*direct).ok()?;
    }
    Some(false)
}

// Whether one subtask comes before another, in a network of a few: it is directly before it, or
// before one that is.
fn comes_before(alloc: Global, order: &Order, earlier: usize, later: usize) -> Option<bool> {
    let mut reached = Vec::new(alloc);
    reached.push(later).ok()?;
    for place in 0..100 {
        let Some(subtask) = reached.get(place).copied() else {
            return Some(false);
        };
        if reaches(order, subtask, earlier, &mut reached)? {
            return Some(true);
        }
    }
    None
}

// Whether these pairs of subtasks are in order, or not, as said.
fn are_before(alloc: Global, order: &Order, pairs: Pairs) -> Option<bool> {
    for (earlier, later, wanted) in pairs {
        if comes_before(alloc, order, *earlier, *later)? != *wanted {
            return Some(false);
        }
    }
    Some(true)
}

// Whether these stand directly before the subtasks, from the first on.
fn are_direct(order: &Order, directs: &[&[usize]]) -> bool {
    for (later, direct) in directs.iter().enumerate() {
        if order.directly_before(later) != *direct {
            return false;
        }
    }
    true
}

// Whether an initial network has this order, and in a row as many subtasks as said.
fn is_ordered(
    alloc: Global,
    problem: &'static [u8],
    pairs: Pairs,
    directs: &[&[usize]],
    many: usize,
) -> Option<bool> {
    let world = world_of(alloc, DOMAIN, problem)?;
    let order = world.top().network().order();
    let is_ordered = are_before(alloc, order, pairs)? && are_direct(order, directs);
    Some(is_ordered && order.arrangement().len() == many)
}

#[test]
fn nothing_is_in_order(rt: HostRuntime) {
    let problem = b"(define (problem q) (:domain d) (:htn) (:init))";
    assert!(rt; is_ordered(rt.alloc(), problem, &[(0, 0, false)], &[&[]], 0) == Some(true));
}

#[test]
fn pairs_lead_over_two_steps(rt: HostRuntime) {
    let problem = b"(define (problem q) (:domain d) (:init)\n\
        (:htn :subtasks (and (k (a o1)) (l (a o1)) (m (a o1)) (n (a o1)))\n\
        :ordering (and (< m k) (< k l))))";
    let pairs = &[
        (2, 0, true),
        (0, 1, true),
        (2, 1, true),
        (1, 2, false),
        (3, 1, false),
        (7, 1, false),
        (2, 7, false),
    ];
    let directs: [&[usize]; 6] = [&[2], &[0], &[], &[], &[], &[]];
    assert!(rt; is_ordered(rt.alloc(), problem, pairs, &directs, 4) == Some(true));
}

const WRITTEN: &[u8] = b"(define (problem q) (:domain d) (:init)\n\
    (:htn :ordered-subtasks (and (k (a o1)) (l (a o1)) (m (a o1))) :ordering (< k m)))";

#[test]
fn written_order_is_kept(rt: HostRuntime) {
    let pairs = &[
        (0, 1, true),
        (0, 2, true),
        (1, 2, true),
        (1, 0, false),
        (1, 1, false),
        (2, 3, false),
    ];
    let directs: [&[usize]; 4] = [&[], &[0], &[1], &[]];
    assert!(rt; is_ordered(rt.alloc(), WRITTEN, pairs, &directs, 3) == Some(true));
}

// Whether the row of the written order is that order.
fn is_written_in_a_row(alloc: Global) -> Option<bool> {
    let world = world_of(alloc, DOMAIN, WRITTEN)?;
    Some(world.top().network().order().arrangement() == [0, 1, 2].as_slice())
}

#[test]
fn the_row_of_the_written_order_is_that_order(rt: HostRuntime) {
    assert!(rt; is_written_in_a_row(rt.alloc()) == Some(true));
}
