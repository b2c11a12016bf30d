//! What a world has: numbers for names, sections in these numbers, and ground actions.

mod networks;
mod types;

use crate::texts::{ONE, TRANSPORT};
use crate::worlds::{object, world_of};
use hv_text::Name;
use hv_world::{
    Action, ActionId, Effect, Formula, Method, MethodId, Network, ObjectId, PredicateId, TaskId,
    TaskName, Term, TypeId, World,
};
use std::alloc::Global;

const DOMAIN: &[u8] = b"(define (domain d) (:types truck - vehicle city)\n\
    (:constants home - city) (:predicates (at ?v - vehicle ?c - city) (full))\n\
    (:task send :parameters (?c - city))\n\
    (:method by_truck :parameters (?v - truck ?c - city ?n - city) :task (send ?c)\n\
    :precondition (forall (?c - city) (or (at ?v ?c) (= ?n home)))\n\
    :subtasks (and (b (Drive ?v ?c)) (a (fill ?v))) :ordering (< a b)\n\
    :constraints (not (= ?c home)))\n\
    (:action drive :parameters (?v - vehicle ?c - city)\n\
    :effect (and (not (at ?v home)) (at ?v ?c) (not (full))))\n\
    (:action fill :parameters (?v - vehicle) :effect (full)))";

const PROBLEM: &[u8] = b"(define (problem p) (:domain d) (:objects t - truck ulm - city)\n\
    (:htn :parameters (?c - city) :subtasks (send ?c)) (:init (at t home)) (:goal (at t ulm)))";

// What a name of a task or an action is.
fn task<'s>(world: &World<'s>, name: &'s [u8]) -> Option<TaskName> {
    world.task_named(Name::new(name)?)
}

fn method<'s>(world: &World<'s>, name: &'s [u8]) -> Option<MethodId> {
    world.method_named(Name::new(name)?)
}

fn objects_are_numbered(world: &World<'static>) -> bool {
    object(world, b"HOME") == Some(ObjectId(0))
        && object(world, b"ulm") == Some(ObjectId(2))
        && object(world, b"bonn") == None
}

fn tasks_are_numbered(world: &World<'static>) -> bool {
    task(world, b"send") == Some(TaskName::Compound(TaskId(0)))
        && task(world, b"Fill") == Some(TaskName::Primitive(ActionId(1)))
        && task(world, b"by_truck") == None
}

fn methods_are_numbered(world: &World<'static>) -> bool {
    method(world, b"by_truck") == Some(MethodId(0)) && method(world, b"send") == None
}

// Whether there is such a name.
fn is_named(name: Option<Name<'_>>, text: &[u8]) -> bool {
    match name {
        Some(name) => name.is(text),
        None => false,
    }
}

fn numbers_have_names(world: &World<'static>) -> bool {
    is_named(world.object_name(ObjectId(1)), b"t")
        && world.object_name(ObjectId(3)).is_none()
        && is_named(world.type_name(TypeId(2)), b"vehicle")
        && is_named(world.predicate_name(PredicateId(1)), b"full")
}

fn have_numbers(alloc: Global) -> Option<bool> {
    let world = world_of(alloc, DOMAIN, PROBLEM)?;
    let have_numbers = objects_are_numbered(&world)
        && tasks_are_numbered(&world)
        && methods_are_numbered(&world)
        && numbers_have_names(&world);
    Some(have_numbers)
}

#[test]
fn names_have_numbers(rt: HostRuntime) {
    assert!(rt; have_numbers(rt.alloc()) == Some(true));
}

fn method_has_numbers(method: &Method<'_>) -> bool {
    let is_for = match method.task() {
        Some(task) => task.name == TaskName::Compound(TaskId(0)),
        None => false,
    };
    is_for
        && method.parameters() == [TypeId(1), TypeId(3), TypeId(3)].as_slice()
        && method.free_parameters() == [2usize].as_slice()
}

fn network_has_numbers(network: &Network) -> bool {
    network.subtasks().len() == 2
        && network.order().directly_before(0) == [1usize].as_slice()
        && network.order().directly_before(1).is_empty()
        && network.constraints().len() == 1
        && network.class_sizes() == [1usize, 1].as_slice()
}

fn action_has_numbers(action: &Action<'_>) -> bool {
    let as_written = match action.effect() {
        [
            Effect::Becomes(first, _),
            Effect::Becomes(second, _),
            Effect::Becomes(third, _),
        ] => { !*first && *second && !*third }
        _ => false,
    };
    action.name().is(b"drive") && as_written
}

fn top_has_numbers(top: &Method<'_>) -> bool {
    top.name().is_none() && top.task().is_none() && top.parameters() == [TypeId(3)].as_slice()
}

// How many tasks, methods and actions there are.
fn many(world: &World<'_>) -> (usize, usize, usize) {
    (
        world.tasks().len(),
        world.methods().len(),
        world.actions().len(),
    )
}

// How many atoms are true at first, and whether there is a goal.
fn begins(world: &World<'_>) -> (usize, bool) {
    (world.init().len(), world.goal().is_some())
}

fn parts_have_numbers(world: &World<'_>) -> bool {
    let (Some(method), Some(action)) = (world.method(MethodId(0)), world.action(ActionId(0))) else {
        return false;
    };
    method_has_numbers(method)
        && network_has_numbers(method.network())
        && action_has_numbers(action)
        && top_has_numbers(world.top())
}

fn sections(alloc: Global) -> Option<bool> {
    let world = world_of(alloc, DOMAIN, PROBLEM)?;
    let are_numbered = parts_have_numbers(&world)
        && many(&world) == (1, 1, 2)
        && world.task(TaskId(1)).is_none()
        && begins(&world) == (1, true);
    Some(are_numbered)
}

#[test]
fn sections_have_numbers(rt: HostRuntime) {
    assert!(rt; sections(rt.alloc()) == Some(true));
}

// Whether there is a ground action of these objects.
fn is_ground(world: &World<'_>, action: usize, objects: &[ObjectId]) -> bool {
    world.ground(ActionId(action), objects).is_some()
}

const HOME: ObjectId = ObjectId(0);

const TRUCK: ObjectId = ObjectId(1);

const ULM: ObjectId = ObjectId(2);

// Actions, objects for their parameters, and whether they are of the right types.
const GROUNDINGS: [(usize, &[ObjectId], bool); 10] = [
    (0, &[TRUCK, ULM], true),
    (0, &[TRUCK, HOME], true),
    (0, &[TRUCK, TRUCK], false),
    (0, &[ULM, ULM], false),
    (0, &[TRUCK], false),
    (0, &[TRUCK, ULM, ULM], false),
    (0, &[TRUCK, ObjectId(3)], false),
    (1, &[TRUCK], true),
    (1, &[], false),
    (2, &[TRUCK], false),
];

fn are_grounded(alloc: Global) -> Option<bool> {
    let world = world_of(alloc, DOMAIN, PROBLEM)?;
    for (action, objects, wanted) in GROUNDINGS {
        if is_ground(&world, action, objects) != wanted {
            return Some(false);
        }
    }
    Some(true)
}

#[test]
fn actions_take_objects_of_their_types(rt: HostRuntime) {
    assert!(rt; are_grounded(rt.alloc()) == Some(true));
}

// What the equation of the quantifier is about: a parameter's number, and an object's.
fn equation(formula: &Formula) -> Option<(Term, Term)> {
    let Formula::Forall(_, part) = formula else {
        return None;
    };
    let Formula::Or(parts) = &**part else {
        return None;
    };
    let Formula::Equal(left, right) = parts.get(1)? else {
        return None;
    };
    Some((*left, *right))
}

fn equation_of_method(alloc: Global) -> Option<(Term, Term)> {
    let world = world_of(alloc, DOMAIN, PROBLEM)?;
    equation(world.method(MethodId(0))?.precondition())
}

#[test]
fn variables_have_numbers(rt: HostRuntime) {
    let found = equation_of_method(rt.alloc());
    assert!(rt; matches!(found, Some((Term::Variable(2), Term::Object(ObjectId(0))))));
}

fn deliver_has_its_order(method: &Method<'_>) -> bool {
    let order = method.network().order();
    method.parameters().len() == 4
        && order.is_ordered()
        && order.directly_before(3) == [2usize].as_slice()
}

fn transport(alloc: Global) -> Option<bool> {
    let world = world_of(alloc, TRANSPORT, ONE)?;
    let are_there = many(&world) == (2, 3, 3)
        && begins(&world) == (3, true)
        && world.top().network().subtasks().len() == 1
        && deliver_has_its_order(world.method(MethodId(0))?);
    Some(are_there)
}

#[test]
fn transport_has_its_sections(rt: HostRuntime) {
    assert!(rt; transport(rt.alloc()) == Some(true));
}
