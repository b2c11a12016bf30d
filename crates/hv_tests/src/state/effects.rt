//! Effects for all objects of types, in both kinds of state.

use crate::state::{Atoms, are_as_said};
use crate::worlds::world_of;
use hv_state::{BitState, GroundAtoms, SortedState, State};
use hv_world::{ActionId, Binding, ObjectId, Term};
use std::alloc::Global;

// What one item deletes and another adds, effects in effects, and variables that hide others.
const HALL: &[u8] = b"(define (domain hall)\n\
    (:types lamp box ghost)\n\
    (:predicates (lit ?x) (near ?x ?y))\n\
    (:action douse :effect (and (lit a) (forall (?x) (not (lit ?x)))))\n\
    (:action renew :effect (forall (?x - lamp) (and (lit ?x) (forall (?y) (not (lit ?y))))))\n\
    (:action join :parameters (?z) :effect (forall (?x - lamp)\n\
    (and (not (lit ?x)) (forall (?y - (either box lamp box)) (near ?x ?y)) (near ?z ?x))))\n\
    (:action hide :parameters (?x) :effect (and (forall (?x - box) (lit ?x)) (near ?x ?x)))\n\
    (:action deep :effect (forall (?x ?y - lamp) (forall (?x - box) (near ?x ?y))))\n\
    (:action none :effect (forall (?x ?y - ghost) (and (not (lit a)) (lit c)))))";

const IN_HALL: &[u8] = b"(define (problem four) (:domain hall) (:htn :subtasks ())\n\
    (:objects a b - lamp c - box d) (:init (lit a) (lit b) (lit d) (near c c)))";

const LIT: usize = 0;

const NEAR: usize = 1;

const A: Term = Term::Object(ObjectId(0));

const B: Term = Term::Object(ObjectId(1));

const C: Term = Term::Object(ObjectId(2));

const D: Term = Term::Object(ObjectId(3));

const DOUSED: Atoms = &[
    (LIT, &[A], true),
    (LIT, &[B], false),
    (LIT, &[C], false),
    (LIT, &[D], false),
    (NEAR, &[C, C], true),
];

const RENEWED: Atoms = &[
    (LIT, &[A], true),
    (LIT, &[B], true),
    (LIT, &[C], false),
    (LIT, &[D], false),
];

const JOINED: Atoms = &[
    (LIT, &[A], false),
    (LIT, &[B], false),
    (LIT, &[C], false),
    (LIT, &[D], true),
    (NEAR, &[A, A], true),
    (NEAR, &[A, B], true),
    (NEAR, &[A, C], true),
    (NEAR, &[A, D], false),
    (NEAR, &[B, A], true),
    (NEAR, &[B, C], true),
    (NEAR, &[C, A], false),
    (NEAR, &[C, C], true),
    (NEAR, &[D, A], true),
    (NEAR, &[D, B], true),
    (NEAR, &[D, C], false),
];

const HIDDEN: Atoms = &[
    (LIT, &[A], true),
    (LIT, &[B], true),
    (LIT, &[C], true),
    (LIT, &[D], true),
    (NEAR, &[A, A], true),
    (NEAR, &[B, B], false),
    (NEAR, &[C, C], true),
];

const DEEP: Atoms = &[
    (NEAR, &[C, A], true),
    (NEAR, &[C, B], true),
    (NEAR, &[C, C], true),
    (NEAR, &[C, D], false),
    (NEAR, &[A, A], false),
    (NEAR, &[A, B], false),
    (NEAR, &[A, C], false),
    (NEAR, &[B, B], false),
];

const UNCHANGED: Atoms = &[
    (LIT, &[A], true),
    (LIT, &[B], true),
    (LIT, &[C], false),
    (LIT, &[D], true),
    (NEAR, &[C, C], true),
    (NEAR, &[A, A], false),
];

// The state after an action of the hall, with these objects.
fn done<S: State>(alloc: Global, number: usize, objects: &[ObjectId]) -> Option<S> {
    let world = world_of(alloc, HALL, IN_HALL)?;
    let mut state = S::initial(alloc, &world).ok()?;
    let effect = world.action(ActionId(number))?.effect();
    let binding = Binding::Given(objects);
    let deletes = GroundAtoms::made(alloc, &world, effect, false, &binding).ok()?;
    let adds = GroundAtoms::made(alloc, &world, effect, true, &binding).ok()?;
    state.apply(&deletes, &adds).ok()?;
    Some(state)
}

// Whether an action leaves the atoms true, or not, as said.
fn leaves<S: State>(
    alloc: Global,
    number: usize,
    objects: &[ObjectId],
    atoms: Atoms,
) -> Option<bool> {
    let state: S = done(alloc, number, objects)?;
    are_as_said(&state, alloc, atoms)
}

fn leave_what_they_say<S: State>(alloc: Global) -> bool {
    leaves::<S>(alloc, 0, &[], DOUSED) == Some(true)
        && leaves::<S>(alloc, 1, &[], RENEWED) == Some(true)
        && leaves::<S>(alloc, 2, &[ObjectId(3)], JOINED) == Some(true)
        && leaves::<S>(alloc, 3, &[ObjectId(0)], HIDDEN) == Some(true)
        && leaves::<S>(alloc, 4, &[], DEEP) == Some(true)
        && leaves::<S>(alloc, 5, &[], UNCHANGED) == Some(true)
}

#[test]
fn effects_for_all_objects_leave_what_they_say(rt: HostRuntime) {
    assert!(rt; leave_what_they_say::<SortedState>(rt.alloc()));
    assert!(rt; leave_what_they_say::<BitState>(rt.alloc()));
}
