//! What states say, and what actions leave of them, for both kinds of state.

mod effects;
mod random;

use crate::texts::{DOMAINS, ONE, PROBLEMS, TRANSPORT};
use crate::worlds::world_of;
use hv_state::{AtomView, BitState, GroundAtoms, SortedState, State, Trace, next_row};
use hv_world::{Atom, Binding, GroundActions, ObjectId, PredicateId, Term, World};
use smallvec::SmallVec;
use std::alloc::Global;

// Two trucks, one object that is none, and no ghost.
const YARD: &[u8] = b"(define (domain yard)\n\
    (:types truck ghost)\n\
    (:predicates (alone) (at ?x) (near ?x ?y))\n\
    (:action move :parameters (?x ?y)\n\
    :effect (and (not (alone)) (not (at ?x)) (alone) (at ?y) (at ?y)))\n\
    (:action leave :parameters (?x) :effect (not (at ?x))))";

// What is true in the yard of these atoms.
const TRUE: &[u8] = b"(define (problem true) (:domain yard) (:htn :subtasks ())\n\
    (:objects a b - truck c)\n\
    (:init (near b b) (at b) (alone) (near a b) (not (at c)) (at a) (at b))\n\
    (:goal (and\n\
    () (alone) (at b) (near a b) (near b b) (= a a)\n\
    (and) (and (at a) (at b))\n\
    (or (at c) (at b)) (or (alone) (at c))\n\
    (not (at c)) (not (not (at a)))\n\
    (imply (at a) (at b)) (imply (at c) (at a)) (imply (at c) (at c))\n\
    (forall (?x - truck) (at ?x)) (forall (?x - ghost) (= a b))\n\
    (exists (?x) (near ?x b)) (exists (?x) (not (at ?x)))\n\
    (exists (?x ?y - truck) (and (near ?x ?y) (= ?x a)))\n\
    (exists (?x - truck) (forall (?y - truck) (near ?y ?x)))\n\
    (forall (?x - truck) (exists (?x) (not (at ?x))))\n\
    (exists (?x) (and (forall (?x - truck) (at ?x)) (= ?x c)))\n\
    (exists (?x ?y) (and (exists (?x) (and (= ?x c) (= ?y b))) (= ?x a))))))";

const ALONE: usize = 0;

const AT: usize = 1;

const NEAR: usize = 2;

const LEFT: Term = Term::Object(ObjectId(0));

const RIGHT: Term = Term::Object(ObjectId(1));

const OTHER: Term = Term::Object(ObjectId(2));

const NONE: Binding<'static> = Binding::Given(&[]);

// The state that the world of these texts begins with.
fn state_of<S: State>(alloc: Global, domain: &[u8], problem: &[u8]) -> Option<S> {
    let world = world_of(alloc, domain, problem)?;
    S::initial(alloc, &world).ok()
}

fn atom(alloc: Global, predicate: usize, terms: &[Term]) -> Option<Atom> {
    let terms = SmallVec::from_slice(alloc, terms).ok()?;
    Some(Atom {
        predicate: PredicateId(predicate),
        terms,
    })
}

// Atoms, and whether each is true.
type Atoms = &'static [(usize, &'static [Term], bool)];

// Whether atoms are true in a state, or not, as said.
fn are_as_said<S: State>(state: &S, alloc: Global, atoms: Atoms) -> Option<bool> {
    for (predicate, terms, wanted) in atoms {
        let atom = atom(alloc, *predicate, terms)?;
        if state.holds(&AtomView::new(&atom, &NONE)) != *wanted {
            return Some(false);
        }
    }
    Some(true)
}

const INITIAL: Atoms = &[
    (ALONE, &[], true),
    (AT, &[LEFT], true),
    (AT, &[RIGHT], true),
    (NEAR, &[LEFT, RIGHT], true),
    (NEAR, &[RIGHT, RIGHT], true),
    (ALONE, &[LEFT], false),
    (AT, &[], false),
    (AT, &[OTHER], false),
    (NEAR, &[LEFT], false),
    (NEAR, &[RIGHT, LEFT], false),
    (NEAR, &[RIGHT, RIGHT, RIGHT], false),
    (3, &[], false),
];

// The same state once more, without (at LEFT).
fn without<S: State>(state: &S, alloc: Global) -> Option<S> {
    let mut other = state.copy(alloc).ok()?;
    let atom = atom(alloc, AT, &[LEFT])?;
    let mut deletes = GroundAtoms::new(alloc);
    deletes.push(&AtomView::new(&atom, &NONE)).ok()?;
    other.apply(&deletes, &GroundAtoms::new(alloc)).ok()?;
    Some(other)
}

const LEFT_OUT: Atoms = &[(AT, &[LEFT], false), (AT, &[RIGHT], true)];

fn copies<S: State>(alloc: Global) -> Option<bool> {
    let state: S = state_of(alloc, YARD, TRUE)?;
    let other = without(&state, alloc)?;
    Some(are_as_said(&state, alloc, INITIAL)? && are_as_said(&other, alloc, LEFT_OUT)?)
}

#[test]
fn a_copy_changes_alone(rt: HostRuntime) {
    assert!(rt; copies::<SortedState>(rt.alloc()) == Some(true));
    assert!(rt; copies::<BitState>(rt.alloc()) == Some(true));
}

// Whether an atom is false at the start of a world, and true where it alone is added.
fn takes_a_new_atom<S: State>(alloc: Global) -> Option<(bool, bool)> {
    let mut state: S = state_of(alloc, TRANSPORT, ONE)?;
    let atom = atom(alloc, 0, &[RIGHT, Term::Object(ObjectId(3))])?;
    let before = state.holds(&AtomView::new(&atom, &NONE));
    let mut adds = GroundAtoms::new(alloc);
    adds.push(&AtomView::new(&atom, &NONE)).ok()?;
    state.apply(&GroundAtoms::new(alloc), &adds).ok()?;
    Some((before, state.holds(&AtomView::new(&atom, &NONE))))
}

#[test]
fn an_atom_that_no_table_has_can_be_added(rt: HostRuntime) {
    assert!(rt; takes_a_new_atom::<SortedState>(rt.alloc()) == Some((false, true)));
    assert!(rt; takes_a_new_atom::<BitState>(rt.alloc()) == Some((false, true)));
}

#[test]
fn deletes_come_before_adds_in_a_word(rt: HostRuntime) {
    let mut row = [12];
    next_row(&mut row, &[6], &[2]);
    assert!(rt; row == [10]);
}

// Whether the goal of a world holds where nothing is done.
fn begins_with_its_goal<S: State>(alloc: Global, world: &World<'_>) -> Option<bool> {
    let actions = GroundActions::with_capacity(alloc, 0).ok()?;
    let trace: Trace<S> = Trace::run(alloc, world, &actions).ok()?;
    Some(trace.goal_holds())
}

// The same of the world of these texts.
fn holds_at_once<S: State>(alloc: Global, domain: &[u8], problem: &[u8]) -> Option<bool> {
    let world = world_of(alloc, domain, problem)?;
    begins_with_its_goal::<S>(alloc, &world)
}

// Whether the goals of the problems are true at the start; none where there is no world.
fn goals_at_the_start<S: State>(alloc: Global) -> Option<Vec<Option<bool>>> {
    let mut goals = Vec::new(alloc);
    for domain in DOMAINS {
        for problem in PROBLEMS {
            goals.push(holds_at_once::<S>(alloc, domain, problem)).ok()?;
        }
    }
    Some(goals)
}

#[test]
fn formulas_are_true_in_both_kinds(rt: HostRuntime) {
    assert!(rt; holds_at_once::<SortedState>(rt.alloc(), YARD, TRUE) == Some(true));
    assert!(rt; holds_at_once::<BitState>(rt.alloc(), YARD, TRUE) == Some(true));
}

fn kinds_agree(alloc: Global) -> Option<bool> {
    let sorted = goals_at_the_start::<SortedState>(alloc)?;
    let bits = goals_at_the_start::<BitState>(alloc)?;
    Some(sorted.len() == 264 && sorted == bits && sorted.contains(&Some(true)))
}

#[test]
fn the_goals_of_all_worked_texts_are_the_same_in_both_kinds(rt: HostRuntime) {
    assert!(rt; kinds_agree(rt.alloc()) == Some(true));
}
