//! Candidates that are left out where their precondition needs an atom that is never true.

ghost use Rattle.std.specs.Prelude.{◌<◌, length};
ghost use Rattle.hv_world.specs.WorldViews.{world_view};
ghost use Rattle.hv_plan.specs.BuiltTrees.{tree_view};
ghost use Rattle.hv_plan.specs.PlanTrees.{IsTreeIn};

use crate::candidates::{Candidate, all, lent, matcher_of, node_of};
use crate::worlds::{object, plan_of, tree_of, world_of};
use hv_match::{CandidateRoom, Candidates, Matcher};
use hv_plan::Tree;
use hv_state::{BitState, EverTrue, Trace};
use hv_world::World;
use std::alloc::Global;

// `seen` is true of a place that is seen on the way, and of no other.
const LINKS: &[u8] = b"(define (domain links) (:types place)\n\
    (:predicates (link ?a ?b - place) (seen ?a - place) (far ?a ?b ?c ?d - place))\n\
    (:task go :parameters (?a - place)) (:task stay :parameters (?a - place))\n\
    (:method m :parameters (?a ?b ?c - place) :task (go ?a)\n\
    :precondition (and (link ?a ?b) (link ?b ?c) (seen ?c)) :subtasks (see ?a))\n\
    (:method one :parameters (?a ?b - place) :task (go ?a)\n\
    :precondition (link ?b ?a) :subtasks (see ?a))\n\
    (:method either :parameters (?a ?b - place) :task (go ?a)\n\
    :precondition (or (link ?b ?a) (link ?a ?b)) :subtasks (see ?a))\n\
    (:method wide :parameters (?a ?b - place) :task (go ?a)\n\
    :precondition (and (far ?a ?b ?a ?b) (not (link ?b ?b))) :subtasks (see ?a))\n\
    (:method never :parameters (?a - place) :task (go ?a)\n\
    :precondition (and (link ?a ?a) (seen ?a)) :subtasks (see ?a))\n\
    (:action see :parameters (?a - place) :effect (seen ?a)))";

const PLACES: &[u8] = b"(define (problem places) (:domain links) (:objects p q r s - place)\n\
    (:htn :subtasks (go p)) (:init (link p q) (link q r) (link p s) (link s p)))";

// Plans, before which state the needed atoms have to be true, how many candidates line 2 has, and
// how many of them are possible then.
const WAYS: [(&[u8], usize, usize, usize); 7] = [
    (b"==>\n1 see p\nroot 2\n2 go p -> m 1\n<==", 2, 16, 1),
    // nothing is seen before the action
    (b"==>\n1 see p\nroot 2\n2 go p -> m 1\n<==", 1, 16, 0),
    (b"==>\n1 see p\nroot 2\n2 go p -> one 1\n<==", 2, 4, 1),
    (b"==>\n1 see p\nroot 2\n2 go p -> one 1\n<==", 1, 4, 1),
    // a disjunction needs none of its parts, and of four objects nothing is asked
    (b"==>\n1 see p\nroot 2\n2 go p -> either 1\n<==", 2, 4, 4),
    (b"==>\n1 see p\nroot 2\n2 go p -> wide 1\n<==", 2, 4, 4),
    (b"==>\n1 see p\nroot 2\n2 go p -> never 1\n<==", 2, 1, 0),
];

// Notes candidates that are still to come, where they are fewer than a hundred.
fn note(alloc: Global, candidates: &mut Candidates<'_>, noted: &mut Vec<Candidate>) -> Option<()> {
    for _ in 0..100 {
        if !candidates.advance().ok()? {
            return Some(());
        }
        noted.push(lent(alloc, candidates)?).ok()?;
    }
    None
}

// The candidates of a node, where it is told which atoms are ever true.
fn candidates_where<'a>(
    alloc: Global,
    matcher: &'a Matcher<'_>,
    tree: &'a Tree,
    node: u32,
    ever: Option<EverTrue<'a>>,
) -> Option<Candidates<'a>>
    requires tree { IsTreeIn matcher.now (tree_view tree.now) }
    requires node { node < length (tree_view tree.now).nodes }
{
    let room = CandidateRoom::new(alloc);
    Candidates::new(alloc, room, matcher, tree, node, ever).ok()
}

// Notes the candidates of a node that are possible before a state of the plan.
fn note_possible(
    alloc: Global,
    world: &World<'_>,
    tree: &Tree,
    node: u32,
    trace: &Trace<'_, BitState>,
    end: usize,
    noted: &mut Vec<Candidate>,
) -> Option<()>
    requires tree { IsTreeIn (world_view world.now) (tree_view tree.now) }
    requires node { node < length (tree_view tree.now).nodes }
{
    let matcher = matcher_of(alloc, world)?;
    let ever = Some(trace.ever_true(0, end.max(1)));
    let mut candidates = candidates_where(alloc, &matcher, tree, node, ever)?;
    note(alloc, &mut candidates, noted)
}

// The possible candidates of a node, where they are fewer than a hundred.
fn possible(
    alloc: Global,
    world: &World<'_>,
    tree: &Tree,
    node: u32,
    end: usize,
) -> Option<Vec<Candidate>>
    requires tree { IsTreeIn (world_view world.now) (tree_view tree.now) }
    requires node { node < length (tree_view tree.now).nodes }
{
    let trace: Trace<BitState> = Trace::run(alloc, world, tree.actions()).ok()?;
    let mut possible = Vec::new(alloc);
    note_possible(alloc, world, tree, node, &trace, end, &mut possible)?;
    Some(possible)
}

// The candidates of line 2, how many there are and those of them that are possible.
fn ways(
    alloc: Global,
    world: &World<'_>,
    plan: &'static [u8],
    end: usize,
) -> Option<(usize, Vec<Candidate>)> {
    let plan = plan_of(alloc, plan)?;
    let tree = tree_of(alloc, world, &plan)?;
    let node = node_of(&tree, Some(2))?;
    let every = all(alloc, world, &tree, node)?;
    Some((every.len(), possible(alloc, world, &tree, node, end)?))
}

// How many there are.
fn counted(alloc: Global, plan: &'static [u8], end: usize) -> Option<(usize, usize)> {
    let world = world_of(alloc, LINKS, PLACES)?;
    let (every, possible) = ways(alloc, &world, plan, end)?;
    Some((every, possible.len()))
}

// Whether the first possible candidate has objects of these names.
fn has_objects(alloc: Global, plan: &'static [u8], names: [&'static [u8]; 3]) -> Option<bool> {
    let world = world_of(alloc, LINKS, PLACES)?;
    let (_, possible) = ways(alloc, &world, plan, 2)?;
    let found = &possible.first()?.objects;
    for (place, name) in names.iter().enumerate() {
        if found.get(place).copied() != object(&world, name) {
            return Some(false);
        }
    }
    Some(found.len() == names.len())
}

#[test]
fn needed_atoms_leave_possible_candidates(rt: HostRuntime) {
    for (plan, end, every, possible) in WAYS {
        assert_eq!(rt; counted(rt.alloc(), plan, end), Some((every, possible)));
    }
    // from p over s, which is linked to p, where it was seen
    let (plan, _, _, _) = WAYS[0];
    assert_eq!(rt;
        has_objects(rt.alloc(), plan, [b"p", b"s", b"p"]),
        Some(true)
    );
}
