//! Plans of random actions, compared with a slow list of the states that they pass.

ghost use Rattle.std.specs.Prelude.{◌≤◌, length};

use crate::state::NONE;
use crate::worlds::world_of;
use hv_state::{BitState, SortedState, State, Stop, Trace};
use hv_world::{ActionId, Formula, GroundActions, ObjectId, World};
use std::alloc::Global;

// Effects that add what they delete, what is so already, and what they say for all objects; and the
// last action may not be applicable.
const LAMPS: &[u8] = b"(define (domain lamps)\n\
    (:predicates (hot) (on ?x) (near ?x ?y))\n\
    (:action light :parameters (?x ?y) :effect (and (on ?x) (not (near ?x ?y))))\n\
    (:action quench :parameters (?x ?y) :effect (and (not (on ?x)) (not (on ?y))))\n\
    (:action swap :parameters (?x ?y) :effect (and (not (on ?x)) (on ?y)))\n\
    (:action warm :parameters (?x ?y) :effect (and (not (hot)) (hot)))\n\
    (:action spread :parameters (?x ?y) :effect (forall (?z)\n\
    (and (near ?x ?z) (not (near ?z ?x)) (forall (?x) (not (on ?x))))))\n\
    (:action link :parameters (?x ?y) :effect (and (forall (?x ?z) (not (near ?z ?y)))\n\
    (forall (?x) (near ?x ?y)) (not (near ?x ?x))))\n\
    (:action cool :parameters (?x ?y) :precondition (or (hot) (on ?x))\n\
    :effect (not (hot))))";

const THREE_LAMPS: &[u8] = b"(define (problem three) (:domain lamps) (:htn :subtasks ())\n\
    (:objects a b c) (:init (on b) (near a b) (near b a))\n\
    (:goal (and (hot) (on a) (not (on b)) (near a b) (= a b)\n\
    (and (hot) (on a)) (or (on b) (on c)) (imply (on c) (hot))\n\
    (forall (?x) (or (on ?x) (near ?x b))) (exists (?x) (on ?x))\n\
    (exists (?x ?y) (and (near ?x ?y) (on ?y))))))";

// A slow state: each atom is a bit of a word.
const HOT: u32 = 1;

const ON: [u32; 3] = [2, 4, 8];

const NEAR: [[u32; 3]; 3] = [[16, 32, 64], [128, 256, 512], [1024, 2048, 4096]];

const ANY_ON: u32 = 2 + 4 + 8;

const NEAR_A: u32 = 16 + 128 + 1024;

const NEAR_B: u32 = 32 + 256 + 2048;

const NEAR_C: u32 = 64 + 512 + 4096;

const FROM: [u32; 3] = [16 + 32 + 64, 128 + 256 + 512, 1024 + 2048 + 4096];

const TO: [u32; 3] = [NEAR_A, NEAR_B, NEAR_C];

// (on b), (near a b) and (near b a).
const BEGUN: u32 = 4 + 32 + 128;

// The atoms that each part of the goal speaks of.
const SPOKEN_OF: [u32; 11] = [
    HOT,
    2,
    4,
    32,
    0,
    HOT + 2,
    4 + 8,
    8 + HOT,
    ANY_ON + NEAR_B,
    ANY_ON,
    ANY_ON + NEAR_A + NEAR_B + NEAR_C,
];

fn has_any(word: u32, atoms: u32) -> bool {
    word & atoms != 0
}

// Whether the part of the goal of a number is true.
fn is_true(word: u32, part: usize) -> bool {
    match part {
        0 => has_any(word, HOT),
        1 => has_any(word, 2),
        2 => !has_any(word, 4),
        3 => has_any(word, 32),
        5 => has_any(word, HOT) && has_any(word, 2),
        6 => has_any(word, 4 + 8),
        7 => !has_any(word, 8) || has_any(word, HOT),
        8 => has_any(word, 2 + 32) && has_any(word, 4 + 256) && has_any(word, 8 + 2048),
        9 => has_any(word, ANY_ON),
        10 => {
            has_any(word, 2) && has_any(word, NEAR_A)
                || has_any(word, 4) && has_any(word, NEAR_B)
                || has_any(word, 8) && has_any(word, NEAR_C)
        }
        _ => false,
    }
}

// What an action leaves of a slow state, where it is applicable.
fn after(word: u32, action: usize, x: usize, y: usize) -> Option<u32> {
    let on_x = *ON.get(x)?;
    let on_y = *ON.get(y)?;
    match action {
        0 => Some(word & !*NEAR.get(x)?.get(y)? | on_x),
        1 => Some(word & !(on_x | on_y)),
        2 => Some(word & !on_x | on_y),
        3 => Some(word | HOT),
        4 => Some(word & !(*TO.get(x)? | ANY_ON) | *FROM.get(x)?),
        5 => Some(word & !*NEAR.get(x)?.get(x)? | *TO.get(y)?),
        _ if has_any(word, HOT | on_x) => Some(word & !HOT),
        _ => None,
    }
}

// A plan of random actions, its slow states, and the first action that is not applicable.
#[derive(Drop)]
struct Walk {
    actions: GroundActions,
    words: Vec<u32>,
    stop: Option<usize>,
}

// The next number of a row that looks random, and one below a bound that is made of it.
fn next_random(seed: &mut u64, bound: u64) -> usize {
    *seed = seed
        .wrapping_mul(6364136223846793005)
        .wrapping_add(1442695040888963407);
    ((*seed >> 33) % bound.max(1)) as usize
}

fn random_walk(alloc: Global, seed: &mut u64) -> Option<Walk> {
    let mut actions = GroundActions::with_capacity(alloc, 8).ok()?;
    let mut words = Vec::new(alloc);
    let mut stop = None;
    let mut word = BEGUN;
    words.push(word).ok()?;
    for number in 0..next_random(seed, 7) {
        let action = next_random(seed, 7);
        let x = next_random(seed, 3);
        let y = next_random(seed, 3);
        actions
            .push(ActionId(action), &[ObjectId(x), ObjectId(y)])
            .ok()?;
        if stop.is_none() {
            match after(word, action, x, y) {
                Some(next) => word = next,
                None => stop = Some(number),
            }
        }
        words.push(word).ok()?;
    }
    Some(Walk {
        actions,
        words,
        stop,
    })
}

// The first index after another at which one of the atoms changes, or one past the last.
fn next_change(words: &[u32], k: usize, atoms: u32) -> usize {
    let mut before = 0;
    for (index, word) in words.iter().enumerate() {
        if index > k && has_any(before ^ *word, atoms) {
            return index;
        }
        before = *word;
    }
    words.len()
}

// The first index between two at which a part of the goal is true, and how long none of its atoms
// changes then.
fn first_true(
    words: &[u32],
    from: usize,
    upto: usize,
    part: usize,
    atoms: u32,
) -> Option<(usize, usize)> {
    for (index, word) in words.iter().enumerate() {
        if from <= index && index <= upto && is_true(*word, part) {
            return Some((index, next_change(words, index, atoms).wrapping_sub(1)));
        }
    }
    None
}

// Whether a trace says of a part of the goal what the slow states do.
fn says_the_same<S: State>(
    trace: &Trace<'_, S>,
    last: usize,
    words: &[u32],
    part: usize,
    formula: &Formula,
) -> bool
    requires { last ≤ length trace.now.actions }
{
    let Some(atoms) = SPOKEN_OF.get(part) else {
        return false;
    };
    for (k, word) in words.iter().enumerate() {
        if k > last
            || trace.holds_at(k, formula, &NONE) != is_true(*word, part)
            || trace.unchanged_until(k, formula, &NONE) != next_change(words, k, *atoms)
            || trace.first_true(k, last, formula, &NONE)
                != first_true(words, k, last, part, *atoms)
        {
            return false;
        }
    }
    words.len() > last
}

// Whether a plan runs as its slow states say, and a part of the goal is true where it is in them.
fn runs<S: State>(
    alloc: Global,
    world: &World<'_>,
    walk: &Walk,
    part: usize,
    formula: &Formula,
) -> bool {
    let last = walk.actions.len();
    let trace: Result<Trace<S>, Stop> = Trace::run(alloc, world, &walk.actions);
    match trace {
        Ok(trace) => {
            walk.stop.is_none() && says_the_same(&trace, last, &walk.words, part, formula)
        }
        Err(Stop::Inapplicable(number)) => walk.stop == Some(number),
        Err(Stop::Memory) => false,
    }
}

// How many plans do not run, where all are as their slow states say.
fn stopped(alloc: Global, count: usize) -> Option<usize> {
    let world = world_of(alloc, LAMPS, THREE_LAMPS)?;
    let Formula::And(parts) = world.goal()? else {
        return None;
    };
    let mut seed = 1;
    let mut stopped = 0usize;
    for _ in 0..count {
        let walk = random_walk(alloc, &mut seed)?;
        let part = next_random(&mut seed, 11);
        let formula = parts.get(part)?;
        if !runs::<SortedState>(alloc, &world, &walk, part, formula)
            || !runs::<BitState>(alloc, &world, &walk, part, formula)
        {
            return None;
        }
        if walk.stop.is_some() {
            stopped = stopped.wrapping_add(1);
        }
    }
    Some(stopped)
}

#[test]
fn random_plans_pass_the_states_of_a_slow_list(rt: HostRuntime) {
    assert!(rt; stopped(rt.alloc(), 3000) > Some(300));
}
