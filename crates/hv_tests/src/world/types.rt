//! Which objects are of which types.

use crate::texts::{ONE, TRANSPORT};
use crate::worlds::{object, type_of, world_of};
use hv_world::{ObjectId, TypeId, World};
use std::alloc::Global;

// Whether an object is of a type just where it is among the objects of the type.
fn agree(world: &World<'_>, of: TypeId) -> bool {
    let objects = world.objects_of(of);
    for object in world.objects_of(TypeId(0)) {
        if world.is_of(*object, of) != objects.contains(object) {
            return false;
        }
    }
    true
}

// Whether these are the objects, in the order of their numbers.
fn are_named(world: &World<'static>, objects: &[ObjectId], names: &[&'static [u8]]) -> bool {
    for (found, name) in objects.iter().zip(names) {
        if object(world, name) != Some(*found) {
            return false;
        }
    }
    objects.len() == names.len()
}

// Whether a type has these objects.
fn has_objects(world: &World<'static>, of: &'static [u8], names: &[&'static [u8]]) -> Option<bool> {
    let of = type_of(world, of)?;
    Some(are_named(world, world.objects_of(of), names) && agree(world, of))
}

// Whether types have these objects.
fn have_objects(
    alloc: Global,
    domain: &'static [u8],
    problem: &'static [u8],
    types: &[(&'static [u8], &[&'static [u8]])],
) -> Option<bool> {
    let world = world_of(alloc, domain, problem)?;
    for (of, names) in types {
        if !has_objects(&world, of, names)? {
            return Some(false);
        }
    }
    Some(true)
}

#[test]
fn chains_of_transport_lead_to_all_types_above(rt: HostRuntime) {
    let types: [(&[u8], &[&[u8]]); 3] = [
        (b"thing", &[b"t1", b"p1"]),
        (b"truck", &[b"t1"]),
        (b"object", &[b"t1", b"p1", b"a", b"b"]),
    ];
    assert!(rt; have_objects(rt.alloc(), TRANSPORT, ONE, &types) == Some(true));
}

#[test]
fn an_object_has_all_its_types(rt: HostRuntime) {
    let domain = b"(define (domain d) (:types a b - b a - c))";
    let problem = b"(define (problem q) (:domain d) (:objects x - a x - c) (:htn) (:init))";
    let types: [(&[u8], &[&[u8]]); 4] = [
        (b"a", &[b"x"]),
        (b"b", &[b"x"]),
        (b"c", &[b"x"]),
        (b"object", &[b"x"]),
    ];
    assert!(rt; have_objects(rt.alloc(), domain, problem, &types) == Some(true));
}

#[test]
fn a_cycle_of_types_ends(rt: HostRuntime) {
    let domain = b"(define (domain d) (:types a - b b - a c - object))";
    let problem = b"(define (problem q) (:domain d) (:objects x - a x - c) (:htn) (:init))";
    let types: [(&[u8], &[&[u8]]); 4] = [
        (b"object", &[b"x"]),
        (b"a", &[b"x"]),
        (b"b", &[b"x"]),
        (b"c", &[b"x"]),
    ];
    assert!(rt; have_objects(rt.alloc(), domain, problem, &types) == Some(true));
}

#[test]
fn a_chain_is_followed_to_its_end(rt: HostRuntime) {
    let domain = b"(define (domain d) (:types c - b b - a c - b) (:constants x y z))";
    let problem =
        b"(define (problem q) (:domain d) (:objects z - b y - c x - a y - c) (:htn) (:init))";
    let types: [(&[u8], &[&[u8]]); 4] = [
        (b"object", &[b"x", b"y", b"z"]),
        (b"a", &[b"x", b"y", b"z"]),
        (b"b", &[b"y", b"z"]),
        (b"c", &[b"y"]),
    ];
    assert!(rt; have_objects(rt.alloc(), domain, problem, &types) == Some(true));
}

// The rule that sets `object` above all makes no chain; a declared pair of `object` does.
#[test]
fn object_makes_no_chain_by_rule(rt: HostRuntime) {
    let domain = b"(define (domain d) (:types object - a b - object d - c))";
    let problem =
        b"(define (problem q) (:domain d) (:objects x - object y - b z - c) (:htn) (:init))";
    let types: [(&[u8], &[&[u8]]); 5] = [
        (b"object", &[b"x", b"y", b"z"]),
        (b"a", &[b"x", b"y"]),
        (b"b", &[b"y"]),
        (b"c", &[b"z"]),
        (b"d", &[]),
    ];
    assert!(rt; have_objects(rt.alloc(), domain, problem, &types) == Some(true));
}

// Of types one below the other only the lowest has objects; above others there is more than one
// type, or an object; and two stand below each other.
#[test]
fn types_have_the_objects_of_the_one_below_them(rt: HostRuntime) {
    let domain =
        b"(define (domain d) (:types low - mid mid - high high - top side - top top - over \
        last - ring ring - last twice - low) (:constants c - last))";
    let problem =
        b"(define (problem q) (:domain d) (:objects x - low y - side z - over) (:htn) (:init))";
    let types: [(&[u8], &[&[u8]]); 10] = [
        (b"low", &[b"x"]),
        (b"mid", &[b"x"]),
        (b"high", &[b"x"]),
        (b"top", &[b"x", b"y"]),
        (b"over", &[b"x", b"y", b"z"]),
        (b"side", &[b"y"]),
        (b"last", &[b"c"]),
        (b"ring", &[b"c"]),
        (b"twice", &[]),
        (b"object", &[b"c", b"x", b"y", b"z"]),
    ];
    assert!(rt; have_objects(rt.alloc(), domain, problem, &types) == Some(true));
}

// Objects and types by number, of two objects and two types, and whether the one is of the other.
const NUMBERS: [(usize, usize, bool); 5] = [
    (1, 0, true),
    (0, 1, false),
    (1, 1, false),
    (0, 2, false),
    (2, 0, false),
];

fn are_of_types(alloc: Global) -> Option<bool> {
    let domain = b"(define (domain d) (:types a))";
    let problem = b"(define (problem q) (:domain d) (:objects x y) (:htn) (:init))";
    let world = world_of(alloc, domain, problem)?;
    for (object, of, wanted) in NUMBERS {
        if world.is_of(ObjectId(object), TypeId(of)) != wanted {
            return Some(false);
        }
    }
    Some(world.objects_of(TypeId(1)).is_empty() && world.objects_of(TypeId(2)).is_empty())
}

#[test]
fn other_numbers_have_nothing(rt: HostRuntime) {
    assert!(rt; are_of_types(rt.alloc()) == Some(true));
}

// So many types in a chain, the lowest first, each with an object of its own.
const CHAIN: usize = 70;

// Writes down the name of a type or an object: its kind and two letters.
fn put_name(text: &mut Vec<u8>, kind: u8, number: usize) -> Option<()> {
    text.push(kind).ok()?;
    let tens = u8::try_from(number / 10).ok()?;
    let ones = u8::try_from(number % 10).ok()?;
    text.push(b'a'.wrapping_add(tens)).ok()?;
    text.push(b'a'.wrapping_add(ones)).ok()
}

// Writes down that each of these is of the type so many above the one of its own number.
fn put_pairs(text: &mut Vec<u8>, kind: u8, above: usize) -> Option<()> {
    for number in 0..CHAIN {
        put_name(text, kind, number)?;
        text.extend_from_slice(b" - ").ok()?;
        put_name(text, b't', number.saturating_add(above))?;
        text.push(b' ').ok()?;
    }
    Some(())
}

// The domain of the chain, and the same with types of which the lowest has another parent too.
fn chain_domain(alloc: Global, more: &[u8]) -> Option<Vec<u8>> {
    let mut text = Vec::new(alloc);
    text.extend_from_slice(b"(define (domain d) (:types ").ok()?;
    put_pairs(&mut text, b't', 1)?;
    text.extend_from_slice(more).ok()?;
    text.extend_from_slice(b"))").ok()?;
    Some(text)
}

fn chain_problem(alloc: Global) -> Option<Vec<u8>> {
    let mut text = Vec::new(alloc);
    text.extend_from_slice(b"(define (problem q) (:domain d) (:objects ")
        .ok()?;
    put_pairs(&mut text, b'o', 0)?;
    text.extend_from_slice(b") (:htn) (:init))").ok()?;
    Some(text)
}

// Whether each type of the chain has one object more than the one below it.
fn is_chain(world: &World<'_>) -> bool {
    for number in 1..=CHAIN {
        let of = TypeId(number);
        if world.objects_of(of).len() != number || !agree(world, of) {
            return false;
        }
    }
    true
}

fn makes_chain(alloc: Global, more: &[u8]) -> Option<bool> {
    let domain = chain_domain(alloc, more)?;
    let problem = chain_problem(alloc)?;
    let world = world_of(alloc, &domain, &problem)?;
    Some(is_chain(&world))
}

#[test]
fn many_types_in_a_chain_have_all_objects_below(rt: HostRuntime) {
    assert!(rt; makes_chain(rt.alloc(), b"") == Some(true));
}

#[test]
fn many_types_may_have_two_parents(rt: HostRuntime) {
    assert!(rt; makes_chain(rt.alloc(), b"taa - tca") == Some(true));
}
