//! What a certificate says of each node, with numbers for ids and names, where it is right.

ghost use Rattle.std.specs.Prelude.{◌≡◌, ◌+◌, ◌<◌, ◌≤◌, ◌++◌, ◌∷◌, [], true, false, length, map, IfOk, IfErr, OnOk, MatchOption};
ghost use Rattle.hv_world.specs.Bindings.{object_number};
ghost use Rattle.hv_world.specs.WorldViews.{world_view};
ghost use Rattle.hv_state.specs.Plans.{plan};
ghost use Rattle.hv_plan.specs.BuiltTrees.{tree_view};
ghost use Rattle.hv_plan.specs.PlanTrees.{IsTreeIn};
ghost use Rattle.hv_match.specs.Candidates.{Tells};
ghost use Rattle.hv_order.specs.Settings.{setting, HoldsAt, HasNoPrecondition};
ghost use Rattle.hv_order.specs.Certified.{line_numbers, CountsTo};
ghost use Rattle.hv_order.specs.inside.PlanFacts.{OfMethod};
ghost use Rattle.hv_order.specs.inside.Checks.{HasLines, HasLineAt, IsOtherAt, ArePlaces, IsPartAt, IsEntryFor, AreEntries, IsWrong, IfLine, lines_among};

use crate::lines::{child_id, number_at};
use crate::memory::Memory;
use crate::named::{put_objects, put_places};
use crate::node_methods::{method_of, node_of};
use crate::unfit::Unfit;
use hv_certificate::{Certificate, Choice};
use hv_match::{Room as TestRoom, is_candidate};
use hv_plan::{Child, Tree};
use hv_state::{BitState, Trace};
use hv_text::Lists;
use hv_world::{Binding, ObjectId, World};
use std::alloc::Global;

/// What a certificate says of the nodes: of each the index of its precondition, and for each of its
/// subtasks the place of its child among the node's children.
#[derive(Drop)]
pub struct NodeEntries {
    pub starts: Vec<u32>,
    pub matchings: Lists<u32>,
}

impl NodeEntries {
    // Of no nodes, with room for so many.
    fn with_room(alloc: Global, nodes: usize) -> Result<NodeEntries, Memory>
        ensures starts { IfOk result (λ v. v.starts.items ≡ []) }
        ensures matchings { IfOk result (λ v. v.matchings ≡ []) }
    {
        Ok(NodeEntries {
            starts: Vec::with_capacity(alloc, nodes)?,
            matchings: Lists::with_capacity(alloc, nodes)?,
        })
    }

    // Puts what is said of one more node behind the others.
    fn push(&mut self, start: u32, matching: &[u32]) -> Result<(), Memory>
        ensures starts { OnOk result
            (self.new.starts.items ≡ self.old.starts.items ++ start ∷ []) }
        ensures matchings { OnOk result
            (self.new.matchings ≡ self.old.matchings ++ matching.now ∷ []) }
    {
        self.starts.push(start)?;
        self.matchings.push(matching)?;
        Ok(())
    }
}

/// Room that is used again for one node after another.
#[derive(Drop)]
struct Room {
    ids: Vec<u64>,
    places: Vec<u32>,
    objects: Vec<ObjectId>,
    tested: TestRoom,
}

/// What a certificate says of a node, as it stands there. The root line has no index: its
/// precondition, which is always true, is taken to stand before all.
#[derive(Clone, Copy)]
pub struct Part<'a, 's> {
    pub choice: &'a Choice<'s>,
    pub at: u32,
}

// Whether a certificate's line for a place in the order of nodes begins with the id of the
// decomposition line that stands there.
fn has_line(_world: &World<'_>, tree: &Tree, certificate: &Certificate<'_>, place: u32) -> bool
    requires tree { IsTreeIn (world_view _world.now) (tree_view tree.now) }
    requires behind { 0 < place }
    requires place { place < length (tree_view tree.now).nodes }
    ensures yes { result ≡ true → HasLineAt (tree_view tree.now) certificate.now place }
    ensures not { result ≡ false → IsOtherAt (tree_view tree.now) certificate.now place }
{
    let id = child_id(tree, Child::Node(number_at(tree, place as usize)));
    match certificate.lines.get(place as usize - 1) {
        None => false,
        Some(line) => line.0 == id,
    }
}

/// The first place in the order of nodes at which a certificate has not the line of a
/// decomposition line, or a line and the plan has none; None where it has a line for each, in the
/// order of the text.
pub(crate) fn other_line(
    world: &World<'_>,
    tree: &Tree,
    certificate: &Certificate<'_>,
) -> Option<u32>
    requires { IsTreeIn (world_view world.now) (tree_view tree.now) }
    ensures { MatchOption result (HasLines (tree_view tree.now) certificate.now)
        (IsOtherAt (tree_view tree.now) certificate.now) }
{
    let count = tree.node_count();
    for place in 1..count {
        if !has_line(world, tree, certificate, place) {
            return Some(place);
        }
    }
    if certificate.lines.len() < count as usize {
        None
    } else {
        Some(count)
    }
}

/// For each node the place at which it stands in their order.
pub(crate) fn places(alloc: Global, _world: &World<'_>, tree: &Tree) -> Result<Vec<u32>, Memory>
    requires { IsTreeIn (world_view _world.now) (tree_view tree.now) }
    ensures { IfOk result (λ v. ArePlaces (tree_view tree.now) v.items) }
{
    let count = tree.node_count();
    let mut places = vec![in alloc; 0; count as usize]?;
    for place in 0..count {
        places[number_at(tree, place as usize) as usize] = place;
    }
    Ok(places)
}

// What a line of a certificate says of its node.
fn line_part<'a, 's>(line: &'a (u64, Choice<'s>, u32)) -> Part<'a, 's>
    ensures choice { result.choice.now ≡ line.now.1 }
    ensures index { result.at ≡ line.now.2 }
{
    Part {
        choice: &line.1,
        at: line.2,
    }
}

/// What a certificate says of the node at a place in their order.
pub(crate) fn said_at<'a, 's>(certificate: &'a Certificate<'s>, place: usize) -> Part<'a, 's>
    requires { place < length certificate.now.lines.items + 1 }
    ensures { IsPartAt certificate.now place result }
{
    if place == 0 {
        return Part {
            choice: &certificate.root,
            at: 0,
        };
    }
    line_part(&certificate.lines[place - 1])
}

// Whether the precondition of a node's method is true at an index. It is evaluated, and that is
// counted, of each decomposition line; the root line's is always true.
fn holds(
    world: &World<'_>,
    tree: &Tree,
    trace: &Trace<'_, BitState>,
    node: u32,
    objects: &[ObjectId],
    at: u32,
    evaluated: &mut u64,
) -> bool
    requires top { HasNoPrecondition (world_view world.now) }
    requires tree { IsTreeIn (world_view world.now) (tree_view tree.now) }
    requires trace { trace.now ≡ plan (world_view world.now) (tree_view tree.now).actions }
    requires small { length (tree_view tree.now).actions < 4294967295 }
    requires node { node < length (tree_view tree.now).nodes }
    requires counted { evaluated.old ≡ node }
    ensures holds { Tells (OfMethod (setting (tree_view tree.now) trace.now true) node
        (λ m. HoldsAt (setting (tree_view tree.now) trace.now true) m
        (map object_number objects.now) at)) result }
    ensures counted { evaluated.new ≡ lines_among (tree_view tree.now) (node + 1) }
{
    world.is_sound();
    if node + 1 == tree.node_count() {
        return true;
    }
    *evaluated += 1;
    // What is true behind the last state is what is true there.
    let index = (at as usize).min(tree.actions().len());
    let method = method_of(world, tree, node);
    trace.holds_at(index, method.precondition(), &Binding::Given(objects))
}

// Puts what is said of a node into a room. False where that is no candidate, or its precondition is
// not true at its index.
fn put_entry<'s>(
    alloc: Global,
    room: &mut Room,
    world: &World<'s>,
    tree: &Tree,
    trace: &Trace<'_, BitState>,
    node: u32,
    said: Part<'_, 's>,
    evaluated: &mut u64,
) -> Result<bool, Memory>
    requires top { HasNoPrecondition (world_view world.now) }
    requires tree { IsTreeIn (world_view world.now) (tree_view tree.now) }
    requires trace { trace.now ≡ plan (world_view world.now) (tree_view tree.now).actions }
    requires small { length (tree_view tree.now).actions < 4294967295 }
    requires node { node < length (tree_view tree.now).nodes }
    requires counted { evaluated.old ≡ node }
    ensures entry { IfOk result
        (IsEntryFor (setting (tree_view tree.now) trace.now true) node
        said.entry.at said.entry.choice.now room.new.places.items) }
    ensures counted { IfOk result
        (λ yes. CountsTo (lines_among (tree_view tree.now) (node + 1)) yes evaluated.new) }
{
    world.is_sound();
    let Room {
        ids,
        places,
        objects,
        tested,
    } = room;
    if !put_objects(objects, world, &said.choice.objects)? {
        return Ok(false);
    }
    let children = node_of(tree, node).children();
    put_places(alloc, places, ids, tree, children, &said.choice.children)?;
    if !is_candidate(tested, world, tree, node, places, objects)? {
        return Ok(false);
    }
    Ok(holds(world, tree, trace, node, objects, said.at, evaluated))
}

/// What a certificate says of all nodes. Counts the preconditions that are evaluated.
///
/// # Errors
///
/// The place of a node of which what is said is not right.
pub(crate) fn entries<'s>(
    alloc: Global,
    world: &World<'s>,
    tree: &Tree,
    trace: &Trace<'_, BitState>,
    certificate: &Certificate<'s>,
    places: &[u32],
    evaluated: &mut u64,
) -> Result<NodeEntries, Unfit>
    requires top { HasNoPrecondition (world_view world.now) }
    requires tree { IsTreeIn (world_view world.now) (tree_view tree.now) }
    requires trace { trace.now ≡ plan (world_view world.now) (tree_view tree.now).actions }
    requires small { length (tree_view tree.now).actions < 4294967295 }
    requires lines { HasLines (tree_view tree.now) certificate.now }
    requires places { ArePlaces (tree_view tree.now) places.now }
    requires counted { evaluated.old ≡ 0 }
    ensures entries { IfOk result (λ v. AreEntries (setting (tree_view tree.now) trace.now true)
        certificate.now places.now v.matchings v.starts.items) }
    ensures wrong { IfErr result (IfLine (IsWrong
        (setting (tree_view tree.now) trace.now true) certificate.now places.now)) }
    ensures counted { OnOk result
        (evaluated.new ≡ length (line_numbers (tree_view tree.now))) }
    ensures within { IfErr result (IfLine
        (λ _. evaluated.new ≤ length (line_numbers (tree_view tree.now)))) }
{
    let mut room = Room {
        ids: Vec::new(alloc),
        places: Vec::new(alloc),
        objects: Vec::new(alloc),
        tested: TestRoom::new(alloc),
    };
    let mut entries = NodeEntries::with_room(alloc, places.len())?;
    for node in 0..tree.node_count() {
        let place = places[node as usize];
        let said = said_at(certificate, place as usize);
        if !put_entry(alloc, &mut room, world, tree, trace, node, said, evaluated)? {
            return Err(Unfit::Line(place));
        }
        entries.push(said.at, &room.places)?;
    }
    Ok(entries)
}
