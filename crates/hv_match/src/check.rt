//! Whether children and objects that are given are a candidate of a node.

ghost use Rattle.std.specs.Prelude.{◌≡◌, ◌↔◌, ◌<◌, true, false, map, length, IfOk, IsTrue};
ghost use Rattle.hv_world.specs.Bindings.{object_number};
ghost use Rattle.hv_world.specs.WorldViews.{world_view};
ghost use Rattle.hv_plan.specs.BuiltTrees.{tree_view};
ghost use Rattle.hv_plan.specs.PlanTrees.{IsTreeIn};
ghost use Rattle.hv_match.specs.Candidates.{IsCandidateOf, Tells};
ghost use Rattle.hv_match.specs.inside.Checks.{AreAllPlaces, ChildDoes, ChildrenDo, IsCandidateBy, IsMarkedAnew, WasMarked};

use crate::make::{terms, work};
use crate::parts::node_and_method;
use crate::puzzle::{all_hold, are_values, work_does};
use hv_plan::{Child, Node, Tree};
use hv_text::Memory;
use hv_world::{Method, ObjectId, Subtask, World};
use std::alloc::Global;

/// Room for the test of one candidate after another.
#[derive(Drop)]
pub struct Room {
    marks: Vec<bool>,
    values: Vec<usize>,
}

impl Room {
    /// Room that grows as it is used.
    pub fn new(alloc: Global) -> Room {
        Room {
            marks: Vec::new(alloc),
            values: Vec::new(alloc),
        }
    }
}

// Marks a place, and says whether there is one that was not marked.
fn mark(marks: &mut [bool], place: usize) -> bool
    ensures new { result ≡ true → IsMarkedAnew marks.old place marks.new }
    ensures old { result ≡ false → WasMarked marks.old place }
{
    if place < marks.len() && !marks[place] {
        marks[place] = true;
        return true;
    }
    false
}

// Whether these are the places of so many children, each once.
fn are_all_places(room: &mut Vec<bool>, places: &[u32], count: usize) -> Result<bool, Memory>
    ensures { IfOk result (λ b. IsTrue b ↔ AreAllPlaces count places.now) }
{
    if places.len() != count {
        return Ok(false);
    }
    room.clear();
    room.resize(count, false)?;
    let marks = room.as_mut_slice();
    for place in places {
        if !mark(marks, *place as usize) {
            return Ok(false);
        }
    }
    Ok(true)
}

// Whether the child at a place does what a subtask says.
fn does(tree: &Tree, children: &[Child], place: usize, values: &[usize], subtask: &Subtask) -> bool
    ensures { IsTrue result ↔ ChildDoes tree.now children.now values.now place subtask.now }
{
    if place >= children.len() {
        return false;
    }
    match work(tree, children[place]) {
        None => false,
        Some(work) => work_does(work, values, subtask),
    }
}

// Whether the children at these places do what the subtasks say.
fn all_do(
    tree: &Tree,
    children: &[Child],
    places: &[u32],
    values: &[usize],
    subtasks: &[Subtask],
) -> bool
    ensures { IsTrue result ↔ ChildrenDo tree.now children.now values.now places.now subtasks.now }
{
    if places.len() != subtasks.len() {
        return false;
    }
    for number in 0..places.len() {
        if !does(
            tree,
            children,
            places[number] as usize,
            values,
            &subtasks[number],
        ) {
            return false;
        }
    }
    true
}

// The numbers of objects, in place of those that a list has.
fn numbers<'r>(room: &'r mut Vec<usize>, objects: &[ObjectId]) -> Result<&'r [usize], Memory>
    ensures { IfOk result (λ v. v.now ≡ map object_number objects.now) }
{
    room.clear();
    for object in objects {
        room.push(object.0)?;
    }
    Ok(room)
}

// Whether these are a candidate of a node by its method.
fn is_candidate_by(
    room: &mut Room,
    world: &World<'_>,
    tree: &Tree,
    node: &Node<'_>,
    method: &Method<'_>,
    children: &[u32],
    objects: &[ObjectId],
) -> Result<bool, Memory>
    ensures { IfOk result (Tells (IsCandidateBy world.now method.now tree.now node.now children.now
        objects.now)) }
{
    let Room { marks, values } = room;
    let values = numbers(values, objects)?;
    let network = method.network();
    let is_once = are_all_places(marks, children, node.children().len())?;
    Ok(
        is_once
            && world.are_of(objects, method.parameters())
            && are_values(values, terms(method), node.objects())
            && all_do(tree, node.children(), children, values, network.subtasks())
            && all_hold(values, network.constraints()),
    )
}

/// Whether these are a candidate of a node, tested in this room: for each subtask in written order
/// the place of its child among the node's children, and for each parameter of the method its
/// object. Nothing is searched. Err only for want of memory.
pub fn is_candidate(
    room: &mut Room,
    world: &World<'_>,
    tree: &Tree,
    node: u32,
    children: &[u32],
    objects: &[ObjectId],
) -> Result<bool, Memory>
    requires tree { IsTreeIn (world_view world.now) (tree_view tree.now) }
    requires node { node < length (tree_view tree.now).nodes }
    ensures { IfOk result (Tells (IsCandidateOf world.now tree.now node children.now objects.now)) }
{
    let (node, method) = node_and_method(world, tree, node);
    is_candidate_by(room, world, tree, &node, method, children, objects)
}
