//! A certificate, written down from what is chosen for each node.

ghost use Rattle.std.specs.Prelude.{map, IfOk, OnOk};
ghost use Rattle.std.specs.List.{All};
ghost use Rattle.hv_world.specs.Bindings.{object_number};
ghost use Rattle.hv_world.specs.WorldViews.{world_view};
ghost use Rattle.hv_plan.specs.BuiltTrees.{tree_view};
ghost use Rattle.hv_plan.specs.PlanTrees.{IsTreeIn};
ghost use Rattle.hv_plan.specs.TreeViews.{child_view};
ghost use Rattle.hv_plan.specs.declared.tree.Child.TheVariants as children;
ghost use Rattle.hv_order.specs.inside.Writings.{HasId, IsObjectOf, AreIdsOf, AreNamesOf, AreLinesOf, IsWritable, AreWritable, SaysChosen, SaysChosenLine, SaysAll};

use crate::lines::{child_id, number_at};
use crate::memory::Memory;
use hv_certificate::{Certificate, Choice};
use hv_plan::{Child, Tree};
use hv_text::Name;
use hv_world::{ObjectId, World};
use std::alloc::Global;

/// What is chosen for a node: the child that stands for each subtask, an object for each parameter,
/// and the index of the state in which its precondition is true.
#[derive(Clone, Copy)]
pub struct Chosen<'a> {
    pub children: &'a [Child],
    pub objects: &'a [ObjectId],
    pub at: u32,
}

/// Puts the ids of children in place of those that a list has.
pub(crate) fn put_ids(ids: &mut Vec<u64>, tree: &Tree, children: &[Child]) -> Result<(), Memory>
    requires { All (HasId (tree_view tree.now)) (map child_view children.now) }
    ensures { OnOk result (AreIdsOf (tree_view tree.now) children.now ids.new.items) }
{
    ids.clear();
    for child in children {
        ids.push(child_id(tree, *child))?;
    }
    Ok(())
}

/// The ids of children.
pub fn child_ids(alloc: Global, tree: &Tree, children: &[Child]) -> Result<Vec<u64>, Memory>
    requires { All (HasId (tree_view tree.now)) (map child_view children.now) }
    ensures { IfOk result (λ ids. AreIdsOf (tree_view tree.now) children.now ids.items) }
{
    let mut ids = Vec::with_capacity(alloc, children.len())?;
    put_ids(&mut ids, tree, children)?;
    Ok(ids)
}

/// The names of objects.
pub fn names_of<'s>(
    alloc: Global,
    world: &World<'s>,
    objects: &[ObjectId],
) -> Result<Vec<Name<'s>>, Memory>
    requires { All (IsObjectOf (world_view world.now)) (map object_number objects.now) }
    ensures { IfOk result (λ names. AreNamesOf (world_view world.now) objects.now names.items) }
{
    let mut names = Vec::with_capacity(alloc, objects.len())?;
    for object in objects {
        match world.object_name(*object) {
            Some(name) => names.push(name)?,
            None => unreachable!(),
        }
    }
    Ok(names)
}

/// What is chosen for one node.
pub fn write_choice<'s>(
    alloc: Global,
    world: &World<'s>,
    tree: &Tree,
    chosen: &Chosen<'_>,
) -> Result<Choice<'s>, Memory>
    requires { IsWritable (world_view world.now) (tree_view tree.now) chosen.now }
    ensures { IfOk result (SaysChosen (world_view world.now) (tree_view tree.now) chosen.now) }
{
    let children = child_ids(alloc, tree, chosen.children)?;
    let objects = names_of(alloc, world, chosen.objects)?;
    Ok(Choice { children, objects })
}

/// What is chosen for the node of a decomposition line, with its id.
pub fn write_line<'s>(
    alloc: Global,
    world: &World<'s>,
    tree: &Tree,
    chosen: &[Chosen<'_>],
    node: u32,
) -> Result<(u64, Choice<'s>, u32), Memory>
    requires id { HasId (tree_view tree.now) (child_view (children.Node node)) }
    requires chosen { AreWritable (world_view world.now) (tree_view tree.now) chosen.now }
    ensures { IfOk result
        (SaysChosenLine (world_view world.now) (tree_view tree.now) chosen.now node) }
{
    let id = child_id(tree, Child::Node(node));
    match chosen.get(node as usize) {
        Some(chosen) => {
            let choice = write_choice(alloc, world, tree, chosen)?;
            Ok((id, choice, chosen.at))
        }
        None => unreachable!(),
    }
}

/// What is chosen for the nodes of all decomposition lines, in the order of the text.
pub fn write_lines<'s>(
    alloc: Global,
    world: &World<'s>,
    tree: &Tree,
    chosen: &[Chosen<'_>],
) -> Result<Vec<(u64, Choice<'s>, u32)>, Memory>
    requires tree { IsTreeIn (world_view world.now) (tree_view tree.now) }
    requires chosen { AreWritable (world_view world.now) (tree_view tree.now) chosen.now }
    ensures { IfOk result
        (λ lines. AreLinesOf (world_view world.now) (tree_view tree.now) chosen.now lines.items) }
{
    let mut lines = Vec::with_capacity(alloc, tree.node_count() as usize)?;
    for place in 1..tree.node_count() as usize {
        let line = write_line(alloc, world, tree, chosen, number_at(tree, place))?;
        lines.push(line)?;
    }
    Ok(lines)
}

/// The certificate that says what is chosen for each node.
pub fn write_certificate<'s>(
    alloc: Global,
    world: &World<'s>,
    tree: &Tree,
    chosen: &[Chosen<'_>],
) -> Result<Certificate<'s>, Memory>
    requires tree { IsTreeIn (world_view world.now) (tree_view tree.now) }
    requires chosen { AreWritable (world_view world.now) (tree_view tree.now) chosen.now }
    ensures { IfOk result (SaysAll (world_view world.now) (tree_view tree.now) chosen.now) }
{
    match chosen.last() {
        Some(last) => {
            let root = write_choice(alloc, world, tree, last)?;
            let lines = write_lines(alloc, world, tree, chosen)?;
            Ok(Certificate { root, lines })
        }
        None => unreachable!(),
    }
}
