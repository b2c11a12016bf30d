//! The children and the objects that a certificate names, by their ids and names.

ghost use Rattle.std.specs.Prelude.{◌≡◌, map, IfOk, OnOk};
ghost use Rattle.std.specs.List.{All};
ghost use Rattle.hv_lists.specs.Lists.{Once};
ghost use Rattle.hv_world.specs.WorldViews.{world_view};
ghost use Rattle.hv_plan.specs.BuiltTrees.{tree_view};
ghost use Rattle.hv_plan.specs.TreeViews.{child_view};
ghost use Rattle.hv_order.specs.inside.Writings.{HasId};
ghost use Rattle.hv_order.specs.inside.Checks.{IsPlaceIn, ArePlacesIn, ArePlacesOf, AreToldApart, AreObjectsOf};

use crate::certify::put_ids;
use crate::memory::Memory;
use hv_plan::{Child, Tree, place_in, table_of_ids};
use hv_text::{Name, Seeded};
use hv_world::{ObjectId, World};
use indexmap::IndexSet;
use std::alloc::Global;

// Of so few children the ids are looked through, and none is hashed.
const FEW: usize = 8;

// A place in 32 bits, which are enough for the children in every text.
fn narrow(place: usize) -> Result<u32, Memory>
    ensures { IfOk result (λ p. p ≡ place) }
{
    match u32::try_from(place) {
        Ok(place) => Ok(place),
        Err(_) => Err(Memory),
    }
}

// The place of an id in a table, that behind the last where it has none.
fn place_of(table: &IndexSet<u64, Seeded>, id: u64) -> Result<u32, Memory>
    requires { Once table.now.keys }
    ensures { IfOk result (IsPlaceIn table.now.keys id) }
{
    let place = narrow(place_in(table, id))?;
    Ok(place)
}

// The place of an id among others, that behind the last where it is not among them.
fn place_among(own: &[u64], id: u64) -> usize
    requires { Once own.now }
    ensures { IsPlaceIn own.now id result }
{
    for (place, other) in own.iter().enumerate() {
        if *other == id {
            return place;
        }
    }
    own.len()
}

// The places of ids among a few.
fn put_few_places(places: &mut Vec<u32>, own: &[u64], ids: &[u64]) -> Result<(), Memory>
    requires { Once own.now }
    ensures { OnOk result (ArePlacesIn own.now ids.now places.new.items) }
{
    places.clear();
    for id in ids {
        places.push(narrow(place_among(own, *id))?)?;
    }
    Ok(())
}

// The places of ids among many.
fn put_many_places(
    alloc: Global,
    places: &mut Vec<u32>,
    own: &[u64],
    ids: &[u64],
) -> Result<(), Memory>
    requires { Once own.now }
    ensures { OnOk result (ArePlacesIn own.now ids.now places.new.items) }
{
    let table = table_of_ids(alloc, own)?;
    places.clear();
    for id in ids {
        places.push(place_of(&table, *id)?)?;
    }
    Ok(())
}

/// Puts the places of the children of these ids into a list, that behind the last for an id of no
/// child, in place of what it has. A list is lent for the ids that the children have.
pub(crate) fn put_places(
    alloc: Global,
    places: &mut Vec<u32>,
    own: &mut Vec<u64>,
    tree: &Tree,
    children: &[Child],
    ids: &[u64],
) -> Result<(), Memory>
    requires ids { All (HasId (tree_view tree.now)) (map child_view children.now) }
    requires apart { AreToldApart (tree_view tree.now) (map child_view children.now) }
    ensures { OnOk result (ArePlacesOf (tree_view tree.now)
        (map child_view children.now) ids.now places.new.items) }
{
    put_ids(own, tree, children)?;
    if own.len() <= FEW {
        put_few_places(places, own, ids)
    } else {
        put_many_places(alloc, places, own, ids)
    }
}

/// Puts the objects of these names into a list in place of what it has. False where one of them is
/// the name of no object.
pub(crate) fn put_objects<'s>(
    objects: &mut Vec<ObjectId>,
    world: &World<'s>,
    names: &[Name<'s>],
) -> Result<bool, Memory>
    ensures { IfOk result (AreObjectsOf (world_view world.now) names.now objects.new.items) }
{
    world.is_sound();
    objects.clear();
    for name in names {
        match world.object_named(*name) {
            Some(object) => objects.push(object)?,
            None => return Ok(false),
        }
    }
    Ok(true)
}
