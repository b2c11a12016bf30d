//! The types that are declared of each object.

ghost use Rattle.std.specs.Prelude.{◌≡◌, ◌<◌, ◌++◌, [], length, map, IsTrue, IfOk, OnOk};
ghost use Rattle.std.specs.List.{All};
ghost use Rattle.hv_world.specs.inside.TypeLists.{list_of, type_numbers, declared_lists, direct_lists, AreSeconds, AreInOrder};

use crate::id::{ObjectId, TypeId};
use hv_text::Memory;
use smallvec::SmallVec;
use std::alloc::Global;

/// The types that are declared of each object.
#[derive(Drop)]
pub(crate) enum DirectTypes<'a> {
    /// Each object is declared once, in the order of the numbers, as texts mostly have it: its type
    /// stands where it is declared.
    InOrder(&'a [(ObjectId, TypeId)]),
    /// A list for each object.
    Listed(Vec<TypesOf>),
}

impl<'a> DirectTypes<'a> {
    /// From the objects with their types as they are declared.
    pub(crate) fn new(
        alloc: Global,
        objects: usize,
        declared: &'a [(ObjectId, TypeId)],
    ) -> Result<DirectTypes<'a>, Memory>
        requires { All (λ p. p.0.0 < objects) declared.now }
        ensures { IfOk result
            (λ d. AreSeconds (map (λ p. (p.0.0, p.1.0)) declared.now) (direct_lists d)) }
    {
        if are_in_order(declared) {
            return Ok(DirectTypes::InOrder(declared));
        }
        Ok(DirectTypes::Listed(types_by_object(alloc, objects, declared)?))
    }

    /// Puts the types of an object behind others.
    pub(crate) fn push_to(&self, object: usize, types: &mut Vec<TypeId>) -> Result<(), Memory>
        ensures { OnOk result (type_numbers types.new.items ≡ type_numbers types.old.items
            ++ list_of (direct_lists self.now) object) }
    {
        match self {
            DirectTypes::InOrder(declared) => {
                if let Some((_, of)) = declared.get(object) {
                    types.push(*of)?;
                }
            }
            DirectTypes::Listed(lists) => {
                if let Some(of) = lists.get(object) {
                    types.extend_from_slice(of.types.as_slice())?;
                }
            }
        }
        Ok(())
    }
}

// Whether each object stands at the place of its number.
fn are_in_order(declared: &[(ObjectId, TypeId)]) -> bool
    ensures { IsTrue result → AreInOrder declared.now }
{
    for (place, (object, _)) in declared.iter().enumerate() {
        if object.0 != place {
            return false;
        }
    }
    true
}

/// The types that are declared of an object. Mostly it is one, which takes no allocation.
#[derive(Drop)]
pub(crate) struct TypesOf {
    types: SmallVec<TypeId, 1>,
}

// No types, for each of so many objects.
fn no_types(alloc: Global, objects: usize) -> Result<Vec<TypesOf>, Memory>
    ensures size { IfOk result (λ lists. length lists.items ≡ objects) }
    ensures empty { IfOk result (λ lists. All (λ o. o.types.items ≡ []) lists.items) }
{
    let mut lists = Vec::with_capacity(alloc, objects)?;
    for _ in 0..objects {
        let types = SmallVec::new(alloc);
        lists.push(TypesOf { types })?;
    }
    Ok(lists)
}

// The declared types of each object.
fn types_by_object(
    alloc: Global,
    objects: usize,
    pairs: &[(ObjectId, TypeId)],
) -> Result<Vec<TypesOf>, Memory>
    requires { All (λ p. p.0.0 < objects) pairs.now }
    ensures size { IfOk result (λ lists. length lists.items ≡ objects) }
    ensures lists { IfOk result
        (λ lists. AreSeconds (map (λ p. (p.0.0, p.1.0)) pairs.now) (declared_lists lists.items)) }
{
    let mut lists = no_types(alloc, objects)?;
    for (object, of) in pairs {
        lists[object.0].types.push(*of)?;
    }
    Ok(lists)
}
