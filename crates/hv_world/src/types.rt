//! Which objects are of which type.

ghost use Rattle.std.specs.Prelude.{◌≡◌, ◌<◌, IfOk, IfSome};
ghost use Rattle.std.specs.List.{All};
ghost use Rattle.hv_world.specs.Types.{Typing, typing};
ghost use Rattle.hv_world.specs.Ranges.{range_view, IsRange};
ghost use Rattle.hv_world.specs.inside.Layouts.{Keeps};
ghost use Rattle.hv_world.specs.inside.Lines.{AreNested};

use crate::id::{ObjectId, TypeId};
use crate::lists::TypeLists;
use crate::nested::Nested;
use crate::range::Range;
use hv_text::Memory;
use std::alloc::Global;
use std::marker::Model;

/// Which objects are of which type: what is declared, and for each type the objects of it.
#[derive(Drop)]
pub(crate) struct Types {
    types: usize,
    objects: usize,
    parents: Vec<(TypeId, TypeId)>,
    declared: Vec<(ObjectId, TypeId)>,
    layout: Layout,
}

/// How the objects of each type are kept.
#[derive(Drop)]
pub(crate) enum Layout {
    Listed(TypeLists),
    Nested(Nested),
}

impl Model for Types {
    ghost Value = { Typing };

    ghost view = { λ w. typing w.types w.objects w.parents.items w.declared.items };

    ghost invariant = { λ w. Keeps
        (typing w.types w.objects w.parents.items w.declared.items) w.layout };
}

impl Types {
    /// From what is declared of so many types and objects: types with their parents, and objects
    /// with their types.
    pub(crate) fn new(
        alloc: Global,
        types: usize,
        objects: usize,
        parents: Vec<(TypeId, TypeId)>,
        declared: Vec<(ObjectId, TypeId)>,
    ) -> Result<Types, Memory>
        requires object { 0 < types }
        requires parents { All (λ p. (p.0.0 < types) × (p.1.0 < types)) parents.items }
        requires declared { All (λ p. (p.0.0 < objects) × (p.1.0 < types)) declared.items }
        ensures { IfOk result (λ w. w ≡ typing types objects parents.items declared.items) }
    {
        let layout = laid_out(alloc, types, objects, &parents, &declared)?;
        Ok(Types {
            types,
            objects,
            parents,
            declared,
            layout,
        })
    }

    /// The objects of a type. None for a number that no type has.
    pub(crate) fn range_of(&self, of: TypeId) -> Range<'_>
        ensures { IsRange self.now (range_view result) of.0 }
    {
        match &self.layout {
            Layout::Nested(nested) => nested.range_of(of),
            Layout::Listed(lists) => lists.range_of(of),
        }
    }
}

// Of so few types the objects are listed, whatever that takes.
const FEW: usize = 64;

// So many objects, each counted for itself in each list, may stand in the lists for each object.
const MOST: usize = 16;

// The objects of the types in one line, where they can be and lists of them would be long.
fn long_nested(
    alloc: Global,
    types: usize,
    objects: usize,
    parents: &[(TypeId, TypeId)],
    declared: &[(ObjectId, TypeId)],
) -> Result<Option<Nested>, Memory>
    requires object { 0 < types }
    requires parents { All (λ p. (p.0.0 < types) × (p.1.0 < types)) parents.now }
    requires declared { All (λ p. (p.0.0 < objects) × (p.1.0 < types)) declared.now }
    ensures { IfOk result (λ n. IfSome n (AreNested
        (typing types objects parents.now declared.now))) }
{
    if types <= FEW {
        return Ok(None);
    }
    match Nested::new(alloc, types, objects, parents, declared)? {
        Some(nested) if nested.count() > objects.saturating_mul(MOST) => Ok(Some(nested)),
        _ => Ok(None),
    }
}

// The objects of the types, in one line or in lists.
fn laid_out(
    alloc: Global,
    types: usize,
    objects: usize,
    parents: &[(TypeId, TypeId)],
    declared: &[(ObjectId, TypeId)],
) -> Result<Layout, Memory>
    requires object { 0 < types }
    requires parents { All (λ p. (p.0.0 < types) × (p.1.0 < types)) parents.now }
    requires declared { All (λ p. (p.0.0 < objects) × (p.1.0 < types)) declared.now }
    ensures { IfOk result (Keeps (typing types objects parents.now declared.now)) }
{
    match long_nested(alloc, types, objects, parents, declared)? {
        Some(nested) => Ok(Layout::Nested(nested)),
        None => Ok(Layout::Listed(TypeLists::new(alloc, types, objects, parents, declared)?)),
    }
}
