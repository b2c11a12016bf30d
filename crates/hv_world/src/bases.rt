//! Types that have just the objects of one type below them.

ghost use Rattle.std.specs.Prelude.{◌≡◌, ◌<◌, ℕ, [], ◌∷◌, length, map, true, IfOk, OnOk, option_map, slice_index_or};
ghost use Rattle.std.specs.List.{All};
ghost use Rattle.hv_world.specs.Types.{typing};
ghost use Rattle.hv_world.specs.inside.TypeLists.{list_of, type_numbers, type_lists, AreSeconds};
ghost use Rattle.hv_world.specs.inside.Bases.{IsGraph, IsOnlyAbove, AreContracted, AreMarked, ShareObjects, StayWaiting, TellsBases, sole_in};
ghost use Rattle.hv_world.specs.inside.Bases as inside;

use crate::id::{ObjectId, TypeId};
use crate::lists::{no_lists, parents_by_type};
use hv_text::Memory;
use std::alloc::Global;

/// The types directly above and directly below each type, and which types are marked: `object`, and
/// those of which an object is declared.
#[derive(Drop)]
pub(crate) struct Graph {
    pub(crate) above: Vec<Vec<TypeId>>,
    pub(crate) below: Vec<Vec<TypeId>>,
    pub(crate) marks: Vec<bool>,
}

// The types directly below each type.
fn types_below(
    alloc: Global,
    types: usize,
    pairs: &[(TypeId, TypeId)],
) -> Result<Vec<Vec<TypeId>>, Memory>
    requires { All (λ p. p.1.0 < types) pairs.now }
    ensures { IfOk result
        (λ lists. AreSeconds (map (λ p. (p.1.0, p.0.0)) pairs.now) (type_lists lists.items)) }
{
    let mut lists = no_lists(alloc, types)?;
    for (child, parent) in pairs {
        lists[parent.0].push(*child)?;
    }
    Ok(lists)
}

// Marks `object`, and each type of which an object is declared.
fn marks(alloc: Global, types: usize, pairs: &[(ObjectId, TypeId)]) -> Result<Vec<bool>, Memory>
    requires object { 0 < types }
    requires pairs { All (λ p. p.1.0 < types) pairs.now }
    ensures object { IfOk result (λ marks. slice_index_or marks.items 0 true ≡ true) }
    ensures declared { IfOk result
        (λ marks. AreMarked (map (λ p. (p.0.0, p.1.0)) pairs.now) marks.items) }
{
    let mut marks = vec![in alloc; false; types]?;
    marks[0] = true;
    for (_, of) in pairs {
        marks[of.0] = true;
    }
    Ok(marks)
}

// The member of a list that has one.
fn only(types: &[TypeId]) -> Option<TypeId>
    ensures { option_map (λ t. t.0) result ≡ inside.only (type_numbers types.now) }
{
    match types {
        [one] => Some(*one),
        _ => None,
    }
}

impl Graph {
    // The graph of what is declared.
    pub(crate) fn new(
        alloc: Global,
        types: usize,
        _objects: usize,
        parents: &[(TypeId, TypeId)],
        declared: &[(ObjectId, TypeId)],
    ) -> Result<Graph, Memory>
        requires object { 0 < types }
        requires parents { All (λ p. (p.0.0 < types) × (p.1.0 < types)) parents.now }
        requires declared { All (λ p. (p.0.0 < _objects) × (p.1.0 < types)) declared.now }
        ensures graph { IfOk result (IsGraph (typing types _objects parents.now declared.now)) }
        ensures size { IfOk result (λ g. length g.above.items ≡ types) }
    {
        Ok(Graph {
            above: parents_by_type(alloc, types, parents)?,
            below: types_below(alloc, types, parents)?,
            marks: marks(alloc, types, declared)?,
        })
    }

    // The types directly above one.
    pub(crate) fn above(&self, of: TypeId) -> &[TypeId]
        ensures { type_numbers result.now ≡ list_of (type_lists self.now.above.items) of.0 }
    {
        match self.above.get(of.0) {
            Some(types) => types,
            None => &[],
        }
    }

    // The types directly below one.
    pub(crate) fn below(&self, of: TypeId) -> &[TypeId]
        ensures { type_numbers result.now ≡ list_of (type_lists self.now.below.items) of.0 }
    {
        match self.below.get(of.0) {
            Some(types) => types,
            None => &[],
        }
    }

    // Whether a type is marked, or there is none of the number.
    fn is_marked(&self, of: TypeId) -> bool
        ensures { result ≡ slice_index_or self.now.marks.items of.0 true }
    {
        match self.marks.get(of.0) {
            Some(is_marked) => *is_marked,
            None => true,
        }
    }

    // The one type directly below another that is not marked.
    fn sole(&self, of: TypeId) -> Option<TypeId>
        ensures { option_map (λ t. t.0) result ≡ sole_in self.now of.0 }
    {
        if self.is_marked(of) {
            None
        } else {
            only(self.below(of))
        }
    }

    // Whether a type has no other base so far, and has another directly below it alone.
    fn is_only_above(&self, above: TypeId, at: TypeId, bases: &[TypeId]) -> bool
        ensures { result ≡ true
            → IsOnlyAbove self.now at.0 (type_numbers bases.now) above.0 }
    {
        above.0 < bases.len() && bases[above.0] == above && self.sole(above) == Some(at)
    }

    // Gives the base of a type to those directly above it of which it is the one below, and has
    // them wait.
    fn take_in(
        &self,
        base: TypeId,
        at: TypeId,
        bases: &mut [TypeId],
        waiting: &mut Vec<TypeId>,
    ) -> Result<(), Memory>
        ensures { OnOk result (StayWaiting self.now base.0 (type_numbers bases.old)
            (at.0 ∷ type_numbers waiting.old.items) (type_numbers bases.new)
            (type_numbers waiting.new.items)) }
    {
        for above in self.above(at) {
            if self.is_only_above(*above, at, bases) {
                bases[above.0] = base;
                waiting.push(*above)?;
            }
        }
        Ok(())
    }

    // Gives a base to all types that have just its objects.
    fn spread(
        &self,
        base: TypeId,
        bases: &mut [TypeId],
        waiting: &mut Vec<TypeId>,
    ) -> Result<(), Memory>
        ensures { OnOk result (StayWaiting self.now base.0 (type_numbers bases.old)
            (type_numbers waiting.old.items) (type_numbers bases.new) []) }
    {
        for _ in 0..bases.len() {
            match waiting.pop() {
                Some(at) => self.take_in(base, at, bases, waiting)?,
                None => return Ok(()),
            }
        }
        Ok(())
    }
}

// Each of so many types.
fn each_type(alloc: Global, types: usize) -> Result<Vec<TypeId>, Memory>
    ensures { IfOk result (λ v. (length v.items ≡ types)
        × ((t : ℕ) → t < types → slice_index_or (type_numbers v.items) t 0 ≡ t)) }
{
    let mut each = Vec::with_capacity(alloc, types)?;
    for number in 0..types {
        each.push(TypeId(number))?;
    }
    Ok(each)
}

// The bases of the types of a graph.
fn bases_in(alloc: Global, graph: &Graph) -> Result<Vec<TypeId>, Memory>
    ensures { IfOk result (λ v. TellsBases v.items graph.now) }
{
    let types = graph.above.len();
    let mut bases = each_type(alloc, types)?;
    for number in 1..types {
        let base = TypeId(number);
        if graph.sole(base).is_none() {
            let mut waiting = Vec::new(alloc);
            waiting.push(base)?;
            graph.spread(base, &mut bases, &mut waiting)?;
        }
    }
    Ok(bases)
}

/// For each type the one whose objects it has: the lowest of those of which each is the only one
/// directly below the next, and of which no object is declared but of the lowest.
pub(crate) fn bases(
    alloc: Global,
    types: usize,
    objects: usize,
    parents: &[(TypeId, TypeId)],
    declared: &[(ObjectId, TypeId)],
) -> Result<Vec<TypeId>, Memory>
    requires object { 0 < types }
    requires parents { All (λ p. (p.0.0 < types) × (p.1.0 < types)) parents.now }
    requires declared { All (λ p. (p.0.0 < objects) × (p.1.0 < types)) declared.now }
    ensures size { IfOk result (λ v. length v.items ≡ types) }
    ensures shared { IfOk result
        (λ v. ShareObjects (typing types objects parents.now declared.now) (type_numbers v.items)) }
    ensures within { IfOk result (λ v. All (λ t. t.0 < types) v.items) }
{
    let graph = Graph::new(alloc, types, objects, parents, declared)?;
    let bases = bases_in(alloc, &graph)?;
    Ok(bases)
}

/// The pairs of types and their parents, each child taken for its base, and of the parents only
/// those that are their own.
pub(crate) fn contracted(
    alloc: Global,
    parents: &[(TypeId, TypeId)],
    bases: &[TypeId],
) -> Result<Vec<(TypeId, TypeId)>, Memory>
    requires { All (λ p. (p.0.0 < length bases.now) × (p.1.0 < length bases.now)) parents.now }
    ensures { IfOk result (λ v. AreContracted (map (λ p. (p.0.0, p.1.0)) parents.now)
        (type_numbers bases.now) (map (λ p. (p.0.0, p.1.0)) v.items)) }
{
    let mut pairs = Vec::new(alloc);
    for (child, parent) in parents {
        if bases[parent.0] == *parent {
            pairs.push((bases[child.0], *parent))?;
        }
    }
    Ok(pairs)
}
