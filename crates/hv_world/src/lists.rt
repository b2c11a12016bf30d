//! Lists of the objects of types.

ghost use Rattle.std.specs.Prelude.{◌≡◌, ◌<◌, ◌+◌, ◌++◌, ◌↔◌, ℕ, [], length, map, vec_len, IsTrue, IfOk, OnOk};
ghost use Rattle.std.specs.List.{All, Contains};
ghost use Rattle.hv_world.specs.Types.{Typing, typing, object_numbers};
ghost use Rattle.hv_world.specs.Ranges.{range_view, IsRange};
ghost use Rattle.hv_world.specs.inside.TypeLists.{list_of, type_numbers, type_lists, object_lists, AllAscend, AreSeconds, AscendsBelow, IsPut, IsPutAbove, AreMembersBelow};
ghost use Rattle.hv_world.specs.inside.Bases.{AreShared};

mod direct;

use crate::bases::{bases, contracted};
use crate::id::{ObjectId, TypeId};
use crate::lists::direct::DirectTypes;
use crate::range::Range;
use hv_text::Memory;
use std::alloc::Global;

// What it may cost to put all objects into their lists: a step up from a type to a parent costs
// one, and a place in a list sixteen, so that there are at most 134,217,728 places. A text can ask
// for as much as the product of two numbers that grow with it. Where it asks for more, memory is
// said to have run out before it has.
const MOST_COST: usize = 1 << 31;

// What a place in a list costs beside the step to it.
const PLACE: usize = 15;

/// Lists of objects, each for the types that have just these.
#[derive(Drop)]
pub(crate) struct TypeLists {
    // For each type the one whose list has its objects.
    bases: Vec<TypeId>,
    lists: Vec<Vec<ObjectId>>,
    ghost ascend: { AllAscend (object_lists lists.items) },
}

impl TypeLists {
    /// The lists of the types. Types that have just the objects of one type below them share its
    /// list. For each object and each list that it is in, it takes a step, and one for each list
    /// above that.
    pub(crate) fn new(
        alloc: Global,
        types: usize,
        objects: usize,
        parents: &[(TypeId, TypeId)],
        declared: &[(ObjectId, TypeId)],
    ) -> Result<TypeLists, Memory>
        requires object { 0 < types }
        requires parents { All (λ p. (p.0.0 < types) × (p.1.0 < types)) parents.now }
        requires declared { All (λ p. (p.0.0 < objects) × (p.1.0 < types)) declared.now }
        ensures { IfOk result (λ l. AreShared (typing types objects parents.now declared.now)
            (type_numbers l.bases.items) (object_lists l.lists.items)) }
    {
        let bases = bases(alloc, types, objects, parents, declared)?;
        let pairs = contracted(alloc, parents, &bases)?;
        let lists = members(alloc, types, objects, &pairs, declared)?;
        Ok(TypeLists { bases, lists })
    }

    /// The objects of a type. None for a number that no type has.
    pub(crate) fn range_of(&self, of: TypeId) -> Range<'_>
        ensures { (w : Typing)
            → AreShared w (type_numbers self.now.bases.items) (object_lists self.now.lists.items)
            → IsRange w (range_view result) of.0 }
    {
        let Some(base) = self.bases.get(of.0) else {
            return Range::none();
        };
        let Some(objects) = self.lists.get(base.0) else {
            return Range::none();
        };
        Range::ascending(objects)
    }
}

/// An empty list for each number below `count`.
pub(crate) fn no_lists<T: Drop>(alloc: Global, count: usize) -> Result<Vec<Vec<T>>, Memory>
    ensures size { IfOk result (λ lists. length lists.items ≡ count) }
    ensures empty { IfOk result (λ lists. All (λ v. v.items ≡ []) lists.items) }
{
    let mut lists = Vec::new(alloc);
    for _ in 0..count {
        lists.push(Vec::new(alloc))?;
    }
    Ok(lists)
}

/// The parents of each type.
pub(crate) fn parents_by_type(
    alloc: Global,
    types: usize,
    pairs: &[(TypeId, TypeId)],
) -> Result<Vec<Vec<TypeId>>, Memory>
    requires { All (λ p. p.0.0 < types) pairs.now }
    ensures size { IfOk result (λ lists. length lists.items ≡ types) }
    ensures lists { IfOk result
        (λ lists. AreSeconds (map (λ p. (p.0.0, p.1.0)) pairs.now) (type_lists lists.items)) }
{
    let mut lists = no_lists(alloc, types)?;
    for (child, parent) in pairs {
        lists[child.0].push(*parent)?;
    }
    Ok(lists)
}

// Whether an ascending list, in which nothing is behind the object, has it: at its end.
fn is_at_end(objects: &[ObjectId], object: ObjectId) -> bool
    requires { AscendsBelow (object.0 + 1) (object_numbers objects.now) }
    ensures { IsTrue result ↔ Contains (object_numbers objects.now) object.0 }
{
    match objects.last() {
        Some(last) => *last == object,
        None => false,
    }
}

// Puts an object at the end of an ascending list, unless it stands there. Says whether it put it.
fn put(list: &mut Vec<ObjectId>, object: ObjectId) -> Result<bool, Memory>
    requires { AscendsBelow (object.0 + 1) (object_numbers list.old.items) }
    ensures { IfOk result
        (λ b. IsPut object.0 (object_numbers list.old.items) b (object_numbers list.new.items)) }
{
    if is_at_end(list, object) {
        return Ok(false);
    }
    list.push(object)?;
    Ok(true)
}

// Puts the parents of a type behind others, one by one: mostly it is one, for which a push costs less
// than a slice that is copied.
#[inline(always)]
fn push_all(types: &mut Vec<TypeId>, parents: &[TypeId]) -> Result<(), Memory>
    ensures items { OnOk result (types.new.items ≡ types.old.items ++ parents.now) }
    ensures len { OnOk result (vec_len types.new ≡ vec_len types.old + length parents.now) }
{
    for parent in parents {
        types.push(*parent)?;
    }
    Ok(())
}

// Puts an object into the lists of the waiting types and of all above them. Says what it
// cost, on which time and memory alone hang.
fn put_above(
    object: ObjectId,
    waiting: &mut Vec<TypeId>,
    parents: &[Vec<TypeId>],
    members: &mut [Vec<ObjectId>],
) -> Result<usize, Memory>
    requires size { length parents.now ≡ length members.old }
    requires waiting { (t : ℕ) → Contains (type_numbers waiting.old.items) t
        → t < length parents.now }
    requires parents { (a b : ℕ) → Contains (list_of (type_lists parents.now) a) b
        → b < length parents.now }
    requires members { (t : ℕ) → AscendsBelow object.0 (list_of (object_lists members.old) t) }
    ensures waiting { OnOk result (waiting.new.items ≡ []) }
    ensures members { OnOk result
        (IsPutAbove (type_lists parents.now) (type_numbers waiting.old.items) object.0
        (object_lists members.old) (object_lists members.new)) }
{
    let mut cost = 0usize;
    'climb: while let Some(at) = waiting.pop() {
        cost = cost.saturating_add(1);
        if put(&mut members[at.0], object)? {
            cost = cost.saturating_add(PLACE);
            push_all(waiting, &parents[at.0])?;
        }
    }
    Ok(cost)
}

// The objects of each type.
fn members(
    alloc: Global,
    types: usize,
    objects: usize,
    parents: &[(TypeId, TypeId)],
    declared: &[(ObjectId, TypeId)],
) -> Result<Vec<Vec<ObjectId>>, Memory>
    requires object { 0 < types }
    requires parents { All (λ p. (p.0.0 < types) × (p.1.0 < types)) parents.now }
    requires declared { All (λ p. (p.0.0 < objects) × (p.1.0 < types)) declared.now }
    ensures { IfOk result
        (λ lists. AreMembersBelow objects (typing types objects parents.now declared.now)
        (object_lists lists.items)) }
{
    let above = parents_by_type(alloc, types, parents)?;
    let direct = DirectTypes::new(alloc, objects, declared)?;
    let mut members = no_lists(alloc, types)?;
    let mut waiting = Vec::new(alloc);
    let mut cost = 0usize;
    for number in 0..objects {
        let object = ObjectId(number);
        direct.push_to(number, &mut waiting)?;
        let climb = put_above(object, &mut waiting, &above, &mut members)?;
        put(&mut members[0], object)?;
        cost = cost.saturating_add(climb);
        if cost > MOST_COST {
            return Err(Memory);
        }
    }
    Ok(members)
}
