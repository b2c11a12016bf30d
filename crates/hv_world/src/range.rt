//! The objects of a type.

ghost use Rattle.std.specs.Prelude.{◌≡◌, ◌↔◌, [], IsTrue};
ghost use Rattle.std.specs.List.{Contains};
ghost use Rattle.std.specs.List.Sorted.{IsStrictlyIncreasing};
ghost use Rattle.hv_world.specs.Types.{AreBelow, object_numbers};
ghost use Rattle.hv_world.specs.inside.ListParts.{HasPlaces, IsTold};

use crate::id::ObjectId;

/// Which part of a longer list is meant: where it begins, and for each object of the longer list
/// its place there.
#[derive(Clone, Copy)]
pub(crate) struct Part<'a> {
    pub(crate) start: usize,
    pub(crate) places: &'a [usize],
}

/// The objects of a type, each once.
#[derive(Clone, Copy)]
pub struct Range<'a> {
    pub(crate) objects: &'a [ObjectId],
    // Where these are a part of a longer list, which part; else they ascend.
    pub(crate) part: Option<Part<'a>>,
    pub(crate) ghost told: { IsTold (object_numbers objects.now) part },
}

// Whether an object stands at the place of its number, as each does in the list of the widest type.
fn is_at_its_number(objects: &[ObjectId], object: usize) -> bool
    ensures { IsTrue result → Contains (object_numbers objects.now) object }
{
    match objects.get(object) {
        Some(there) => there.0 == object,
        None => false,
    }
}

// Whether an object is in an ascending list.
fn is_among(objects: &[ObjectId], object: usize) -> bool
    requires { IsStrictlyIncreasing (object_numbers objects.now) }
    ensures { IsTrue result ↔ Contains (object_numbers objects.now) object }
{
    if is_at_its_number(objects, object) {
        return true;
    }
    objects.binary_search_by_key(&object, |o| o.0).is_ok()
}

// Whether an object is in a part of a list.
fn is_in_part(objects: &[ObjectId], part: Part<'_>, object: usize) -> bool
    requires { HasPlaces (object_numbers objects.now) part }
    ensures { IsTrue result ↔ Contains (object_numbers objects.now) object }
{
    let Some(place) = part.places.get(object) else {
        return false;
    };
    match place.checked_sub(part.start) {
        None => false,
        Some(index) => match objects.get(index) {
            None => false,
            Some(other) => other.0 == object,
        },
    }
}

// Up to which number, from another on, the objects of an ascending list are below an object.
fn count_below(objects: &[ObjectId], number: usize, until: usize) -> usize
    requires { IsStrictlyIncreasing (object_numbers objects.now) }
    ensures { AreBelow (object_numbers objects.now) number until result }
{
    if objects.len() <= number {
        return number;
    }
    number + objects[number..].partition_point(|object| object.0 < until)
}

// The same of any list, as far as none of them is below the first.
fn count_in_turn(objects: &[ObjectId], number: usize, until: usize) -> usize
    ensures { AreBelow (object_numbers objects.now) number until result }
{
    if objects.len() <= number {
        return number;
    }
    let first = objects[number];
    for end in number..objects.len() {
        let object = objects[end];
        if object.0 < first.0 || until <= object.0 {
            return end;
        }
    }
    objects.len()
}

impl<'a> Range<'a> {
    ghost use Rattle.hv_world.specs.Ranges.{range_view};

    /// No objects.
    pub(crate) fn none() -> Range<'a>
        ensures { range_view result ≡ [] }
    {
        Range {
            objects: &[],
            part: None,
        }
    }

    /// Objects that ascend.
    pub(crate) fn ascending(objects: &'a [ObjectId]) -> Range<'a>
        requires { IsStrictlyIncreasing (object_numbers objects.now) }
        ensures { range_view result ≡ object_numbers objects.now }
    {
        Range {
            objects,
            part: None,
        }
    }

    /// Objects that are a part of a longer list.
    pub(crate) fn within(objects: &'a [ObjectId], part: Part<'a>) -> Range<'a>
        requires { HasPlaces (object_numbers objects.now) part }
        ensures { range_view result ≡ object_numbers objects.now }
    {
        Range {
            objects,
            part: Some(part),
        }
    }

    /// The objects.
    pub fn objects(self) -> &'a [ObjectId]
        ensures { object_numbers result.now ≡ range_view self.entry }
    {
        self.objects
    }

    /// Whether an object is one of them.
    pub fn has(self, object: usize) -> bool
        ensures { IsTrue result ↔ Contains (range_view self.entry) object }
    {
        match self.part {
            None => is_among(self.objects, object),
            Some(part) => is_in_part(self.objects, part, object),
        }
    }

    /// A number up to which, from another on, the objects are below one, and not below the first of
    /// these. It is told as great as it can be where the objects ascend.
    pub fn count_below(self, number: usize, until: usize) -> usize
        ensures { AreBelow (range_view self.entry) number until result }
    {
        match self.part {
            None => count_below(self.objects, number, until),
            Some(_) => count_in_turn(self.objects, number, until),
        }
    }
}
