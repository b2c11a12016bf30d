//! The objects of a world in one line, in which those of each type stand together.

ghost use Rattle.std.specs.Prelude.{◌≡◌, ◌<◌, [], ◌∷◌, ◌++◌, length, map, true, false, IfOk, IfSome, OnOk};
ghost use Rattle.std.specs.List.{All};
ghost use Rattle.hv_world.specs.Types.{Typing, typing, object_numbers};
ghost use Rattle.hv_world.specs.Ranges.{range_view, IsRange};
ghost use Rattle.hv_world.specs.inside.TypeLists.{list_of, object_lists, AreSeconds};
ghost use Rattle.hv_world.specs.inside.Lines as lines;
ghost use Rattle.hv_world.specs.inside.ListParts.{ArePlaced, IsNew};
ghost use Rattle.hv_world.specs.inside.Lines.{AreNested};

use crate::bases::Graph;
use crate::id::{ObjectId, TypeId};
use crate::lists::no_lists;
use crate::range::{Part, Range};
use hv_text::Memory;
use std::alloc::Global;
use std::marker::Model;

/// A part of a line: where it begins, and where it is over.
#[derive(Clone, Copy)]
pub(crate) struct Span {
    pub(crate) start: usize,
    pub(crate) end: usize,
}

/// What is to come: the objects of a type, or the end of a type whose objects begin at a place.
#[derive(Clone, Copy)]
pub(crate) enum Step {
    Enter(TypeId),
    Leave(TypeId, usize),
}

/// Objects in a line, each once.
#[derive(Drop)]
pub(crate) struct Line {
    objects: Vec<ObjectId>,
    // The place of each object that stands in the line; for the others any number.
    places: Vec<usize>,
}

impl Model for Line {
    ghost use Rattle.std.specs.Prelude.{ℕ, List};
    ghost use Rattle.hv_world.specs.Types.{object_numbers};
    ghost use Rattle.hv_world.specs.inside.ListParts.{ArePlaced};

    ghost Value = { List ℕ };

    ghost view = { λ l. object_numbers l.objects.items };

    ghost invariant = { λ l. ArePlaced (object_numbers l.objects.items) l.places.items };
}

// Whether an object stands in a line of objects with these places, or has no place.
fn stands_in(objects: &[ObjectId], places: &[usize], object: ObjectId) -> bool
    requires { ArePlaced (object_numbers objects.now) places.now }
    ensures { result ≡ false → IsNew (object_numbers objects.now) places.now object.0 }
{
    let Some(place) = places.get(object.0) else {
        return true;
    };
    match objects.get(*place) {
        None => false,
        Some(other) => other.0 == object.0,
    }
}

impl Line {
    // A line without objects, for so many.
    fn new(alloc: Global, objects: usize) -> Result<Line, Memory>
        ensures { IfOk result (λ l. l ≡ []) }
    {
        Ok(Line {
            objects: Vec::with_capacity(alloc, objects)?,
            places: vec![in alloc; 0usize; objects]?,
        })
    }

    // How many objects stand in the line.
    fn len(&self) -> usize
        ensures { result ≡ length self.now }
    {
        self.objects.len()
    }

    // Puts an object at the end, unless it stands in the line. Says whether it put it.
    fn push(&mut self, object: ObjectId) -> Result<bool, Memory>
        ensures put { IfOk result (λ b. b ≡ true → self.new ≡ self.old ++ object.0 ∷ []) }
    {
        if stands_in(&self.objects, &self.places, object) {
            return Ok(false);
        }
        let place = self.objects.len();
        self.objects.push(object)?;
        self.places[object.0] = place;
        Ok(true)
    }

    // Puts objects at the end, up to one that stands in the line. Says whether all were put.
    fn push_all(&mut self, objects: &[ObjectId]) -> Result<bool, Memory>
        ensures { IfOk result
            (λ b. b ≡ true → self.new ≡ self.old ++ object_numbers objects.now) }
    {
        for object in objects {
            if !self.push(*object)? {
                return Ok(false);
            }
        }
        Ok(true)
    }

    // The whole line.
    fn whole(&self) -> Range<'_>
        ensures { range_view result ≡ self.now }
    {
        let places = &self.places;
        Range::within(&self.objects, Part { start: 0, places })
    }

    // A part of the line; none of it where there is no such part.
    fn part(&self, span: Option<Span>) -> Range<'_>
        ensures { IfSome span (lines.IsPartOf self.now (range_view result)) }
    {
        let Some(span) = span else {
            return Range::none();
        };
        let start = span.start;
        let Some(objects) = self.objects.get(start..span.end) else {
            return Range::none();
        };
        let places = &self.places;
        Range::within(objects, Part { start, places })
    }
}

/// All objects of a world in a line, and for each type the part that its objects have.
#[derive(Drop)]
pub(crate) struct Nested {
    // All objects, for the type `object`.
    all: Line,
    line: Line,
    spans: Vec<Option<Span>>,
}

// The objects declared of each type.
fn objects_by_type(
    alloc: Global,
    types: usize,
    pairs: &[(ObjectId, TypeId)],
) -> Result<Vec<Vec<ObjectId>>, Memory>
    requires { All (λ p. p.1.0 < types) pairs.now }
    ensures { IfOk result (λ lists. AreSeconds (map (λ p. (p.1.0, p.0.0)) pairs.now)
        (object_lists lists.items)) }
{
    let mut lists = no_lists(alloc, types)?;
    for (object, of) in pairs {
        lists[of.0].push(*object)?;
    }
    Ok(lists)
}

// The objects in the list of a type.
fn own(lists: &[Vec<ObjectId>], of: TypeId) -> &[ObjectId]
    ensures { object_numbers result.now ≡ list_of (object_lists lists.now) of.0 }
{
    match lists.get(of.0) {
        Some(objects) => objects,
        None => &[],
    }
}

// Has types wait to be entered.
fn wait(waiting: &mut Vec<Step>, types: &[TypeId]) -> Result<(), Memory>
    ensures { OnOk result (waiting.new.items
        ≡ waiting.old.items ++ lines.entering types.now) }
{
    for of in types {
        waiting.push(Step::Enter(*of))?;
    }
    Ok(())
}

// Puts the objects of a type that are its own into the line; those of the types directly below it
// are to come before its end. Says no where an object would stand in the line twice.
fn enter(
    line: &mut Line,
    waiting: &mut Vec<Step>,
    of: TypeId,
    own: &[ObjectId],
    below: &[TypeId],
) -> Result<bool, Memory>
    ensures { IfOk result (λ b. b ≡ true → (line.new ≡ line.old ++ object_numbers own.now)
        × (waiting.new.items
        ≡ waiting.old.items ++ lines.steps_of of (length line.old) below.now)) }
{
    waiting.push(Step::Leave(of, line.len()))?;
    wait(waiting, below)?;
    line.push_all(own)
}

// Writes down where the part of a type is over.
fn leave(spans: &mut [Option<Span>], of: TypeId, start: usize, end: usize)
    ensures size { length spans.new ≡ length spans.old }
    ensures span { lines.IsLeft spans.old of.0 start end spans.new }
{
    if of.0 < spans.len() {
        spans[of.0] = Some(Span { start, end });
    }
}

// Takes the steps that wait, and those that they lead to, if these are not too many. Says no where
// an object would stand in the line twice.
fn walk(
    graph: &Graph,
    lists: &[Vec<ObjectId>],
    line: &mut Line,
    waiting: &mut Vec<Step>,
    spans: &mut [Option<Span>],
) -> Result<bool, Memory>
    ensures size { length spans.new ≡ length spans.old }
    ensures parts { IfOk result (λ b. b ≡ true → lines.Walks graph.now lists.now line.old
        waiting.old.items spans.old line.new spans.new) }
{
    let most = spans.len().saturating_mul(2).saturating_add(1);
    for _ in 0..most {
        let Some(step) = waiting.pop() else {
            return Ok(true);
        };
        match step {
            Step::Leave(of, start) => leave(spans, of, start, line.len()),
            Step::Enter(of) => {
                if !enter(line, waiting, of, own(lists, of), graph.below(of))? {
                    return Ok(false);
                }
            }
        }
    }
    Ok(false)
}

// Whether `object` alone stands directly above a type.
fn is_top(above: &[TypeId]) -> bool {
    for parent in above {
        if parent.0 != 0 {
            return false;
        }
    }
    true
}

// The types to begin with, each to be entered.
fn tops(alloc: Global, graph: &Graph) -> Result<Vec<Step>, Memory>
    ensures { IfOk result (λ v. lines.AreEntered v.items) }
{
    let mut waiting = Vec::new(alloc);
    for number in 1..graph.above.len() {
        let of = TypeId(number);
        if is_top(graph.above(of)) {
            waiting.push(Step::Enter(of))?;
        }
    }
    Ok(waiting)
}

// Whether each type but `object` has a part.
fn have_parts(spans: &[Option<Span>]) -> bool
    ensures { result ≡ true → lines.HaveParts spans.now }
{
    for number in 1..spans.len() {
        if spans[number].is_none() {
            return false;
        }
    }
    true
}

// So many objects in a line.
fn all_objects(alloc: Global, count: usize) -> Result<Option<Line>, Memory>
    ensures { IfOk result (λ o. IfSome o (lines.AreAll count)) }
{
    let mut all = Line::new(alloc, count)?;
    for number in 0..count {
        if !all.push(ObjectId(number))? {
            return Ok(None);
        }
    }
    Ok(Some(all))
}

// How many objects a span has.
fn length_of(span: Option<Span>) -> usize {
    match span {
        None => 0,
        Some(span) => span.end.saturating_sub(span.start),
    }
}

impl Nested {
    /// The objects of a world in a line, where those of each type can stand together: no type has
    /// two parents but `object`, and no object two types. None where it is not so. It takes as many
    /// steps as there are types and objects, and pairs of them.
    pub(crate) fn new(
        alloc: Global,
        types: usize,
        objects: usize,
        parents: &[(TypeId, TypeId)],
        declared: &[(ObjectId, TypeId)],
    ) -> Result<Option<Nested>, Memory>
        requires object { 0 < types }
        requires parents { All (λ p. (p.0.0 < types) × (p.1.0 < types)) parents.now }
        requires declared { All (λ p. (p.0.0 < objects) × (p.1.0 < types)) declared.now }
        ensures { IfOk result (λ n. IfSome n (AreNested
            (typing types objects parents.now declared.now))) }
    {
        let graph = Graph::new(alloc, types, objects, parents, declared)?;
        let lists = objects_by_type(alloc, types, declared)?;
        let mut line = Line::new(alloc, objects)?;
        let mut waiting = tops(alloc, &graph)?;
        let mut spans = vec![in alloc; None; types]?;
        let is_walked = walk(&graph, &lists, &mut line, &mut waiting, &mut spans)?;
        if !is_walked || !have_parts(&spans) {
            return Ok(None);
        }
        match all_objects(alloc, objects)? {
            None => Ok(None),
            Some(all) => Ok(Some(Nested { all, line, spans })),
        }
    }

    /// How many objects the types have, each counted for itself.
    pub(crate) fn count(&self) -> usize {
        let mut count = 0usize;
        for span in &self.spans {
            count = count.saturating_add(length_of(*span));
        }
        count
    }

    /// The objects of a type. None for a number that no type has.
    pub(crate) fn range_of(&self, of: TypeId) -> Range<'_>
        ensures { (w : Typing) → AreNested w self.now → IsRange w (range_view result) of.0 }
    {
        if of.0 == 0 {
            return self.all.whole();
        }
        let Some(span) = self.spans.get(of.0) else {
            return Range::none();
        };
        self.line.part(*span)
    }
}
