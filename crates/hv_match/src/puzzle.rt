//! The candidates of a node as a search has them: what it chooses from, and what it wants.

ghost use Rattle.std.specs.Prelude.{◌≡◌, ◌<◌, ◌≤◌, ◌+◌, ◌^◌, nat_eq, length, map, option_map, [], true, false, IfSome, IsSome, Some, None, slice_get};
ghost use Rattle.hv_world.specs.Ranges.{range_view};
ghost use Rattle.hv_world.specs.Bindings.{object_number, object_of};
ghost use Rattle.hv_world.specs.Alike as alike;
ghost use Rattle.hv_world.specs.Views.{name_view, term_view, subtask_view, constraint_view};
ghost use Rattle.hv_match.specs.inside.Search.{IsChoice, NothingBegins};
ghost use Rattle.hv_match.specs.inside.Puzzles as puzzles;
ghost use Rattle.hv_match.specs.inside.Tables.{work_view, source_view, ArePlaces};

use crate::child_rows::ChildRows;
use crate::possible::are_possible;
use crate::rule::Rule;
use crate::sources::Source;
use crate::table::MethodTable;
use hv_state::EverTrue;
use hv_world::{Constraint, ObjectId, Range, Subtask, TaskName, Term};

/// What a child does.
#[derive(Clone, Copy)]
pub(crate) struct Work<'a> {
    pub(crate) name: TaskName,
    pub(crate) objects: &'a [ObjectId],
}

/// A node and its method, made ready for the search.
#[derive(Drop)]
pub(crate) struct Puzzle<'a> {
    pub(crate) table: &'a MethodTable<'a>,
    pub(crate) objects: &'a [ObjectId],
    pub(crate) children: Vec<Option<Work<'a>>>,
    /// For each subtask the places of the children that are tried for it.
    pub(crate) places: ChildRows<'a>,
    /// The atoms that are ever true where the node may begin, where it counts when they are.
    pub(crate) ever: Option<EverTrue<'a>>,
    pub(crate) ghost short: { length children.items < 2 ^ 32 },
    pub(crate) ghost placed: { ArePlaces (map subtask_view table.now.subtasks.now) children.items
        places },
}

/// The object at a position.
pub(crate) fn object_at(objects: &[ObjectId], position: usize) -> Option<usize>
    ensures { result ≡ slice_get (map object_number objects.now) position }
{
    match objects.get(position) {
        Some(object) => Some(object.0),
        None => None,
    }
}

/// The object of a term under the objects of the parameters.
pub(crate) fn value(values: &[usize], term: Term) -> usize
    ensures { result ≡ object_of values.now (term_view term) }
{
    match term {
        Term::Object(object) => object.0,
        Term::Variable(variable) => values.get(variable).copied().unwrap_or(0),
    }
}

/// Whether the objects are those of the terms.
pub(crate) fn are_values(values: &[usize], terms: &[Term], objects: &[ObjectId]) -> bool
    ensures { result ≡ puzzles.same_values values.now (map term_view terms.now)
        (map object_number objects.now) }
{
    let mut at = 0;
    while at < terms.len() && at < objects.len() {
        if value(values, terms[at]) != objects[at].0 {
            return false;
        }
        at += 1;
    }
    terms.len() == objects.len()
}

/// Whether two objects are as a constraint says.
pub(crate) fn agree(left: usize, right: usize, is_equal: bool) -> bool
    ensures { result ≡ puzzles.same_bool (nat_eq left right) is_equal }
{
    (left == right) == is_equal
}

// Whether a constraint holds.
fn holds(values: &[usize], constraint: Constraint) -> bool
    ensures { result ≡ puzzles.holds values.now (constraint_view constraint) }
{
    agree(
        value(values, constraint.left),
        value(values, constraint.right),
        constraint.is_equal,
    )
}

/// Whether all constraints hold.
pub(crate) fn all_hold(values: &[usize], constraints: &[Constraint]) -> bool
    ensures { result ≡ puzzles.all_hold values.now (map constraint_view constraints.now) }
{
    for constraint in constraints {
        if !holds(values, *constraint) {
            return false;
        }
    }
    true
}

/// Whether two names are one.
pub(crate) fn same_name(name: TaskName, other: TaskName) -> bool
    ensures { result ≡ alike.same_name (name_view name) (name_view other) }
{
    match (name, other) {
        (TaskName::Compound(task), TaskName::Compound(other)) => task.0 == other.0,
        (TaskName::Primitive(action), TaskName::Primitive(other)) => action.0 == other.0,
        _ => false,
    }
}

/// Whether an object is one of a range.
pub(crate) fn is_in(object: usize, range: Range<'_>) -> bool
    ensures { result ≡ puzzles.has object (range_view range.entry) }
{
    range.has(object)
}

/// Whether a child that does this does what a subtask says.
pub(crate) fn work_does(work: Work<'_>, values: &[usize], subtask: &Subtask) -> bool
    ensures { result ≡ puzzles.does (Some (work_view work.entry)) values.now
        (subtask_view subtask.now) }
{
    same_name(work.name, subtask.name) && are_values(values, &subtask.terms, work.objects)
}

impl<'a> Puzzle<'a> {
    ghost use Rattle.hv_match.specs.inside.PuzzleViews.{puzzle_view};

    /// How many choices a whole one has.
    pub(crate) fn choices(&self) -> usize
        ensures { result ≡ puzzles.levels (puzzle_view self.now) }
    {
        self.table.subtasks.len() + self.table.ranges.len()
    }

    /// What the child at a place does.
    pub(crate) fn child(&self, place: usize) -> Option<Work<'a>>
        ensures { option_map work_view result
            ≡ puzzles.child_at (puzzle_view self.now).children place }
    {
        if place < self.children.len() {
            self.children[place]
        } else {
            None
        }
    }

    // Whether the child at a place does what a subtask says.
    fn does(&self, place: usize, values: &[usize], subtask: &Subtask) -> bool
        ensures { result ≡ puzzles.does (puzzles.child_at (puzzle_view self.now).children place)
            values.now (subtask_view subtask.now) }
    {
        match self.child(place) {
            None => false,
            Some(work) => work_does(work, values, subtask),
        }
    }

    // Whether the children at these places do what the subtasks say.
    fn all_do(&self, values: &[usize], places: &[usize]) -> bool
        ensures { result ≡ puzzles.all_do (puzzle_view self.now).children values.now places.now
            (puzzle_view self.now).subtasks }
    {
        let mut at = 0;
        while at < places.len() && at < self.table.subtasks.len() {
            if !self.does(places[at], values, &self.table.subtasks[at]) {
                return false;
            }
            at += 1;
        }
        places.len() == self.table.subtasks.len()
    }

    // Whether each parameter has an object that it may have.
    fn are_in(&self, values: &[usize]) -> bool
        ensures { result ≡ puzzles.are_in values.now (puzzle_view self.now).ranges }
    {
        let mut at = 0;
        while at < values.len() && at < self.table.ranges.len() {
            let range = self.table.ranges[at];
            if !is_in(values[at], range) {
                return false;
            }
            at += 1;
        }
        values.len() == self.table.ranges.len()
    }

    /// Whether the children at these places, which may be one, do the subtasks with these objects,
    /// and all else holds.
    pub(crate) fn suits(&self, places: &[usize], values: &[usize]) -> bool
        ensures { result ≡ puzzles.suits (puzzle_view self.now) places.now values.now }
    {
        self.are_in(values)
            && are_values(values, self.table.task, self.objects)
            && self.all_do(values, places)
            && all_hold(values, self.table.constraints)
            && are_possible(self.ever, values, &self.table.needed)
    }

    // The object at a place in a subtask's child, if it has one.
    fn child_object(&self, chosen: &[usize], subtask: usize, position: usize) -> Option<usize>
        ensures { result ≡ puzzles.look (puzzle_view self.now) chosen.now
            (Some (Some subtask, position)) }
    {
        match chosen.get(subtask) {
            None => None,
            Some(place) => match self.child(*place) {
                None => None,
                Some(work) => object_at(work.objects, position),
            },
        }
    }

    // The object at the place from which a parameter has it.
    fn look(&self, chosen: &[usize], source: Source) -> Option<usize>
        ensures { result ≡ puzzles.look (puzzle_view self.now) chosen.now
            (Some (source_view source)) }
    {
        match source.subtask {
            None => object_at(self.objects, source.position),
            Some(subtask) => self.child_object(chosen, subtask, source.position),
        }
    }

    /// What the task and the children chosen say of a parameter.
    pub(crate) fn bound(&self, chosen: &[usize], parameter: usize) -> Option<usize>
        ensures bound { parameter < length self.now.table.now.ranges.items
            → result ≡ puzzles.bound (puzzle_view self.now) chosen.now parameter }
        ensures other { length self.now.table.now.ranges.items ≤ parameter → result ≡ None }
    {
        match self.table.sources.get(parameter) {
            Some(Some(source)) => self.look(chosen, *source),
            _ => None,
        }
    }

    // Whether an object may be that of a term, by what is bound.
    fn may_be(&self, chosen: &[usize], term: Term, object: ObjectId) -> bool
        ensures { result ≡ false → puzzles.CannotBe (puzzle_view self.now) chosen.now
            (term_view term) object.0 }
    {
        match term {
            Term::Object(other) => other.0 == object.0,
            Term::Variable(variable) => match self.bound(chosen, variable) {
                Some(other) => other == object.0,
                None => true,
            },
        }
    }

    /// Whether objects may be those of terms, by what is bound.
    pub(crate) fn may_all_be(&self, chosen: &[usize], terms: &[Term], objects: &[ObjectId]) -> bool
        ensures { result ≡ false → puzzles.CannotAllBe (puzzle_view self.now) chosen.now
            (map term_view terms.now) (map object_number objects.now) }
    {
        let mut at = 0;
        while at < terms.len() && at < objects.len() {
            if !self.may_be(chosen, terms[at], objects[at]) {
                return false;
            }
            at += 1;
        }
        terms.len() == objects.len()
    }

    /// Whether the child at a place may do what a subtask says, by what is bound.
    pub(crate) fn may_do(&self, chosen: &[usize], place: usize, subtask: &Subtask) -> bool
        ensures { result ≡ false → puzzles.CannotDo (puzzle_view self.now) chosen.now place
            (subtask_view subtask.now) }
    {
        match self.child(place) {
            None => false,
            Some(work) => {
                same_name(work.name, subtask.name)
                    && self.may_all_be(chosen, &subtask.terms, work.objects)
            }
        }
    }
}

// The choice of a number for a parameter.
fn choice(bound: Option<usize>, range: &[ObjectId], number: usize) -> Option<usize>
    ensures choice { IsChoice (puzzles.pick bound (map object_number range.now)) number result }
    ensures small { IsSome result → number + 1 < 2 ^ 64 }
{
    match bound {
        Some(object) => { if number == 0 { Some(object) } else { None } }
        None => {
            if number < range.len() {
                Some(range[number].0)
            } else {
                None
            }
        }
    }
}

// The number of a number in a row.
fn row_choice(row: &[usize], number: usize) -> Option<usize>
    ensures choice { IsChoice row.now number result }
    ensures small { IsSome result → number + 1 < 2 ^ 64 }
{
    if number < row.len() {
        Some(row[number])
    } else {
        None
    }
}

impl Puzzle<'_> {
    ghost use Rattle.hv_match.specs.inside.PuzzleViews.{puzzle_view, search_of};

    // The place of a number among those of the children that are tried for a subtask.
    fn child_choice(&self, subtask: usize, number: usize) -> Option<usize>
        requires { subtask < length self.now.table.now.subtasks.now }
        ensures choice { IsChoice ((puzzle_view self.now).rows subtask) number result }
        ensures small { IsSome result → number + 1 < 2 ^ 64 }
        ensures within { IfSome result (λ x. x < length self.now.children.items) }
    {
        row_choice(self.places.row(subtask), number)
    }
}

impl Rule for Puzzle<'_> {
    ghost use Rattle.hv_match.specs.inside.PuzzleViews.{search_of};

    ghost search = { search_of };

    fn is_whole(&self, count: usize) -> bool {
        match count.checked_sub(self.table.subtasks.len()) {
            None => false,
            Some(objects) => objects == self.table.ranges.len(),
        }
    }

    fn is_distinct(&self, level: usize) -> bool {
        level < self.table.subtasks.len()
    }

    fn option(&self, chosen: &[usize], number: usize) -> Option<usize> {
        match chosen.len().checked_sub(self.table.subtasks.len()) {
            None => self.child_choice(chosen.len(), number),
            Some(parameter) => {
                let range = self.table.ranges[parameter].objects();
                choice(self.bound(chosen, parameter), range, number)
            }
        }
    }

    fn is_hopeful(&self, chosen: &[usize]) -> bool {
        match chosen.len().checked_sub(1) {
            None => true,
            Some(last) => {
                if last < self.table.subtasks.len() {
                    self.is_child_hopeful(chosen, last)
                } else {
                    !self.is_broken(chosen)
                }
            }
        }
    }

    fn skip(&self, chosen: &[usize], number: usize) -> usize {
        let Some(parameter) = chosen.len().checked_sub(self.table.subtasks.len()) else {
            return number;
        };
        match (self.ever, self.bound(chosen, parameter)) {
            (Some(ever), None) => self.skip_objects(ever, chosen, parameter, number),
            _ => number,
        }
    }

    fn is_good(&self, chosen: &[usize]) -> bool {
        let subtasks = self.table.subtasks.len();
        subtasks == self.children.len() && self.suits(&chosen[..subtasks], &chosen[subtasks..])
    }
}
