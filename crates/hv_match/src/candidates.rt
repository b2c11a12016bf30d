//! The candidates of a node, one at a time.

ghost use Rattle.std.specs.Prelude.{◌≡◌, ◌≢◌, ◌+◌, ◌<◌, ◌≤◌, ◌^◌, [], true, All, length, map, option_map, IfOk, OnErr, MatchBool};
ghost use Rattle.hv_lists.specs.Lists.{Once};
ghost use Rattle.hv_state.specs.Ever.{ever_rows};
ghost use Rattle.hv_plan.specs.BuiltTrees.{tree_view};
ghost use Rattle.hv_plan.specs.PlanTrees.{IsTreeIn};
ghost use Rattle.hv_plan.specs.TreeViews.{node_view};
ghost use Rattle.hv_match.specs.Candidates.{HasAllAt, IsAdvance, IsPassing};
ghost use Rattle.hv_world.specs.Bindings.{object_number};
ghost use Rattle.hv_match.specs.Counts.{IsInCountAt};
ghost use Rattle.hv_match.specs.inside.PuzzleViews.{puzzle_view};
ghost use Rattle.hv_match.specs.inside.Forced.{AreForced};
ghost use Rattle.hv_match.specs.inside.Parts.{listed, listed_as, to_find, BeginsWith, HasRoom, IsStateOf, IsWholeBy, ListsMatches, LosesSome};

use crate::forced::MOST_CHOICES;
use crate::make::puzzle;
use crate::matcher::Matcher;
use crate::puzzle::{Puzzle, Work};
use crate::puzzle_laws::{ways_are_counts, ways_are_enough};
use crate::state::{State, back, find, leave};
use crate::table::MethodTable;
use hv_plan::{Node, Tree};
use hv_state::EverTrue;
use hv_text::Memory;
use hv_world::ObjectId;
use std::alloc::Global;
use std::marker::Model;
use std::mem::replace;

/// A puzzle, with a place in the search for its matches.
#[derive(Drop)]
pub(crate) struct Seeker<'a> {
    puzzle: Puzzle<'a>,
    at: State,
}

/// The candidates that are still to come.
#[derive(Drop)]
pub(crate) enum Coming<'a> {
    /// The one that is written down, where it has not been lent; there is no other.
    Written(bool),
    /// Those that a search finds.
    Sought(Box<Seeker<'a>>),
}

/// The candidates of a node: the ways in which its children can stand for the subtasks of its
/// method. One is lent at a time, and the others are still to come.
#[derive(Drop)]
pub struct Candidates<'a> {
    coming: Coming<'a>,
    // The candidate that is lent.
    children: Vec<u32>,
    objects: Vec<ObjectId>,
    // What the children do, where no search asks for it any more: a list for the next node.
    works: Vec<Option<Work<'a>>>,
}

/// The lists that a node's candidates are written down in. They are handed on from node to node, so
/// that a node whose choices are forced takes no memory. What stands in them counts for nothing, so
/// no clause speaks of it.
#[derive(Drop)]
pub struct CandidateRoom<'a> {
    children: Vec<u32>,
    objects: Vec<ObjectId>,
    works: Vec<Option<Work<'a>>>,
}

impl<'a> CandidateRoom<'a> {
    /// Lists that take no memory yet.
    pub fn new(alloc: Global) -> CandidateRoom<'a> {
        CandidateRoom {
            children: Vec::new(alloc),
            objects: Vec::new(alloc),
            works: Vec::new(alloc),
        }
    }
}

impl<'a> Model for Candidates<'a> {
    ghost use Rattle.hv_match.specs.Candidates.{Listing};
    ghost use Rattle.hv_match.specs.inside.Parts.{listing, IsListing};

    ghost Value = { Listing };

    ghost view = { λ s. listing s.coming s.children.items s.objects.items };

    ghost invariant = { λ s. IsListing s.coming s.children.items s.objects.items };
}

// Writes places down in 32 bits.
fn write_places(into: &mut [u32], places: &[usize])
    requires size { length into.old ≡ length places.now }
    requires small { All (λ x. x < 2 ^ 32) places.now }
    ensures { into.new ≡ places.now }
{
    for number in 0..into.len() {
        into[number] = places[number] as u32;
    }
}

// Writes down the objects of these numbers.
fn write_objects(into: &mut [ObjectId], numbers: &[usize])
    requires { length into.old ≡ length numbers.now }
    ensures { map object_number into.new ≡ numbers.now }
{
    for number in 0..into.len() {
        into[number] = ObjectId(numbers[number]);
    }
}

// A list of so many places, where another was.
fn places_in(room: Vec<u32>, count: usize) -> Result<Vec<u32>, Memory>
    ensures { IfOk result (λ v. length v.items ≡ count) }
{
    let mut places = room;
    places.resize(count, 0)?;
    Ok(places)
}

// A list of so many objects, where another was.
fn objects_in(room: Vec<ObjectId>, count: usize) -> Result<Vec<ObjectId>, Memory>
    ensures { IfOk result (λ v. length v.items ≡ count) }
{
    let mut objects = room;
    objects.resize(count, ObjectId(0))?;
    Ok(objects)
}

// Whether what was chosen begins with these places.
fn begins_with(chosen: &[usize], places: &[u32]) -> bool
    ensures { result ≡ true → BeginsWith places.now chosen.now }
{
    if chosen.len() < places.len() {
        return false;
    }
    for number in 0..places.len() {
        if chosen[number] != places[number] as usize {
            return false;
        }
    }
    true
}

impl<'a> Seeker<'a> {
    // A search that begins.
    fn new(alloc: Global, puzzle: Puzzle<'a>) -> Result<Seeker<'a>, Memory>
        ensures place { IfOk result (λ s. IsStateOf s.puzzle s.at) }
        ensures same { IfOk result (λ s. s.puzzle ≡ puzzle.entry) }
        ensures all { IfOk result (λ s. to_find s ≡ listed (puzzle_view puzzle.entry)) }
    {
        let is_over = puzzle.is_hopeless();
        let levels = puzzle.choices();
        let chosen = Vec::with_capacity(alloc, levels)?;
        let numbers = Vec::with_capacity(alloc, levels)?;
        let made_at = vec![in alloc; 0usize; puzzle.children.len()]?;
        let at = State {
            chosen,
            numbers,
            made_at,
            next: 0,
            is_over,
        };
        Ok(Seeker { puzzle, at })
    }

    // Goes on to the next match, and writes its children and its objects down.
    fn advance(&mut self, children: &mut [u32], objects: &mut [ObjectId]) -> Result<bool, Memory>
        requires { HasRoom self.old children.old objects.old }
        ensures room { HasRoom self.new children.new objects.new }
        ensures children { length children.new ≡ length children.old }
        ensures objects { length objects.new ≡ length objects.old }
        ensures ok { IfOk result (IsAdvance
            (listed_as children.old objects.old (to_find self.old))
            (listed_as children.new objects.new (to_find self.new))) }
        ensures err { OnErr result (listed_as children.new objects.new (to_find self.new)
            ≡ listed_as children.old objects.old (to_find self.old)) }
    {
        let is_found = find(&self.puzzle, &mut self.at)?;
        if is_found {
            let subtasks = self.puzzle.table.subtasks.len();
            write_places(children, &self.at.chosen[..subtasks]);
            write_objects(objects, &self.at.chosen[subtasks..]);
            back(&self.puzzle, &mut self.at);
        }
        Ok(is_found)
    }

    // Leaves out matches that begin with these places, if the search stands among them.
    fn pass_over(&mut self, places: &[u32])
        requires place { IsStateOf self.old.puzzle self.old.at }
        requires few { length places.now ≤ length self.old.puzzle.table.now.subtasks.now }
        ensures place { IsStateOf self.new.puzzle self.new.at }
        ensures same { self.new.puzzle ≡ self.old.puzzle }
        ensures coming { LosesSome places.now (to_find self.old) (to_find self.new) }
    {
        if begins_with(&self.at.chosen, places) {
            leave(&self.puzzle, &mut self.at, places.len());
        }
    }

    // Whether there is a match still to come.
    fn has_next(&mut self) -> Result<bool, Memory>
        requires { IsStateOf self.old.puzzle self.old.at }
        ensures place { IsStateOf self.new.puzzle self.new.at }
        ensures puzzle { self.new.puzzle ≡ self.old.puzzle }
        ensures ok { IfOk result
            (λ b. MatchBool b (to_find self.new ≢ []) (to_find self.new ≡ [])) }
        ensures same { to_find self.new ≡ to_find self.old }
    {
        let is_left = find(&self.puzzle, &mut self.at)?;
        Ok(is_left)
    }
}

impl<'a> Candidates<'a> {
    /// All that fit the puzzle, each to be written down in these lists.
    pub(crate) fn of(
        alloc: Global,
        puzzle: Puzzle<'a>,
        children: Vec<u32>,
        objects: Vec<ObjectId>,
    ) -> Result<Candidates<'a>, Memory>
        ensures { IfOk result (ListsMatches (puzzle_view puzzle.entry)) }
    {
        let count = puzzle.choices();
        let children = places_in(children, puzzle.table.subtasks.len())?;
        let objects = objects_in(objects, puzzle.table.ranges.len())?;
        if count <= MOST_CHOICES && !puzzle.is_uneven() {
            let mut choices = [0; MOST_CHOICES];
            let chosen = &mut choices[..count];
            if puzzle.force(chosen) {
                return Ok(Candidates::written(puzzle, children, objects, chosen));
            }
        }
        Candidates::sought(alloc, puzzle, children, objects)
    }

    // The one that has these choices, if it fits the puzzle, where no other does.
    fn written(
        puzzle: Puzzle<'a>,
        children: Vec<u32>,
        objects: Vec<ObjectId>,
        chosen: &[usize],
    ) -> Candidates<'a>
        requires forced { AreForced (puzzle_view puzzle) chosen.now }
        requires children { length children.items ≡ length puzzle.table.now.subtasks.now }
        requires objects { length objects.items ≡ length puzzle.table.now.ranges.items }
        ensures { ListsMatches (puzzle_view puzzle.entry) result }
    {
        let subtasks = puzzle.table.subtasks.len();
        let is_match = puzzle.is_match(chosen);
        let mut children = children;
        let mut objects = objects;
        if is_match {
            write_places(&mut children, &chosen[..subtasks]);
            write_objects(&mut objects, &chosen[subtasks..]);
        }
        let Puzzle {
            children: works,
            ..
        } = puzzle;
        Candidates {
            coming: Coming::Written(is_match),
            children,
            objects,
            works,
        }
    }

    // Those that a search finds.
    fn sought(
        alloc: Global,
        puzzle: Puzzle<'a>,
        children: Vec<u32>,
        objects: Vec<ObjectId>,
    ) -> Result<Candidates<'a>, Memory>
        requires children { length children.items ≡ length puzzle.table.now.subtasks.now }
        requires objects { length objects.items ≡ length puzzle.table.now.ranges.items }
        ensures { IfOk result (ListsMatches (puzzle_view puzzle.entry)) }
    {
        let seeker = Seeker::new(alloc, puzzle)?;
        Ok(Candidates {
            coming: Coming::Sought(Box::new(alloc, seeker)?),
            children,
            objects,
            works: Vec::new(alloc),
        })
    }

    /// The lists, for the candidates of another node.
    pub fn into_room(self) -> CandidateRoom<'a> {
        let Candidates {
            children,
            objects,
            works,
            ..
        } = self;
        CandidateRoom {
            children,
            objects,
            works,
        }
    }

    // All possible candidates of a node whose method has this table.
    fn of_table(
        alloc: Global,
        room: CandidateRoom<'a>,
        table: &'a MethodTable<'a>,
        tree: &'a Tree,
        node: &Node<'a>,
        ever: Option<EverTrue<'a>>,
    ) -> Result<Candidates<'a>, Memory>
        ensures { IfOk result (IsWholeBy table.now (tree_view tree.now) (node_view node.now)
            (option_map ever_rows ever.entry)) }
    {
        let CandidateRoom {
            children,
            objects,
            works,
        } = room;
        let puzzle = puzzle(alloc, works, table, tree, node, ever)?;
        ways_are_enough();
        ways_are_counts();
        let candidates = Candidates::of(alloc, puzzle, children, objects)?;
        Ok(candidates)
    }

    /// All candidates of a node, each once, in no said order; they are no more than its count.
    /// Where it is told which atoms are ever true in some states, those are left out whose
    /// precondition needs another. They are written down in `room`, whatever stands there. Err only
    /// for want of memory.
    pub fn new(
        alloc: Global,
        room: CandidateRoom<'a>,
        matcher: &'a Matcher<'_>,
        tree: &'a Tree,
        node: u32,
        ever: Option<EverTrue<'a>>,
    ) -> Result<Candidates<'a>, Memory>
        requires tree { IsTreeIn matcher.now (tree_view tree.now) }
        requires node { node < length (tree_view tree.now).nodes }
        ensures exact { IfOk result (HasAllAt matcher.now (tree_view tree.now) node
            (option_map ever_rows ever.entry)) }
        ensures once { IfOk result (λ c. Once c.coming) }
        ensures few { IfOk result (IsInCountAt matcher.now (tree_view tree.now) node) }
    {
        let (node, table) = matcher.node_and_table(tree, node);
        let candidates = Candidates::of_table(alloc, room, table, tree, &node, ever)?;
        Ok(candidates)
    }

    /// Lends the next candidate, and says whether there was one; if not, there is none for good.
    /// After want of memory all is as it was.
    pub fn advance(&mut self) -> Result<bool, Memory>
        ensures ok { IfOk result (IsAdvance self.old self.new) }
        ensures err { OnErr result (self.new ≡ self.old) }
    {
        match &mut self.coming {
            Coming::Written(is_coming) => Ok(replace(is_coming, false)),
            Coming::Sought(seeker) => seeker.advance(&mut self.children, &mut self.objects),
        }
    }

    /// Leaves out candidates that are still to come and have, for the subtasks up to one in written
    /// order, the same children as the one that is lent: all of them, where it was lent just now.
    pub fn pass_over(&mut self, last: usize)
        ensures { IsPassing (last + 1) self.old self.new }
    {
        if let Coming::Sought(seeker) = &mut self.coming
            && last < self.children.len()
        {
            seeker.pass_over(&self.children[..=last]);
        }
    }

    /// Whether a candidate is still to come. What is looked for here is not looked for again.
    pub fn has_next(&mut self) -> Result<bool, Memory>
        ensures ok { IfOk result (λ b. MatchBool b (self.new.coming ≢ []) (self.new.coming ≡ [])) }
        ensures same { self.new ≡ self.old }
    {
        match &mut self.coming {
            Coming::Written(is_coming) => Ok(*is_coming),
            Coming::Sought(seeker) => seeker.has_next(),
        }
    }

    /// For each subtask in written order the place of its child among the node's children, in the
    /// candidate that is lent.
    pub fn children(&self) -> &[u32]
        ensures { result.now ≡ self.now.children }
    {
        &self.children
    }

    /// For each parameter of the method its object, in the candidate that is lent.
    pub fn objects(&self) -> &[ObjectId]
        ensures { map object_number result.now ≡ self.now.objects }
    {
        &self.objects
    }
}
