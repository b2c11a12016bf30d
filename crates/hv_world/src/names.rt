//! Tables of names.

ghost use Rattle.std.specs.Prelude.{◌≡◌, [], Some, true, map, IfOk, IfSome, OnOk};
ghost use Rattle.hv_text.specs.Names.{text_of};
ghost use Rattle.hv_syntax.specs.Views.{word_view, variable_view};
ghost use Rattle.hv_world.specs.Names.{names, place_in, repeated};
ghost use Rattle.hv_world.specs.Known.{variables, typed_words};
ghost use Rattle.hv_world.specs.Faults.{faults_at, least};
ghost use Rattle.hv_world.specs.inside.Seeds.{start_from};
ghost use Rattle.hv_world.specs.inside.Tables.{places_by, seed_of, with_place};

use crate::fault::{Side, StaticFault, StaticKind, earlier, fault_if};
use crate::seed::{with_variables, with_words};
use hv_syntax::{Placed, VariableText};
use hv_text::{Hints, Memory, Name, Seeded};
use indexmap::{IndexMap, IndexSet};
use std::alloc::Global;

/// Where each name stands first in a list of words.
#[derive(Drop)]
pub(crate) struct Names<'s> {
    places: IndexMap<Name<'s>, usize, Seeded>,
    // Where a name may stand in the table.
    hints: Hints,
}

impl<'s> Names<'s> {
    /// A table of no names.
    pub(crate) fn none(alloc: Global) -> Names<'s>
        ensures { places_by result ≡ place_in [] }
    {
        Names {
            places: IndexMap::with_hasher(alloc, Seeded::new()),
            hints: Hints::none(alloc),
        }
    }

    /// The first places of the names of words.
    pub(crate) fn of(alloc: Global, words: &[Placed<'s>]) -> Result<Names<'s>, Memory>
        ensures places { IfOk result
            (λ t. places_by t ≡ place_in (names (map word_view words.now))) }
        ensures seed { IfOk result (λ t. seed_of t ≡ start_from (names (map word_view words.now))) }
    {
        let mut names = Names {
            places: IndexMap::with_capacity_and_hasher(
                alloc,
                words.len(),
                with_words(Seeded::new(), words),
            )?,
            hints: Hints::with_room(alloc, words.len())?,
        };
        for place in 0..words.len() {
            let word = words[place];
            names.add(word.name(), place)?;
        }
        Ok(names)
    }

    /// The first places of the names of variables.
    pub(crate) fn of_variables(
        alloc: Global,
        list: &[VariableText<'s>],
    ) -> Result<Names<'s>, Memory>
        ensures places { IfOk result
            (λ t. places_by t ≡ place_in (variables (map variable_view list.now))) }
        ensures seed { IfOk result
            (λ t. seed_of t ≡ start_from (variables (map variable_view list.now))) }
    {
        let mut names = Names {
            places: IndexMap::with_capacity_and_hasher(
                alloc,
                list.len(),
                with_variables(Seeded::new(), list),
            )?,
            hints: Hints::with_room(alloc, list.len())?,
        };
        for place in 0..list.len() {
            let declared = &list[place];
            let variable = declared.name();
            names.add(variable.name(), place)?;
        }
        Ok(names)
    }

    // Notes a place, where the name has none. One that has a place is given it back, so that each
    // is looked for once, as most stand once.
    fn add(&mut self, name: Name<'s>, place: usize) -> Result<(), Memory>
        ensures places { OnOk result
            (places_by self.new ≡ with_place (places_by self.old) (text_of name.entry) place) }
        ensures seed { seed_of self.new ≡ seed_of self.old }
    {
        let (index, before) = self.places.insert_full(name, place)?;
        match before {
            Some(first) => {
                self.places.insert(name, first)?;
            }
            None => self.hints.note(name, index),
        }
        Ok(())
    }

    /// The place of a name that stands at an index of the table. Where each name stands once, that is
    /// the index.
    #[inline(always)]
    pub(crate) fn place_at(&self, index: usize, name: Name<'s>) -> Option<usize>
        ensures { IfSome result (λ p. places_by self.now (text_of name.entry) ≡ Some p) }
    {
        let (other, place) = self.places.get_index(index)?;
        if *other == name { Some(*place) } else { None }
    }

    /// Where a name stands first, if there is a hint of it.
    #[inline(always)]
    pub(crate) fn hinted(&self, name: Name<'s>) -> Option<usize>
        ensures { IfSome result (λ p. places_by self.now (text_of name.entry) ≡ Some p) }
    {
        let [first, second] = self.hints.of(name);
        match self.place_at(first, name) {
            Some(place) => Some(place),
            None => self.place_at(second, name),
        }
    }

    /// Where a name stands first.
    pub(crate) fn place(&self, name: Name<'s>) -> Option<usize>
        ensures { result ≡ places_by self.now (text_of name.entry) }
    {
        if let Some(place) = self.hinted(name) {
            return Some(place);
        }
        match self.places.get(&name) {
            Some(place) => Some(*place),
            None => None,
        }
    }

    /// Where a name stands first, if that is the place behind this one.
    #[inline(always)]
    pub(crate) fn behind(&self, other: usize, name: Name<'s>) -> Option<usize>
        ensures { IfSome result (λ p. places_by self.now (text_of name.entry) ≡ Some p) }
    {
        self.place_at(other.saturating_add(1), name)
    }

    /// Where a name stands first, if that is the place behind this one, or this one.
    #[inline(always)]
    pub(crate) fn near(&self, other: usize, name: Name<'s>) -> Option<usize>
        ensures { IfSome result (λ p. places_by self.now (text_of name.entry) ≡ Some p) }
    {
        match self.behind(other, name) {
            Some(place) => Some(place),
            None => self.place_at(other, name),
        }
    }

    /// Where a name stands first. The place of another is looked at before all.
    pub(crate) fn place_like(&self, other: Option<usize>, name: Name<'s>) -> Option<usize>
        ensures { result ≡ places_by self.now (text_of name.entry) }
    {
        if let Some(other) = other {
            let same = self.place_at(other, name);
            if same.is_some() {
                return same;
            }
        }
        self.place(name)
    }

    /// Where a name stands first. The place behind another name's is looked at before all.
    pub(crate) fn place_behind(&self, other: Option<usize>, name: Name<'s>) -> Option<usize>
        ensures { result ≡ places_by self.now (text_of name.entry) }
    {
        self.place_like(next_to(other), name)
    }
}

/// Hints of where the names of a set stand.
///
/// # Errors
///
/// `Memory` where the room was refused.
pub(crate) fn hints_of(alloc: Global, names: &IndexSet<Name<'_>, Seeded>) -> Result<Hints, Memory> {
    let mut hints = Hints::with_room(alloc, names.len())?;
    for (place, name) in names.iter().enumerate() {
        hints.note(*name, place);
    }
    Ok(hints)
}

// Whether a name stands at a place of a set, written alike: where a guess is mostly wrong, it costs
// less to see that without the case of letters.
#[inline(always)]
fn is_written_at<'s>(names: &IndexSet<Name<'s>, Seeded>, place: usize, name: Name<'s>) -> bool
    ensures { result ≡ true
        → place_in (map text_of names.now.keys) (text_of name.entry) ≡ Some place }
{
    match names.as_slice().get(place) {
        Some(other) => other.written() == name.written(),
        None => false,
    }
}

// The place behind another.
fn next_to(other: Option<usize>) -> Option<usize> {
    Some(other?.saturating_add(1))
}

// Whether a name stands at a place of a set.
#[inline(always)]
fn stands_at<'s>(names: &IndexSet<Name<'s>, Seeded>, place: usize, name: Name<'s>) -> bool
    ensures { result ≡ true
        → place_in (map text_of names.now.keys) (text_of name.entry) ≡ Some place }
{
    match names.as_slice().get(place) {
        Some(other) => *other == name,
        None => false,
    }
}

/// Where a name stands in a set of which these are the hints.
pub(crate) fn place_of<'s>(
    names: &IndexSet<Name<'s>, Seeded>,
    hints: &Hints,
    name: Name<'s>,
) -> Option<usize>
    ensures { result ≡ place_in (map text_of names.now.keys) (text_of name.entry) }
{
    let [first, second] = hints.of(name);
    if stands_at(names, first, name) {
        return Some(first);
    }
    if stands_at(names, second, name) {
        return Some(second);
    }
    names.get_index_of(&name)
}

/// As `place_of`, where the place of another name is looked at before all: many names of a list
/// have one type, and many atoms one predicate.
#[inline(always)]
pub(crate) fn place_like<'s>(
    names: &IndexSet<Name<'s>, Seeded>,
    hints: &Hints,
    other: Option<usize>,
    name: Name<'s>,
) -> Option<usize>
    ensures { result ≡ place_in (map text_of names.now.keys) (text_of name.entry) }
{
    if let Some(other) = other {
        if stands_at(names, other, name) {
            return Some(other);
        }
    }
    place_of(names, hints, name)
}

/// As `place_of`, where the place behind another name's is looked at before all. What texts list
/// often goes through names in the order in which they are declared: then one comparison finds
/// each, with what is at hand, and nothing is hashed.
pub(crate) fn place_behind<'s>(
    names: &IndexSet<Name<'s>, Seeded>,
    hints: &Hints,
    other: Option<usize>,
    name: Name<'s>,
) -> Option<usize>
    ensures { result ≡ place_in (map text_of names.now.keys) (text_of name.entry) }
{
    if let Some(next) = next_to(other) {
        if is_written_at(names, next, name) {
            return Some(next);
        }
    }
    place_of(names, hints, name)
}

/// The first of these words that has one of its name before it.
pub(crate) fn repeated_word<'s>(
    table: &Names<'s>,
    words: &[Placed<'s>],
    kind: StaticKind,
    side: Side,
) -> Option<StaticFault>
    requires { places_by table.now ≡ place_in (names (map word_view words.now)) }
    ensures { result ≡ least (faults_at kind side (repeated (map word_view words.now))) }
{
    let mut found = None;
    for place in 0..words.len() {
        let word = words[place];
        let first = table.place_behind(place.checked_sub(1), word.name());
        let is_first = first == Some(place);
        let fault = fault_if(!is_first, kind, side, word);
        found = earlier(found, fault);
    }
    found
}

/// Where a name stands first among variables.
pub(crate) fn place_among<'s>(list: &[VariableText<'s>], name: Name<'s>) -> Option<usize>
    ensures { result ≡ place_in (variables (map variable_view list.now)) (text_of name.entry) }
{
    for place in 0..list.len() {
        let variable = &list[place];
        let word = variable.name();
        if name == word.name() {
            return Some(place);
        }
    }
    None
}

/// The first of a quantifier's variables that has one of its name before it; there are few of them.
pub(crate) fn repeated_variable<'s>(
    variables: &[VariableText<'s>],
    kind: StaticKind,
    side: Side,
) -> Option<StaticFault>
    ensures { result
        ≡ least (faults_at kind side (repeated (typed_words (map variable_view variables.now)))) }
{
    let mut found = None;
    for place in 0..variables.len() {
        let variable = &variables[place];
        let word = variable.name();
        let is_first = place_among(variables, word.name()) == Some(place);
        let fault = fault_if(!is_first, kind, side, word);
        found = earlier(found, fault);
    }
    found
}

/// The first of a list of parameters that has one of its name before it.
pub(crate) fn repeated_parameter<'s>(
    table: &Names<'s>,
    list: &[VariableText<'s>],
    kind: StaticKind,
    side: Side,
) -> Option<StaticFault>
    requires { places_by table.now ≡ place_in (variables (map variable_view list.now)) }
    ensures { result
        ≡ least (faults_at kind side (repeated (typed_words (map variable_view list.now)))) }
{
    let mut found = None;
    for place in 0..list.len() {
        let variable = &list[place];
        let word = variable.name();
        let first = table.place_behind(place.checked_sub(1), word.name());
        let is_first = first == Some(place);
        let fault = fault_if(!is_first, kind, side, word);
        found = earlier(found, fault);
    }
    found
}
