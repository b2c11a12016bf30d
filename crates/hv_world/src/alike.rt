//! The classes of alike subtasks of a network, and its free parameters.

ghost use Rattle.std.specs.Prelude.{◌≡◌, ◌↔◌, ℕ, true, List, ◌++◌, ◌&&◌, ◌+◌, ◌<◌, ◌^◌, not, [], ◌∷◌, map, filter, length, slice_get, Contains, All, AllPairs, ◌≢◌, Some, IfOk, OnOk};
ghost use Rattle.std.specs.HashMap.{get};
ghost use Rattle.std.specs.List.{range_with_len};
ghost use Rattle.std.specs.Option.{option_copied};
ghost use Rattle.hv_world.specs.Alike as alike;
ghost use Rattle.hv_world.specs.Alike.{is_object};
ghost use Rattle.hv_world.specs.inside.Kept.{is_marked, is_name, kept_marks, RowsSay, counts_in, counted, key_view, AreClasses};
ghost use Rattle.hv_world.specs.Values as value;
ghost use Rattle.hv_world.specs.Bindings.{object_number};
ghost use Rattle.hv_world.specs.Views.{name_view, term_view, subtask_view};

use crate::formula::{Subtask, Term};
use crate::id::{ObjectId, TaskName};
use crate::seed::seed_of_subtasks;
use hv_text::{Memory, Seeded};
use indexmap::IndexMap;
use smallvec::SmallVec;
use std::alloc::Global;
use std::hash::{Hash, Hasher};

/// What tells classes apart: the name of a subtask, and its objects at the fixed positions. Mostly
/// these are few, and take no allocation.
#[derive(PartialEq, Eq, Hash, Drop)]
struct Key {
    name: TaskName,
    objects: SmallVec<usize, 2>,
}

impl Hash for TaskName {
    ghost use Rattle.std.proofs.Common.{rules};
    ghost use Rattle.std.specs.Cmp.Rules.{hashing};
    ghost use Rattle.hv_world.specs.inside.Kept.{name_bytes};

    ghost hash_input = { name_bytes };

    ghost respects_eq = { Prim.search (hashing, rules) };

    // The number alone is fed, in one word: a task and an action of one number feed the same, and
    // no third name does.
    fn hash<H: Hasher>(&self, state: &mut H) {
        match self {
            TaskName::Compound(task) => state.write_usize(task.0),
            TaskName::Primitive(action) => state.write_usize(action.0),
        }
    }
}

// Whether a position is marked.
fn is_marked(marks: &[bool], position: usize) -> bool
    ensures { result ≡ is_marked marks.now position }
{
    marks.get(position).copied().unwrap_or(false)
}

fn is_object(term: Term) -> bool
    ensures { result ≡ is_object (term_view term) }
{
    matches!(term, Term::Object(_))
}

// Whether each of the terms is an object.
fn object_marks(alloc: Global, terms: &[Term]) -> Result<Vec<bool>, Memory>
    ensures { IfOk result (λ v. v.items ≡ map is_object (map term_view terms.now)) }
{
    let mut marks = Vec::new(alloc);
    for term in terms {
        marks.push(is_object(*term))?;
    }
    Ok(marks)
}

// Whether there is an object at a position.
fn has_object(terms: &[Term], position: usize) -> bool
    ensures { result ≡ alike.has_object (map term_view terms.now) position }
{
    position < terms.len() && is_object(terms[position])
}

// The marks of those positions at which these terms have an object too.
fn kept_marks(alloc: Global, marks: &[bool], terms: &[Term]) -> Result<Vec<bool>, Memory>
    ensures { IfOk result (λ v. v.items ≡ kept_marks (map term_view terms.now) 0 marks.now) }
{
    let mut kept = Vec::new(alloc);
    for (position, mark) in marks.iter().enumerate() {
        kept.push(*mark && has_object(terms, position))?;
    }
    Ok(kept)
}

// Whether these terms have an object at each marked position, so that all marks are kept.
fn are_kept(marks: &[bool], terms: &[Term]) -> bool
    ensures { result ≡ true → kept_marks (map term_view terms.now) 0 marks.now ≡ marks.now }
{
    for (position, mark) in marks.iter().enumerate() {
        if *mark && !has_object(terms, position) {
            return false;
        }
    }
    true
}

// The marks of a name. Many networks have one name alone, so the first is looked at before the name
// is hashed.
fn marks_of(rows: &IndexMap<TaskName, Vec<bool>, Seeded>, name: TaskName) -> Option<&Vec<bool>>
    ensures { option_copied result ≡ get is_name rows.now name }
{
    if let Some((first, marks)) = rows.get_index(0)
        && *first == name
    {
        return Some(marks);
    }
    rows.get(&name)
}

// Takes account of one subtask more. Most leave the marks as they are.
fn note_objects(
    alloc: Global,
    rows: &mut IndexMap<TaskName, Vec<bool>, Seeded>,
    subtask: &Subtask,
) -> Result<(), Memory>
    ensures { OnOk result
        ((ss : List value.Subtask) → RowsSay ss rows.old
        → RowsSay (ss ++ subtask_view subtask.now ∷ []) rows.new) }
{
    let row = match marks_of(rows, subtask.name) {
        Some(marks) => {
            if are_kept(marks, &subtask.terms) {
                return Ok(());
            }
            kept_marks(alloc, marks, &subtask.terms)?
        }
        None => object_marks(alloc, &subtask.terms)?,
    };
    rows.insert(subtask.name, row)?;
    Ok(())
}

// For each name the marks of its fixed positions.
fn fixed_positions(
    alloc: Global,
    subtasks: &[Subtask],
    seed: Seeded,
) -> Result<IndexMap<TaskName, Vec<bool>, Seeded>, Memory>
    ensures { IfOk result (RowsSay (map subtask_view subtasks.now)) }
{
    let mut rows = IndexMap::with_hasher(alloc, seed);
    for subtask in subtasks {
        note_objects(alloc, &mut rows, subtask)?;
    }
    Ok(rows)
}

// How many positions are marked.
fn marked_count(marks: &[bool]) -> usize {
    marks.iter().filter(|mark| **mark).count()
}

// The objects at the marked positions.
fn marked_objects(
    alloc: Global,
    marks: &[bool],
    terms: &[Term],
) -> Result<SmallVec<usize, 2>, Memory>
    ensures { IfOk result
        (λ v. v.items ≡ alike.fixed_objects (is_marked marks.now) 0 (map term_view terms.now)) }
{
    let mut objects = SmallVec::with_capacity(alloc, marked_count(marks))?;
    for (position, term) in terms.iter().enumerate() {
        match term {
            Term::Object(object) if is_marked(marks, position) => objects.push(object.0)?,
            _ => {}
        }
    }
    Ok(objects)
}

// What tells the class of a subtask apart.
fn key_of(
    alloc: Global,
    rows: &IndexMap<TaskName, Vec<bool>, Seeded>,
    subtask: &Subtask,
) -> Result<Key, Memory>
    ensures { IfOk result
        (λ k. (ss : List value.Subtask) → RowsSay ss rows.now
        → Contains ss (subtask_view subtask.now)
        → key_view k ≡ alike.key ss (subtask_view subtask.now)) }
{
    let objects = match marks_of(rows, subtask.name) {
        Some(marks) => marked_objects(alloc, marks, &subtask.terms)?,
        None => SmallVec::new(alloc),
    };
    Ok(Key {
        name: subtask.name,
        objects,
    })
}

// The objects at the marked positions, where all terms are objects.
fn marked_ids(alloc: Global, marks: &[bool], ids: &[ObjectId]) -> Result<SmallVec<usize, 2>, Memory>
    ensures { IfOk result (λ v. v.items ≡ alike.fixed_objects (is_marked marks.now) 0
        (map value.object (map object_number ids.now))) }
{
    let mut objects = SmallVec::new(alloc);
    for (position, id) in ids.iter().enumerate() {
        if is_marked(marks, position) {
            objects.push(id.0)?;
        }
    }
    Ok(objects)
}

// Counts one subtask more of a class, and gives the number of the class.
fn count(sizes: &mut IndexMap<Key, usize, Seeded>, key: Key) -> Result<usize, Memory>
    requires small { All (λ c. c.1 + 1 < 2 ^ 64) (counts_in sizes.old) }
    ensures counted { OnOk result
        (counts_in sizes.new ≡ counted (key_view key) (counts_in sizes.old)) }
    ensures number { IfOk result
        (λ n. alike.number_in (key_view key) (counts_in sizes.new) ≡ Some n) }
{
    let (number, before) = sizes.insert_full(key, 1)?;
    let Some(before) = before else {
        return Ok(number);
    };
    match sizes.get_index_mut(number) {
        Some(size) => *size = before + 1,
        None => unreachable!(),
    }
    Ok(number)
}

// The sizes alone.
fn sizes_in(alloc: Global, counts: &IndexMap<Key, usize, Seeded>) -> Result<Vec<usize>, Memory>
    ensures { IfOk result (λ v. v.items ≡ map (λ c. c.1) (counts_in counts.now)) }
{
    let mut sizes = Vec::with_capacity(alloc, counts.len())?;
    for size in counts.values() {
        sizes.push(*size)?;
    }
    Ok(sizes)
}

// The number at a place.
fn number_at(numbers: &[usize], place: usize) -> Option<usize>
    ensures { result ≡ slice_get numbers.now place }
{
    numbers.get(place).copied()
}

/// The classes of alike subtasks, in the order in which a class is first seen.
#[derive(Drop)]
pub(crate) struct Classes {
    // For each name the marks of its fixed positions.
    fixed: IndexMap<TaskName, Vec<bool>, Seeded>,
    // For each class how many subtasks are of it.
    counts: IndexMap<Key, usize, Seeded>,
    // The same, in one list.
    sizes: Vec<usize>,
    // For each subtask the number of its class.
    numbers: Vec<usize>,
}

impl Classes {
    /// The classes of these subtasks.
    pub(crate) fn new(alloc: Global, subtasks: &[Subtask]) -> Result<Classes, Memory>
        ensures { IfOk result (AreClasses (map subtask_view subtasks.now)) }
    {
        let seed = seed_of_subtasks(subtasks);
        let fixed = fixed_positions(alloc, subtasks, seed)?;
        let mut counts = IndexMap::with_hasher(alloc, seed);
        let mut numbers = Vec::with_capacity(alloc, subtasks.len())?;
        for subtask in subtasks {
            let key = key_of(alloc, &fixed, subtask)?;
            let number = count(&mut counts, key)?;
            numbers.push(number)?;
        }
        counts.shrink_to_fit();
        let sizes = sizes_in(alloc, &counts)?;
        Ok(Classes {
            fixed,
            counts,
            sizes,
            numbers,
        })
    }

    /// How many subtasks are of each class.
    pub(crate) fn sizes(&self) -> &[usize]
        ensures { result.now ≡ self.now.sizes.items }
    {
        &self.sizes
    }

    /// The number of the class of the subtask of a number.
    pub(crate) fn of(&self, subtask: usize) -> Option<usize>
        ensures { (ss : List value.Subtask) → AreClasses ss self.now
            → result ≡ alike.class_at ss subtask }
    {
        number_at(&self.numbers, subtask)
    }

    /// The number of the class of what has this name and these objects, if some subtask is of it.
    pub(crate) fn find(
        &self,
        alloc: Global,
        name: TaskName,
        ids: &[ObjectId],
    ) -> Result<Option<usize>, Memory>
        ensures { IfOk result (λ r. (ss : List value.Subtask) → AreClasses ss self.now
            → r ≡ alike.class_of ss (alike.with_objects (name_view name)
            (map object_number ids.now))) }
    {
        let Some(marks) = marks_of(&self.fixed, name) else {
            return Ok(None);
        };
        let objects = marked_ids(alloc, marks, ids)?;
        Ok(self.counts.get_index_of(&Key { name, objects }))
    }
}

// Takes the mark off the parameter that the term is, if it is one.
fn unmark_term(marks: &mut [bool], term: Term)
    ensures len { length marks.new ≡ length marks.old }
    ensures marks { (k : ℕ)
        → is_marked marks.new k ≡ is_marked marks.old k
        && not (alike.is_variable k (term_view term)) }
{
    if let Term::Variable(variable) = term
        && variable < marks.len()
    {
        marks[variable] = false;
    }
}

// Takes the mark off each parameter that is one of these terms.
fn unmark(marks: &mut [bool], terms: &[Term])
    ensures len { length marks.new ≡ length marks.old }
    ensures marks { (k : ℕ)
        → is_marked marks.new k ≡ is_marked marks.old k
        && not (alike.has_variable k (map term_view terms.now)) }
{
    for term in terms {
        unmark_term(marks, *term);
    }
}

// Takes the mark off each parameter that is an argument of a subtask.
fn unmark_arguments(marks: &mut [bool], subtasks: &[Subtask])
    ensures len { length marks.new ≡ length marks.old }
    ensures marks { (k : ℕ)
        → is_marked marks.new k ≡ is_marked marks.old k
        && not (alike.is_argument k (map subtask_view subtasks.now)) }
{
    for subtask in subtasks {
        unmark(marks, &subtask.terms);
    }
}

// Takes the mark off each parameter that is an argument of the task or of a subtask.
fn keep_free(marks: &mut [bool], task: &[Term], subtasks: &[Subtask])
    ensures len { length marks.new ≡ length marks.old }
    ensures marks { (k : ℕ)
        → is_marked marks.new k
        ≡ (is_marked marks.old k && not (alike.has_variable k (map term_view task.now)))
        && not (alike.is_argument k (map subtask_view subtasks.now)) }
{
    unmark(marks, task);
    unmark_arguments(marks, subtasks);
}

// The marked positions.
fn marked_numbers(alloc: Global, marks: &[bool]) -> Result<Vec<usize>, Memory>
    ensures { IfOk result
        (λ v. v.items ≡ filter (is_marked marks.now) (range_with_len 0 (length marks.now))) }
{
    let mut numbers = Vec::new(alloc);
    for (number, mark) in marks.iter().enumerate() {
        if *mark {
            numbers.push(number)?;
        }
    }
    Ok(numbers)
}

/// The numbers of the parameters that are arguments neither of the task nor of a
/// subtask, ascending.
pub(crate) fn free_parameters(
    alloc: Global,
    parameters: usize,
    task: &[Term],
    subtasks: &[Subtask],
) -> Result<Vec<usize>, Memory>
    ensures { IfOk result
        (λ v. v.items
        ≡ alike.free_parameters parameters (map term_view task.now)
        (map subtask_view subtasks.now)) }
{
    let mut marks = vec![in alloc; true; parameters]?;
    keep_free(&mut marks, task, subtasks);
    marked_numbers(alloc, &marks)
}

/// Two subtasks of a network are alike exactly where their keys are the same. This function does
/// nothing: its contract is the law.
pub fn keys_tell_classes()
    ensures { (ss : List value.Subtask) (s t : value.Subtask) → Contains ss s → Contains ss t
        → alike.AreAlike ss s t ↔ alike.key ss s ≡ alike.key ss t }
{}

/// A subtask with objects for its variables, as a plan has it, keeps its key.
pub fn instances_keep_their_key()
    ensures { (ss : List value.Subtask) (s : value.Subtask) (g : ℕ → ℕ) → Contains ss s
        → alike.key ss (alike.subtask_instance g s) ≡ alike.key ss s }
{}

/// The test for a fixed position says what is fixed.
pub fn fixed_positions_are_found()
    ensures { (ss : List value.Subtask) (n : value.TaskName) (k : ℕ)
        → alike.is_fixed ss n k ≡ true ↔ alike.IsFixed ss n k }
{}

/// The classes are those of the keys, each once, and with as many as have its key.
pub fn classes_are_counted()
    ensures each { (ks : List alike.Key) (k : alike.Key) → Contains ks k
        → Contains (alike.classes ks) (k, alike.how_many k ks) }
    ensures sizes { (ks : List alike.Key)
        → All (λ c. c.1 ≡ alike.how_many c.0 ks) (alike.classes ks) }
    ensures once { (ks : List alike.Key) → AllPairs (λ c d. c.0 ≢ d.0) (alike.classes ks) }
{}

/// The test for a free parameter says what is free.
pub fn free_parameters_are_found()
    ensures { (task : List value.Term) (ss : List value.Subtask) (i : ℕ)
        → alike.is_free task ss i ≡ true ↔ alike.IsFree task ss i }
{}
