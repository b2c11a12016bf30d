//! Sorted lists of atoms, each as a row of numbers: its predicate's, and then its objects'.

ghost use Rattle.std.specs.Prelude.{◌≡◌, ◌↔◌, ◌++◌, ◌∷◌, [], IsTrue, IfOk};
ghost use Rattle.std.specs.Ordering.{nat_cmp};
ghost use Rattle.std.specs.Cmp.Lexicographic.{slice_cmp};
ghost use Rattle.hv_state.specs.Atoms.{objects_read, atom_read};
ghost use Rattle.hv_state.specs.Atoms.{row_of};
ghost use Rattle.hv_state.specs.inside.Rows.{atom_of, rows_in, rows_under};
ghost use Rattle.hv_world.specs.FactViews.{facts_view};
ghost use Rattle.hv_state.specs.inside.Rows.{objects_with, HaveCome};
ghost use Rattle.hv_state.specs.inside.Rows.{Ascend, HasSameRows};

use crate::atom::{AtomView, Objects, object_of};
use crate::find::HasRow;
use hv_text::Memory;
use hv_world::{Binding, Facts, PredicateId, Term};
use smallvec::SmallVec;
use std::alloc::Global;
use std::cmp::Ordering;

/// The row of an atom. Up to four numbers, as those of an atom of three objects, take
/// no allocation. A number has four bytes, since a large state waits for memory more than for
/// anything else.
#[derive(PartialEq, Eq, Drop)]
pub(crate) struct Row {
    pub(crate) numbers: SmallVec<u32, 4>,
}

impl HasRow for Row {
    ghost numbers = { λ r. r.numbers.items };

    fn row(&self) -> &[u32] {
        self.numbers.as_slice()
    }
}

impl Row {
    /// The atom of the row.
    pub(crate) fn atom(&self) -> AtomView<'_>
        ensures { atom_read result ≡ atom_of self.now.numbers.items }
    {
        atom_in(self.numbers.as_slice())
    }

    /// The same row once more.
    pub(crate) fn copy(&self) -> Result<Row, Memory>
        ensures { IfOk result (λ row. row.numbers.items ≡ self.now.numbers.items) }
    {
        let numbers = SmallVec::from_slice(*self.numbers.allocator(), self.numbers.as_slice())?;
        Ok(Row { numbers })
    }
}

impl PartialOrd for Row {
    ghost use Rattle.std.proofs.Common.{rules};
    ghost use Rattle.std.specs.Cmp.{partial_order_from_own_ties};
    ghost use Rattle.std.specs.Cmp.Rules.{comparing};
    ghost use Rattle.std.specs.Ordering.{on, as_partial_cmp};

    ghost partial_cmp = { as_partial_cmp (on (λ r. r.numbers.items) (slice_cmp nat_cmp)) };

    ghost laws = { partial_order_from_own_ties (Prim.search (comparing, rules))
        (Prim.search (comparing, rules)) };

    fn partial_cmp(&self, other: &Self) -> Option<Ordering> {
        Some(self.cmp(other))
    }
}

impl Ord for Row {
    ghost use Rattle.std.proofs.Common.{rules};
    ghost use Rattle.std.specs.Cmp.Rules.{comparing};
    ghost use Rattle.std.specs.Ordering.{on};

    ghost cmp = { on (λ r. r.numbers.items) (slice_cmp nat_cmp) };

    ghost total = { Prim.search (comparing, rules) };

    ghost matches_partial_cmp = { Prim.search (comparing, rules) };

    ghost matches_eq = { Prim.search (comparing, rules) };

    #[inline(always)]
    fn cmp(&self, other: &Self) -> Ordering {
        compare_rows(self.numbers.as_slice(), other.numbers.as_slice())
    }
}

// How a row stands to another. Rows are short, and most differ in one of their first numbers.
#[inline(always)]
fn compare_rows(row: &[u32], other: &[u32]) -> Ordering
    ensures { result ≡ slice_cmp nat_cmp row.now other.now }
{
    let mut left = other;
    for number in row {
        match left {
            [] => return Ordering::Greater,
            [first, others @ ..] => match number.cmp(first) {
                Ordering::Equal => left = others,
                decided => return decided,
            },
        }
    }
    if left.is_empty() {
        Ordering::Equal
    } else {
        Ordering::Less
    }
}

// The atom of a row. There is no row of no numbers, and it would read as predicate 0.
fn atom_in(row: &[u32]) -> AtomView<'_>
    ensures { atom_read result ≡ atom_of row.now }
{
    match row {
        [] => AtomView {
            predicate: PredicateId(0),
            objects: Objects::OfRow(&[]),
        },
        [predicate, objects @ ..] => AtomView {
            predicate: PredicateId(*predicate as usize),
            objects: Objects::OfRow(objects),
        },
    }
}

// How objects stand to those of terms.
fn compare_to_terms(objects: &[u32], terms: &[Term], binding: &Binding<'_>) -> Ordering
    ensures { result ≡ slice_cmp nat_cmp objects.now (objects_with binding.now terms.now) }
{
    let mut left = terms;
    for object in objects {
        match left {
            [] => return Ordering::Greater,
            [term, others @ ..] => match (*object as usize).cmp(&object_of(binding, *term).0) {
                Ordering::Equal => left = others,
                other => return other,
            },
        }
    }
    if left.is_empty() {
        Ordering::Equal
    } else {
        Ordering::Less
    }
}

// How objects stand to those of these numbers.
fn compare_to_numbers(objects: &[u32], numbers: &[usize]) -> Ordering
    ensures { result ≡ slice_cmp nat_cmp objects.now numbers.now }
{
    let mut left = numbers;
    for object in objects {
        match left {
            [] => return Ordering::Greater,
            [number, others @ ..] => match (*object as usize).cmp(number) {
                Ordering::Equal => left = others,
                other => return other,
            },
        }
    }
    if left.is_empty() {
        Ordering::Equal
    } else {
        Ordering::Less
    }
}

// How objects stand to those of an atom.
fn compare_objects(objects: &[u32], others: &Objects<'_>) -> Ordering
    ensures { result ≡ slice_cmp nat_cmp objects.now (objects_read others.now) }
{
    match others {
        Objects::OfTerms(terms, binding) => compare_to_terms(objects, terms, binding),
        Objects::Given(numbers) => compare_to_numbers(objects, numbers),
        Objects::OfRow(numbers) => objects.cmp(numbers),
    }
}

/// How a row stands to that of an atom.
pub(crate) fn compare(row: &[u32], atom: &AtomView<'_>) -> Ordering
    ensures { result ≡ slice_cmp nat_cmp row.now (row_of (atom_read atom.now)) }
{
    match row {
        [] => Ordering::Less,
        [predicate, objects @ ..] => match (*predicate as usize).cmp(&atom.predicate.0) {
            Ordering::Equal => compare_objects(objects, &atom.objects),
            other => other,
        },
    }
}

// Whether objects are those of terms.
fn are_of_terms(objects: &[u32], terms: &[Term], binding: &Binding<'_>) -> bool
    ensures { IsTrue result ↔ (objects.now ≡ objects_with binding.now terms.now) }
{
    let mut left = terms;
    for object in objects {
        match left {
            [] => return false,
            [term, others @ ..] => {
                if *object as usize != object_of(binding, *term).0 {
                    return false;
                }
                left = others;
            }
        }
    }
    left.is_empty()
}

/// Whether objects are those of these numbers.
#[inline(always)]
pub(crate) fn are_numbers(objects: &[u32], numbers: &[usize]) -> bool
    ensures { IsTrue result ↔ (objects.now ≡ numbers.now) }
{
    let mut left = numbers;
    for object in objects {
        match left {
            [] => return false,
            [number, others @ ..] => {
                if *object as usize != *number {
                    return false;
                }
                left = others;
            }
        }
    }
    left.is_empty()
}

// Whether objects are those of an atom.
#[inline(always)]
fn are_objects(objects: &[u32], others: &Objects<'_>) -> bool
    ensures { IsTrue result ↔ (objects.now ≡ objects_read others.now) }
{
    match others {
        Objects::OfTerms(terms, binding) => are_of_terms(objects, terms, binding),
        Objects::Given(numbers) => are_numbers(objects, numbers),
        Objects::OfRow(numbers) => objects == *numbers,
    }
}

/// Whether a row is that of an atom.
#[inline(always)]
pub(crate) fn is_row(row: &[u32], atom: &AtomView<'_>) -> bool
    ensures { IsTrue result ↔ (row.now ≡ row_of (atom_read atom.now)) }
{
    match row {
        [] => false,
        [predicate, objects @ ..] => {
            *predicate as usize == atom.predicate.0 && are_objects(objects, &atom.objects)
        }
    }
}

// Puts a number behind others.
fn push_number(row: &mut SmallVec<u32, 4>, number: usize) -> Result<(), Memory>
    ensures { IfOk result (λ _. row.new.items ≡ row.old.items ++ number ∷ []) }
{
    let number = u32::try_from(number).map_err(|_| Memory)?;
    row.push(number)?;
    Ok(())
}

// Puts numbers behind others.
fn push_numbers(row: &mut SmallVec<u32, 4>, numbers: &[usize]) -> Result<(), Memory>
    ensures { IfOk result (λ _. row.new.items ≡ row.old.items ++ numbers.now) }
{
    row.reserve_exact(numbers.len())?;
    for number in numbers {
        push_number(row, *number)?;
    }
    Ok(())
}

// Puts the objects of terms behind other numbers.
fn push_objects(
    row: &mut SmallVec<u32, 4>,
    terms: &[Term],
    binding: &Binding<'_>,
) -> Result<(), Memory>
    ensures { IfOk result
        (λ _. row.new.items ≡ row.old.items ++ objects_with binding.now terms.now) }
{
    row.reserve_exact(terms.len())?;
    for term in terms {
        push_number(row, object_of(binding, *term).0)?;
    }
    Ok(())
}

// The numbers of an atom's row. One that does not fit into 32 bits has no room there.
fn numbers_of(alloc: Global, atom: &AtomView<'_>) -> Result<SmallVec<u32, 4>, Memory>
    ensures { IfOk result (λ row. row.items ≡ row_of (atom_read atom.now)) }
{
    let mut row = SmallVec::new(alloc);
    push_number(&mut row, atom.predicate.0)?;
    match atom.objects {
        Objects::OfTerms(terms, binding) => push_objects(&mut row, terms, binding)?,
        Objects::Given(numbers) => push_numbers(&mut row, numbers)?,
        Objects::OfRow(numbers) => row.extend_from_slice(numbers)?,
    }
    Ok(row)
}

/// The row of an atom.
pub(crate) fn row_of(alloc: Global, atom: &AtomView<'_>) -> Result<Row, Memory>
    ensures { IfOk result (λ row. row.numbers.items ≡ row_of (atom_read atom.now)) }
{
    let numbers = numbers_of(alloc, atom)?;
    Ok(Row { numbers })
}

// Puts the rows of facts behind others.
fn push_rows(alloc: Global, rows: &mut Vec<Row>, facts: &Facts) -> Result<(), Memory>
    ensures { IfOk result
        (λ _. HaveCome rows.old.items (rows_under [] (facts_view facts.now)) rows.new.items) }
{
    for fact in facts.iter() {
        rows.push(row_of(alloc, &AtomView::of_fact(fact))?)?;
    }
    Ok(())
}

/// The rows of facts.
pub(crate) fn rows_of(alloc: Global, facts: &Facts) -> Result<Vec<Row>, Memory>
    ensures { IfOk result (λ rows. rows_in rows.items ≡ rows_under [] (facts_view facts.now)) }
{
    let mut rows = Vec::with_capacity(alloc, facts.len())?;
    push_rows(alloc, &mut rows, facts)?;
    Ok(rows)
}

/// Puts rows in order, and keeps each once.
pub(crate) fn sort_distinct(rows: &mut Vec<Row>)
    ensures ascend { Ascend (rows_in rows.new.items) }
    ensures exact { HasSameRows (rows_in rows.old.items) (rows_in rows.new.items) }
{
    rows.sort_unstable();
    rows.dedup();
}

/// The same. Where parts of them are in order already, the others are sorted and merged with them,
/// which takes room for all of them once more.
///
/// # Errors
///
/// `Memory` where that room was refused.
pub(crate) fn merge_distinct(rows: &mut Vec<Row>) -> Result<(), Memory>
    ensures ascend { IfOk result (λ _. Ascend (rows_in rows.new.items)) }
    ensures exact { IfOk result (λ _. HasSameRows (rows_in rows.old.items)
        (rows_in rows.new.items)) }
{
    rows.sort()?;
    rows.dedup();
    Ok(())
}

/// Puts copies of rows behind others. They get room for these and no more.
pub(crate) fn push_copies(rows: &mut Vec<Row>, more: &[Row]) -> Result<(), Memory>
    ensures { IfOk result (λ _. HaveCome rows.old.items (rows_in more.now) rows.new.items) }
{
    rows.reserve_exact(more.len())?;
    for row in more {
        rows.push(row.copy()?)?;
    }
    Ok(())
}

/// The same rows once more.
pub(crate) fn copy_of(alloc: Global, rows: &[Row]) -> Result<Vec<Row>, Memory>
    ensures { IfOk result (λ copy. rows_in copy.items ≡ rows_in rows.now) }
{
    let mut copy = Vec::new(alloc);
    push_copies(&mut copy, rows)?;
    Ok(copy)
}
