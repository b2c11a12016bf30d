//! Atoms as they are read, with the objects of their variables.

ghost use Rattle.std.specs.Prelude.{◌≡◌, ◌++◌, ◌∷◌, [], ℕ, List, map, IfSome};
ghost use Rattle.hv_world.specs.Views.{term_view, atom_view};
ghost use Rattle.hv_world.specs.FactViews.{fact_view};
ghost use Rattle.hv_world.specs.Bindings.{atom_under, ground_atom, objects_in, object_of};
ghost use Rattle.hv_state.specs.Atoms.{atom_read, objects_read};

use hv_world::{Atom, Binding, Fact, ObjectId, PredicateId, Term};

/// An atom as it is read: a predicate and its objects. Making one takes no memory.
#[derive(Clone, Copy)]
pub struct AtomView<'a> {
    pub(crate) predicate: PredicateId,
    pub(crate) objects: Objects<'a>,
}

/// The objects of an atom.
#[derive(Clone, Copy)]
pub(crate) enum Objects<'a> {
    /// Those of terms, with the objects of a binding.
    OfTerms(&'a [Term], &'a Binding<'a>),
    /// These, by their numbers.
    Given(&'a [usize]),
    /// Those of a row.
    OfRow(&'a [u32]),
}

impl<'a> Objects<'a> {
    /// All but the last of them, where they are put down.
    pub(crate) fn before_last(self) -> Option<&'a [usize]>
        ensures { IfSome result (λ before. (os : List ℕ) (o : ℕ)
            → objects_read self.entry ≡ os ++ o ∷ [] → before.now ≡ os) }
    {
        let Objects::Given(numbers) = self else {
            return None;
        };
        match numbers.split_last() {
            Some((_, before)) => Some(before),
            None => None,
        }
    }
}

impl<'a> AtomView<'a> {
    /// An atom with the objects of a binding.
    pub fn new(atom: &'a Atom, binding: &'a Binding<'a>) -> AtomView<'a>
        ensures { atom_read result ≡ atom_under (objects_in binding.now) (atom_view atom.now) }
    {
        AtomView {
            predicate: atom.predicate,
            objects: Objects::OfTerms(&atom.terms, binding),
        }
    }

    /// An atom of a predicate whose objects have these numbers.
    pub fn of_numbers(predicate: PredicateId, numbers: &'a [usize]) -> AtomView<'a>
        ensures { atom_read result ≡ ground_atom predicate.0 numbers.now }
    {
        AtomView {
            predicate,
            objects: Objects::Given(numbers),
        }
    }

    /// An atom over objects.
    pub fn of_fact(fact: Fact<'a>) -> AtomView<'a>
        ensures { atom_read result ≡ atom_under [] (fact_view fact.entry) }
    {
        AtomView {
            predicate: fact.predicate(),
            objects: Objects::OfRow(fact.objects()),
        }
    }

    /// The same as `new`, with the objects of up to three terms looked up once and put down in
    /// `numbers`. It is written out where it is called, since what it answers is large, and a copy
    /// of it would wait for all that was written before.
    #[inline(always)]
    pub(crate) fn resolved(
        atom: &'a Atom,
        binding: &'a Binding<'a>,
        numbers: &'a mut [usize; 3],
    ) -> AtomView<'a>
        ensures { atom_read result ≡ atom_under (objects_in binding.now) (atom_view atom.now) }
    {
        AtomView {
            predicate: atom.predicate,
            objects: resolve(&atom.terms, binding, numbers),
        }
    }
}

// The objects of terms: those of up to three in `numbers`.
#[inline(always)]
fn resolve<'a>(
    terms: &'a [Term],
    binding: &'a Binding<'a>,
    numbers: &'a mut [usize; 3],
) -> Objects<'a>
    ensures { objects_read result
        ≡ map (object_of (objects_in binding.now)) (map term_view terms.now) }
{
    match terms {
        [] => Objects::Given(&[]),
        [first] => {
            numbers[0] = object_of(binding, *first).0;
            Objects::Given(&numbers[..1])
        }
        [first, second] => {
            numbers[0] = object_of(binding, *first).0;
            numbers[1] = object_of(binding, *second).0;
            Objects::Given(&numbers[..2])
        }
        [first, second, third] => {
            numbers[0] = object_of(binding, *first).0;
            numbers[1] = object_of(binding, *second).0;
            numbers[2] = object_of(binding, *third).0;
            Objects::Given(&*numbers)
        }
        _ => Objects::OfTerms(terms, binding),
    }
}

/// The object of a term; a variable that the binding does not have reads as object 0.
pub(crate) fn object_of(binding: &Binding<'_>, term: Term) -> ObjectId
    ensures { result.0 ≡ object_of (objects_in binding.now) (term_view term) }
{
    match term {
        Term::Object(object) => object,
        Term::Variable(number) => match binding.object(number) {
            Some(object) => object,
            None => ObjectId(0),
        },
    }
}
