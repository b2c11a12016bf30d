//! Atoms over objects.

ghost use Rattle.std.specs.Prelude.{◌≡◌, ◌<◌, ◌++◌, ◌∷◌, [], Some, length, map, slice_get, IfOk, OnOk};
ghost use Rattle.hv_world.specs.Values.{object};
ghost use Rattle.hv_world.specs.FactViews.{fact_view, facts_view, facts_left};

use crate::id::PredicateId;
use hv_text::{Headed, Memory};
use std::alloc::Global;

/// An atom over objects, lent: the numbers of its predicate and of its objects.
#[derive(Clone, Copy)]
pub struct Fact<'a> {
    pub(crate) predicate: u32,
    pub(crate) objects: &'a [u32],
}

impl<'a> Fact<'a> {
    /// Its predicate.
    pub fn predicate(self) -> PredicateId
        ensures { result.0 ≡ (fact_view self.entry).predicate }
    {
        PredicateId(self.predicate as usize)
    }

    /// The numbers of its objects.
    pub fn objects(self) -> &'a [u32]
        ensures { map object result.now ≡ (fact_view self.entry).terms }
    {
        self.objects
    }
}

/// Atoms over objects, one after another. A number has four bytes, since a problem with a large
/// initial state waits for memory more than for anything else.
#[derive(Drop)]
pub struct Facts {
    pub(crate) facts: Headed<u32, u32>,
}

/// The atoms that are left, in their order.
#[derive(Clone, Copy)]
pub struct FactsLeft<'a> {
    pub(crate) facts: &'a Facts,
    pub(crate) next: usize,
}

impl<'a> Iterator for FactsLeft<'a> {
    ghost use Rattle.std.specs.Iterator.{YieldsFirstBy, item_count};

    type Item = Fact<'a>;

    ghost next_gives = { YieldsFirstBy fact_view facts_left };

    ghost remaining = { item_count facts_left };

    fn next(&mut self) -> Option<Fact<'a>> {
        if self.next >= self.facts.len() {
            return None;
        }
        let fact = self.facts.at(self.next);
        self.next += 1;
        Some(fact)
    }
}

impl Facts {
    /// No atoms.
    ///
    /// # Errors
    ///
    /// `Memory` where a growth was refused.
    pub(crate) fn new(alloc: Global) -> Result<Facts, Memory>
        ensures { IfOk result (λ f. f.facts ≡ []) }
    {
        Ok(Facts {
            facts: Headed::new(alloc)?,
        })
    }

    /// How many atoms there are.
    pub fn len(&self) -> usize
        ensures { result ≡ length (facts_view self.now) }
    {
        self.facts.len()
    }

    /// The atoms, one after another.
    pub fn iter(&self) -> FactsLeft<'_>
        ensures { facts_left result ≡ facts_view self.now }
    {
        FactsLeft {
            facts: self,
            next: 0,
        }
    }

    // The atom of a place.
    fn at(&self, place: usize) -> Fact<'_>
        requires { place < length (facts_view self.now) }
        ensures { slice_get (facts_view self.now) place ≡ Some (fact_view result) }
    {
        let (predicate, objects) = self.facts.at(place);
        Fact { predicate, objects }
    }

    /// The last atom, if there is one.
    pub(crate) fn last(&self) -> Option<Fact<'_>> {
        let place = self.facts.len().checked_sub(1)?;
        Some(self.at(place))
    }

    /// Puts an atom behind the others.
    ///
    /// # Errors
    ///
    /// `Memory` where a growth was refused, or where all atoms together would have 2^32 objects.
    pub(crate) fn push(&mut self, predicate: u32, objects: &[u32]) -> Result<(), Memory>
        ensures { OnOk result
            (self.new.facts ≡ self.old.facts ++ (predicate, objects.now) ∷ []) }
    {
        self.facts.push(predicate, objects)
    }
}

/// A number in four bytes.
///
/// # Errors
///
/// `Memory` where it needs more.
pub(crate) fn short(number: usize) -> Result<u32, Memory>
    ensures { IfOk result (λ n. n ≡ number) }
{
    u32::try_from(number).map_err(|_| Memory)
}
