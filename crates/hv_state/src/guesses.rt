//! Where an atom, or an action, stands in a list, by a hash of its numbers.

ghost use Rattle.std.specs.Prelude.{◌≡◌, ◌<◌, fold, [], length, slice_get, Some, MatchOption};
ghost use Rattle.hv_world.specs.Bindings.{objects_in};
ghost use Rattle.hv_state.specs.Atoms.{atom_read};
ghost use Rattle.hv_state.specs.inside.Hashes.{mix, hash, bucket, HasRoom, IsPut, IsNoted};
ghost use Rattle.hv_state.specs.Atoms.{row_of};
ghost use Rattle.hv_state.specs.inside.Rows.{objects_with};

use crate::atom::{AtomView, Objects, object_of};
use hv_text::Memory;
use hv_world::{Binding, GroundAction, Term};
use std::alloc::Global;

/// Numbers of places in a list, counted from 1, four at most for each hash; 0 stands where there is
/// room for one more. A number is looked at before it is taken. What has none is not in the list
/// where there is room, and else is looked for in another way: so nothing hangs on the hash, and
/// where a text makes hashes collide, no more than four places are looked at for one.
#[derive(Drop)]
pub(crate) struct Guesses {
    pub(crate) buckets: Vec<[u32; 4]>,
}

impl Guesses {
    /// No numbers, and no room for any.
    pub(crate) fn none(alloc: Global) -> Guesses
        ensures { result.buckets.items ≡ [] }
    {
        Guesses {
            buckets: Vec::new(alloc),
        }
    }

    /// No numbers yet, and room for those of so many places: on the average twice as much. What has
    /// every second hash, or every third, fifth or seventh, spreads as well as what has each.
    pub(crate) fn with_room(alloc: Global, count: usize) -> Result<Guesses, Memory> {
        let mut buckets = Vec::new(alloc);
        buckets.resize(count / 420 * 210 + 211, [0; 4])?;
        Ok(Guesses { buckets })
    }

    /// The numbers of the places where what has this hash may stand.
    pub(crate) fn of(&self, hash: usize) -> &[u32]
        ensures { result.now ≡ bucket self.now.buckets.items hash }
    {
        match self.buckets.get(hash % self.buckets.len().max(1)) {
            Some(numbers) => numbers,
            None => &[],
        }
    }

    /// Notes the number of the place where something of this hash stands, if there is room for it.
    pub(crate) fn note(&mut self, hash: usize, number: u32)
        ensures { IsNoted self.old.buckets.items hash number self.new.buckets.items }
    {
        let turn = hash % self.buckets.len().max(1);
        if let Some(numbers) = self.buckets.get_mut(turn) {
            put(numbers, number);
        }
    }
}

// What stands so many places further is mostly at hand, and costs little where it is not wanted.
const NEAR: usize = 4;

/// Where atoms were found one after another. Those that an effect changes for all objects,
/// or a quantifier asks for, stand at equal distances, mostly, and so the next is looked
/// for there first.
#[derive(Clone, Copy)]
pub(crate) struct Stride {
    last: usize,
    step: usize,
}

impl Stride {
    /// Before any atom was found.
    pub(crate) fn start() -> Stride {
        Stride { last: 0, step: 1 }
    }

    /// As far behind the last place as that was behind the one before it.
    pub(crate) fn next(self) -> usize {
        self.last.wrapping_add(self.step)
    }

    /// The next atom was found at this place.
    pub(crate) fn found(self, place: usize) -> Stride {
        let step = place.wrapping_sub(self.last);
        Stride {
            last: place,
            step: if step <= NEAR { step } else { 1 },
        }
    }
}

// Where there is room for one more number.
fn room_in(numbers: &[u32; 4]) -> Option<usize>
    ensures { MatchOption result (HasRoom numbers.now → ⊥)
        (λ i. (i < length numbers.now) × (slice_get numbers.now i ≡ Some 0)) }
{
    for (place, number) in numbers.iter().enumerate() {
        if *number == 0 {
            return Some(place);
        }
    }
    None
}

// Puts a number where there is room.
fn put(numbers: &mut [u32; 4], number: u32)
    ensures { IsPut numbers.old number numbers.new }
{
    if let Some(room) = room_in(numbers) {
        numbers[room] = number;
    }
}

// Takes one more number into a hash. It is added to what the numbers before it are scattered to, so
// that atoms which differ in their last object alone, and are asked for one after another in the
// order of these objects, have their guesses side by side.
fn mixed(hash: u64, number: usize) -> u64
    ensures { result ≡ mix hash number }
{
    (hash.wrapping_mul(0x9e37_79b9_7f4a_7c15) >> 32).wrapping_add(number as u64)
}

// Takes numbers into a hash.
fn mixed_all(hash: u64, numbers: &[usize]) -> u64
    ensures { result ≡ fold mix hash numbers.now }
{
    let mut mixed_so_far = hash;
    for number in numbers {
        mixed_so_far = mixed(mixed_so_far, *number);
    }
    mixed_so_far
}

// The same of numbers of a row.
fn mixed_row(hash: u64, numbers: &[u32]) -> u64
    ensures { result ≡ fold mix hash numbers.now }
{
    let mut mixed_so_far = hash;
    for number in numbers {
        mixed_so_far = mixed(mixed_so_far, *number as usize);
    }
    mixed_so_far
}

// Takes the objects of terms into a hash.
fn mixed_terms(hash: u64, terms: &[Term], binding: &Binding<'_>) -> u64
    ensures { result ≡ fold mix hash (objects_with binding.now terms.now) }
{
    let mut mixed_so_far = hash;
    for term in terms {
        mixed_so_far = mixed(mixed_so_far, object_of(binding, *term).0);
    }
    mixed_so_far
}

/// A hash of the numbers of an atom.
pub(crate) fn hash_of(atom: &AtomView<'_>) -> usize
    ensures { result ≡ hash (row_of (atom_read atom.now)) }
{
    let begun = mixed(0, atom.predicate.0);
    let hash = match atom.objects {
        Objects::OfTerms(terms, binding) => mixed_terms(begun, terms, binding),
        Objects::Given(numbers) => mixed_all(begun, numbers),
        Objects::OfRow(numbers) => mixed_row(begun, numbers),
    };
    hash as usize
}

/// The same of a row.
pub(crate) fn hash_of_row(row: &[u32]) -> usize
    ensures { result ≡ hash row.now }
{
    mixed_row(0, row) as usize
}

/// A hash of the numbers of an action and its objects.
pub(crate) fn hash_of_action(step: &GroundAction<'_>) -> usize {
    let mut hash = mixed(0, step.action().0);
    for object in step.objects() {
        hash = mixed(hash, object.0);
    }
    hash as usize
}
