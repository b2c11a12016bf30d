//! Where the row of an atom stands in a list.

ghost use Rattle.std.specs.Prelude.{◌≡◌, ◌↔◌, ◌≤◌, ◌∷◌, ◌++◌, ℕ, List, Ok, IsTrue, map};
ghost use Rattle.std.specs.Prelude.{MatchOption, IfOk};
ghost use Rattle.std.specs.List.{Contains};
ghost use Rattle.hv_state.specs.Atoms.{atom_read, IsPassedOver};
ghost use Rattle.hv_state.specs.inside.Hashes.{TellRows};
ghost use Rattle.hv_state.specs.Atoms.{row_of};
ghost use Rattle.hv_state.specs.inside.Rows.{Ascend, IsPlace, Listed};

use crate::atom::AtomView;
use crate::guesses::{Guesses, hash_of, hash_of_row};
use crate::rows::{are_numbers, compare, is_row};
use hv_text::Memory;
use hv_world::PredicateId;
use std::alloc::Global;

/// What has a row, by which lists of it are in order.
pub(crate) trait HasRow {
    ghost numbers: { Self → List ℕ };

    /// The numbers of the row.
    fn row(&self) -> &[u32]
        ensures { result.now ≡ numbers self.now };
}

/// Where the row of an atom stands, or where it would: by halving.
pub(crate) fn find<T: HasRow>(list: &[T], atom: &AtomView<'_>) -> Result<usize, usize>
    requires { Ascend (map T.numbers list.now) }
    ensures { IsPlace (map T.numbers list.now) (row_of (atom_read atom.now)) result }
{
    list.binary_search_by(|it| compare(it.row(), atom))
}

/// Where a row stands, or where it would: by halving.
pub(crate) fn place<T: HasRow>(list: &[T], row: &[u32]) -> Result<usize, usize>
    requires { Ascend (map T.numbers list.now) }
    ensures { IsPlace (map T.numbers list.now) row.now result }
{
    list.binary_search_by(|it| it.row().cmp(&row))
}

// Whether the row of an atom stands at a place.
#[inline(always)]
fn stands_at<T: HasRow>(list: &[T], place: usize, atom: &AtomView<'_>) -> bool
    ensures { IsTrue result
        ↔ IsPlace (map T.numbers list.now) (row_of (atom_read atom.now)) (Ok place) }
{
    match list.get(place) {
        Some(it) => is_row(it.row(), atom),
        None => false,
    }
}

/// Where the row of an atom stands, if it does: at one of the guesses; else, where there was no
/// room for all of them, by halving.
pub(crate) fn look_up<T: HasRow>(
    list: &[T],
    guesses: &Guesses,
    atom: &AtomView<'_>,
) -> Option<usize>
    requires ascend { Ascend (map T.numbers list.now) }
    requires told { TellRows guesses.now.buckets.items (map T.numbers list.now) }
    ensures { MatchOption result
        (Contains (map T.numbers list.now) (row_of (atom_read atom.now)) → ⊥)
        (λ place. IsPlace (map T.numbers list.now) (row_of (atom_read atom.now)) (Ok place)) }
{
    let guessed = guesses.of(hash_of(atom));
    for number in guessed {
        let place = (*number as usize).wrapping_sub(1);
        if stands_at(list, place, atom) {
            return Some(place);
        }
    }
    match guessed.last() {
        Some(0) => None,
        _ => find(list, atom).ok(),
    }
}

/// The same, where the row may well stand at this place.
#[inline(always)]
pub(crate) fn look_up_at<T: HasRow>(
    list: &[T],
    guesses: &Guesses,
    likely: usize,
    atom: &AtomView<'_>,
) -> Option<usize>
    requires ascend { Ascend (map T.numbers list.now) }
    requires told { TellRows guesses.now.buckets.items (map T.numbers list.now) }
    ensures { MatchOption result
        (Contains (map T.numbers list.now) (row_of (atom_read atom.now)) → ⊥)
        (λ place. IsPlace (map T.numbers list.now) (row_of (atom_read atom.now)) (Ok place)) }
{
    if stands_at(list, likely, atom) {
        return Some(likely);
    }
    look_up(list, guesses, atom)
}

// The number that a row has behind a predicate and these objects; else the greatest of all.
fn number_behind(row: &[u32], predicate: PredicateId, before: &[usize]) -> usize
    ensures { (n : ℕ) (more : List ℕ)
        → row.now ≡ predicate.0 ∷ before.now ++ n ∷ more → result ≤ n }
{
    let [first, objects @ ..] = row else {
        return usize::MAX;
    };
    if *first as usize != predicate.0 || objects.len() <= before.len() {
        return usize::MAX;
    }
    if are_numbers(&objects[..before.len()], before) {
        objects[before.len()] as usize
    } else {
        usize::MAX
    }
}

/// The first number, from that of an atom's last object on, with which in its place the row of the
/// atom may be listed: by halving. It may be told too low: nothing is looked for where the row
/// itself is listed, or where the objects of the atom are not put down.
pub(crate) fn next_possible<T: HasRow>(list: &[T], atom: &AtomView<'_>) -> usize
    requires { Ascend (map T.numbers list.now) }
    ensures { IsPassedOver (Listed (map T.numbers list.now)) (atom_read atom.now) result }
{
    let Some(before) = atom.objects.before_last() else {
        return 0;
    };
    let Err(place) = find(list, atom) else {
        return 0;
    };
    match list.get(place) {
        Some(it) => number_behind(it.row(), atom.predicate, before),
        None => usize::MAX,
    }
}

/// The same, where guesses tell at once that the row itself is listed.
pub(crate) fn next_guessed<T: HasRow>(list: &[T], guesses: &Guesses, atom: &AtomView<'_>) -> usize
    requires ascend { Ascend (map T.numbers list.now) }
    requires told { TellRows guesses.now.buckets.items (map T.numbers list.now) }
    ensures { IsPassedOver (Listed (map T.numbers list.now)) (atom_read atom.now) result }
{
    match look_up(list, guesses, atom) {
        Some(_) => 0,
        None => next_possible(list, atom),
    }
}

/// Guesses of where the rows of a list stand.
///
/// # Errors
///
/// `Memory` where a growth was refused.
pub(crate) fn guesses_of<T: HasRow>(alloc: Global, list: &[T]) -> Result<Guesses, Memory>
    ensures { IfOk result (λ g. TellRows g.buckets.items (map T.numbers list.now)) }
{
    let mut guesses = Guesses::with_room(alloc, list.len())?;
    for (place, it) in list.iter().enumerate() {
        match u32::try_from(place + 1) {
            Ok(number) => guesses.note(hash_of_row(it.row()), number),
            Err(_) => return Ok(Guesses::none(alloc)),
        }
    }
    Ok(guesses)
}
