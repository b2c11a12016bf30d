//! The changes of one atom's truth, in order.

ghost use Rattle.std.specs.Prelude.{◌≡◌, ◌↔◌, ◌<◌, ◌+◌, ◌-◌, ℕ, Bool, ◌∷◌, [], ◌++◌, length, map};
ghost use Rattle.std.specs.Prelude.{slice_get, option_to_list, IsSome, IsTrue, IfOk, IfSome, OnOk, OnErr};
ghost use Rattle.hv_state.specs.Atoms.{atom_read};
ghost use Rattle.hv_state.specs.Changes.{told, Tells};
ghost use Rattle.hv_state.specs.inside.Stretches.{is_true_in};
ghost use Rattle.hv_state.specs.inside.Histories.{Rise, IsNextIn, IsLeast, ArePast};
ghost use Rattle.hv_state.specs.inside.Histories.{index_of, truth_of, change_view};
ghost use Rattle.hv_state.specs.inside.Histories.{in_order, changes_of};
ghost use Rattle.hv_state.specs.inside.Notes.{Before, EndsAt, IsTurned};

use crate::atom::AtomView;
use crate::find::HasRow;
use crate::rows::Row;
use crate::state::State;
use hv_text::Memory;
use std::cell::Cell;

/// From an index on an atom is true, or false. The number is twice the index, and one more where
/// the atom is true: the changes of a long plan are many, and wait for memory the less the shorter
/// they are.
#[derive(Clone, Copy)]
pub(crate) struct Change {
    number: u32,
}

impl Change {
    /// The change at an index.
    ///
    /// # Errors
    ///
    /// `Memory` where the index does not fit into 31 bits: changes at so many indices are not kept.
    pub(crate) fn new(index: usize, is_true: bool) -> Result<Change, Memory>
        ensures index { IfOk result (λ change. index_of change ≡ index) }
        ensures truth { IfOk result (λ change. truth_of change ≡ is_true) }
    {
        let Ok(index) = u32::try_from(index) else {
            return Err(Memory);
        };
        match index.checked_mul(2) {
            Some(even) => Ok(Change {
                number: if is_true { even + 1 } else { even },
            }),
            None => Err(Memory),
        }
    }

    /// The index from which on.
    #[inline(always)]
    pub(crate) fn index(self) -> usize
        ensures { result ≡ index_of self }
    {
        (self.number / 2) as usize
    }

    /// Whether the atom is true then.
    #[inline(always)]
    pub(crate) fn is_true(self) -> bool
        ensures { result ≡ truth_of self }
    {
        self.number % 2 == 1
    }
}

/// An atom, and the changes of its truth in order. The last of them stands beside the list of those
/// before it, so that to note one more reads nothing of that list, which is far away. How many of
/// the earlier ones were up to the index that was asked for last is kept, and looked at first: a
/// plan is mostly gone through from one index to the next.
#[derive(Drop)]
pub(crate) struct History {
    pub(crate) row: Row,
    pub(crate) earlier: Vec<Change>,
    pub(crate) last: Option<Change>,
    pub(crate) recent: Cell<usize>,
}

impl HasRow for History {
    ghost numbers = { λ h. h.row.numbers.items };

    fn row(&self) -> &[u32] {
        self.row.numbers.as_slice()
    }
}

// Whether so many changes are up to an index, and there are more.
#[inline(always)]
fn are_past(list: &[Change], count: usize, k: usize) -> bool
    requires { Rise (map change_view list.now) }
    ensures { IsTrue result → ArePast list.now k count }
{
    if count == 0 || list.len() <= count {
        return false;
    }
    list[count - 1].index() <= k && k < list[count].index()
}

// How many changes are up to an index, where they are as many as is likely, or one more or fewer.
#[inline(always)]
fn near(list: &[Change], likely: usize, k: usize) -> Option<usize>
    requires { Rise (map change_view list.now) }
    ensures { IfSome result (ArePast list.now k) }
{
    for count in [likely, likely.saturating_add(1), likely.saturating_sub(1)] {
        if are_past(list, count, k) {
            return Some(count);
        }
    }
    None
}

// How many changes are up to an index: about as many as before, where that is so; else by halving.
fn past(list: &[Change], k: usize, recent: &Cell<usize>) -> usize
    requires { Rise (map change_view list.now) }
    ensures { ArePast list.now k result }
{
    if let Some(count) = near(list, recent.get(), k) {
        recent.set(count);
        return count;
    }
    let found = list.partition_point(|change| change.index() <= k);
    recent.set(found);
    found
}

// What the last change up to an index says.
fn last_up_to(list: &[Change], k: usize, recent: &Cell<usize>) -> Option<bool>
    requires { Rise (map change_view list.now) }
    ensures { result ≡ told k (map change_view list.now) }
{
    let past = past(list, k, recent);
    if past == 0 {
        None
    } else {
        Some(list[past - 1].is_true())
    }
}

/// The one of two numbers that is not above the other.
pub(crate) fn least(a: usize, b: usize) -> usize
    ensures { IsLeast a b result }
{
    if a < b { a } else { b }
}

// The index of the first change after another index, or else the end.
fn next_in(list: &[Change], k: usize, end: usize, recent: &Cell<usize>) -> usize
    requires rise { Rise (map change_view list.now) }
    requires before { k < end }
    ensures { IsNextIn (map change_view list.now) k end result }
{
    match list.get(past(list, k, recent)) {
        Some(next) => least(next.index(), end),
        None => end,
    }
}

impl History {
    // The last change.
    #[inline(always)]
    fn last(&self) -> Option<Change>
        ensures { result ≡ slice_get (in_order self.now) (length (in_order self.now) - 1) }
    {
        match self.last {
            Some(last) => Some(last),
            None => self.earlier.last().copied(),
        }
    }

    // Whether all changes are before an index: the last one is.
    #[inline(always)]
    fn is_before(&self, index: usize) -> bool
        requires { Rise (changes_of self.now) }
        ensures { IsTrue result ↔ Before index (changes_of self.now) }
    {
        match self.last() {
            Some(last) => last.index() < index,
            None => true,
        }
    }

    // Whether the last change is at an index.
    #[inline(always)]
    fn ends_at(&self, index: usize) -> bool
        ensures { IsTrue result ↔ EndsAt index (changes_of self.now) }
    {
        match self.last() {
            Some(last) => last.index() == index,
            None => false,
        }
    }

    // Puts a change behind the others.
    #[inline(always)]
    fn push(&mut self, change: Change) -> Result<(), Memory>
        ensures ok { OnOk result (in_order self.new ≡ in_order self.old ++ change ∷ []) }
        ensures err { OnErr result (in_order self.new ≡ in_order self.old) }
        ensures row { self.new.row ≡ self.old.row }
    {
        if let Some(last) = self.last {
            self.earlier.push(last)?;
        }
        self.last = Some(change);
        Ok(())
    }

    // Takes the last change off.
    fn pop(&mut self) -> Option<Change>
        ensures items { in_order self.old ≡ in_order self.new ++ option_to_list result }
        ensures some { IsSome result ↔ (0 < length (in_order self.old)) }
        ensures row { self.new.row ≡ self.old.row }
    {
        match self.last {
            Some(last) => {
                self.last = None;
                Some(last)
            }
            None => self.earlier.pop(),
        }
    }

    /// What the changes say at last, or else the first state.
    #[inline(always)]
    pub(crate) fn says<S: State>(&self, first: &S, atom: &AtomView<'_>) -> bool
        ensures { (k : ℕ) → Before (k + 1) (changes_of self.now) → IsTrue result
            ↔ Tells (S.atoms first.now (atom_read atom.now)) k (changes_of self.now) }
    {
        match self.last() {
            Some(last) => last.is_true(),
            None => first.holds(atom),
        }
    }

    /// Puts a change behind the others. Where the last of them is at the same index, that
    /// one is undone.
    ///
    /// # Errors
    ///
    /// `Memory` where a growth was refused.
    #[inline(always)]
    pub(crate) fn turn(&mut self, change: Change) -> Result<(), Memory>
        requires { Rise (changes_of self.old) }
        ensures ok { OnOk result
            (IsTurned (change_view change) (changes_of self.old) (changes_of self.new)) }
        ensures err { OnErr result (changes_of self.new ≡ changes_of self.old) }
        ensures row { self.new.row ≡ self.old.row }
    {
        if self.is_before(change.index()) {
            self.push(change)?;
        } else if self.ends_at(change.index()) {
            let _undone = self.pop();
        }
        Ok(())
    }

    /// What the last change up to an index says.
    #[inline(always)]
    pub(crate) fn told(&self, k: usize) -> Option<bool>
        requires { Rise (changes_of self.now) }
        ensures { result ≡ told k (changes_of self.now) }
    {
        match self.last {
            None => last_up_to(&self.earlier, k, &self.recent),
            Some(last) => {
                if last.index() <= k {
                    Some(last.is_true())
                } else {
                    last_up_to(&self.earlier, k, &self.recent)
                }
            }
        }
    }

    /// Whether the atom is true at an index, as the changes say or else the first state, or turns
    /// behind it, before an end.
    pub(crate) fn is_true_in<S: State>(
        &self,
        first: &S,
        atom: &AtomView<'_>,
        from: usize,
        end: usize,
    ) -> bool
        requires rise { Rise (changes_of self.now) }
        requires some { from < end }
        ensures { (b : Bool) → (IsTrue b ↔ S.atoms first.now (atom_read atom.now))
            → result ≡ is_true_in b from end (changes_of self.now) }
    {
        let is_true = match self.told(from) {
            Some(is_true) => is_true,
            None => first.holds(atom),
        };
        is_true || self.next(from, end) < end
    }

    /// The index of the first change after another index, or else the end.
    pub(crate) fn next(&self, k: usize, end: usize) -> usize
        requires rise { Rise (changes_of self.now) }
        requires before { k < end }
        ensures { IsNextIn (changes_of self.now) k end result }
    {
        match self.last {
            None => next_in(&self.earlier, k, end, &self.recent),
            Some(last) => {
                if last.index() <= k {
                    next_in(&self.earlier, k, end, &self.recent)
                } else {
                    next_in(&self.earlier, k, least(last.index(), end), &self.recent)
                }
            }
        }
    }
}
