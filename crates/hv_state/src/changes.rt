//! When the truth of atoms changes on the way of a plan.

ghost use Rattle.std.specs.Prelude.{◌≡◌, ◌<◌, ℕ, Bool, List, [], Ok, length, map, false};
ghost use Rattle.std.specs.Prelude.{◌↔◌, IsTrue, IfOk, OnOk, OnErr, MatchOption, All};
ghost use Rattle.std.specs.List.{Contains};
ghost use Rattle.hv_world.specs.Bindings.{GroundAtom};
ghost use Rattle.hv_state.specs.Atoms.{atom_read, IsPassedOver};
ghost use Rattle.hv_state.specs.Atoms.{row_of};
ghost use Rattle.hv_state.specs.inside.Rows.{rows_in, Ascend, IsPlace, Listed};
ghost use Rattle.hv_state.specs.inside.Histories.{Rise, kept, rows_of, IsNext, AreFlagged};
ghost use Rattle.hv_state.specs.inside.Histories.{index_of, truth_of, change_view};
ghost use Rattle.hv_state.specs.inside.Histories.{changes_of, history_view};
ghost use Rattle.hv_state.specs.inside.Notes.{IsTurnedAt, IsSet};
ghost use Rattle.hv_state.specs.Changes.{told, TrueAfter};
ghost use Rattle.hv_state.specs.inside.Stretches.{is_true_in};

use crate::atom::AtomView;
use crate::bits::{has_bit, raise};
use crate::facts::Facts;
use crate::find::{guesses_of, look_up_at, next_guessed};
use crate::guesses::{Guesses, Stride};
use crate::history::{Change, History, least};
use crate::rows::Row;
use crate::state::State;
use hv_text::Memory;
use hv_world::PredicateId;
use std::alloc::Global;
use std::cell::Cell;
use std::marker::Model;

/// The atoms that a plan's actions touch, in order, each with its changes; guesses of where an atom
/// stands, and where those stood that were found last; and for each predicate a bit, which is set
/// where an atom of it stands there.
#[derive(Drop)]
pub(crate) struct Changes {
    list: Vec<History>,
    guesses: Guesses,
    stride: Cell<Stride>,
    flags: Vec<u64>,
}

impl Model for Changes {
    ghost use Rattle.std.specs.Prelude.{ℕ, Bool, List, map};
    ghost use Rattle.hv_state.specs.inside.Hashes.{TellRows};
    ghost use Rattle.hv_state.specs.inside.Histories.{history_view, rows_of, IsTable, AreFlagged};

    ghost Value = { List (List ℕ × List (ℕ × Bool)) };

    ghost view = { λ c. map history_view c.list.items };

    ghost invariant = { λ c. IsTable (map history_view c.list.items)
        × AreFlagged c.flags.items (rows_of (map history_view c.list.items))
        × TellRows c.guesses.buckets.items (rows_of (map history_view c.list.items)) };
}

// For each predicate a bit, which is set where a row is of it.
fn flags_of(alloc: Global, rows: &[Row]) -> Result<Vec<u64>, Memory>
    ensures { IfOk result (λ flags. AreFlagged flags.items (rows_in rows.now)) }
{
    let mut flags = Vec::new(alloc);
    for row in rows {
        raise(&mut flags, row.atom().predicate.0)?;
    }
    Ok(flags)
}

// Has the changes of the history at a place turn.
#[inline(always)]
fn turn_at(list: &mut Vec<History>, place: usize, change: Change) -> Result<(), Memory>
    requires place { place < length list.old.items }
    requires rise { All (λ e. Rise e.1) (map history_view list.old.items) }
    ensures ok { OnOk result (IsTurnedAt (map history_view list.old.items) place
        (change_view change) (map history_view list.new.items)) }
    ensures err { OnErr result (map history_view list.new.items ≡ map history_view list.old.items) }
{
    list[place].turn(change)
}

impl Changes {
    /// Whether an action touches an atom of a predicate.
    #[inline(always)]
    pub(crate) fn has_some_of(&self, predicate: PredicateId) -> bool
        ensures none { result ≡ false →
            (g : GroundAtom) → g.predicate ≡ predicate.0 → kept self.now g ≡ [] }
        ensures unlisted { result ≡ false →
            (g : GroundAtom) → g.predicate ≡ predicate.0 → Listed (rows_of self.now) g → ⊥ }
    {
        has_bit(&self.flags, predicate.0)
    }

    // Where the history of an atom stands, if an action touches it.
    #[inline(always)]
    fn place_of(&self, atom: &AtomView<'_>) -> Option<usize>
        ensures { MatchOption result
            (Contains (rows_of self.now) (row_of (atom_read atom.now)) → ⊥)
            (λ place. IsPlace (rows_of self.now) (row_of (atom_read atom.now)) (Ok place)) }
    {
        let stride = self.stride.get();
        let found = look_up_at(&self.list, &self.guesses, stride.next(), atom);
        if let Some(place) = found {
            self.stride.set(stride.found(place));
        }
        found
    }

    /// The first number, from that of an atom's last object on, with which in its place an action
    /// may touch the atom; the greatest of all where none touches an atom of its predicate.
    pub(crate) fn next_touched(&self, atom: &AtomView<'_>) -> usize
        ensures { IsPassedOver (Listed (rows_of self.now)) (atom_read atom.now) result }
    {
        if self.has_some_of(atom.predicate) {
            next_guessed(&self.list, &self.guesses, atom)
        } else {
            usize::MAX
        }
    }

    // The history of an atom; none where no action touches it.
    #[inline(always)]
    fn of(&self, atom: &AtomView<'_>) -> Option<&History>
        ensures { MatchOption result (kept self.now (atom_read atom.now) ≡ []) (λ h.
            Rise (changes_of h.now) × (changes_of h.now ≡ kept self.now (atom_read atom.now))) }
    {
        if !self.has_some_of(atom.predicate) {
            return None;
        }
        match self.place_of(atom) {
            Some(place) => Some(&self.list[place]),
            None => None,
        }
    }

    /// The first index after `k` at which an atom changes, or else the end.
    pub(crate) fn next(&self, atom: &AtomView<'_>, k: usize, end: usize) -> usize
        requires { k < end }
        ensures { IsNext self.now k end (λ g. atom_read atom.now ≡ g) result }
    {
        match self.of(atom) {
            Some(history) => history.next(k, end),
            None => end,
        }
    }

    /// Whether an atom is true at an index, as its changes say or else the first state, or turns
    /// behind it, before an end.
    pub(crate) fn is_true_in<S: State>(
        &self,
        first: &S,
        atom: &AtomView<'_>,
        from: usize,
        end: usize,
    ) -> bool
        requires { from < end }
        ensures { (b : Bool) → (IsTrue b ↔ S.atoms first.now (atom_read atom.now))
            → result ≡ is_true_in b from end (kept self.now (atom_read atom.now)) }
    {
        match self.of(atom) {
            Some(history) => history.is_true_in(first, atom, from, end),
            None => first.holds(atom),
        }
    }

    /// No changes yet of atoms by their rows.
    pub(crate) fn none(alloc: Global, rows: Vec<Row>) -> Result<Changes, Memory>
        requires { Ascend (rows_in rows.items) }
        ensures { IfOk result (λ c. c ≡ map (λ row. (row, [])) (rows_in rows.items)) }
    {
        let flags = flags_of(alloc, &rows)?;
        let guesses = guesses_of(alloc, &rows)?;
        let mut list = Vec::with_capacity(alloc, rows.len())?;
        for row in rows {
            list.push(History {
                row,
                earlier: Vec::new(alloc),
                last: None,
                recent: Cell::new(0),
            })?;
        }
        Ok(Changes {
            list,
            guesses,
            stride: Cell::new(Stride::start()),
            flags,
        })
    }

    /// From an index on an atom is true, or false. It is noted where its changes, or else the first
    /// state, say otherwise; a change at the same index is undone then.
    #[inline(always)]
    pub(crate) fn set<S: State>(
        &mut self,
        first: &S,
        change: Change,
        atom: &AtomView<'_>,
    ) -> Result<(), Memory>
        ensures { IfOk result (λ _. IsSet (S.atoms first.now) (λ g. atom_read atom.now ≡ g)
            (index_of change) (truth_of change) self.old self.new) }
    {
        if let Some(place) = self.place_of(atom) {
            if self.list[place].says(first, atom) != change.is_true() {
                turn_at(&mut self.list, place, change)?;
            }
        }
        Ok(())
    }

    /// What the last change of an atom up to an index says.
    #[inline(always)]
    pub(crate) fn told(&self, atom: &AtomView<'_>, k: usize) -> Option<bool>
        ensures { result ≡ told k (kept self.now (atom_read atom.now)) }
    {
        match self.of(atom) {
            Some(history) => history.told(k),
            None => None,
        }
    }
}

/// What is true after some of a plan's actions.
#[derive(Clone, Copy)]
pub(crate) struct Moment<'a, S: State> {
    pub(crate) first: &'a S,
    pub(crate) changes: &'a Changes,
    pub(crate) index: usize,
}

impl<S: State> Facts for Moment<'_, S> {
    ghost facts = { λ m. TrueAfter (S.atoms m.first.now) (kept m.changes.now) m.index };

    fn is_true(&self, atom: &AtomView<'_>) -> bool {
        match self.changes.told(atom, self.index) {
            Some(is_true) => is_true,
            None => self.first.holds(atom),
        }
    }

    fn next_possible(&self, atom: &AtomView<'_>) -> usize {
        let known = self.first.next_possible(atom);
        if known == 0 {
            return 0;
        }
        least(known, self.changes.next_touched(atom))
    }
}
