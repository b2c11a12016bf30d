//! A state as a row of bits.

ghost use Rattle.std.specs.Prelude.{ℕ, List, ◌++◌, ◌↔◌, IsTrue, IfOk};
ghost use Rattle.std.specs.List.{Contains};
ghost use Rattle.hv_state.specs.Atoms.{atom_read, row_of, IsPassedOver};
ghost use Rattle.hv_state.specs.inside.Rows.{rows_in, Listed, Ascend, HasSameRows};
ghost use Rattle.hv_state.specs.inside.Bits.{Lit, Shown, Knows, AreBits, IsChanged};

use crate::atom::AtomView;
use crate::bits::has_bit;
use crate::find::{guesses_of, look_up_at, next_guessed};
use crate::ground::GroundAtoms;
use crate::guesses::{Guesses, Stride};
use crate::lit::{bright, clear_all, knows_all, lacking, lit_rows, set_all};
use crate::rows::{Row, copy_of, merge_distinct, push_copies, rows_of, sort_distinct};
use crate::state::State;
use hv_text::Memory;
use hv_world::World;
use std::alloc::Global;
use std::cell::Cell;
use std::marker::Model;
use std::rc::Rc;

/// A state as a row of bits: one for each atom of a table, which copies share. An atom is found at
/// a guess, and one that the table lacks is false.
#[derive(Drop)]
pub struct BitState {
    table: Rc<Vec<Row>>,
    guesses: Rc<Guesses>,
    // Where atoms were found last.
    stride: Cell<Stride>,
    words: Vec<u64>,
}

impl Model for BitState {
    ghost use Rattle.std.specs.Prelude.{ℕ, List};
    ghost use Rattle.hv_state.specs.inside.Rows.{rows_in};
    ghost use Rattle.hv_state.specs.inside.Bits.{Bits, AreBits};
    ghost use Rattle.hv_state.specs.inside.Hashes.{TellRows};

    ghost Value = { Bits };

    ghost view = { λ s. (rows_in s.table.value.items, s.words.items) };

    ghost invariant = { λ s. AreBits (rows_in s.table.value.items) s.words.items
        × TellRows s.guesses.value.buckets.items (rows_in s.table.value.items) };
}

// Clears the bits of rows, and then sets those of others.
fn change(table: &[Row], words: &mut Vec<u64>, deletes: &[Row], adds: &[Row])
    requires bits { AreBits (rows_in table.now) words.old.items }
    requires known { Knows (rows_in table.now) (rows_in adds.now) }
    ensures bits { AreBits (rows_in table.now) words.new.items }
    ensures lit { IsChanged (rows_in table.now) words.old.items
        (rows_in deletes.now) (rows_in adds.now) words.new.items }
{
    clear_all(table, words, deletes);
    set_all(table, words, adds);
}

// Puts rows among others in order. Where there are none, as of a plan whose actions touch what is
// true at the start alone, nothing is gone through.
fn put_lacking(rows: &mut Vec<Row>, new: &[Row]) -> Result<(), Memory>
    requires { Ascend (rows_in rows.old.items) }
    ensures ascend { IfOk result (λ _. Ascend (rows_in rows.new.items)) }
    ensures exact { IfOk result (λ _. HasSameRows (rows_in rows.old.items ++ rows_in new.now)
        (rows_in rows.new.items)) }
{
    if new.is_empty() {
        return Ok(());
    }
    push_copies(rows, new)?;
    merge_distinct(rows)
}

impl BitState {
    // A state in which the atoms of rows are true, and whose table has more rows.
    fn over(alloc: Global, lit: Vec<Row>, more: &[Row]) -> Result<BitState, Memory>
        ensures known { IfOk result (λ s. Knows s.0 (rows_in more.now)) }
        ensures lit { IfOk result (λ s. (r : List ℕ) → Lit s r ↔ Contains (rows_in lit.items) r) }
    {
        let mut rows = lit;
        sort_distinct(&mut rows);
        let dark = lacking(alloc, &rows, more)?;
        put_lacking(&mut rows, &dark)?;
        let mut words = bright(alloc, rows.len())?;
        clear_all(&rows, &mut words, &dark);
        let guesses = Rc::new(alloc, guesses_of(alloc, &rows)?)?;
        let table = Rc::new(alloc, rows)?;
        Ok(BitState {
            table,
            guesses,
            stride: Cell::new(Stride::start()),
            words,
        })
    }

    // The same state once more, over a copy of the table that has these rows too.
    fn with_rows(&self, alloc: Global, more: &[Row]) -> Result<BitState, Memory>
        ensures known { IfOk result (λ s. Knows s.0 (rows_in more.now)) }
        ensures lit { IfOk result (λ s. (r : List ℕ) → Lit s r ↔ Lit self.now r) }
    {
        let lit = lit_rows(alloc, &self.table, &self.words)?;
        let mut rows = copy_of(alloc, &self.table)?;
        push_copies(&mut rows, more)?;
        BitState::over(alloc, lit, &rows)
    }

    /// The first number, from that of an atom's last object on, with which in its place the table
    /// may have the atom.
    pub(crate) fn next_known(&self, atom: &AtomView<'_>) -> usize
        ensures { IsPassedOver (Listed self.now.0) (atom_read atom.now) result }
    {
        next_guessed(&self.table, &self.guesses, atom)
    }

    // Sees to it that the table has these rows. The same atoms are true as before.
    fn know_all(&mut self, rows: &[Row]) -> Result<(), Memory>
        ensures known { IfOk result (λ _. Knows self.new.0 (rows_in rows.now)) }
        ensures same { (r : List ℕ) → Lit self.new r ↔ Lit self.old r }
    {
        if !knows_all(&self.table, rows) {
            *self = self.with_rows(*self.words.allocator(), rows)?;
        }
        Ok(())
    }
}

impl State for BitState {
    ghost atoms = { λ s. Shown s };

    fn initial(alloc: Global, world: &World<'_>) -> Result<BitState, Memory> {
        let begun = rows_of(alloc, world.init())?;
        BitState::over(alloc, begun, &[])
    }

    fn initial_for(
        alloc: Global,
        world: &World<'_>,
        touched: &GroundAtoms,
    ) -> Result<BitState, Memory> {
        let begun = rows_of(alloc, world.init())?;
        BitState::over(alloc, begun, touched.rows())
    }

    fn copy(&self, alloc: Global) -> Result<BitState, Memory> {
        let table = self.table.clone()?;
        let guesses = self.guesses.clone()?;
        let words = Vec::from_slice(alloc, &self.words)?;
        Ok(BitState {
            table,
            guesses,
            stride: Cell::new(Stride::start()),
            words,
        })
    }

    fn holds(&self, atom: &AtomView<'_>) -> bool {
        let stride = self.stride.get();
        match look_up_at(&self.table, &self.guesses, stride.next(), atom) {
            Some(number) => {
                self.stride.set(stride.found(number));
                has_bit(&self.words, number)
            }
            None => false,
        }
    }

    fn next_possible(&self, atom: &AtomView<'_>) -> usize {
        self.next_known(atom)
    }

    fn apply(&mut self, deletes: &GroundAtoms, adds: &GroundAtoms) -> Result<(), Memory> {
        self.know_all(adds.rows())?;
        change(&self.table, &mut self.words, deletes.rows(), adds.rows());
        Ok(())
    }
}
