//! A state as a sorted list of its atoms.

ghost use Rattle.std.specs.Prelude.{ℕ, List};
ghost use Rattle.hv_state.specs.inside.Rows.{rows_shared, Ascend, Listed};

use crate::atom::AtomView;
use crate::find::{find, next_possible};
use crate::ground::GroundAtoms;
use crate::rows::{rows_of, sort_distinct};
use crate::shared::{SharedRow, put_all, remove_all, share, shared_again};
use crate::state::State;
use hv_text::Memory;
use hv_world::World;
use std::alloc::Global;
use std::marker::Model;

/// A state as a sorted list of its atoms. An atom is found by halving.
#[derive(Drop)]
pub struct SortedState {
    rows: Vec<SharedRow>,
}

impl Model for SortedState {
    ghost Value = { List (List ℕ) };

    ghost view = { λ s. rows_shared s.rows.items };

    ghost invariant = { λ s. Ascend (rows_shared s.rows.items) };
}

impl State for SortedState {
    ghost atoms = { λ s. Listed s };

    fn initial(alloc: Global, world: &World<'_>) -> Result<SortedState, Memory> {
        let mut rows = rows_of(alloc, world.init())?;
        sort_distinct(&mut rows);
        let shared = share(alloc, &rows)?;
        Ok(SortedState { rows: shared })
    }

    fn copy(&self, alloc: Global) -> Result<SortedState, Memory> {
        let rows = shared_again(alloc, &self.rows)?;
        Ok(SortedState { rows })
    }

    fn holds(&self, atom: &AtomView<'_>) -> bool {
        find(&self.rows, atom).is_ok()
    }

    fn next_possible(&self, atom: &AtomView<'_>) -> usize {
        next_possible(&self.rows, atom)
    }

    fn apply(&mut self, deletes: &GroundAtoms, adds: &GroundAtoms) -> Result<(), Memory> {
        let new = share(*self.rows.allocator(), adds.rows())?;
        self.rows.reserve(new.len())?;
        remove_all(&mut self.rows, deletes.rows());
        put_all(&mut self.rows, new);
        Ok(())
    }
}
