//! The table of the ids that begin lines.

ghost use Rattle.std.specs.Prelude.{◌≡◌, ℕ, Some, None, nat_eq, unwrap_or, IfOk, OnOk};
ghost use Rattle.std.specs.Map.{update};
ghost use Rattle.hv_plan.specs.inside.Tables.{place_by};

use crate::id_table::seed_of;
use hv_text::{Memory, Seeded};
use indexmap::IndexMap;
use std::alloc::Global;

// The list of small ids has at most so many places for each id.
const ROOM: usize = 4;

/// The places of ids: those of small ids in a list by id, and those of the others in a hashed map.
#[derive(Drop)]
pub(super) struct Table {
    small: Vec<Option<u32>>,
    large: IndexMap<u64, u32, Seeded>,
}

// One more than the largest of the ids below a limit.
fn bound_below(limit: usize, ids: &[u64]) -> usize {
    let mut bound = 0;
    for id in ids {
        let id = *id as usize;
        if id < limit {
            bound = bound.max(id + 1);
        }
    }
    bound
}

// The ids from a bound on.
fn ids_from(alloc: Global, bound: usize, ids: &[u64]) -> Result<Vec<u64>, Memory> {
    let mut large = Vec::new(alloc);
    for id in ids {
        if *id as usize >= bound {
            large.push(*id)?;
        }
    }
    Ok(large)
}

impl Table {
    /// A table with room for these ids, of which none has a place yet.
    ///
    /// # Errors
    ///
    /// `Memory` where the room was refused.
    pub(super) fn for_ids(alloc: Global, ids: &[u64]) -> Result<Table, Memory>
        ensures { IfOk result (λ t. (i : ℕ) → place_by t i ≡ None) }
    {
        let bound = bound_below(ids.len().saturating_mul(ROOM), ids);
        let large = ids_from(alloc, bound, ids)?;
        Ok(Table {
            small: vec![in alloc; None; bound]?,
            large: IndexMap::with_capacity_and_hasher(alloc, large.len(), seed_of(&large))?,
        })
    }

    /// The place of an id, where it has one.
    pub(super) fn get(&self, id: u64) -> Option<u32>
        ensures { result ≡ place_by self.now id }
    {
        match self.small.get(id as usize) {
            Some(place) => *place,
            None => self.large.get(&id).copied(),
        }
    }

    /// Gives an id a place; the one that it had is answered.
    ///
    /// # Errors
    ///
    /// `Memory` where a growth was refused.
    pub(super) fn put(&mut self, id: u64, place: u32) -> Result<Option<u32>, Memory>
        ensures before { IfOk result (λ o. o ≡ place_by self.old id) }
        ensures places { OnOk result
            ((i : ℕ) → place_by self.new i ≡ update nat_eq (place_by self.old) id (Some place) i) }
    {
        let at = id as usize;
        if at < self.small.len() {
            let before = self.small[at];
            self.small[at] = Some(place);
            Ok(before)
        } else {
            let before = self.large.insert(id, place)?;
            Ok(before)
        }
    }
}
