//! Tables of ids, and what they are hashed from.

ghost use Rattle.std.specs.Prelude.{◌≡◌, IfOk, fold};
ghost use Rattle.std.specs.List.{flat_map};
ghost use Rattle.std.specs.Hash as fed;
ghost use Rattle.std.specs.Hash.DefaultHasher as sip;
ghost use Rattle.hv_lists.specs.Lists.{Once};
ghost use Rattle.hv_text.specs.Seeds.{start_of};
ghost use Rattle.hv_plan.specs.Ids.{place_of};

use hv_text::{Memory, Seeded};
use indexmap::IndexSet;
use std::alloc::Global;

/// The hasher of a table of these ids: its start has taken in all of them.
pub(crate) fn seed_of(ids: &[u64]) -> Seeded
    ensures { start_of result ≡ fold sip.write sip.initial (flat_map fed.u64 ids.now) }
{
    let mut seed = Seeded::new();
    for id in ids {
        seed.take_in(id);
    }
    seed
}

/// The table of ids of which each stands once, each with its place.
///
/// # Errors
///
/// `Memory` where a growth was refused.
pub fn table_of_ids(alloc: Global, ids: &[u64]) -> Result<IndexSet<u64, Seeded>, Memory>
    requires { Once ids.now }
    ensures { IfOk result (λ t. t.keys ≡ ids.now) }
{
    let mut table = IndexSet::with_capacity_and_hasher(alloc, ids.len(), seed_of(ids))?;
    for id in ids {
        table.insert(*id)?;
    }
    Ok(table)
}

/// The place of an id in a table; that behind the last where it has none.
pub fn place_in(table: &IndexSet<u64, Seeded>, id: u64) -> usize
    ensures { result ≡ place_of table.now.keys id }
{
    match table.get_index_of(&id) {
        Some(place) => place,
        None => table.len(),
    }
}
