//! Sorted lists of rows that states share.

ghost use Rattle.std.specs.Prelude.{◌≡◌, ◌+◌, ◌<◌, ◌≤◌, length, IfOk};
ghost use Rattle.std.specs.Vec.{vec_len, vec_capacity};
ghost use Rattle.hv_state.specs.inside.Rows.{rows_in, rows_shared, shared_numbers, Ascend};
ghost use Rattle.hv_state.specs.inside.Rows.{IsWithout, IsWith, IsWithoutAll, IsWithAll};

use crate::find::{HasRow, place};
use crate::rows::Row;
use hv_text::Memory;
use std::alloc::Global;
use std::rc::Rc;

/// The row of an atom. States share it, and a list of such rows has eight bytes to move for each.
#[derive(Drop)]
pub(crate) struct SharedRow {
    pub(crate) row: Rc<Row>,
}

impl HasRow for SharedRow {
    ghost numbers = { shared_numbers };

    fn row(&self) -> &[u32] {
        self.row.numbers.as_slice()
    }
}

// Takes a row out.
fn remove(rows: &mut Vec<SharedRow>, row: &[u32])
    requires { Ascend (rows_shared rows.old.items) }
    ensures ascend { Ascend (rows_shared rows.new.items) }
    ensures exact { IsWithout (rows_shared rows.old.items) row.now (rows_shared rows.new.items) }
    ensures fewer { vec_len rows.new ≤ vec_len rows.old }
    ensures capacity { vec_capacity rows.new ≡ vec_capacity rows.old }
{
    if let Ok(place) = place(rows, row) {
        rows.remove(place);
    }
}

/// Takes rows out.
pub(crate) fn remove_all(rows: &mut Vec<SharedRow>, gone: &[Row])
    requires { Ascend (rows_shared rows.old.items) }
    ensures ascend { Ascend (rows_shared rows.new.items) }
    ensures exact { IsWithoutAll
        (rows_shared rows.old.items) (rows_in gone.now) (rows_shared rows.new.items) }
    ensures fewer { vec_len rows.new ≤ vec_len rows.old }
    ensures capacity { vec_capacity rows.new ≡ vec_capacity rows.old }
{
    for row in gone {
        remove(rows, row.row());
    }
}

// Puts a row in, unless it stands there.
fn put(rows: &mut Vec<SharedRow>, row: SharedRow)
    requires ascend { Ascend (rows_shared rows.old.items) }
    requires room { vec_len rows.old < vec_capacity rows.old }
    ensures ascend { Ascend (rows_shared rows.new.items) }
    ensures exact { IsWith (rows_shared rows.old.items)
        row.row.value.numbers.items (rows_shared rows.new.items) }
    ensures more { vec_len rows.new ≤ vec_len rows.old + 1 }
    ensures capacity { vec_capacity rows.old ≤ vec_capacity rows.new }
{
    if let Err(place) = place(rows, row.row()) {
        let _put = rows.insert(place, row);
    }
}

/// Puts rows in, each unless it stands there.
pub(crate) fn put_all(rows: &mut Vec<SharedRow>, mut new: Vec<SharedRow>)
    requires ascend { Ascend (rows_shared rows.old.items) }
    requires room { vec_len rows.old + vec_len new ≤ vec_capacity rows.old }
    ensures ascend { Ascend (rows_shared rows.new.items) }
    ensures exact { IsWithAll
        (rows_shared rows.old.items) (rows_shared new.items) (rows_shared rows.new.items) }
{
    'puts: while let Some(row) = new.pop() {
        put(rows, row);
    }
}

/// Rows, each to be shared.
pub(crate) fn share(alloc: Global, rows: &[Row]) -> Result<Vec<SharedRow>, Memory>
    ensures { IfOk result (λ shared. rows_shared shared.items ≡ rows_in rows.now) }
{
    let mut shared = Vec::with_capacity(alloc, rows.len())?;
    for row in rows {
        let row = Rc::new(alloc, row.copy()?)?;
        shared.push(SharedRow { row })?;
    }
    Ok(shared)
}

/// The same rows once more, shared.
pub(crate) fn shared_again(alloc: Global, rows: &[SharedRow]) -> Result<Vec<SharedRow>, Memory>
    ensures { IfOk result (λ again. rows_shared again.items ≡ rows_shared rows.now) }
{
    let mut again = Vec::with_capacity(alloc, rows.len())?;
    for shared in rows {
        let row = shared.row.clone()?;
        again.push(SharedRow { row })?;
    }
    Ok(again)
}
