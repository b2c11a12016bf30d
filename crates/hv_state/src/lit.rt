//! Rows with a bit each: that of a row's place.

ghost use Rattle.std.specs.Prelude.{◌≡◌, ℕ, ◌↔◌, ◌<◌, ◌≤◌, ◌*◌, length, IsTrue, IfOk};
ghost use Rattle.std.specs.List.{Contains};
ghost use Rattle.hv_state.specs.inside.Rows.{rows_in, Ascend};
ghost use Rattle.hv_state.specs.inside.Bits.{Has, Knows, AreBits, AreThoseLit};
ghost use Rattle.hv_state.specs.inside.Bits.{IsLit, IsDark, AreLit, AreDark, AreLacking};

use crate::bits::{clear_bit, has_bit, set_bit};
use crate::find::{HasRow, place};
use crate::rows::Row;
use hv_text::Memory;
use std::alloc::Global;

/// Words for the bits of so many rows, each of which is set.
pub(crate) fn bright(alloc: Global, count: usize) -> Result<Vec<u64>, Memory>
    ensures room { IfOk result (λ words. count ≤ 64 * length words.items) }
    ensures all { IfOk result (λ words. (i : ℕ) → i < count → Has words.items i) }
{
    let mut words = Vec::new(alloc);
    words.resize(count / 64 + 1, u64::MAX)?;
    Ok(words)
}

/// The rows of a list that others lack.
pub(crate) fn lacking(alloc: Global, rows: &[Row], more: &[Row]) -> Result<Vec<Row>, Memory>
    requires { Ascend (rows_in rows.now) }
    ensures { IfOk result (λ new. AreLacking (rows_in rows.now) (rows_in more.now)
        (rows_in new.items)) }
{
    let mut new = Vec::new(alloc);
    for row in more {
        if !has_row(rows, row.row()) {
            new.push(row.copy()?)?;
        }
    }
    Ok(new)
}

// Sets the bit of a row.
fn set(rows: &[Row], words: &mut Vec<u64>, row: &[u32])
    requires bits { AreBits (rows_in rows.now) words.old.items }
    requires known { Contains (rows_in rows.now) row.now }
    ensures lit { IsLit (rows_in rows.now) words.old.items row.now words.new.items }
    ensures len { length words.new.items ≡ length words.old.items }
{
    if let Ok(number) = place(rows, row) {
        set_bit(words, number);
    }
}

// Clears the bit of a row, if it has one.
fn clear(rows: &[Row], words: &mut Vec<u64>, row: &[u32])
    requires { AreBits (rows_in rows.now) words.old.items }
    ensures dark { IsDark (rows_in rows.now) words.old.items row.now words.new.items }
    ensures len { length words.new.items ≡ length words.old.items }
{
    if let Ok(number) = place(rows, row) {
        clear_bit(words, number);
    }
}

/// Sets the bits of rows.
pub(crate) fn set_all(rows: &[Row], words: &mut Vec<u64>, more: &[Row])
    requires bits { AreBits (rows_in rows.now) words.old.items }
    requires known { Knows (rows_in rows.now) (rows_in more.now) }
    ensures lit { AreLit (rows_in rows.now) words.old.items (rows_in more.now) words.new.items }
    ensures len { length words.new.items ≡ length words.old.items }
{
    for row in more {
        set(rows, words, row.row());
    }
}

/// Clears the bits of rows, of those that have one.
pub(crate) fn clear_all(rows: &[Row], words: &mut Vec<u64>, gone: &[Row])
    requires { AreBits (rows_in rows.now) words.old.items }
    ensures dark { AreDark (rows_in rows.now) words.old.items (rows_in gone.now) words.new.items }
    ensures len { length words.new.items ≡ length words.old.items }
{
    for row in gone {
        clear(rows, words, row.row());
    }
}

/// The rows whose bits are set.
pub(crate) fn lit_rows(alloc: Global, rows: &[Row], words: &[u64]) -> Result<Vec<Row>, Memory>
    ensures { IfOk result (λ lit. AreThoseLit (rows_in rows.now, words.now) (rows_in lit.items)) }
{
    let mut lit = Vec::new(alloc);
    for number in 0..rows.len() {
        if has_bit(words, number) {
            lit.push(rows[number].copy()?)?;
        }
    }
    Ok(lit)
}

// Whether a row has a bit.
fn has_row(rows: &[Row], row: &[u32]) -> bool
    requires { Ascend (rows_in rows.now) }
    ensures { IsTrue result ↔ Contains (rows_in rows.now) row.now }
{
    place(rows, row).is_ok()
}

/// Whether each of these rows has a bit.
pub(crate) fn knows_all(rows: &[Row], more: &[Row]) -> bool
    requires { Ascend (rows_in rows.now) }
    ensures { IsTrue result → Knows (rows_in rows.now) (rows_in more.now) }
{
    for row in more {
        if !has_row(rows, row.row()) {
            return false;
        }
    }
    true
}
