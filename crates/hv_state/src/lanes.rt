//! The next row of bits, by lanes of words.

ghost use Rattle.std.specs.Prelude.{◌≡◌, ◌+◌, ◌≤◌, ◌++◌, length, take, drop};
ghost use Rattle.std.specs.Simd.Lanes.{chunk};
ghost use Rattle.hv_state.specs.Words.{next_words};

use std::simd::prelude::*;

// The next eight words from a place on.
fn next_lanes(row: &mut [u64], deletes: &[u64], adds: &[u64], at: usize)
    requires row_in { at + 8 ≤ length row.old }
    requires deletes_in { at + 8 ≤ length deletes.now }
    requires adds_in { at + 8 ≤ length adds.now }
    ensures { row.new ≡ take at row.old
        ++ (next_words (chunk at 8 row.old) (chunk at 8 deletes.now) (chunk at 8 adds.now)
        ++ drop (at + 8) row.old) }
{
    let now = u64x8::from_slice(&row[at..]);
    let gone = u64x8::from_slice(&deletes[at..]);
    let come = u64x8::from_slice(&adds[at..]);
    let next = (now & !gone) | come;
    next.copy_to_slice(&mut row[at..]);
}

/// Clears the bits of the deletes in a row of words, and then sets those of the adds.
pub fn next_row(row: &mut [u64], deletes: &[u64], adds: &[u64])
    requires deletes_len { length deletes.now ≡ length row.old }
    requires adds_len { length adds.now ≡ length row.old }
    ensures { row.new ≡ next_words row.old deletes.now adds.now }
{
    let mut at = 0;
    'lanes: while row.len() - at >= 8 {
        next_lanes(row, deletes, adds, at);
        at += 8;
    }
    'rest: while at < row.len() {
        row[at] = (row[at] & !deletes[at]) | adds[at];
        at += 1;
    }
}
