//! Lists of ids.

ghost use Rattle.std.specs.Prelude.{◌≡◌, map, IfOk};
ghost use Rattle.hv_text.specs.Words.{piece_of};
ghost use Rattle.hv_plan.specs.Forms.{every, id_at};
ghost use Rattle.hv_plan.specs.inside.Views.{as_ids, ids_view};

use crate::id::{Id, id_at};
use hv_text::{Memory, Word};

/// What words are as ids: ids of 64 bits, ids of which some is larger, or not all of them ids.
#[derive(Clone, Copy)]
pub(crate) enum Ids<'b> {
    Fit(&'b [u64]),
    TooLarge,
    NoIds,
}

/// What the words are as ids, which are put in place of those that a list has.
///
/// # Errors
///
/// Where a growth of memory was refused.
pub(crate) fn read_ids<'b>(words: &[Word<'_>], ids: &'b mut Vec<u64>) -> Result<Ids<'b>, Memory>
    ensures { IfOk result (λ is. ids_view is ≡ as_ids (every id_at (map piece_of words.now))) }
{
    ids.clear();
    let mut fits = true;
    for word in words {
        match id_at(*word) {
            Id::Fits(id) => ids.push(id)?,
            Id::TooLarge => fits = false,
            Id::NoId => return Ok(Ids::NoIds),
        }
    }
    if fits {
        Ok(Ids::Fit(ids))
    } else {
        Ok(Ids::TooLarge)
    }
}
