//! Typed lists of names, one word at a time, so that no expression is made.

ghost use Rattle.std.specs.Prelude.{◌≡◌, ◌≤◌, Some, IfOk, map};
ghost use Rattle.hv_text.specs.Trees.{none};
ghost use Rattle.hv_text.specs.Rests.{here, ended};
ghost use Rattle.hv_text.specs.Cursors.{rest_at, left_at};
ghost use Rattle.hv_reading.specs.inside.TypedLists.{typed_list_of};
ghost use Rattle.hv_syntax.specs.Views.{typed_view};

use super::Typing;
use crate::refusal::Refusal;
use crate::stream::next_word;
use hv_syntax::TypedText;
use hv_text::Cursor;
use std::alloc::Global;

/// Reads a typed list of names up to where no word comes next, and the place there. It is the whole
/// list where that is its end.
///
/// # Errors
///
/// `NoSpelling` where the words are none, and `Memory`.
pub(crate) fn read_typed_list_at<'s>(
    alloc: Global,
    from: Cursor<'s>,
) -> Result<(Vec<TypedText<'s>>, Cursor<'s>), Refusal>
    ensures list { IfOk result (λ p. here (rest_at p.1) ≡ none
        → typed_list_of (here (rest_at from.entry)) ≡ Some (map typed_view p.0.items)) }
    ensures end { IfOk result (λ p. ended (rest_at p.1) ≡ ended (rest_at from.entry)) }
    ensures less { IfOk result (λ p. left_at p.1 ≤ left_at from.entry) }
{
    let mut typing = Typing::new(alloc);
    let mut cursor = from;
    'words: while let Some((word, after)) = next_word(cursor) {
        cursor = after;
        typing.take(word)?;
    }
    Ok((typing.finish()?, cursor))
}
