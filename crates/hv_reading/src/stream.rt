//! Texts read one section at a time.
//!
//! This way finds what a text defines and no faults: where it gives up, the tree of the text is
//! read.

ghost use Rattle.std.specs.Prelude.{◌≡◌, ◌<◌, true, None, IfOk, IfSome, map};
ghost use Rattle.hv_text.specs.Bytes.{lower};
ghost use Rattle.hv_text.specs.Names.{text_of};
ghost use Rattle.hv_text.specs.Trees.{word, none};
ghost use Rattle.hv_text.specs.Rests.{last, upto, add};
ghost use Rattle.hv_text.specs.Cursors.{rest_at, left_at};
ghost use Rattle.hv_reading.specs.inside.Sections.{refused};
ghost use Rattle.hv_reading.specs.inside.Streams.{has_head, IsBegun};
ghost use Rattle.hv_syntax.specs.Views.{word_view};

use crate::refusal::Refusal;
use crate::section::{Standing, title};
use crate::word::is_the_word;
use hv_syntax::Placed;
use hv_text::{Cursor, Name, Span, Word};
use std::alloc::Global;

/// The word that comes next, and the place behind it.
pub(crate) fn next_word<'s>(from: Cursor<'s>) -> Option<(Placed<'s>, Cursor<'s>)>
    ensures word { IfSome result (λ p. rest_at from.entry
        ≡ add (word (word_view p.0).text (word_view p.0).place) (rest_at p.1)) }
    ensures less { IfSome result (λ p. left_at p.1 < left_at from.entry) }
{
    let (word, after) = from.next()?;
    match word {
        Word::Name(name, span) => Some((Placed::new(name, span), after)),
        Word::Left(_) => None,
        Word::Right(_) => None,
    }
}

/// A section that was read, its head, and the place behind it.
#[derive(Drop)]
pub(crate) struct SectionRead<'s, X> {
    pub(crate) section: X,
    pub(crate) head: Name<'s>,
    pub(crate) after: Cursor<'s>,
}

// Whether one of these names is this one.
fn is_among(name: Name<'_>, names: &[Name<'_>]) -> bool
    ensures { result ≡ has_head (text_of name.entry) (map text_of names.now) }
{
    for other in names {
        if other.is(name.written()) {
            return true;
        }
    }
    false
}

/// Whether a section whose head stands so in the text may come behind those with these heads.
pub(crate) fn may_stand(standing: Standing, head: Name<'_>, heads: &[Name<'_>]) -> bool
    ensures { result ≡ true
        → refused standing (has_head (text_of head.entry) (map text_of heads.now)) ≡ None }
{
    match standing {
        Standing::Once => !is_among(head, heads),
        Standing::Often => true,
        Standing::Unsupported => false,
        Standing::Unknown => false,
    }
}

/// What a text begins to define: where its list starts, its name, and the place of its first
/// section.
#[derive(Clone, Copy)]
pub(crate) struct Beginning<'s> {
    pub(crate) start: Span,
    pub(crate) name: Placed<'s>,
    pub(crate) sections: Cursor<'s>,
}

/// The list of `define` with a title that has this word.
///
/// # Errors
///
/// `NoSpelling` where none comes next, and `Memory`.
pub(crate) fn begun<'s>(
    alloc: Global,
    from: Cursor<'s>,
    word: &[u8],
) -> Result<Beginning<'s>, Refusal>
    ensures { IfOk result (λ b. IsBegun (lower word.now) (rest_at from.entry) b.start
        (word_view b.name) (rest_at b.sections)) }
{
    let Some((start, first)) = from.enter() else {
        return Err(Refusal::NoSpelling);
    };
    let Some((define, second)) = first.read_one(alloc)? else {
        return Err(Refusal::NoSpelling);
    };
    if !is_the_word(&define, b"define") {
        return Err(Refusal::NoSpelling);
    }
    let Some((kind, sections)) = second.read_one(alloc)? else {
        return Err(Refusal::NoSpelling);
    };
    match title(&kind, word) {
        None => Err(Refusal::NoSpelling),
        Some(name) => Ok(Beginning {
            start,
            name,
            sections,
        }),
    }
}

/// The place where the list ends whose last section stands before this one, and the text with it.
///
/// # Errors
///
/// `NoSpelling` where the list does not end here, or anything stands behind it.
pub(crate) fn past_all(end: Cursor<'_>) -> Result<u32, Refusal>
    ensures { IfOk result (λ past. rest_at end.entry ≡ upto none past (last none)) }
{
    match end.leave() {
        Some((past, behind)) if behind.is_over() => Ok(past),
        _ => Err(Refusal::NoSpelling),
    }
}
