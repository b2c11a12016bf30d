//! Literals of `:init`, one at a time. Most are a symbol and names in a list, and for these no
//! expression is made.

ghost use Rattle.std.specs.Prelude.{◌≡◌, ◌<◌, ◌≤◌, IfOk, IfErr, IfNone, IfSome, map};
ghost use Rattle.hv_text.specs.Trees.{word, none};
ghost use Rattle.hv_text.specs.Rests.{add, enclose, here, ended};
ghost use Rattle.hv_text.specs.Cursors.{rest_at, left_at};
ghost use Rattle.hv_reading.specs.Words.{head_of, sort_of};
ghost use Rattle.hv_reading.specs.inside.Reading.{Gives, Fails, every, behind};
ghost use Rattle.hv_reading.specs.inside.Terms.{term_of};
ghost use Rattle.hv_reading.specs.inside.Literals.{ground_literal_of};
ghost use Rattle.hv_reading.specs.inside.Streams.{IsLiteralRead, IsOneMoreRead};
ghost use Rattle.hv_syntax.specs.ProblemViews.{init_view};
ghost use Rattle.hv_syntax.specs.Views.{word_view, constant_view, ground_literal_view};

use super::read_ground_literal;
use crate::refusal::Refusal;
use crate::stream::next_word;
use crate::word::{Head, Sort, head_of, sort_of};
use hv_syntax::{GroundLiteral, InitText, Placed};
use hv_text::{Cursor, Memory, Span, Word};
use std::alloc::Global;

// A list that a symbol heads: where it starts, and the place behind its symbol.
#[derive(Clone, Copy)]
pub(crate) struct BegunAtom<'s> {
    pub(crate) start: Span,
    pub(crate) symbol: Placed<'s>,
    pub(crate) terms: Cursor<'s>,
}

// The list that comes next, where a symbol heads it.
fn begun_atom<'s>(from: Cursor<'s>) -> Option<BegunAtom<'s>>
    ensures begun { IfSome result (λ b. rest_at from.entry
        ≡ enclose b.start (add (word (word_view b.symbol).text (word_view b.symbol).place)
        (rest_at b.terms))) }
    ensures symbol { IfSome result (λ b. head_of (word_view b.symbol).text ≡ Head.Symbol) }
    ensures less { IfSome result (λ b. left_at b.terms < left_at from.entry) }
{
    let (start, inner) = from.enter()?;
    let (head, terms) = inner.next()?;
    match head {
        Word::Name(name, span) => match head_of(name) {
            Head::Symbol => Some(BegunAtom {
                start,
                symbol: Placed::new(name, span),
                terms,
            }),
            _ => None,
        },
        Word::Left(_) => None,
        Word::Right(_) => None,
    }
}

// The name that comes next, and the place behind it.
fn next_name<'s>(from: Cursor<'s>) -> Option<(Placed<'s>, Cursor<'s>)>
    ensures name { IfSome result (λ p. rest_at from.entry
        ≡ add (word (word_view p.0).text (word_view p.0).place) (rest_at p.1)) }
    ensures sort { IfSome result (λ p. sort_of (word_view p.0).text ≡ Sort.Name) }
    ensures less { IfSome result (λ p. left_at p.1 < left_at from.entry) }
{
    let (word, after) = next_word(from)?;
    match sort_of(word.name()) {
        Sort::Name => Some((word, after)),
        _ => None,
    }
}

// Puts the names that come next into a room, in place of what it has. Answers the place behind
// them.
fn fill_names<'s>(from: Cursor<'s>, room: &mut Vec<Placed<'s>>) -> Result<Cursor<'s>, Memory>
    ensures names { IfOk result
        (λ c. behind (map constant_view room.new.items) (every term_of (here (rest_at c)))
        ≡ every term_of (here (rest_at from.entry))) }
    ensures end { IfOk result (λ c. ended (rest_at c) ≡ ended (rest_at from.entry)) }
    ensures less { IfOk result (λ c. left_at c ≤ left_at from.entry) }
{
    room.clear();
    let mut cursor = from;
    'names: while let Some((name, after)) = next_name(cursor) {
        cursor = after;
        room.push(name)?;
    }
    Ok(cursor)
}

// The literal that comes next, where it is a symbol and names in a list, and the place behind it;
// None where something else comes. Its names stand in the room.
fn read_fact_at<'r, 's>(
    from: Cursor<'s>,
    room: &'r mut Vec<Placed<'s>>,
) -> Result<Option<(GroundLiteral<'r, 's>, Cursor<'s>)>, Memory>
    ensures read { IfOk result (λ o. IfSome o
        (λ p. IsLiteralRead (rest_at from.entry) (ground_literal_view p.0) (rest_at p.1))) }
    ensures less { IfOk result (λ o. IfSome o (λ p. left_at p.1 < left_at from.entry)) }
{
    let Some(begun) = begun_atom(from) else {
        return Ok(None);
    };
    let end = fill_names(begun.terms, room)?;
    let Some((_past, after)) = end.leave() else {
        return Ok(None);
    };
    let literal = GroundLiteral::new(true, begun.symbol, room);
    Ok(Some((literal, after)))
}

// Puts the literal that comes next behind others, and answers the place behind it; None at the end
// of the list.
fn read_next_at<'s>(
    alloc: Global,
    from: Cursor<'s>,
    room: &mut Vec<Placed<'s>>,
    literals: &mut InitText<'s>,
) -> Result<Option<Cursor<'s>>, Refusal>
    ensures none { IfOk result (λ o. IfNone o (here (rest_at from.entry) ≡ none)) }
    ensures same { IfOk result (λ o. IfNone o (init_view literals.new ≡ init_view literals.old)) }
    ensures read { IfOk result (λ o. IfSome o
        (λ c. IsOneMoreRead (rest_at from.entry) (init_view literals.old) (init_view literals.new)
        (rest_at c))) }
    ensures less { IfOk result (λ o. IfSome o (λ c. left_at c < left_at from.entry)) }
    ensures err { IfErr result
        (λ e. Fails e (every ground_literal_of (here (rest_at from.entry)))) }
{
    if let Some((literal, after)) = read_fact_at(from, room)? {
        literals.push(literal)?;
        return Ok(Some(after));
    }
    let Some((e, after)) = from.read_one(alloc)? else {
        return Ok(None);
    };
    let literal = read_ground_literal(alloc, &e, room)?;
    literals.push(literal)?;
    Ok(Some(after))
}

/// Reads literals whose terms are names, one at a time up to the end of the list, and
/// the place there.
///
/// # Errors
///
/// `NoSpelling` where one of the expressions is none, and `Memory`.
pub(crate) fn read_ground_literals_at<'s>(
    alloc: Global,
    from: Cursor<'s>,
) -> Result<(InitText<'s>, Cursor<'s>), Refusal>
    ensures every { Gives (λ p. init_view p.0) result
        (every ground_literal_of (here (rest_at from.entry))) }
    ensures end { IfOk result (λ p. rest_at p.1 ≡ ended (rest_at from.entry)) }
    ensures less { IfOk result (λ p. left_at p.1 ≤ left_at from.entry) }
{
    let mut cursor = from;
    let mut literals = InitText::new(alloc, from.text())?;
    let mut room = Vec::new(alloc);
    'all: while let Some(after) = read_next_at(alloc, cursor, &mut room, &mut literals)? {
        cursor = after;
    }
    Ok((literals, cursor))
}
