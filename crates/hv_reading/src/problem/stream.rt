//! Problems read one section at a time, `:objects` one name and `:init` one literal at a time.

ghost use Rattle.std.specs.Prelude.{◌≡◌, ◌<◌, ◌≤◌, [], Ok, Some, IfOk, IfNone, IfSome, map};
ghost use Rattle.hv_text.specs.Names.{text_of};
ghost use Rattle.hv_text.specs.Trees.{word, none};
ghost use Rattle.hv_text.specs.Rests.{last, add, enclose, here, ended};
ghost use Rattle.hv_text.specs.Cursors.{rest_at, left_at};
ghost use Rattle.hv_reading.specs.Standings.{problem_standing};
ghost use Rattle.hv_reading.specs.inside.Streams.{IsSectionRead};
ghost use Rattle.hv_syntax.specs.Problems.{no_parts};
ghost use Rattle.hv_reading.specs.inside.Problems.{parts_from, problem_of, problem_section};
ghost use Rattle.hv_reading.specs.inside.Problems.{problem_section_by};
ghost use Rattle.hv_syntax.specs.ProblemViews.{problem_section_view, parts_view, problem_view};

use super::{read_members, standing_of, whole};
use crate::literal::read_ground_literals_at;
use crate::refusal::Refusal;
use crate::section::{Standing, headed};
use crate::stream::{SectionRead, begun, may_stand, past_all};
use crate::typed::read_typed_list_at;
use crate::word::span_of;
use hv_syntax::{ProblemParts, ProblemSection, ProblemText};
use hv_text::{Cursor, Name, Span, Word};
use std::alloc::Global;

// A list that a word heads, up to behind that word.
#[derive(Clone, Copy)]
pub(crate) struct BegunSection<'s> {
    pub(crate) start: Span,
    pub(crate) name: Name<'s>,
    pub(crate) place: Span,
    pub(crate) members: Cursor<'s>,
}

// The list that comes next, where a word heads it.
fn begun_section<'s>(from: Cursor<'s>) -> Option<BegunSection<'s>>
    ensures begun { IfSome result (λ b. rest_at from.entry
        ≡ enclose b.start (add (word (text_of b.name) b.place) (rest_at b.members))) }
    ensures less { IfSome result (λ b. left_at b.members < left_at from.entry) }
{
    let (start, inner) = from.enter()?;
    let (head, members) = inner.next()?;
    match head {
        Word::Name(name, place) => Some(BegunSection {
            start,
            name,
            place,
            members,
        }),
        Word::Left(_) => None,
        Word::Right(_) => None,
    }
}

// What stands behind `:init` or `:objects`, one part at a time, and the place there. It is the whole
// section where that is the end of its list. None where another word heads the list.
fn read_parts_at<'s>(
    alloc: Global,
    begun: BegunSection<'s>,
) -> Result<Option<(ProblemSection<'s>, Cursor<'s>)>, Refusal>
    ensures once { IfOk result (λ o. IfSome o
        (λ _. problem_standing (text_of begun.entry.name) ≡ Standing.Once)) }
    ensures section { IfOk result (λ o. IfSome o (λ p. here (rest_at p.1) ≡ none → (s : Span)
        → problem_section_by (text_of begun.entry.name) s (here (rest_at begun.entry.members))
        ≡ Some (problem_section_view p.0))) }
    ensures end { IfOk result (λ o. IfSome o
        (λ p. ended (rest_at p.1) ≡ ended (rest_at begun.entry.members))) }
    ensures less { IfOk result (λ o. IfSome o
        (λ p. left_at p.1 ≤ left_at begun.entry.members)) }
{
    if begun.name.is(b":init") {
        let (literals, end) = read_ground_literals_at(alloc, begun.members)?;
        return Ok(Some((ProblemSection::Init(literals), end)));
    }
    if begun.name.is(b":objects") {
        let (objects, end) = read_typed_list_at(alloc, begun.members)?;
        return Ok(Some((ProblemSection::Objects(objects), end)));
    }
    Ok(None)
}

// `:init` or `:objects`, where one of them comes next, behind those with these heads.
fn read_in_parts_at<'s>(
    alloc: Global,
    from: Cursor<'s>,
    heads: &[Name<'s>],
) -> Result<Option<SectionRead<'s, ProblemSection<'s>>>, Refusal>
    ensures read { IfOk result (λ o. IfSome o
        (λ r. IsSectionRead problem_section (map text_of heads.now) (rest_at from.entry)
        (problem_section_view r.section) (text_of r.head) (rest_at r.after))) }
    ensures less { IfOk result (λ o. IfSome o (λ r. left_at r.after < left_at from.entry)) }
{
    let Some(begun) = begun_section(from) else {
        return Ok(None);
    };
    let Some((section, end)) = read_parts_at(alloc, begun)? else {
        return Ok(None);
    };
    if !may_stand(Standing::Once, begun.name, heads) {
        return Err(Refusal::NoSpelling);
    }
    match end.leave() {
        None => Err(Refusal::NoSpelling),
        Some((_past, after)) => Ok(Some(SectionRead {
            section,
            head: begun.name,
            after,
        })),
    }
}

// The section that comes next, by its expression; None where the list ends.
fn read_listed_at<'s>(
    alloc: Global,
    from: Cursor<'s>,
    heads: &[Name<'s>],
) -> Result<Option<SectionRead<'s, ProblemSection<'s>>>, Refusal>
    ensures none { IfOk result (λ o. IfNone o (here (rest_at from.entry) ≡ none)) }
    ensures read { IfOk result (λ o. IfSome o
        (λ r. IsSectionRead problem_section (map text_of heads.now) (rest_at from.entry)
        (problem_section_view r.section) (text_of r.head) (rest_at r.after))) }
    ensures less { IfOk result (λ o. IfSome o (λ r. left_at r.after < left_at from.entry)) }
{
    let Some((e, after)) = from.read_one(alloc)? else {
        return Ok(None);
    };
    let Some((head, members)) = headed(&e) else {
        return Err(Refusal::NoSpelling);
    };
    if !may_stand(standing_of(head), head, heads) {
        return Err(Refusal::NoSpelling);
    }
    let section = read_members(alloc, head, span_of(&e), members)?;
    Ok(Some(SectionRead {
        section,
        head,
        after,
    }))
}

// The section that comes next, behind those with these heads; None where the list ends.
fn read_section_at<'s>(
    alloc: Global,
    from: Cursor<'s>,
    heads: &[Name<'s>],
) -> Result<Option<SectionRead<'s, ProblemSection<'s>>>, Refusal>
    ensures none { IfOk result (λ o. IfNone o (here (rest_at from.entry) ≡ none)) }
    ensures read { IfOk result (λ o. IfSome o
        (λ r. IsSectionRead problem_section (map text_of heads.now) (rest_at from.entry)
        (problem_section_view r.section) (text_of r.head) (rest_at r.after))) }
    ensures less { IfOk result (λ o. IfSome o (λ r. left_at r.after < left_at from.entry)) }
{
    match read_in_parts_at(alloc, from, heads)? {
        Some(read) => Ok(Some(read)),
        None => read_listed_at(alloc, from, heads),
    }
}

// The sections up to the end of the list, and the place there.
fn read_sections_at<'s>(
    alloc: Global,
    from: Cursor<'s>,
) -> Result<(ProblemParts<'s>, Cursor<'s>), Refusal>
    ensures parts { IfOk result (λ p. parts_from no_parts [] (here (rest_at from.entry))
        ≡ Ok (parts_view p.0)) }
    ensures end { IfOk result (λ p. rest_at p.1 ≡ ended (rest_at from.entry)) }
{
    let mut parts = ProblemParts::none(alloc);
    let mut heads = Vec::new(alloc);
    let mut cursor = from;
    'sections: while let Some(read) = read_section_at(alloc, cursor, &heads)? {
        let SectionRead {
            section,
            head,
            after,
        } = read;
        cursor = after;
        heads.push(head)?;
        parts.add(section);
    }
    Ok((parts, cursor))
}

/// Reads the problem that the expressions of a text spell, one section at a time, and of `:objects`
/// and `:init` one part at a time.
///
/// # Errors
///
/// `NoSpelling` where they may spell none, and `Memory`.
pub(crate) fn read_problem_at<'s>(
    alloc: Global,
    from: Cursor<'s>,
) -> Result<ProblemText<'s>, Refusal>
    ensures problem { IfOk result
        (λ p. problem_of (here (rest_at from.entry)) ≡ Ok (problem_view p)) }
    ensures whole { IfOk result (λ _. rest_at from.entry ≡ last (here (rest_at from.entry))) }
{
    let begun = begun(alloc, from, b"problem")?;
    let (parts, end) = read_sections_at(alloc, begun.sections)?;
    let span = Span {
        start: begun.start.start,
        past: past_all(end)?,
    };
    match whole(span, begun.name, parts) {
        Ok(problem) => Ok(problem),
        Err(_) => Err(Refusal::NoSpelling),
    }
}
