//! Domains read one section at a time.

ghost use Rattle.std.specs.Prelude.{◌≡◌, ◌<◌, [], Ok, IfOk, IfNone, IfSome, map};
ghost use Rattle.hv_text.specs.Names.{text_of};
ghost use Rattle.hv_text.specs.Trees.{none};
ghost use Rattle.hv_text.specs.Rests.{last, here, ended};
ghost use Rattle.hv_text.specs.Cursors.{rest_at, left_at};
ghost use Rattle.hv_syntax.specs.Domains.{no_domain};
ghost use Rattle.hv_reading.specs.inside.Domains.{domain_section, domain_from, domain_of};
ghost use Rattle.hv_reading.specs.inside.Streams.{IsSectionRead};
ghost use Rattle.hv_syntax.specs.Views.{word_view};
ghost use Rattle.hv_syntax.specs.DomainViews.{domain_section_view, domain_view};

use super::{read_members, standing_of};
use crate::refusal::Refusal;
use crate::section::headed;
use crate::stream::{SectionRead, begun, may_stand, past_all};
use crate::word::span_of;
use hv_syntax::{DomainSection, DomainText, Placed};
use hv_text::{Cursor, Name};
use std::alloc::Global;

// The section that comes next, behind those with these heads; None where the list ends.
fn read_section_at<'s>(
    alloc: Global,
    from: Cursor<'s>,
    heads: &[Name<'s>],
) -> Result<Option<SectionRead<'s, DomainSection<'s>>>, Refusal>
    ensures none { IfOk result (λ o. IfNone o (here (rest_at from.entry) ≡ none)) }
    ensures read { IfOk result (λ o. IfSome o
        (λ r. IsSectionRead domain_section (map text_of heads.now) (rest_at from.entry)
        (domain_section_view r.section) (text_of r.head) (rest_at r.after))) }
    ensures less { IfOk result (λ o. IfSome o (λ r. left_at r.after < left_at from.entry)) }
{
    let Some((e, after)) = from.read_one(alloc)? else {
        return Ok(None);
    };
    let Some((head, members)) = headed(&e) else {
        return Err(Refusal::NoSpelling);
    };
    if !may_stand(standing_of(head), head, heads) {
        return Err(Refusal::NoSpelling);
    }
    let section = read_members(alloc, head, span_of(&e), members)?;
    Ok(Some(SectionRead {
        section,
        head,
        after,
    }))
}

// The sections up to the end of the list, of a domain of this name, and the place there.
fn read_sections_at<'s>(
    alloc: Global,
    name: Placed<'s>,
    from: Cursor<'s>,
) -> Result<(DomainText<'s>, Cursor<'s>), Refusal>
    ensures domain { IfOk result
        (λ p. domain_from (no_domain (word_view name.entry)) [] (here (rest_at from.entry))
        ≡ Ok (domain_view p.0)) }
    ensures end { IfOk result (λ p. rest_at p.1 ≡ ended (rest_at from.entry)) }
{
    let mut domain = DomainText::named(alloc, name);
    let mut heads = Vec::new(alloc);
    let mut cursor = from;
    'sections: while let Some(read) = read_section_at(alloc, cursor, &heads)? {
        let SectionRead {
            section,
            head,
            after,
        } = read;
        cursor = after;
        heads.push(head)?;
        domain.add(section)?;
    }
    Ok((domain, cursor))
}

/// Reads the domain that the expressions of a text spell, one section at a time.
///
/// # Errors
///
/// `NoSpelling` where they may spell none, and `Memory`.
pub(crate) fn read_domain_at<'s>(alloc: Global, from: Cursor<'s>) -> Result<DomainText<'s>, Refusal>
    ensures domain { IfOk result
        (λ d. domain_of (here (rest_at from.entry)) ≡ Ok (domain_view d)) }
    ensures whole { IfOk result (λ _. rest_at from.entry ≡ last (here (rest_at from.entry))) }
{
    let begun = begun(alloc, from, b"domain")?;
    let (domain, end) = read_sections_at(alloc, begun.name, begun.sections)?;
    past_all(end)?;
    Ok(domain)
}
