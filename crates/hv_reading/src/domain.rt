//! Domains.

ghost use Rattle.std.specs.Prelude.{◌≡◌, [], map, OnOk};
ghost use Rattle.hv_text.specs.Names.{text_of};
ghost use Rattle.hv_text.specs.Trees.{tree, trees};
ghost use Rattle.hv_reading.specs.inside.Reading.{Gives};
ghost use Rattle.hv_reading.specs.inside.Faults.{Answers};
ghost use Rattle.hv_syntax.specs.Domains.{add_section, no_domain};
ghost use Rattle.hv_reading.specs.Standings.{domain_standing};
ghost use Rattle.hv_reading.specs.inside.Domains.{domain_section_by, domain_section, domain_from};
ghost use Rattle.hv_reading.specs.inside.Domains.{domain_of};
ghost use Rattle.hv_syntax.specs.Views.{word_view, typed_view};
ghost use Rattle.hv_syntax.specs.DeclarationViews.{predicate_view, task_view, method_view};
ghost use Rattle.hv_syntax.specs.DeclarationViews.{action_view};
ghost use Rattle.hv_syntax.specs.DomainViews.{domain_section_view, domain_view};

mod stream;

use crate::action::read_action;
use crate::fault::{SyntaxFault, SyntaxKind};
use crate::method::read_method;
use crate::predicate::read_predicates;
use crate::refusal::Refusal;
use crate::section::{
    Standing, definition_in, headed, is_unsupported, read_keywords, refused, unread,
};
use crate::task::read_task;
use crate::typed::read_typed_list;
use crate::word::span_of;
use hv_syntax::{DomainSection, DomainText, Placed};
use hv_text::{Name, Sexp, Span};
use std::alloc::Global;
pub(crate) use stream::read_domain_at;

fn standing_of(name: Name<'_>) -> Standing
    ensures { result ≡ domain_standing (text_of name.entry) }
{
    if name.is(b":requirements")
        || name.is(b":types")
        || name.is(b":constants")
        || name.is(b":predicates")
    {
        return Standing::Once;
    }
    if name.is(b":task") || name.is(b":method") || name.is(b":action") {
        return Standing::Often;
    }
    if is_unsupported(name) {
        return Standing::Unsupported;
    }
    Standing::Unknown
}

// The section that a head and the members behind it spell, at this place.
fn read_members<'s>(
    alloc: Global,
    name: Name<'s>,
    span: Span,
    es: &[Sexp<'s>],
) -> Result<DomainSection<'s>, Refusal>
    ensures { Gives domain_section_view result
        (domain_section_by (text_of name.entry) span (trees es.now)) }
{
    if name.is(b":requirements") {
        return read_keywords(alloc, es).map(DomainSection::Requirements);
    }
    if name.is(b":types") {
        return read_typed_list(alloc, es).map(DomainSection::Types);
    }
    if name.is(b":constants") {
        return read_typed_list(alloc, es).map(DomainSection::Constants);
    }
    if name.is(b":predicates") {
        return read_predicates(alloc, es).map(DomainSection::Predicates);
    }
    if name.is(b":task") {
        return read_task(alloc, span, es).map(DomainSection::Task);
    }
    if name.is(b":method") {
        return read_method(alloc, span, es).map(DomainSection::Method);
    }
    if name.is(b":action") {
        return read_action(alloc, span, es).map(DomainSection::Action);
    }
    Err(Refusal::NoSpelling)
}

// The section that an expression is, behind these.
fn read_section<'s>(
    alloc: Global,
    before: &[Sexp<'s>],
    e: &Sexp<'s>,
) -> Result<DomainSection<'s>, SyntaxFault>
    ensures { Answers domain_section_view result
        (domain_section (map tree before.now) (tree e.now)) }
{
    let span = span_of(e);
    let Some((name, members)) = headed(e) else {
        return Err(SyntaxFault {
            kind: SyntaxKind::UnknownSection,
            span,
        });
    };
    match refused(standing_of(name), name, before) {
        Some(kind) => Err(SyntaxFault { kind, span }),
        None => match read_members(alloc, name, span, members) {
            Ok(section) => Ok(section),
            Err(refusal) => Err(unread(refusal, name, members, span)),
        },
    }
}

fn read_sections<'s>(
    alloc: Global,
    name: Placed<'s>,
    es: &[Sexp<'s>],
) -> Result<DomainText<'s>, SyntaxFault>
    ensures { Answers domain_view result
        (domain_from (no_domain (word_view name.entry)) [] (trees es.now)) }
{
    let mut domain = DomainText::named(alloc, name);
    for i in 0..es.len() {
        let section = read_section(alloc, &es[..i], &es[i])?;
        domain.add(section)?;
    }
    Ok(domain)
}

/// Reads the domain that the expressions of a text spell.
///
/// # Errors
///
/// The first fault: of what stands around the sections, or of the first faulty section.
pub(crate) fn read_domain_of<'s>(
    alloc: Global,
    es: &[Sexp<'s>],
) -> Result<DomainText<'s>, SyntaxFault>
    ensures { Answers domain_view result (domain_of (trees es.now)) }
{
    let Some(text) = definition_in(es, b"domain") else {
        return Err(SyntaxFault {
            kind: SyntaxKind::NotDefine,
            span: Span { start: 0, past: 0 },
        });
    };
    read_sections(alloc, text.name, text.sections)
}
