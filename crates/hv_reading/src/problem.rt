//! Problems.

ghost use Rattle.std.specs.Prelude.{◌≡◌, [], map, option_map};
ghost use Rattle.hv_text.specs.Names.{text_of};
ghost use Rattle.hv_text.specs.Trees.{tree, trees};
ghost use Rattle.hv_reading.specs.inside.Reading.{Gives};
ghost use Rattle.hv_reading.specs.inside.Faults.{Answers};
ghost use Rattle.hv_syntax.specs.Problems.{add_part, no_parts};
ghost use Rattle.hv_reading.specs.Standings.{problem_standing};
ghost use Rattle.hv_reading.specs.inside.Problems.{htn_of, goal_of, problem_section_by};
ghost use Rattle.hv_reading.specs.inside.Problems.{problem_section, parts_from, whole};
ghost use Rattle.hv_reading.specs.inside.Problems.{problem_of};
ghost use Rattle.hv_syntax.specs.Views.{word_view, typed_view, variable_view, formula_view};
ghost use Rattle.hv_syntax.specs.NetworkViews.{network_view};
ghost use Rattle.hv_syntax.specs.ProblemViews.{htn_view, init_view, problem_section_view, parts_view};
ghost use Rattle.hv_syntax.specs.ProblemViews.{problem_view};

mod stream;

use crate::fault::{SyntaxFault, SyntaxKind};
use crate::field::{Slot, field, is_field_list};
use crate::formula::read_formula;
use crate::list::only;
use crate::literal::read_ground_literals;
use crate::network::read_network;
use crate::refusal::Refusal;
use crate::section::{
    Standing, definition_in, headed, is_unsupported, one_name, read_keywords, refused, unread,
};
use crate::task::read_parameters;
use crate::typed::read_typed_list;
use crate::word::span_of;
use hv_syntax::{FormulaText, HtnText, Placed, ProblemParts, ProblemSection, ProblemText};
use hv_text::{Name, Sexp, Span};
use std::alloc::Global;
pub(crate) use stream::read_problem_at;

// The members behind `:htn`, in the section at this place: the fields in any order.
fn read_htn<'s>(alloc: Global, span: Span, es: &[Sexp<'s>]) -> Result<HtnText<'s>, Refusal>
    ensures { Gives htn_view result (htn_of span (trees es.now)) }
{
    if !is_field_list(
        &[
            Slot::Parameters,
            Slot::Subtasks,
            Slot::OrderedSubtasks,
            Slot::Ordering,
            Slot::Constraints,
        ],
        es,
    ) {
        return Err(Refusal::NoSpelling);
    }
    let parameters = read_parameters(alloc, field(Slot::Parameters, es))?;
    let network = read_network(alloc, es)?;
    Ok(HtnText::new(parameters, network, span))
}

// The member behind `:goal`.
fn read_goal<'s>(alloc: Global, es: &[Sexp<'s>]) -> Result<FormulaText<'s>, Refusal>
    ensures { Gives formula_view result (goal_of (trees es.now)) }
{
    match only(es) {
        None => Err(Refusal::NoSpelling),
        Some(e) => read_formula(alloc, e),
    }
}

fn standing_of(name: Name<'_>) -> Standing
    ensures { result ≡ problem_standing (text_of name.entry) }
{
    if name.is(b":domain")
        || name.is(b":requirements")
        || name.is(b":objects")
        || name.is(b":htn")
        || name.is(b":init")
        || name.is(b":goal")
    {
        return Standing::Once;
    }
    if is_unsupported(name) {
        return Standing::Unsupported;
    }
    Standing::Unknown
}

// The section that a head and the members behind it spell, at this place.
fn read_members<'s>(
    alloc: Global,
    name: Name<'s>,
    span: Span,
    es: &[Sexp<'s>],
) -> Result<ProblemSection<'s>, Refusal>
    ensures { Gives problem_section_view result
        (problem_section_by (text_of name.entry) span (trees es.now)) }
{
    if name.is(b":domain") {
        return match one_name(es) {
            Some(domain) => Ok(ProblemSection::Domain(domain)),
            None => Err(Refusal::NoSpelling),
        };
    }
    if name.is(b":requirements") {
        return read_keywords(alloc, es).map(ProblemSection::Requirements);
    }
    if name.is(b":objects") {
        return read_typed_list(alloc, es).map(ProblemSection::Objects);
    }
    if name.is(b":htn") {
        return read_htn(alloc, span, es).map(ProblemSection::Htn);
    }
    if name.is(b":init") {
        return read_ground_literals(alloc, es).map(ProblemSection::Init);
    }
    if name.is(b":goal") {
        return read_goal(alloc, es).map(ProblemSection::Goal);
    }
    Err(Refusal::NoSpelling)
}

// The section that an expression is, behind these.
fn read_section<'s>(
    alloc: Global,
    before: &[Sexp<'s>],
    e: &Sexp<'s>,
) -> Result<ProblemSection<'s>, SyntaxFault>
    ensures { Answers problem_section_view result
        (problem_section (map tree before.now) (tree e.now)) }
{
    let span = span_of(e);
    let Some((name, members)) = headed(e) else {
        return Err(SyntaxFault {
            kind: SyntaxKind::UnknownSection,
            span,
        });
    };
    match refused(standing_of(name), name, before) {
        Some(kind) => Err(SyntaxFault { kind, span }),
        None => match read_members(alloc, name, span, members) {
            Ok(section) => Ok(section),
            Err(refusal) => Err(unread(refusal, name, members, span)),
        },
    }
}

fn read_sections<'s>(alloc: Global, es: &[Sexp<'s>]) -> Result<ProblemParts<'s>, SyntaxFault>
    ensures { Answers parts_view result (parts_from no_parts [] (trees es.now)) }
{
    let mut parts = ProblemParts::none(alloc);
    for i in 0..es.len() {
        let section = read_section(alloc, &es[..i], &es[i])?;
        parts.add(section);
    }
    Ok(parts)
}

// A section that a problem must have is missing in the text at this place.
fn missing(span: Span) -> SyntaxFault
    ensures { result ≡ record { kind = SyntaxKind.MissingSection; span = span } }
{
    SyntaxFault {
        kind: SyntaxKind::MissingSection,
        span,
    }
}

// The problem of this name and these parts, or that a section is missing in the text at this place.
fn whole<'s>(
    span: Span,
    name: Placed<'s>,
    parts: ProblemParts<'s>,
) -> Result<ProblemText<'s>, SyntaxFault>
    ensures { Answers problem_view result
        (whole span (word_view name.entry) (parts_view parts.entry)) }
{
    match parts.assembled(name) {
        Some(problem) => Ok(problem),
        None => Err(missing(span)),
    }
}

/// Reads the problem that the expressions of a text spell.
///
/// # Errors
///
/// The first fault: of what stands around the sections, of the first faulty section, or, where none
/// is faulty, that a section is missing.
pub(crate) fn read_problem_of<'s>(
    alloc: Global,
    es: &[Sexp<'s>],
) -> Result<ProblemText<'s>, SyntaxFault>
    ensures { Answers problem_view result (problem_of (trees es.now)) }
{
    let Some(text) = definition_in(es, b"problem") else {
        return Err(SyntaxFault {
            kind: SyntaxKind::NotDefine,
            span: Span { start: 0, past: 0 },
        });
    };
    let parts = read_sections(alloc, text.sections)?;
    whole(text.span, text.name, parts)
}
