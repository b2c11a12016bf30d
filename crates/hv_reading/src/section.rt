//! Sections: their heads, the list that holds them, and what may be wrong with one.

ghost use Rattle.std.specs.Prelude.{◌≡◌, map, option_map};
ghost use Rattle.hv_text.specs.Bytes.{lower};
ghost use Rattle.hv_text.specs.Names.{text_of};
ghost use Rattle.hv_text.specs.Trees.{tree, trees};
ghost use Rattle.hv_reading.specs.inside.Reading.{Gives, every};
ghost use Rattle.hv_reading.specs.inside.Faults.{IsUnread};
ghost use Rattle.hv_reading.specs.Sections.{headed, is_headed_by, occurs, is_unsupported};
ghost use Rattle.hv_reading.specs.inside.Sections.{title_of, define_form, sections_of, refused};
ghost use Rattle.hv_reading.specs.inside.Sections.{one_name, keyword_of};
ghost use Rattle.hv_reading.specs.Unsupported.{has_unsupported};
ghost use Rattle.hv_syntax.specs.Views.{word_view};

use crate::fault::{SyntaxFault, SyntaxKind};
use crate::list::only;
use crate::refusal::Refusal;
use crate::unsupported::has_unsupported;
use crate::word::{Sort, is_sort, is_the_word, read_word};
use hv_syntax::Placed;
use hv_text::{Name, Sexp, Span};
use std::alloc::Global;

/// How a section stands in a text.
#[derive(Clone, Copy)]
pub enum Standing {
    /// At most once.
    Once,
    /// Any number of times.
    Often,
    /// Never: it is an unsupported form.
    Unsupported,
    /// Never: no section of this kind of text has its head.
    Unknown,
}

/// The word that heads a list, and the members behind it.
pub(crate) fn headed<'a, 's>(e: &'a Sexp<'s>) -> Option<(Name<'s>, &'a [Sexp<'s>])>
    ensures { option_map (λ p. (text_of p.0, trees p.1.now)) result ≡ headed (tree e.now) }
{
    let Sexp::List(members, _) = e else {
        return None;
    };
    match members.as_slice() {
        [] => None,
        [head, others @ ..] => match head {
            Sexp::Word(name, _) => Some((*name, others)),
            Sexp::List(..) => None,
        },
    }
}

fn is_headed_by(e: &Sexp<'_>, word: &[u8]) -> bool
    ensures { result ≡ is_headed_by (lower word.now) (tree e.now) }
{
    match headed(e) {
        Some((name, _)) => name.is(word),
        None => false,
    }
}

// Whether one of these is a list that this word heads.
fn occurs(word: &[u8], es: &[Sexp<'_>]) -> bool
    ensures { result ≡ occurs (lower word.now) (map tree es.now) }
{
    for e in es {
        if is_headed_by(e, word) {
            return true;
        }
    }
    false
}

/// Whether this word heads a section that no kind of text may have.
pub(crate) fn is_unsupported(name: Name<'_>) -> bool
    ensures { result ≡ is_unsupported (text_of name.entry) }
{
    name.is(b":functions")
        || name.is(b":durative-action")
        || name.is(b":derived")
        || name.is(b":metric")
        || name.is(b":constraints")
}

/// What is wrong with a section for its head, which stands so in the text, behind these.
pub(crate) fn refused(standing: Standing, name: Name<'_>, before: &[Sexp<'_>]) -> Option<SyntaxKind>
    ensures { result ≡ refused standing (occurs (text_of name.entry) (map tree before.now)) }
{
    match standing {
        Standing::Unknown => Some(SyntaxKind::UnknownSection),
        Standing::Unsupported => Some(SyntaxKind::Unsupported),
        Standing::Often => None,
        Standing::Once => {
            if occurs(name.written(), before) {
                Some(SyntaxKind::RepeatedSection)
            } else {
                None
            }
        }
    }
}

/// The one member of a list, where it is a name.
pub(crate) fn one_name<'s>(es: &[Sexp<'s>]) -> Option<Placed<'s>>
    ensures { option_map word_view result ≡ one_name (trees es.now) }
{
    match only(es)? {
        Sexp::Word(name, span) => {
            if is_sort(*name, Sort::Name) {
                Some(Placed::new(*name, *span))
            } else {
                None
            }
        }
        Sexp::List(..) => None,
    }
}

/// Reads keywords, one after another.
///
/// # Errors
///
/// `NoSpelling` where one of the expressions is none, and `Memory`.
pub(crate) fn read_keywords<'s>(alloc: Global, es: &[Sexp<'s>]) -> Result<Vec<Placed<'s>>, Refusal>
    ensures { Gives (λ v. map word_view v.items) result (every keyword_of (trees es.now)) }
{
    let mut keywords = Vec::new(alloc);
    for e in es {
        keywords.push(read_word(Sort::Keyword, e)?)?;
    }
    Ok(keywords)
}

/// The name of `(word name)`.
pub(crate) fn title<'s>(e: &Sexp<'s>, word: &[u8]) -> Option<Placed<'s>>
    ensures { option_map word_view result ≡ title_of (lower word.now) (tree e.now) }
{
    let Sexp::List(members, _) = e else {
        return None;
    };
    match members.as_slice() {
        [] => None,
        [head, others @ ..] => {
            if !is_the_word(head, word) {
                return None;
            }
            one_name(others)
        }
    }
}

/// A text that is one list of `define`, the title of its kind, and sections.
#[derive(Clone, Copy)]
pub struct Definition<'a, 's> {
    pub name: Placed<'s>,
    pub sections: &'a [Sexp<'s>],
    pub span: Span,
}

// The list of `define`, the title of this word, and sections.
fn define_form<'a, 's>(e: &'a Sexp<'s>, word: &[u8]) -> Option<Definition<'a, 's>>
    ensures { option_map (λ d. (word_view d.name, trees d.sections.now, d.span)) result
        ≡ define_form (lower word.now) (tree e.now) }
{
    let Sexp::List(members, span) = e else {
        return None;
    };
    match members.as_slice() {
        [] => None,
        [head, others @ ..] => match others {
            [] => None,
            [kind, sections @ ..] => {
                if !is_the_word(head, b"define") {
                    return None;
                }
                let name = title(kind, word)?;
                Some(Definition {
                    name,
                    sections,
                    span: *span,
                })
            }
        },
    }
}

/// What a text defines whose title has this word, where it is exactly one such list.
pub(crate) fn definition_in<'a, 's>(es: &'a [Sexp<'s>], word: &[u8]) -> Option<Definition<'a, 's>>
    ensures { option_map (λ d. (word_view d.name, trees d.sections.now, d.span)) result
        ≡ sections_of (lower word.now) (trees es.now) }
{
    define_form(only(es)?, word)
}

/// The fault of a section with this head and these members behind it, which stands at this place
/// and was not read.
pub(crate) fn unread(refusal: Refusal, head: Name<'_>, es: &[Sexp<'_>], span: Span) -> SyntaxFault
    ensures { IsUnread refusal (has_unsupported (text_of head.entry) (trees es.now)) span result }
{
    match refusal {
        Refusal::Memory => SyntaxFault::memory(),
        Refusal::NoSpelling => {
            let kind = if has_unsupported(head, es) {
                SyntaxKind::Unsupported
            } else {
                SyntaxKind::BadShape
            };
            SyntaxFault { kind, span }
        }
    }
}
