//! Words in their places.

ghost use Rattle.std.specs.Prelude.{◌≡◌};
ghost use Rattle.hv_text.specs.Names.{text_of};
ghost use Rattle.hv_text.specs.Bytes.{lower};
ghost use Rattle.hv_text.specs.Trees.{tree, place_of};
ghost use Rattle.hv_reading.specs.inside.Reading.{Gives};
ghost use Rattle.hv_reading.specs.Words.{sort_of, is_sort, symbol_if_name, head_of, is_the_word};
ghost use Rattle.hv_reading.specs.inside.Words.{symbol_of, sorted_word_of};
ghost use Rattle.hv_syntax.specs.Views.{word_view};

use crate::refusal::Refusal;
use hv_syntax::Placed;
use hv_text::{Name, Sexp, Span};

/// What a word may be.
#[derive(Clone, Copy)]
pub enum Sort {
    /// A word whose first byte is neither `?` nor `:`, and that is not `-`, `<` or `=`.
    Name,
    /// A word of two bytes or more that begins with `?`.
    Variable,
    /// A word of two bytes or more that begins with `:`.
    Keyword,
    /// Any other word.
    Mark,
}

/// What a word says at the head of a list.
#[derive(Clone, Copy)]
pub enum Head {
    And,
    Or,
    Not,
    Imply,
    Forall,
    Exists,
    When,
    Equal,
    /// A name that is none of the words of formulas and effects.
    Symbol,
    Other,
}

/// What a word may be.
pub(crate) fn sort_of(name: Name<'_>) -> Sort
    ensures { result ≡ sort_of (text_of name.entry) }
{
    if name.is(b"-") || name.is(b"<") || name.is(b"=") {
        return Sort::Mark;
    }
    match name.written() {
        [] => Sort::Mark,
        [b'?'] | [b':'] => Sort::Mark,
        [b'?', ..] => Sort::Variable,
        [b':', ..] => Sort::Keyword,
        _ => Sort::Name,
    }
}

/// Whether a word is of this sort.
pub(crate) fn is_sort(name: Name<'_>, sort: Sort) -> bool
    ensures { result ≡ is_sort sort (text_of name.entry) }
{
    match (sort_of(name), sort) {
        (Sort::Name, Sort::Name)
        | (Sort::Variable, Sort::Variable)
        | (Sort::Keyword, Sort::Keyword) => true,
        _ => false,
    }
}

// What a word says at the head of a list, compared with each word of formulas and effects.
fn head_by_words(name: Name<'_>) -> Head
    ensures { result ≡ head_of (text_of name.entry) }
{
    if name.is(b"and") {
        return Head::And;
    }
    if name.is(b"or") {
        return Head::Or;
    }
    if name.is(b"not") {
        return Head::Not;
    }
    if name.is(b"imply") {
        return Head::Imply;
    }
    if name.is(b"forall") {
        return Head::Forall;
    }
    if name.is(b"exists") {
        return Head::Exists;
    }
    if name.is(b"when") {
        return Head::When;
    }
    if name.is(b"=") {
        return Head::Equal;
    }
    head_of_other(name)
}

// What a word that is none of those of formulas and effects says at the head of a list.
fn head_of_other(name: Name<'_>) -> Head
    ensures { result ≡ symbol_if_name (sort_of (text_of name.entry)) }
{
    match sort_of(name) {
        Sort::Name => Head::Symbol,
        _ => Head::Other,
    }
}

/// What a word says at the head of a list.
pub(crate) fn head_of(name: Name<'_>) -> Head
    ensures { result ≡ head_of (text_of name.entry) }
{
    // None of the words of formulas and effects is longer.
    if name.written().len() <= 6 {
        head_by_words(name)
    } else {
        head_of_other(name)
    }
}

/// The place of an expression.
pub(crate) fn span_of(e: &Sexp<'_>) -> Span
    ensures { result ≡ place_of (tree e.now) }
{
    match e {
        Sexp::Word(_, span) => *span,
        Sexp::List(_, span) => *span,
    }
}

/// Whether an expression is this word, whatever the case of the letters.
pub(crate) fn is_the_word(e: &Sexp<'_>, word: &[u8]) -> bool
    ensures { result ≡ is_the_word (lower word.now) (tree e.now) }
{
    match e {
        Sexp::Word(name, _) => name.is(word),
        Sexp::List(..) => false,
    }
}

/// Reads a word of this sort.
///
/// # Errors
///
/// `NoSpelling` where the expression is none.
pub(crate) fn read_word<'s>(sort: Sort, e: &Sexp<'s>) -> Result<Placed<'s>, Refusal>
    ensures { Gives word_view result (sorted_word_of sort (tree e.now)) }
{
    let Sexp::Word(name, span) = e else {
        return Err(Refusal::NoSpelling);
    };
    if !is_sort(*name, sort) {
        return Err(Refusal::NoSpelling);
    }
    Ok(Placed::new(*name, *span))
}

/// Reads a symbol.
///
/// # Errors
///
/// `NoSpelling` where the expression is none.
pub(crate) fn read_symbol<'s>(e: &Sexp<'s>) -> Result<Placed<'s>, Refusal>
    ensures { Gives word_view result (symbol_of (tree e.now)) }
{
    let Sexp::Word(name, span) = e else {
        return Err(Refusal::NoSpelling);
    };
    match head_of(*name) {
        Head::Symbol => Ok(Placed::new(*name, *span)),
        _ => Err(Refusal::NoSpelling),
    }
}
