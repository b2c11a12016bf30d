//! Terms, and atoms and tasks over them.

ghost use Rattle.std.specs.Prelude.{◌≡◌, map};
ghost use Rattle.hv_text.specs.Trees.{tree, trees};
ghost use Rattle.hv_reading.specs.inside.Reading.{Gives, every};
ghost use Rattle.hv_reading.specs.inside.Terms.{term_of, atom_of};
ghost use Rattle.hv_syntax.specs.Views.{word_view, term_view, atom_view, lent_atom_view};

use crate::refusal::Refusal;
use crate::word::{Sort, read_symbol, sort_of};
use hv_syntax::{AtomText, Placed, TermText};
use hv_text::Sexp;
use std::alloc::Global;

/// Reads a term.
///
/// # Errors
///
/// `NoSpelling` where the expression is none.
pub(crate) fn read_term<'s>(e: &Sexp<'s>) -> Result<TermText<'s>, Refusal>
    ensures { Gives term_view result (term_of (tree e.now)) }
{
    let Sexp::Word(name, span) = e else {
        return Err(Refusal::NoSpelling);
    };
    let word = Placed::new(*name, *span);
    match sort_of(*name) {
        Sort::Name => Ok(TermText::Constant(word)),
        Sort::Variable => Ok(TermText::Variable(word)),
        _ => Err(Refusal::NoSpelling),
    }
}

/// Reads terms, one after another.
///
/// # Errors
///
/// `NoSpelling` where one of the expressions is no term, and `Memory`.
pub(crate) fn read_terms<'s>(alloc: Global, es: &[Sexp<'s>]) -> Result<Vec<TermText<'s>>, Refusal>
    ensures { Gives (λ v. map term_view v.items) result (every term_of (trees es.now)) }
{
    let mut terms = Vec::with_capacity(alloc, es.len())?;
    for e in es {
        terms.push(read_term(e)?)?;
    }
    Ok(terms)
}

/// Reads an atom, or a task: a symbol and terms.
///
/// # Errors
///
/// `NoSpelling` where the expression is none, and `Memory`.
pub(crate) fn read_atom<'s>(alloc: Global, e: &Sexp<'s>) -> Result<AtomText<'s>, Refusal>
    ensures { Gives atom_view result (atom_of (tree e.now)) }
{
    let Sexp::List(members, _) = e else {
        return Err(Refusal::NoSpelling);
    };
    match members.as_slice() {
        [] => Err(Refusal::NoSpelling),
        [head, others @ ..] => {
            let symbol = read_symbol(head)?;
            let terms = read_terms(alloc, others)?;
            Ok(AtomText::new(symbol, terms))
        }
    }
}
