//! Predicates.

ghost use Rattle.std.specs.Prelude.{◌≡◌, map};
ghost use Rattle.hv_text.specs.Trees.{tree, trees};
ghost use Rattle.hv_reading.specs.inside.Reading.{Gives, every};
ghost use Rattle.hv_reading.specs.inside.Declarations.{predicate_of};
ghost use Rattle.hv_syntax.specs.Views.{word_view, variable_view};
ghost use Rattle.hv_syntax.specs.DeclarationViews.{predicate_view};

use crate::refusal::Refusal;
use crate::variable::read_typed_variables;
use crate::word::read_symbol;
use hv_syntax::PredicateText;
use hv_text::Sexp;
use std::alloc::Global;

// A symbol and variables with their types, between parentheses.
fn read_predicate<'s>(alloc: Global, e: &Sexp<'s>) -> Result<PredicateText<'s>, Refusal>
    ensures { Gives predicate_view result (predicate_of (tree e.now)) }
{
    let Sexp::List(members, _) = e else {
        return Err(Refusal::NoSpelling);
    };
    match members.as_slice() {
        [] => Err(Refusal::NoSpelling),
        [symbol, others @ ..] => {
            let name = read_symbol(symbol)?;
            let parameters = read_typed_variables(alloc, others)?;
            Ok(PredicateText::new(name, parameters))
        }
    }
}

/// Reads predicates, one after another.
///
/// # Errors
///
/// `NoSpelling` where one of the expressions is none, and `Memory`.
pub(crate) fn read_predicates<'s>(
    alloc: Global,
    es: &[Sexp<'s>],
) -> Result<Vec<PredicateText<'s>>, Refusal>
    ensures { Gives (λ v. map predicate_view v.items) result (every predicate_of (trees es.now)) }
{
    let mut predicates = Vec::new(alloc);
    for e in es {
        predicates.push(read_predicate(alloc, e)?)?;
    }
    Ok(predicates)
}
