//! Tasks, and the fields that tasks, methods and actions share.

ghost use Rattle.std.specs.Prelude.{◌≡◌, map, option_map};
ghost use Rattle.hv_text.specs.Trees.{tree, trees};
ghost use Rattle.hv_reading.specs.inside.Reading.{Gives};
ghost use Rattle.hv_reading.specs.Declarations.{are_none, is_empty_list, is_nothing};
ghost use Rattle.hv_reading.specs.inside.Declarations.{parameters_at, precondition_at, task_of};
ghost use Rattle.hv_syntax.specs.Views.{word_view, variable_view, formula_view};
ghost use Rattle.hv_syntax.specs.DeclarationViews.{task_view};

use crate::field::{Slot, field, is_field_list};
use crate::formula::read_formula;
use crate::list::conjuncts;
use crate::refusal::Refusal;
use crate::variable::read_typed_variables;
use crate::word::read_symbol;
use hv_syntax::{FormulaText, TaskText, VariableText};
use hv_text::{Sexp, Span};
use std::alloc::Global;

/// Reads parameters: none where the field is absent.
///
/// # Errors
///
/// `NoSpelling` where the expression is no list of variables with their types, and `Memory`.
pub(crate) fn read_parameters<'s>(
    alloc: Global,
    e: Option<&Sexp<'s>>,
) -> Result<Vec<VariableText<'s>>, Refusal>
    ensures { Gives (λ v. map variable_view v.items) result
        (parameters_at (option_map (λ e. tree e.now) e.entry)) }
{
    match e {
        None => Ok(Vec::new(alloc)),
        Some(e) => match e {
            Sexp::Word(..) => Err(Refusal::NoSpelling),
            Sexp::List(members, _) => read_typed_variables(alloc, members),
        },
    }
}

/// Reads a precondition: always true where the field is absent.
///
/// # Errors
///
/// `NoSpelling` where the expression is no formula, and `Memory`.
pub(crate) fn read_precondition<'s>(
    alloc: Global,
    e: Option<&Sexp<'s>>,
) -> Result<FormulaText<'s>, Refusal>
    ensures { Gives formula_view result (precondition_at (option_map (λ e. tree e.now) e.entry)) }
{
    match e {
        None => Ok(FormulaText::And(Vec::new(alloc))),
        Some(e) => read_formula(alloc, e),
    }
}

fn are_none(es: &[Sexp<'_>]) -> bool
    ensures { result ≡ are_none (trees es.now) }
{
    match es {
        [] => true,
        [_first, ..] => false,
    }
}

// Whether an expression is `()` or `(and)`.
fn is_empty_list(e: &Sexp<'_>) -> bool
    ensures { result ≡ is_empty_list (tree e.now) }
{
    match conjuncts(e) {
        None => false,
        Some(es) => are_none(es),
    }
}

// Whether a field's expression is `()` or `(and)`, or the field is absent.
fn is_nothing(e: Option<&Sexp<'_>>) -> bool
    ensures { result ≡ is_nothing (option_map (λ e. tree e.now) e.entry) }
{
    match e {
        None => true,
        Some(e) => is_empty_list(e),
    }
}

/// Reads a task, from the members behind `:task` in the section at this place.
///
/// # Errors
///
/// `NoSpelling` where these are no symbol and fields of a task, and `Memory`.
pub(crate) fn read_task<'s>(
    alloc: Global,
    span: Span,
    es: &[Sexp<'s>],
) -> Result<TaskText<'s>, Refusal>
    ensures { Gives task_view result (task_of span (trees es.now)) }
{
    match es {
        [] => Err(Refusal::NoSpelling),
        [symbol, fields @ ..] => {
            let name = read_symbol(symbol)?;
            if !is_field_list(
                &[Slot::Parameters, Slot::Precondition, Slot::Effect],
                fields,
            ) {
                return Err(Refusal::NoSpelling);
            }
            if !is_nothing(field(Slot::Precondition, fields)) {
                return Err(Refusal::NoSpelling);
            }
            if !is_nothing(field(Slot::Effect, fields)) {
                return Err(Refusal::NoSpelling);
            }
            let parameters = read_parameters(alloc, field(Slot::Parameters, fields))?;
            Ok(TaskText::new(name, parameters, span))
        }
    }
}
