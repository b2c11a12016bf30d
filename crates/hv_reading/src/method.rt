//! Methods.

ghost use Rattle.std.specs.Prelude.{◌≡◌, map, option_map};
ghost use Rattle.hv_text.specs.Trees.{tree, trees};
ghost use Rattle.hv_reading.specs.inside.Reading.{Gives};
ghost use Rattle.hv_reading.specs.inside.Declarations.{task_at, method_named, method_of};
ghost use Rattle.hv_syntax.specs.Views.{word_view, variable_view, atom_view, formula_view};
ghost use Rattle.hv_syntax.specs.NetworkViews.{network_view};
ghost use Rattle.hv_syntax.specs.DeclarationViews.{method_view};

use crate::field::{Slot, field, is_field_list};
use crate::network::read_network;
use crate::refusal::Refusal;
use crate::task::{read_parameters, read_precondition};
use crate::term::read_atom;
use crate::word::read_symbol;
use hv_syntax::{AtomText, MethodText, Placed};
use hv_text::{Sexp, Span};
use std::alloc::Global;

// The task of a method, which must be written.
fn read_task_at<'s>(alloc: Global, e: Option<&Sexp<'s>>) -> Result<AtomText<'s>, Refusal>
    ensures { Gives atom_view result (task_at (option_map (λ e. tree e.now) e.entry)) }
{
    match e {
        None => Err(Refusal::NoSpelling),
        Some(e) => read_atom(alloc, e),
    }
}

// The fields of a method of this name, in the section at this place.
fn read_fields<'s>(
    alloc: Global,
    span: Span,
    fields: &[Sexp<'s>],
    name: Placed<'s>,
) -> Result<MethodText<'s>, Refusal>
    ensures { Gives method_view result
        (method_named span (trees fields.now) (word_view name.entry)) }
{
    let slots = [
        Slot::Parameters,
        Slot::Task,
        Slot::Precondition,
        Slot::Subtasks,
        Slot::OrderedSubtasks,
        Slot::Ordering,
        Slot::Constraints,
    ];
    if !is_field_list(&slots, fields) {
        return Err(Refusal::NoSpelling);
    }
    let parameters = read_parameters(alloc, field(Slot::Parameters, fields))?;
    let task = read_task_at(alloc, field(Slot::Task, fields))?;
    let network = read_network(alloc, fields)?;
    let precondition = read_precondition(alloc, field(Slot::Precondition, fields))?;
    Ok(MethodText::new(name, parameters, task, precondition, network, span))
}

/// Reads a method, from the members behind `:method` in the section at this place.
///
/// # Errors
///
/// `NoSpelling` where these are no symbol and fields of a method, and `Memory`.
pub(crate) fn read_method<'s>(
    alloc: Global,
    span: Span,
    es: &[Sexp<'s>],
) -> Result<MethodText<'s>, Refusal>
    ensures { Gives method_view result (method_of span (trees es.now)) }
{
    match es {
        [] => Err(Refusal::NoSpelling),
        [symbol, fields @ ..] => {
            let name = read_symbol(symbol)?;
            read_fields(alloc, span, fields, name)
        }
    }
}
