//! Actions.

ghost use Rattle.std.specs.Prelude.{◌≡◌, map, option_map};
ghost use Rattle.hv_text.specs.Trees.{tree, trees};
ghost use Rattle.hv_reading.specs.inside.Reading.{Gives};
ghost use Rattle.hv_reading.specs.inside.Declarations.{effect_at, action_of};
ghost use Rattle.hv_syntax.specs.Views.{word_view, variable_view, formula_view, effect_view};
ghost use Rattle.hv_syntax.specs.DeclarationViews.{action_view};

use crate::effect::read_effect;
use crate::field::{Slot, field, is_field_list};
use crate::refusal::Refusal;
use crate::task::{read_parameters, read_precondition};
use crate::word::read_symbol;
use hv_syntax::{ActionText, EffectText};
use hv_text::{Sexp, Span};
use std::alloc::Global;

// An effect: none where the field is absent.
fn read_effect_at<'s>(alloc: Global, e: Option<&Sexp<'s>>) -> Result<EffectText<'s>, Refusal>
    ensures { Gives effect_view result (effect_at (option_map (λ e. tree e.now) e.entry)) }
{
    match e {
        None => Ok(EffectText::nothing(alloc)),
        Some(e) => read_effect(alloc, e),
    }
}

/// Reads an action, from the members behind `:action` in the section at this place.
///
/// # Errors
///
/// `NoSpelling` where these are no symbol and fields of an action, and `Memory`.
pub(crate) fn read_action<'s>(
    alloc: Global,
    span: Span,
    es: &[Sexp<'s>],
) -> Result<ActionText<'s>, Refusal>
    ensures { Gives action_view result (action_of span (trees es.now)) }
{
    match es {
        [] => Err(Refusal::NoSpelling),
        [symbol, fields @ ..] => {
            let name = read_symbol(symbol)?;
            if !is_field_list(
                &[Slot::Parameters, Slot::Precondition, Slot::Effect],
                fields,
            ) {
                return Err(Refusal::NoSpelling);
            }
            let parameters = read_parameters(alloc, field(Slot::Parameters, fields))?;
            let effect = read_effect_at(alloc, field(Slot::Effect, fields))?;
            let precondition = read_precondition(alloc, field(Slot::Precondition, fields))?;
            Ok(ActionText::new(name, parameters, precondition, effect, span))
        }
    }
}
