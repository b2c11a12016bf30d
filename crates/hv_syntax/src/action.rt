//! Actions.

ghost use Rattle.std.specs.Prelude.{◌≡◌, map};
ghost use Rattle.hv_syntax.specs.Values.{action};
ghost use Rattle.hv_syntax.specs.Views.{word_view, variable_view, formula_view, effect_view};
ghost use Rattle.hv_syntax.specs.DeclarationViews.{action_view};

use crate::effect::EffectText;
use crate::formula::FormulaText;
use crate::variable::VariableText;
use crate::word::Placed;
use hv_text::Span;

/// An action: it may be done where its precondition holds, and brings its effect about.
#[derive(Drop)]
pub struct ActionText<'s> {
    name: Placed<'s>,
    parameters: Vec<VariableText<'s>>,
    precondition: FormulaText<'s>,
    effect: EffectText<'s>,
    span: Span,
}

impl<'s> ActionText<'s> {
    /// The action of these parts, with the place of its section.
    pub fn new(
        name: Placed<'s>,
        parameters: Vec<VariableText<'s>>,
        precondition: FormulaText<'s>,
        effect: EffectText<'s>,
        span: Span,
    ) -> ActionText<'s>
        ensures { action_view result ≡ action span (word_view name.entry)
            (map variable_view parameters.entry.items, effect_view effect.entry)
            (formula_view precondition.entry) }
    {
        ActionText {
            name,
            parameters,
            precondition,
            effect,
            span,
        }
    }

    /// Its name.
    pub fn name(&self) -> Placed<'s>
        ensures { word_view result ≡ (action_view self.now).name }
    {
        self.name
    }

    /// Its parameters, as written.
    pub fn parameters(&self) -> &[VariableText<'s>]
        ensures { map variable_view result.now ≡ (action_view self.now).parameters }
    {
        &self.parameters
    }

    /// Its precondition.
    pub fn precondition(&self) -> &FormulaText<'s>
        ensures { formula_view result.now ≡ (action_view self.now).precondition }
    {
        &self.precondition
    }

    /// Its effect.
    pub fn effect(&self) -> &EffectText<'s>
        ensures { effect_view result.now ≡ (action_view self.now).effect }
    {
        &self.effect
    }

    /// The place of its section.
    pub fn span(&self) -> Span
        ensures { result ≡ (action_view self.now).place }
    {
        self.span
    }
}
