//! Predicates.

ghost use Rattle.std.specs.Prelude.{◌≡◌, map};
ghost use Rattle.hv_syntax.specs.Values.{predicate};
ghost use Rattle.hv_syntax.specs.Views.{word_view, variable_view};
ghost use Rattle.hv_syntax.specs.DeclarationViews.{predicate_view};

use crate::variable::VariableText;
use crate::word::Placed;

/// A predicate, and its parameters.
#[derive(Drop)]
pub struct PredicateText<'s> {
    name: Placed<'s>,
    parameters: Vec<VariableText<'s>>,
}

impl<'s> PredicateText<'s> {
    /// The predicate of this name and these parameters.
    pub fn new(name: Placed<'s>, parameters: Vec<VariableText<'s>>) -> PredicateText<'s>
        ensures { predicate_view result
            ≡ predicate (word_view name.entry) (map variable_view parameters.entry.items) }
    {
        PredicateText { name, parameters }
    }

    /// Its name.
    pub fn name(&self) -> Placed<'s>
        ensures { word_view result ≡ (predicate_view self.now).name }
    {
        self.name
    }

    /// Its parameters, as written.
    pub fn parameters(&self) -> &[VariableText<'s>]
        ensures { map variable_view result.now ≡ (predicate_view self.now).parameters }
    {
        &self.parameters
    }
}
