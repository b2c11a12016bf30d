//! Tasks.

ghost use Rattle.std.specs.Prelude.{◌≡◌, map};
ghost use Rattle.hv_syntax.specs.Values.{task};
ghost use Rattle.hv_syntax.specs.Views.{word_view, variable_view};
ghost use Rattle.hv_syntax.specs.DeclarationViews.{task_view};

use crate::variable::VariableText;
use crate::word::Placed;
use hv_text::Span;

/// A task that methods decompose.
#[derive(Drop)]
pub struct TaskText<'s> {
    name: Placed<'s>,
    parameters: Vec<VariableText<'s>>,
    span: Span,
}

impl<'s> TaskText<'s> {
    /// The task of this name and these parameters, with the place of its section.
    pub fn new(name: Placed<'s>, parameters: Vec<VariableText<'s>>, span: Span) -> TaskText<'s>
        ensures { task_view result
            ≡ task span (word_view name.entry) (map variable_view parameters.entry.items) }
    {
        TaskText {
            name,
            parameters,
            span,
        }
    }

    /// Its name.
    pub fn name(&self) -> Placed<'s>
        ensures { word_view result ≡ (task_view self.now).name }
    {
        self.name
    }

    /// Its parameters, as written.
    pub fn parameters(&self) -> &[VariableText<'s>]
        ensures { map variable_view result.now ≡ (task_view self.now).parameters }
    {
        &self.parameters
    }

    /// The place of its section.
    pub fn span(&self) -> Span
        ensures { result ≡ (task_view self.now).place }
    {
        self.span
    }
}
