//! Methods.

ghost use Rattle.std.specs.Prelude.{◌≡◌, map};
ghost use Rattle.hv_syntax.specs.Values.{method};
ghost use Rattle.hv_syntax.specs.Views.{word_view, variable_view, atom_view, formula_view};
ghost use Rattle.hv_syntax.specs.NetworkViews.{network_view};
ghost use Rattle.hv_syntax.specs.DeclarationViews.{method_view};

use crate::formula::FormulaText;
use crate::network::NetworkText;
use crate::term::AtomText;
use crate::variable::VariableText;
use crate::word::Placed;
use hv_text::Span;

/// A method: where its precondition holds, its network may stand for its task.
#[derive(Drop)]
pub struct MethodText<'s> {
    name: Placed<'s>,
    parameters: Vec<VariableText<'s>>,
    task: AtomText<'s>,
    precondition: FormulaText<'s>,
    network: NetworkText<'s>,
    span: Span,
}

impl<'s> MethodText<'s> {
    /// The method of these parts, with the place of its section.
    pub fn new(
        name: Placed<'s>,
        parameters: Vec<VariableText<'s>>,
        task: AtomText<'s>,
        precondition: FormulaText<'s>,
        network: NetworkText<'s>,
        span: Span,
    ) -> MethodText<'s>
        ensures { method_view result ≡ method span (word_view name.entry) (
          (map variable_view parameters.entry.items, atom_view task.entry),
          network_view network.entry,
        ) (formula_view precondition.entry) }
    {
        MethodText {
            name,
            parameters,
            task,
            precondition,
            network,
            span,
        }
    }

    /// Its name.
    pub fn name(&self) -> Placed<'s>
        ensures { word_view result ≡ (method_view self.now).name }
    {
        self.name
    }

    /// Its parameters, as written.
    pub fn parameters(&self) -> &[VariableText<'s>]
        ensures { map variable_view result.now ≡ (method_view self.now).parameters }
    {
        &self.parameters
    }

    /// The task that it is for.
    pub fn task(&self) -> &AtomText<'s>
        ensures { atom_view result.now ≡ (method_view self.now).task }
    {
        &self.task
    }

    /// Its precondition.
    pub fn precondition(&self) -> &FormulaText<'s>
        ensures { formula_view result.now ≡ (method_view self.now).precondition }
    {
        &self.precondition
    }

    /// Its network.
    pub fn network(&self) -> &NetworkText<'s>
        ensures { network_view result.now ≡ (method_view self.now).network }
    {
        &self.network
    }

    /// The place of its section.
    pub fn span(&self) -> Span
        ensures { result ≡ (method_view self.now).place }
    {
        self.span
    }
}
