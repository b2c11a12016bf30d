//! Variables and their types.

ghost use Rattle.std.specs.Prelude.{◌≡◌, map};
ghost use Rattle.hv_syntax.specs.Values.{typed};
ghost use Rattle.hv_syntax.specs.Views.{word_view, variable_view};

use crate::word::Placed;
use std::rc::Rc;

/// A variable, and its type.
#[derive(Drop)]
pub struct VariableText<'s> {
    name: Placed<'s>,
    types: Rc<Vec<Placed<'s>>>,
}

impl<'s> VariableText<'s> {
    /// The variable of the type that has these names. Variables may share them.
    pub fn new(name: Placed<'s>, types: Rc<Vec<Placed<'s>>>) -> VariableText<'s>
        ensures { variable_view result
            ≡ typed (map word_view types.entry.value.items) (word_view name.entry) }
    {
        VariableText { name, types }
    }

    /// The variable.
    pub fn name(&self) -> Placed<'s>
        ensures { word_view result ≡ (variable_view self.now).name }
    {
        self.name
    }

    /// The names of its type, as written: an object of one of them is of the type. Where none is
    /// written, the type is `object`.
    pub fn types(&self) -> &[Placed<'s>]
        ensures { map word_view result.now ≡ (variable_view self.now).of }
    {
        &self.types
    }
}
