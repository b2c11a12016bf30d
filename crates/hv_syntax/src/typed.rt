//! Names and their types.

ghost use Rattle.std.specs.Prelude.{◌≡◌};
ghost use Rattle.hv_syntax.specs.Values.{typed};
ghost use Rattle.hv_syntax.specs.Views.{typed_view, type_view, word_view};

use crate::word::Placed;

/// The type of a name.
#[derive(Clone, Copy)]
pub enum TypeText<'s> {
    /// None is written: the type is `object`.
    Object,
    /// The type of this name.
    Named(Placed<'s>),
}

/// A name, and its type.
#[derive(Clone, Copy)]
pub struct TypedText<'s> {
    name: Placed<'s>,
    of: TypeText<'s>,
}

impl<'s> TypedText<'s> {
    /// The name of this type.
    pub fn new(name: Placed<'s>, of: TypeText<'s>) -> TypedText<'s>
        ensures { typed_view result ≡ typed (type_view of.entry) (word_view name.entry) }
    {
        TypedText { name, of }
    }

    /// The name.
    pub fn name(self) -> Placed<'s>
        ensures { word_view result ≡ (typed_view self.entry).name }
    {
        self.name
    }

    /// Its type.
    pub fn of(self) -> TypeText<'s>
        ensures { type_view result ≡ (typed_view self.entry).of }
    {
        self.of
    }
}
