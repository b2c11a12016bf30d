//! Literals over names.

ghost use Rattle.std.specs.Prelude.{◌≡◌, map};
ghost use Rattle.hv_syntax.specs.Values.{literal, atom_with};
ghost use Rattle.hv_syntax.specs.Views.{word_view, constant_view, ground_literal_view};

use crate::word::Placed;

/// An atom whose terms are names, or the negation of one, lent.
#[derive(Clone, Copy)]
pub struct GroundLiteral<'a, 's> {
    pub(crate) is_positive: bool,
    pub(crate) symbol: Placed<'s>,
    pub(crate) names: &'a [Placed<'s>],
}

impl<'a, 's> GroundLiteral<'a, 's> {
    /// The literal of this predicate and these names, which stands without `not` where it is
    /// positive.
    pub fn new(
        is_positive: bool,
        symbol: Placed<'s>,
        names: &'a [Placed<'s>],
    ) -> GroundLiteral<'a, 's>
        ensures { ground_literal_view result ≡ literal is_positive
            (atom_with (word_view symbol.entry) (map constant_view names.now)) }
    {
        GroundLiteral {
            is_positive,
            symbol,
            names,
        }
    }

    /// Whether the atom stands without `not`.
    pub fn is_positive(self) -> bool
        ensures { result ≡ (ground_literal_view self.entry).is_positive }
    {
        self.is_positive
    }

    /// The predicate.
    pub fn symbol(self) -> Placed<'s>
        ensures { word_view result ≡ (ground_literal_view self.entry).atom.symbol }
    {
        self.symbol
    }

    /// The names, as written.
    pub fn names(self) -> &'a [Placed<'s>]
        ensures { map constant_view result.now ≡ (ground_literal_view self.entry).atom.terms }
    {
        self.names
    }
}
