//! Literals.

ghost use Rattle.std.specs.Prelude.{◌≡◌};
ghost use Rattle.hv_syntax.specs.Values.{literal};
ghost use Rattle.hv_syntax.specs.Views.{atom_view, lent_atom_view, literal_view, lent_literal_view};

use crate::term::{AtomText, LentAtom};

/// An atom, or the negation of one.
#[derive(Drop)]
pub struct LiteralText<'s> {
    is_positive: bool,
    atom: AtomText<'s>,
}

impl<'s> LiteralText<'s> {
    /// The literal of this atom, which stands without `not` where it is positive.
    pub fn new(is_positive: bool, atom: AtomText<'s>) -> LiteralText<'s>
        ensures { literal_view result ≡ literal is_positive (atom_view atom.entry) }
    {
        LiteralText { is_positive, atom }
    }

    /// The same, lent.
    pub fn lend(&self) -> LentLiteral<'_, 's>
        ensures { lent_literal_view result ≡ literal_view self.now }
    {
        LentLiteral {
            is_positive: self.is_positive,
            atom: self.atom.lend(),
        }
    }
}

/// An atom, or the negation of one, lent.
#[derive(Clone, Copy)]
pub struct LentLiteral<'a, 's> {
    pub(crate) is_positive: bool,
    pub(crate) atom: LentAtom<'a, 's>,
}

impl<'a, 's> LentLiteral<'a, 's> {
    /// The literal of this atom, which stands without `not` where it is positive.
    pub fn new(is_positive: bool, atom: LentAtom<'a, 's>) -> LentLiteral<'a, 's>
        ensures { lent_literal_view result ≡ literal is_positive (lent_atom_view atom.entry) }
    {
        LentLiteral { is_positive, atom }
    }

    /// Whether the atom stands without `not`.
    pub fn is_positive(self) -> bool
        ensures { result ≡ (lent_literal_view self.entry).is_positive }
    {
        self.is_positive
    }

    /// The atom.
    pub fn atom(self) -> LentAtom<'a, 's>
        ensures { lent_atom_view result ≡ (lent_literal_view self.entry).atom }
    {
        self.atom
    }
}
