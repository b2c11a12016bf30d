//! Terms, and atoms and tasks over them.

ghost use Rattle.std.specs.Prelude.{◌≡◌, map};
ghost use Rattle.hv_syntax.specs.Values.{atom_with};
ghost use Rattle.hv_syntax.specs.Views.{word_view, term_view, atom_view, lent_atom_view};

use crate::word::Placed;

/// A term: the name of an object, or a variable.
#[derive(Clone, Copy)]
pub enum TermText<'s> {
    Constant(Placed<'s>),
    Variable(Placed<'s>),
}

/// A symbol and its terms: a predicate that holds of them, or a task over them.
#[derive(Drop)]
pub struct AtomText<'s> {
    symbol: Placed<'s>,
    terms: Vec<TermText<'s>>,
}

impl<'s> AtomText<'s> {
    /// The atom of this symbol and these terms.
    pub fn new(symbol: Placed<'s>, terms: Vec<TermText<'s>>) -> AtomText<'s>
        ensures { atom_view result
            ≡ atom_with (word_view symbol.entry) (map term_view terms.entry.items) }
    {
        AtomText { symbol, terms }
    }

    /// The predicate, or the name of the task.
    pub fn symbol(&self) -> Placed<'s>
        ensures { word_view result ≡ (atom_view self.now).symbol }
    {
        self.symbol
    }

    /// The terms, as written.
    pub fn terms(&self) -> &[TermText<'s>]
        ensures { map term_view result.now ≡ (atom_view self.now).terms }
    {
        &self.terms
    }

    /// The same, lent.
    pub fn lend(&self) -> LentAtom<'_, 's>
        ensures { lent_atom_view result ≡ atom_view self.now }
    {
        LentAtom {
            symbol: self.symbol,
            terms: &self.terms,
        }
    }
}

/// A symbol and its terms, lent.
#[derive(Clone, Copy)]
pub struct LentAtom<'a, 's> {
    pub(crate) symbol: Placed<'s>,
    pub(crate) terms: &'a [TermText<'s>],
}

impl<'a, 's> LentAtom<'a, 's> {
    /// The atom of this symbol and these terms.
    pub fn new(symbol: Placed<'s>, terms: &'a [TermText<'s>]) -> LentAtom<'a, 's>
        ensures { lent_atom_view result
            ≡ atom_with (word_view symbol.entry) (map term_view terms.now) }
    {
        LentAtom { symbol, terms }
    }

    /// The predicate, or the name of the task.
    pub fn symbol(self) -> Placed<'s>
        ensures { word_view result ≡ (lent_atom_view self.entry).symbol }
    {
        self.symbol
    }

    /// The terms, as written.
    pub fn terms(self) -> &'a [TermText<'s>]
        ensures { map term_view result.now ≡ (lent_atom_view self.entry).terms }
    {
        self.terms
    }
}
