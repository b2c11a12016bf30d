//! Words in their places.

ghost use Rattle.std.specs.Prelude.{◌≡◌, IsTrue};
ghost use Rattle.hv_text.specs.Names.{text_of};
ghost use Rattle.hv_syntax.specs.Values.{word_at};
ghost use Rattle.hv_syntax.specs.Views.{word_view, word_in};
ghost use Rattle.hv_syntax.specs.inside.Places.{has_word, stands_in};

use hv_text::{Name, Span};

/// A word and its place.
#[derive(Clone, Copy)]
pub struct Placed<'s> {
    name: Name<'s>,
    pub(crate) span: Span,
}

impl<'s> Placed<'s> {
    /// This word at this place.
    pub fn new(name: Name<'s>, span: Span) -> Placed<'s>
        ensures { word_view result ≡ word_at (text_of name.entry) span }
    {
        Placed { name, span }
    }

    /// The word.
    pub fn name(self) -> Name<'s>
        ensures { text_of result ≡ (word_view self.entry).text }
    {
        self.name
    }

    /// Whether a text has the word at its place, letter for letter.
    pub(crate) fn stands_in(self, text: &[u8]) -> bool
        ensures { result ≡ stands_in text.now self.entry }
    {
        self.name.is_at(text, self.span)
    }

    /// The word that a text has at a place.
    pub(crate) fn at(text: &'s [u8], span: Span) -> Placed<'s>
        requires { IsTrue (has_word text.now span) }
        ensures { word_view result ≡ word_in text.now span }
    {
        Placed {
            name: Name::at(text, span),
            span,
        }
    }

    /// Its place.
    pub fn span(self) -> Span
        ensures { result ≡ (word_view self.entry).place }
    {
        self.span
    }
}
