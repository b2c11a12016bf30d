//! Literals by the places of their words, which take a third of what the words take.

ghost use Rattle.std.specs.Prelude.{◌≡◌, ◌<◌, ◌++◌, ◌∷◌, [], Some, true, false, map, length, slice_get, IfOk};
ghost use Rattle.std.specs.List.{list_all};
ghost use Rattle.hv_syntax.specs.Views.{word_view, word_in, ground_literal_view};
ghost use Rattle.hv_syntax.specs.inside.Places.{has_word, have_words, stands_in};

use crate::ground::GroundLiteral;
use crate::word::Placed;
use hv_text::{Headed, Memory, Span};
use std::alloc::Global;

/// A literal by the places of its words, without its names.
#[derive(Clone, Copy)]
pub(crate) struct PlacedHead {
    pub(crate) is_positive: bool,
    pub(crate) symbol: Span,
}

/// Literals whose words stand in one text, by their places there.
#[derive(Drop)]
pub(crate) struct LiteralsByPlace<'s> {
    pub(crate) text: &'s [u8],
    pub(crate) literals: Headed<PlacedHead, Span>,
    // where the places of one literal are gathered
    places: Vec<Span>,
    ghost are_words: { list_all (have_words text.now) literals ≡ true },
}

// Whether a text has these words at their places.
fn all_stand_in(text: &[u8], words: &[Placed<'_>]) -> bool
    ensures { result ≡ list_all (stands_in text.now) words.now }
{
    for word in words {
        if !word.stands_in(text) {
            return false;
        }
    }
    true
}

// Puts the places of words into a room, in place of what it has.
fn fill_places(words: &[Placed<'_>], room: &mut Vec<Span>) -> Result<(), Memory>
    ensures { IfOk result (λ _. room.new.items ≡ map (λ w. w.span) words.now) }
{
    room.clear();
    for word in words {
        room.push(word.span)?;
    }
    Ok(())
}

// Puts the words that a text has at these places into a room, in place of what it has.
fn fill_words<'s>(text: &'s [u8], places: &[Span], room: &mut Vec<Placed<'s>>) -> Result<(), Memory>
    requires { list_all (has_word text.now) places.now ≡ true }
    ensures { IfOk result (λ _. map word_view room.new.items ≡ map (word_in text.now) places.now) }
{
    room.clear();
    for place in places {
        room.push(Placed::at(text, *place))?;
    }
    Ok(())
}

impl<'s> LiteralsByPlace<'s> {
    ghost use Rattle.hv_syntax.specs.ProblemViews.{by_place_view};

    /// No literals of this text.
    ///
    /// # Errors
    ///
    /// `Memory` where a growth was refused.
    pub(crate) fn new(alloc: Global, text: &'s [u8]) -> Result<LiteralsByPlace<'s>, Memory>
        ensures { IfOk result (λ l. by_place_view l ≡ []) }
    {
        Ok(LiteralsByPlace {
            text,
            literals: Headed::new(alloc)?,
            places: Vec::new(alloc),
        })
    }

    /// How many literals there are.
    pub(crate) fn len(&self) -> usize
        ensures { result ≡ length (by_place_view self.now) }
    {
        self.literals.len()
    }

    /// Puts a literal behind the others, where the text has its words at their places; and whether
    /// it does.
    ///
    /// # Errors
    ///
    /// `Memory` where a growth was refused, or where all literals together would have 2^32 names.
    pub(crate) fn push(&mut self, literal: GroundLiteral<'_, 's>) -> Result<bool, Memory>
        ensures put { IfOk result (λ b. b ≡ true → by_place_view self.new
            ≡ by_place_view self.old ++ ground_literal_view literal.entry ∷ []) }
        ensures same { IfOk result (λ b. b ≡ false → by_place_view self.new
            ≡ by_place_view self.old) }
    {
        if !literal.symbol.stands_in(self.text) || !all_stand_in(self.text, literal.names) {
            return Ok(false);
        }
        let head = PlacedHead {
            is_positive: literal.is_positive,
            symbol: literal.symbol.span,
        };
        fill_places(literal.names, &mut self.places)?;
        self.literals.push(head, &self.places)?;
        Ok(true)
    }

    /// The literal of a place; its names stand in the room, in place of what it has.
    ///
    /// # Errors
    ///
    /// `Memory` where a growth was refused.
    pub(crate) fn at<'r>(
        &self,
        place: usize,
        room: &'r mut Vec<Placed<'s>>,
    ) -> Result<GroundLiteral<'r, 's>, Memory>
        requires { place < length (by_place_view self.now) }
        ensures { IfOk result (λ l. slice_get (by_place_view self.now) place
            ≡ Some (ground_literal_view l)) }
    {
        let (head, places) = self.literals.at(place);
        fill_words(self.text, places, room)?;
        let symbol = Placed::at(self.text, head.symbol);
        Ok(GroundLiteral::new(head.is_positive, symbol, room))
    }
}
