//! The literals of an initial state.

ghost use Rattle.std.specs.Prelude.{◌≡◌, ◌-◌, ◌^◌, ◌++◌, ◌∷◌, [], min, length, IfOk, OnOk, MatchOption};

mod by_place;

use crate::ground::GroundLiteral;
use crate::init::by_place::LiteralsByPlace;
use crate::word::Placed;
use hv_text::{Headed, Memory};
use std::alloc::Global;

// A literal without its names.
#[derive(Clone, Copy)]
pub(crate) struct LiteralHead<'s> {
    pub(crate) is_positive: bool,
    pub(crate) symbol: Placed<'s>,
}

/// The literals of an initial state, as written. Where the text has their words at their places,
/// as for all that were read from it, the places alone are kept; from the first literal on for
/// which it has not, the words are.
#[derive(Drop)]
pub struct InitText<'s> {
    pub(crate) by_place: LiteralsByPlace<'s>,
    pub(crate) by_words: Headed<LiteralHead<'s>, Placed<'s>>,
}

/// The literals that are left, in their order.
#[derive(Clone, Copy)]
pub struct InitLiterals<'a, 's> {
    pub(crate) init: &'a InitText<'s>,
    pub(crate) next: usize,
    pub(crate) next_by_words: usize,
}

impl<'a, 's> InitLiterals<'a, 's> {
    ghost use Rattle.hv_syntax.specs.Views.{ground_literal_view};
    ghost use Rattle.hv_syntax.specs.ProblemViews.{literals_left};

    /// The literal that comes next, if one is left. Its names stand in the room, in place of what
    /// it has.
    ///
    /// # Errors
    ///
    /// `Memory` where a growth was refused.
    pub fn next_in<'r>(
        &mut self,
        room: &'r mut Vec<Placed<'s>>,
    ) -> Result<Option<GroundLiteral<'r, 's>>, Memory>
        ensures { IfOk result (λ o. MatchOption o (literals_left self.old ≡ [])
            (λ l. literals_left self.old ≡ ground_literal_view l ∷ literals_left self.new)) }
    {
        if self.next < self.init.by_place.len() {
            let literal = self.init.by_place.at(self.next, room)?;
            self.next += 1;
            return Ok(Some(literal));
        }
        if self.next_by_words < self.init.by_words.len() {
            let (head, names) = self.init.by_words.at(self.next_by_words);
            room.clear();
            room.extend_from_slice(names)?;
            self.next_by_words += 1;
            return Ok(Some(GroundLiteral::new(head.is_positive, head.symbol, room)));
        }
        Ok(None)
    }
}

impl<'s> InitText<'s> {
    ghost use Rattle.hv_syntax.specs.Views.{ground_literal_view};
    ghost use Rattle.hv_syntax.specs.ProblemViews.{init_view, literals_left};

    /// No literals. The text is that in which most words will stand at their places.
    ///
    /// # Errors
    ///
    /// `Memory` where a growth was refused.
    pub fn new(alloc: Global, text: &'s [u8]) -> Result<InitText<'s>, Memory>
        ensures { IfOk result (λ i. init_view i ≡ []) }
    {
        Ok(InitText {
            by_place: LiteralsByPlace::new(alloc, text)?,
            by_words: Headed::new(alloc)?,
        })
    }

    /// The literals, one after another.
    pub fn literals(&self) -> InitLiterals<'_, 's>
        ensures { literals_left result ≡ init_view self.now }
    {
        InitLiterals {
            init: self,
            next: 0,
            next_by_words: 0,
        }
    }

    /// How many literals there are; the largest number where there are more.
    pub fn len(&self) -> usize
        ensures { result ≡ min (length (init_view self.now)) (2 ^ 64 - 1) }
    {
        self.by_place.len().saturating_add(self.by_words.len())
    }

    /// Puts a literal behind the others.
    ///
    /// # Errors
    ///
    /// `Memory` where a growth was refused, or where all literals together would have 2^32 names.
    pub fn push(&mut self, literal: GroundLiteral<'_, 's>) -> Result<(), Memory>
        ensures { OnOk result (init_view self.new
            ≡ init_view self.old ++ ground_literal_view literal.entry ∷ []) }
    {
        if self.by_words.len() == 0 && self.by_place.push(literal)? {
            return Ok(());
        }
        let head = LiteralHead {
            is_positive: literal.is_positive,
            symbol: literal.symbol,
        };
        self.by_words.push(head, literal.names)
    }
}
