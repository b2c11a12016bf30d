//! The expressions of a text one at a time, with no tree of it all.

ghost use Rattle.std.specs.Prelude.{◌≡◌, ◌<◌, ◌≤◌, ◌∷◌, ◌↔◌, List, length, IsTrue, IfOk, IfSome, IfNone, MatchOption};
ghost use Rattle.hv_text.specs.Trees.{tree, trees, list, none};
ghost use Rattle.hv_text.specs.Words.{Piece, piece_of, pieces};
ghost use Rattle.hv_text.specs.Sexps.{AreExpressions};
ghost use Rattle.hv_text.specs.Rests.{last, upto, lost, IsOut, step, add, add_all, enclose, here, rest_from};
ghost use Rattle.hv_text.specs.Cursors.{text_at, rest_at, left_at};
ghost use Rattle.hv_text.specs.declared.fault.TheConstants.{MOST_BYTES, MOST_OPEN};

use crate::at::Cursor;
use crate::fault::{MOST_BYTES, MOST_OPEN};
use crate::refusal::Memory;
use crate::sexp::Sexp;
use crate::span::Span;
use crate::words::{Word, next_word};
use std::alloc::Global;

// The list of these members, from its parenthesis at `start` to the one that ends at `past`.
fn list_of<'s>(members: Vec<Sexp<'s>>, start: u32, past: u32) -> Sexp<'s>
    ensures { tree result ≡ list (trees members.entry.items)
        (record { start = start; past = past }) }
{
    Sexp::List(members, Span { start, past })
}

impl<'s> Cursor<'s> {
    /// The beginning of a text; None where it is larger than a text may be.
    pub fn new(text: &'s [u8]) -> Option<Cursor<'s>>
        ensures none { IfNone result (MOST_BYTES < length text.now) }
        ensures size { IfSome result (λ _. length text.now ≤ MOST_BYTES) }
        ensures start { IfSome result (λ c. rest_at c ≡ rest_from 0 (pieces text.now)) }
        ensures are { IfSome result (λ c. rest_at c ≡ last (here (rest_at c))
            → AreExpressions text.now (here (rest_at c))) }
    {
        if text.len() > MOST_BYTES {
            return None;
        }
        Some(Cursor {
            text,
            at: 0,
            depth: 0,
        })
    }

    /// The whole text.
    pub fn text(self) -> &'s [u8]
        ensures { result.now ≡ text_at self.entry }
    {
        self.text
    }

    /// The word or parenthesis that comes next, and the place behind it; None at the end of the
    /// text and where a fault of the text comes next. It is inlined, as both take longer to hand
    /// over than to find.
    #[inline(always)]
    pub fn next(self) -> Option<(Word<'s>, Cursor<'s>)>
        ensures none { IfNone result (IsOut (rest_at self.entry)) }
        ensures some { IfSome result (λ p. rest_at self.entry ≡ step (piece_of p.0) (rest_at p.1)) }
        ensures less { IfSome result (λ p. left_at p.1 < left_at self.entry) }
    {
        let Ok(Some(found)) = next_word(self.text, self.at) else {
            return None;
        };
        let depth = self.depth_behind(found.word)?;
        Some((
            found.word,
            Cursor {
                text: self.text,
                at: found.past,
                depth,
            },
        ))
    }

    // How many parentheses are open behind a word; None where it is one too many.
    #[inline(always)]
    fn depth_behind(self, word: Word<'s>) -> Option<usize>
        ensures { (ps : List Piece) → MatchOption result
            (rest_from self.entry.depth (piece_of word.entry ∷ ps) ≡ lost none)
            (λ n. (n ≤ MOST_OPEN) × (rest_from self.entry.depth (piece_of word.entry ∷ ps)
            ≡ step (piece_of word.entry) (rest_from n ps))) }
    {
        match word {
            Word::Name(..) => Some(self.depth),
            Word::Right(_) => self.depth.checked_sub(1),
            Word::Left(_) => {
                if self.depth == MOST_OPEN {
                    None
                } else {
                    Some(self.depth + 1)
                }
            }
        }
    }

    /// Whether nothing but white space and comments is left.
    pub fn is_over(self) -> bool
        ensures { IsTrue result ↔ (rest_at self.entry ≡ last none) }
    {
        matches!(next_word(self.text, self.at), Ok(None))
    }

    /// Behind the `(` that comes next, with its place; None where none does.
    pub fn enter(self) -> Option<(Span, Cursor<'s>)>
        ensures some { IfSome result (λ p. rest_at self.entry ≡ enclose p.0 (rest_at p.1)) }
        ensures less { IfSome result (λ p. left_at p.1 < left_at self.entry) }
    {
        match self.next() {
            None => None,
            Some((word, after)) => match word {
                Word::Left(place) => Some((place, after)),
                Word::Name(..) => None,
                Word::Right(_) => None,
            },
        }
    }

    /// Behind the `)` that comes next, with the place where it ends; None where none does.
    pub fn leave(self) -> Option<(u32, Cursor<'s>)>
        ensures some { IfSome result (λ p. rest_at self.entry ≡ upto none p.0 (rest_at p.1)) }
        ensures none { IfNone result
            (here (rest_at self.entry) ≡ none → IsOut (rest_at self.entry)) }
        ensures less { IfSome result (λ p. left_at p.1 < left_at self.entry) }
    {
        match self.next() {
            None => None,
            Some((word, after)) => match word {
                Word::Right(place) => Some((place.past, after)),
                Word::Name(..) => None,
                Word::Left(_) => None,
            },
        }
    }

    /// The expression that comes next, and the place behind it; None at the end of the list, or of
    /// the text. It is inlined, so that a word that stands in a list is put there at once.
    ///
    /// # Errors
    ///
    /// Memory ran out.
    #[cycle(expressions)]
    #[inline(always)]
    pub fn read_one(self, alloc: Global) -> Result<Option<(Sexp<'s>, Cursor<'s>)>, Memory>
        ensures none { IfOk result (λ o. IfNone o (here (rest_at self.entry) ≡ none)) }
        ensures some { IfOk result (λ o. IfSome o
            (λ p. rest_at self.entry ≡ add (tree p.0) (rest_at p.1))) }
        ensures less { IfOk result (λ o. IfSome o (λ p. left_at p.1 < left_at self.entry)) }
    {
        match self.next() {
            None => Ok(None),
            Some((word, after)) => match word {
                Word::Right(_) => Ok(None),
                Word::Name(name, place) => Ok(Some((Sexp::Word(name, place), after))),
                Word::Left(place) => {
                    let (members, end) = after.read_rest(alloc)?;
                    match end.leave() {
                        Some((past, behind)) => {
                            Ok(Some((list_of(members, place.start, past), behind)))
                        }
                        None => Ok(None),
                    }
                }
            },
        }
    }

    /// The expressions up to the end of the list, or of the text, and the place there.
    ///
    /// # Errors
    ///
    /// Memory ran out.
    #[cycle(expressions)]
    pub fn read_rest(self, alloc: Global) -> Result<(Vec<Sexp<'s>>, Cursor<'s>), Memory>
        ensures all { IfOk result (λ p. rest_at self.entry
            ≡ add_all (trees p.0.items) (rest_at p.1)) }
        ensures end { IfOk result (λ p. here (rest_at p.1) ≡ none) }
        ensures less { IfOk result (λ p. left_at p.1 ≤ left_at self.entry) }
    {
        let mut cursor = self;
        let mut members = Vec::new(alloc);
        'members: while let Some((e, after)) = cursor.read_one(alloc)? {
            cursor = after;
            members.push(e)?;
        }
        Ok((members, cursor))
    }
}
