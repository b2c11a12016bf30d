//! What holds of the words, expressions and names of any text. These functions do nothing: their
//! contracts are the laws.

ghost use Rattle.std.specs.Prelude.{◌≡◌, ◌↔◌, ◌≤◌, ◌⊎◌, ℕ, List, true, false, Some, Contains, length, map, slice_get};
ghost use Rattle.std.specs.Str.{bytes_eq};
ghost use Rattle.std.specs.Cmp.Lexicographic.{slice_cmp};
ghost use Rattle.std.specs.Ordering.{on, nat_cmp, is_eq};
ghost use Rattle.hv_text.specs.Bytes.{is_blank};
ghost use Rattle.hv_text.specs.Names.{text_of, hash_input_of};
ghost use Rattle.hv_text.specs.Words.{Piece, uncommented, pieces};
ghost use Rattle.hv_text.specs.Runs.{IsInComment, StandsIn, IsInOrder, IsHeldOnce};
ghost use Rattle.hv_text.specs.Trees.{Trees};
ghost use Rattle.hv_text.specs.Sexps.{spelled_all, AreExpressions, HasExpressions, IsOwnFault, HasOwnFault};
ghost use Rattle.hv_text.specs.Shapes.{bare_piece, bare_trees, AreTidy, depth_all};
ghost use Rattle.hv_text.specs.declared.span.Span.{Span};
ghost use Rattle.hv_text.specs.declared.fault.TextKind.{TextKind};
ghost use Rattle.hv_text.specs.declared.fault.TheConstants.{MOST_BYTES, MOST_OPEN};

use crate::name::Name;

/// A comment is seen as blanks, and the rest of a text as it is.
pub fn comments_are_blanks(text: &[u8])
    ensures blank { (k : ℕ) → IsInComment text.now k
        → slice_get (uncommented false text.now) k ≡ Some 32 }
    ensures same { (k : ℕ) → ¬ IsInComment text.now k
        → slice_get (uncommented false text.now) k ≡ slice_get text.now k }
{}

/// The words of a text are its maximal runs of word bytes outside comments, and its parentheses and
/// bad bytes stand there too.
pub fn words_are_maximal_runs(text: &[u8])
    ensures { (p : Piece) → Contains (pieces text.now) p ↔ StandsIn text.now p }
{}

/// They stand in the order of the text, and apart from each other.
pub fn words_are_in_order()
    ensures { (text : List ℕ) → IsInOrder 0 (pieces text) }
{}

/// Each byte that is neither white space nor in a comment lies in exactly one of them.
pub fn words_cover_the_text(text: &[u8])
    ensures { (k b : ℕ) → slice_get text.now k ≡ Some b → is_blank b ≡ false
        → ¬ IsInComment text.now k → IsHeldOnce (pieces text.now) k }
{}

/// A text has one reading as expressions, their places included.
pub fn a_text_has_one_reading()
    ensures { (text : List ℕ) (ts us : Trees) → AreExpressions text ts → AreExpressions text us
        → ts ≡ us }
{}

/// A text has expressions or one fault of its own, never both.
pub fn expressions_or_one_fault()
    ensures some { (text : List ℕ) → HasExpressions text ⊎ HasOwnFault text }
    ensures never_both { (text : List ℕ) (ts : Trees) (k : TextKind) (s : Span)
        → AreExpressions text ts → IsOwnFault text k s → ⊥ }
    ensures one { (text : List ℕ) (k l : TextKind) (s t : Span) → IsOwnFault text k s
        → IsOwnFault text l t → (k ≡ l) × (s ≡ t) }
{}

/// The words of a text's expressions are words in lower case, and no more parentheses are open at
/// once in them than may be.
pub fn expressions_are_tidy()
    ensures { (text : List ℕ) (ts : Trees) → AreExpressions text ts
        → AreTidy ts × (depth_all ts ≤ MOST_OPEN) }
{}

/// A text within the limit has the expressions that it spells, places aside, where no more
/// parentheses are open at once in them than may be.
pub fn texts_have_what_they_spell()
    ensures { (text : List ℕ) (ts : Trees) → length text ≤ MOST_BYTES
        → map bare_piece (pieces text) ≡ map bare_piece (spelled_all ts) → depth_all ts ≤ MOST_OPEN
        → (us : Trees) × AreExpressions text us × (bare_trees us ≡ bare_trees ts) }
{}

/// Two names are equal exactly where their lower case is the same, and exactly where their order
/// says so; equal names are hashed alike.
pub fn names_agree(one: Name<'_>, other: Name<'_>)
    ensures equal { on text_of bytes_eq one.entry other.entry ≡ true
        ↔ text_of one.entry ≡ text_of other.entry }
    ensures order { is_eq (on text_of (slice_cmp nat_cmp) one.entry other.entry)
        ≡ on text_of bytes_eq one.entry other.entry }
    ensures hash { text_of one.entry ≡ text_of other.entry
        → hash_input_of one.entry ≡ hash_input_of other.entry }
{}
