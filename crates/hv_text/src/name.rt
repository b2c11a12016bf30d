//! Names, in which the case of ASCII letters does not matter.

ghost use Rattle.std.specs.Prelude.{◌≡◌, ◌++◌, ◌<◌, ◌≤◌, ℕ, IsTrue, IfSome, IfNone, ◌↔◌, IsSome, map, length, fold};
ghost use Rattle.std.specs.List.{list_all};
ghost use Rattle.std.specs.Str.{bytes_eq};
ghost use Rattle.std.specs.Cmp.Lexicographic.{slice_cmp};
ghost use Rattle.std.specs.Ordering.{nat_cmp};
ghost use Rattle.hv_text.specs.Bytes.{is_word_byte, is_word, lower, filled, words_of, bytes_at};

use crate::lists::between;
use crate::span::Span;
use std::cmp::Ordering;
use std::hash::{Hash, Hasher};

/// A borrowed word.
#[derive(Clone, Copy)]
pub struct Name<'s> {
    bytes: &'s [u8],
    pub ghost is_word: { IsTrue (is_word bytes.now) },
}

// For each byte a 1 where it may stand in a word: one look costs less than comparisons, and a text
// has many bytes.
const WORD_BYTES: [u8; 256] = [
    0, 0, 0, 0, 0, 0, 0, 0, 0, 0, 0, 0, 0, 0, 0, 0, 0, 0, 0, 0, 0, 0, 0, 0, 0, 0, 0, 0, 0, 0, 0, 0,
    0, 1, 1, 1, 1, 1, 1, 1, 0, 0, 1, 1, 1, 1, 1, 1, 1, 1, 1, 1, 1, 1, 1, 1, 1, 1, 1, 0, 1, 1, 1, 1,
    1, 1, 1, 1, 1, 1, 1, 1, 1, 1, 1, 1, 1, 1, 1, 1, 1, 1, 1, 1, 1, 1, 1, 1, 1, 1, 1, 1, 1, 1, 1, 1,
    1, 1, 1, 1, 1, 1, 1, 1, 1, 1, 1, 1, 1, 1, 1, 1, 1, 1, 1, 1, 1, 1, 1, 1, 1, 1, 1, 1, 1, 1, 1, 0,
    0, 0, 0, 0, 0, 0, 0, 0, 0, 0, 0, 0, 0, 0, 0, 0, 0, 0, 0, 0, 0, 0, 0, 0, 0, 0, 0, 0, 0, 0, 0, 0,
    0, 0, 0, 0, 0, 0, 0, 0, 0, 0, 0, 0, 0, 0, 0, 0, 0, 0, 0, 0, 0, 0, 0, 0, 0, 0, 0, 0, 0, 0, 0, 0,
    0, 0, 0, 0, 0, 0, 0, 0, 0, 0, 0, 0, 0, 0, 0, 0, 0, 0, 0, 0, 0, 0, 0, 0, 0, 0, 0, 0, 0, 0, 0, 0,
    0, 0, 0, 0, 0, 0, 0, 0, 0, 0, 0, 0, 0, 0, 0, 0, 0, 0, 0, 0, 0, 0, 0, 0, 0, 0, 0, 0, 0, 0, 0, 0,
];

/// Whether a byte may stand in a word.
pub fn is_word_byte(b: u8) -> bool
    ensures { result ≡ is_word_byte b }
{
    WORD_BYTES[b as usize] == 1
}

fn is_word(bytes: &[u8]) -> bool
    ensures { result ≡ is_word bytes.now }
{
    let Some((first, others)) = bytes.split_first() else {
        return false;
    };
    is_word_byte(*first) && all_in_words(others)
}

fn all_in_words(bytes: &[u8]) -> bool
    ensures { result ≡ list_all is_word_byte bytes.now }
{
    for b in bytes {
        if !is_word_byte(*b) {
            return false;
        }
    }
    true
}

// The order of the lower case.
fn cmp_lower(a: &[u8], b: &[u8]) -> Ordering
    ensures { result ≡ slice_cmp nat_cmp (lower a.now) (lower b.now) }
{
    for i in 0..a.len() {
        if i == b.len() {
            return Ordering::Greater;
        }
        match a[i].to_ascii_lowercase().cmp(&b[i].to_ascii_lowercase()) {
            Ordering::Equal => {}
            decided => return decided,
        }
    }
    if a.len() == b.len() {
        Ordering::Equal
    } else {
        Ordering::Less
    }
}

// Feeds bytes in lower case, eight by eight: a hasher takes a whole word as fast as a byte.
fn hash_lower<H: Hasher>(bytes: &[u8], state: &mut H)
    ensures { state.new ≡ fold H.write state.old (words_of (lower bytes.now)) }
{
    let (words, rest) = bytes.as_chunks::<8>();
    for word in words {
        state.write(&lower_word(word));
    }
    state.write(&lower_word(rest));
}

// Eight bytes in lower case, or fewer, and zeros behind them. It is inlined, as whole words have no
// loop then.
#[inline(always)]
fn lower_word(bytes: &[u8]) -> [u8; 8]
    requires { length bytes.now ≤ 8 }
    ensures { result ≡ filled (lower bytes.now) }
{
    let mut word = [0; 8];
    for (i, byte) in bytes.iter().enumerate() {
        word[i] = byte.to_ascii_lowercase();
    }
    word
}

// The bytes that a text has at a place.
fn bytes_at(text: &[u8], span: Span) -> &[u8]
    ensures { result.now ≡ bytes_at text.now span }
{
    between(text, span.start as usize, span.past as usize)
}

impl<'s> Name<'s> {
    ghost use Rattle.hv_text.specs.Names.{bytes_of, text_of};

    /// The name that the bytes spell, or None where they are no word.
    pub fn new(bytes: &'s [u8]) -> Option<Name<'s>>
        ensures some { IfSome result (λ n. bytes_of n ≡ bytes.now) }
        ensures exact { IsSome result ↔ IsTrue (is_word bytes.now) }
    {
        if !is_word(bytes) {
            return None;
        }
        Some(Name { bytes })
    }

    /// Whether the name is this word, whatever the case of their letters.
    pub fn is(self, word: &[u8]) -> bool
        ensures { result ≡ bytes_eq (text_of self.entry) (lower word.now) }
    {
        self.bytes.len() == word.len() && self.bytes.eq_ignore_ascii_case(word)
    }

    /// The word as it was written.
    pub fn written(self) -> &'s [u8]
        ensures { result.now ≡ bytes_of self.entry }
    {
        self.bytes
    }

    /// Whether a text has the name at this place, letter for letter.
    pub fn is_at(self, text: &[u8], span: Span) -> bool
        ensures { result ≡ bytes_eq (bytes_of self.entry) (bytes_at text.now span) }
    {
        self.bytes == bytes_at(text, span)
    }

    /// The name that a text has at a place where a word stands.
    pub fn at(text: &'s [u8], span: Span) -> Name<'s>
        requires { IsTrue (is_word (bytes_at text.now span)) }
        ensures { bytes_of result ≡ bytes_at text.now span }
    {
        Name::of_word(bytes_at(text, span))
    }

    /// The name that a word spells.
    pub fn of_word(bytes: &'s [u8]) -> Name<'s>
        requires { IsTrue (is_word bytes.now) }
        ensures { bytes_of result ≡ bytes.now }
    {
        Name { bytes }
    }
}

impl PartialEq for Name<'_> {
    ghost use Rattle.std.proofs.Common.{rules};
    ghost use Rattle.std.specs.Cmp.Rules.{comparing};
    ghost use Rattle.std.specs.Str.{bytes_eq};
    ghost use Rattle.std.specs.Ordering.{on};
    ghost use Rattle.hv_text.specs.Names.{text_of};

    ghost eq = { on text_of bytes_eq };

    ghost laws = { Prim.search (comparing, rules) };

    // Most names are written alike each time, and bytes cost less to compare than letters; of names
    // that differ most differ in length.
    #[inline(always)]
    fn eq(&self, other: &Self) -> bool {
        self.bytes.len() == other.bytes.len()
            && (self.bytes == other.bytes || self.bytes.eq_ignore_ascii_case(other.bytes))
    }
}

impl Eq for Name<'_> {
    ghost use Rattle.std.proofs.Common.{rules};
    ghost use Rattle.std.specs.Cmp.Rules.{comparing};

    ghost laws = { Prim.search (comparing, rules) };
}

impl PartialOrd for Name<'_> {
    ghost use Rattle.std.proofs.Common.{rules};
    ghost use Rattle.std.specs.Cmp.{partial_order_from_own_ties};
    ghost use Rattle.std.specs.Cmp.Rules.{comparing};
    ghost use Rattle.std.specs.Cmp.Lexicographic.{slice_cmp};
    ghost use Rattle.std.specs.Ordering.{on, nat_cmp, as_partial_cmp};
    ghost use Rattle.hv_text.specs.Names.{text_of};

    ghost partial_cmp = { as_partial_cmp (on text_of (slice_cmp nat_cmp)) };

    ghost laws = { partial_order_from_own_ties (Prim.search (comparing, rules))
        (Prim.search (comparing, rules)) };

    fn partial_cmp(&self, other: &Self) -> Option<Ordering> {
        Some(self.cmp(other))
    }
}

impl Ord for Name<'_> {
    ghost use Rattle.std.proofs.Common.{rules};
    ghost use Rattle.std.specs.Cmp.Rules.{comparing};
    ghost use Rattle.std.specs.Cmp.Lexicographic.{slice_cmp};
    ghost use Rattle.std.specs.Ordering.{on, nat_cmp};
    ghost use Rattle.hv_text.specs.Names.{text_of};

    ghost cmp = { on text_of (slice_cmp nat_cmp) };

    ghost total = { Prim.search (comparing, rules) };

    ghost matches_partial_cmp = { Prim.search (comparing, rules) };

    ghost matches_eq = { Prim.search (comparing, rules) };

    fn cmp(&self, other: &Self) -> Ordering {
        cmp_lower(self.bytes, other.bytes)
    }
}

impl Hash for Name<'_> {
    ghost use Rattle.hv_text.specs.Names.{hash_input_of, same_hash};

    ghost hash_input = { hash_input_of };

    ghost respects_eq = { same_hash.fed };

    fn hash<H: Hasher>(&self, state: &mut H) {
        hash_lower(self.bytes, state);
    }
}
