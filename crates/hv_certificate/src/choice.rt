//! What the words of a certificate's line say.

ghost use Rattle.std.specs.Prelude.{◌≡◌, ◌∷◌, ◌++◌, [], ◌≤◌, ℕ, length, take, drop, codes, decimal, map, All, MatchOption, IfSome, IfOk};
ghost use Rattle.hv_text.specs.Names.{text_of};
ghost use Rattle.hv_certificate.specs.Forms.{IsId, IsIndex};
ghost use Rattle.hv_certificate.specs.inside.Reading.{IsChoiceRead, IsNoIndex, IsNoNumberAt};

use crate::certificate::Choice;
use crate::number::number;
use hv_text::{Memory, Name};
use std::alloc::Global;

/// The choice that words say; None where they say none.
///
/// # Errors
///
/// Where a growth of memory was refused.
pub(crate) fn choice_of<'s>(alloc: Global, words: &[Name<'s>]) -> Result<Option<Choice<'s>>, Memory>
    ensures { IfOk result (IsChoiceRead (map text_of words.now)) }
{
    let Some((mark, words)) = words.split_first() else {
        return Ok(None);
    };
    if !mark.is(b"children") {
        return Ok(None);
    }
    let children = read_ids(alloc, words)?;
    let words = behind(words, children.len());
    let Some((mark, names)) = words.split_first() else {
        return Ok(None);
    };
    if !mark.is(b"objects") {
        return Ok(None);
    }
    let objects = Vec::from_slice(alloc, names)?;
    Ok(Some(Choice { children, objects }))
}

// The words behind so many.
fn behind<'a, 's>(words: &'a [Name<'s>], count: usize) -> &'a [Name<'s>]
    requires { count ≤ length words.now }
    ensures { result.now ≡ drop count words.now }
{
    &words[count..]
}

// The ids at the front of words.
fn read_ids(alloc: Global, words: &[Name<'_>]) -> Result<Vec<u64>, Memory>
    ensures within { IfOk result (λ v. length v.items ≤ length words.now) }
    ensures words { IfOk result (λ v.
        map text_of (take (length v.items) words.now) ≡ map decimal v.items) }
    ensures ids { IfOk result (λ v. All IsId v.items) }
    ensures end { IfOk result (λ v.
        IsNoNumberAt (map text_of (drop (length v.items) words.now))) }
{
    let mut ids = Vec::with_capacity(alloc, words.len())?;
    for word in words {
        match number(*word) {
            Some(id) => ids.push(id)?,
            None => return Ok(ids),
        }
    }
    Ok(ids)
}

/// The index that the last two words say, and the words before them.
pub(crate) fn index_of<'a, 's>(words: &'a [Name<'s>]) -> Option<(u32, &'a [Name<'s>])>
    ensures words { MatchOption result (IsNoIndex (map text_of words.now))
        (λ p. map text_of words.now
        ≡ map text_of p.1.now ++ codes "pre" ∷ decimal p.0 ∷ []) }
    ensures index { IfSome result (λ p. IsIndex p.0) }
{
    let Some((last, words)) = words.split_last() else {
        return None;
    };
    let Some((mark, words)) = words.split_last() else {
        return None;
    };
    if !mark.is(b"pre") {
        return None;
    }
    match small_number(*last) {
        Some(index) => Some((index, words)),
        None => None,
    }
}

// The number of at most 32 bits that a word is.
fn small_number(word: Name<'_>) -> Option<u32>
    ensures word { MatchOption result ((n : ℕ) → IsIndex n → text_of word.entry ≡ decimal n → ⊥)
        (λ n. text_of word.entry ≡ decimal n) }
    ensures index { IfSome result IsIndex }
{
    let Some(value) = number(word) else {
        return None;
    };
    if value > 4294967295 {
        return None;
    }
    Some(value as u32)
}
