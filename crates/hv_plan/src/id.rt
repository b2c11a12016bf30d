//! Ids of lines.

ghost use Rattle.std.specs.Prelude.{◌≡◌, ◌+◌, ◌-◌, ◌*◌, ℕ, None, Some, true, MatchBool, MatchOption};
ghost use Rattle.std.specs.List.{list_all};
ghost use Rattle.std.specs.Char.{is_ascii_digit};
ghost use Rattle.hv_text.specs.Names.{text_of};
ghost use Rattle.hv_text.specs.Words.{piece_of};
ghost use Rattle.hv_plan.specs.Forms.{is_digits, id_of, id_at, value_from, as_number};
ghost use Rattle.hv_plan.specs.declared.id.Id.TheVariants as ids;
ghost use Rattle.hv_plan.specs.inside.Views.{as_id};

use hv_text::{Name, Word};

/// What a word is as an id.
#[derive(Clone, Copy, Debug, PartialEq, Eq)]
pub(crate) enum Id {
    Fits(u64),
    TooLarge,
    NoId,
}

/// What the word is as an id: digits with a value of 64 bits, larger digits, or none.
pub(crate) fn read_id(word: Name<'_>) -> Id
    ensures { result ≡ as_id (id_of (text_of word.entry)) }
{
    let digits = word.written();
    match value_of(digits) {
        Some(id) => Id::Fits(id),
        None => without_value(digits),
    }
}

// What bytes are as an id, where they have no value of 64 bits: digits of a larger
// one, or no digits.
fn without_value(digits: &[u8]) -> Id
    ensures { MatchBool (is_digits digits.now) (result ≡ ids.TooLarge) (result ≡ ids.NoId) }
{
    if is_digits(digits) {
        Id::TooLarge
    } else {
        Id::NoId
    }
}

/// What a word or a parenthesis is as an id.
pub(crate) fn id_at(word: Word<'_>) -> Id
    ensures { result ≡ as_id (id_at (piece_of word.entry)) }
{
    match word {
        Word::Name(name, _) => read_id(name),
        Word::Left(_) | Word::Right(_) => Id::NoId,
    }
}

fn is_digits(bytes: &[u8]) -> bool
    ensures { result ≡ is_digits bytes.now }
{
    let Some((first, others)) = bytes.split_first() else {
        return false;
    };
    first.is_ascii_digit() && are_digits(others)
}

fn are_digits(bytes: &[u8]) -> bool
    ensures { result ≡ list_all is_ascii_digit bytes.now }
{
    for b in bytes {
        if !b.is_ascii_digit() {
            return false;
        }
    }
    true
}

// The number that digits stand for, where it has at most 64 bits.
fn value_of(digits: &[u8]) -> Option<u64>
    ensures { MatchOption result
        (is_digits digits.now ≡ true → None ≡ as_number (value_from 0 digits.now))
        (λ n. (is_digits digits.now ≡ true) × (Some n ≡ as_number (value_from 0 digits.now))) }
{
    if digits.is_empty() {
        return None;
    }
    let mut value: u64 = 0;
    for digit in digits {
        value = with_digit(value, *digit)?;
    }
    Some(value)
}

// The number with one more digit.
fn with_digit(value: u64, digit: u8) -> Option<u64>
    ensures { MatchOption result
        (is_ascii_digit digit ≡ true → None ≡ as_number (value * 10 + (digit - 48)))
        (λ n. (is_ascii_digit digit ≡ true) × (Some n ≡ as_number (value * 10 + (digit - 48)))) }
{
    if !digit.is_ascii_digit() {
        return None;
    }
    value.checked_mul(10)?.checked_add((digit - b'0') as u64)
}
