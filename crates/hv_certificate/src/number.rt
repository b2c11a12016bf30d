//! Numbers of certificates: decimal, without leading zeros.

ghost use Rattle.std.specs.Prelude.{◌≡◌, ◌<◌, ◌+◌, ◌*◌, [], ℕ, decimal, length, MatchBool, MatchOption, IfSome};
ghost use Rattle.std.specs.Char.{digit_value};
ghost use Rattle.hv_text.specs.Names.{text_of};
ghost use Rattle.hv_certificate.specs.Forms.{IsId};
ghost use Rattle.hv_certificate.specs.inside.Reading.{IsNoNumber, IsNoDigit, IsValueOf};

use hv_text::Name;

/// The number of at most 64 bits that a word is.
pub(crate) fn number(word: Name<'_>) -> Option<u64>
    ensures word { MatchOption result (IsNoNumber (text_of word.entry))
        (λ n. text_of word.entry ≡ decimal n) }
    ensures id { IfSome result IsId }
{
    number_of(word.written())
}

// The number of at most 64 bits that bytes are.
fn number_of(bytes: &[u8]) -> Option<u64>
    ensures bytes { MatchOption result (IsNoNumber bytes.now) (λ n. bytes.now ≡ decimal n) }
    ensures id { IfSome result IsId }
{
    let Some((first, others)) = bytes.split_first() else {
        return None;
    };
    if is_leading_zero(*first, others) {
        return None;
    }
    value_of(bytes)
}

// Whether the first byte is a zero that others follow.
fn is_leading_zero(first: u8, others: &[u8]) -> bool
    ensures { MatchBool result ((first ≡ 48) × (0 < length others.now))
        (first ≡ 48 → others.now ≡ []) }
{
    first == b'0' && !others.is_empty()
}

// The number of at most 64 bits that digits are, leading zeros allowed.
fn value_of(bytes: &[u8]) -> Option<u64>
    ensures value { MatchOption result (IsNoNumber bytes.now) (IsValueOf bytes.now) }
    ensures id { IfSome result IsId }
{
    let mut value = 0;
    for byte in bytes {
        value = with_digit(value, *byte)?;
    }
    Some(value)
}

// A number of at most 64 bits with one more digit.
fn with_digit(value: u64, byte: u8) -> Option<u64>
    ensures id { IfSome result IsId }
    ensures value { MatchOption result (IsNoDigit value byte)
        (λ n. (digit_value byte < 10) × (n ≡ value * 10 + digit_value byte)) }
{
    if !byte.is_ascii_digit() {
        return None;
    }
    value.checked_mul(10)?.checked_add(u64::from(byte - b'0'))
}
