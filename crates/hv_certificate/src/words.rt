//! The words of a certificate's line: names in lower case, with one space between them.

ghost use Rattle.std.specs.Prelude.{◌≡◌, ◌++◌, ◌<◌, ◌≤◌, length, codes, false, map, MatchOption, IfSome, IfOk};
ghost use Rattle.std.specs.List.{prefix_len};
ghost use Rattle.hv_text.specs.Names.{text_of};
ghost use Rattle.hv_certificate.specs.inside.Words.{is_name_byte, begins, goes_on, words_text};
ghost use Rattle.hv_certificate.specs.inside.Reading.{IsLineRead};

use hv_text::{Memory, Name};

/// A line: its first word, the others, and what stands behind the line.
#[derive(Clone, Copy)]
pub(crate) struct LineWords<'b, 's> {
    pub(crate) first: Name<'s>,
    pub(crate) words: &'b [Name<'s>],
    pub(crate) behind: &'s [u8],
}

/// The words of the line at the front of the bytes; None where no such line ends by a byte 10. They
/// are put in place of those that a list has.
///
/// # Errors
///
/// Where a growth of memory was refused.
pub(crate) fn read_line<'b, 's>(
    words: &'b mut Vec<Name<'s>>,
    left: &'s [u8],
) -> Result<Option<LineWords<'b, 's>>, Memory>
    ensures { IfOk result (IsLineRead left.now) }
{
    let Some((first, left)) = front(left) else {
        return Ok(None);
    };
    let left = read_words(words, left)?;
    let Some((end, behind)) = left.split_first() else {
        return Ok(None);
    };
    if *end != b'\n' {
        return Ok(None);
    }
    Ok(Some(LineWords {
        first,
        words,
        behind,
    }))
}

// Puts the words that each stand behind a space in place of those that a list has, and answers what
// stands behind them.
fn read_words<'s>(words: &mut Vec<Name<'s>>, left: &'s [u8]) -> Result<&'s [u8], Memory>
    requires { begins left.now ≡ false }
    ensures words { IfOk result (λ r.
        left.now ≡ words_text (map text_of words.new.items) ++ r.now) }
    ensures end { IfOk result (λ r. goes_on r.now ≡ false) }
    ensures behind { IfOk result (λ r. begins r.now ≡ false) }
{
    words.clear();
    let mut rest = left;
    'words: while let Some((word, behind)) = next_word(rest) {
        words.push(word)?;
        rest = behind;
    }
    Ok(rest)
}

// The word behind a space, and what stands behind it.
fn next_word<'s>(left: &'s [u8]) -> Option<(Name<'s>, &'s [u8])>
    ensures word { MatchOption result (goes_on left.now ≡ false)
        (λ p. (left.now ≡ codes " " ++ (text_of p.0 ++ p.1.now)) × (begins p.1.now ≡ false)) }
    ensures less { IfSome result (λ p. length p.1.now < length left.now) }
{
    let Some((first, others)) = left.split_first() else {
        return None;
    };
    if *first != b' ' {
        return None;
    }
    front(others)
}

// The word at the front, and what stands behind it.
fn front<'s>(left: &'s [u8]) -> Option<(Name<'s>, &'s [u8])>
    ensures word { MatchOption result (begins left.now ≡ false)
        (λ p. (left.now ≡ text_of p.0 ++ p.1.now) × (begins p.1.now ≡ false)) }
    ensures within { IfSome result (λ p. length p.1.now ≤ length left.now) }
{
    let end = name_end(left);
    if end == 0 {
        return None;
    }
    Some((Name::of_word(&left[..end]), &left[end..]))
}

// Where the bytes of a name at the front end.
fn name_end(text: &[u8]) -> usize
    ensures end { result ≡ prefix_len is_name_byte text.now }
    ensures within { result ≤ length text.now }
{
    for i in 0..text.len() {
        if !is_name_byte(text[i]) {
            return i;
        }
    }
    text.len()
}

// For each byte a 1 where it may stand in a name in lower case.
const NAME_BYTES: [u8; 256] = [
    0, 0, 0, 0, 0, 0, 0, 0, 0, 0, 0, 0, 0, 0, 0, 0, 0, 0, 0, 0, 0, 0, 0, 0, 0, 0, 0, 0, 0, 0, 0, 0,
    0, 1, 1, 1, 1, 1, 1, 1, 0, 0, 1, 1, 1, 1, 1, 1, 1, 1, 1, 1, 1, 1, 1, 1, 1, 1, 1, 0, 1, 1, 1, 1,
    1, 0, 0, 0, 0, 0, 0, 0, 0, 0, 0, 0, 0, 0, 0, 0, 0, 0, 0, 0, 0, 0, 0, 0, 0, 0, 0, 1, 1, 1, 1, 1,
    1, 1, 1, 1, 1, 1, 1, 1, 1, 1, 1, 1, 1, 1, 1, 1, 1, 1, 1, 1, 1, 1, 1, 1, 1, 1, 1, 1, 1, 1, 1, 0,
    0, 0, 0, 0, 0, 0, 0, 0, 0, 0, 0, 0, 0, 0, 0, 0, 0, 0, 0, 0, 0, 0, 0, 0, 0, 0, 0, 0, 0, 0, 0, 0,
    0, 0, 0, 0, 0, 0, 0, 0, 0, 0, 0, 0, 0, 0, 0, 0, 0, 0, 0, 0, 0, 0, 0, 0, 0, 0, 0, 0, 0, 0, 0, 0,
    0, 0, 0, 0, 0, 0, 0, 0, 0, 0, 0, 0, 0, 0, 0, 0, 0, 0, 0, 0, 0, 0, 0, 0, 0, 0, 0, 0, 0, 0, 0, 0,
    0, 0, 0, 0, 0, 0, 0, 0, 0, 0, 0, 0, 0, 0, 0, 0, 0, 0, 0, 0, 0, 0, 0, 0, 0, 0, 0, 0, 0, 0, 0, 0,
];

// Whether a byte may stand in a name in lower case.
fn is_name_byte(b: u8) -> bool
    ensures { result ≡ is_name_byte b }
{
    NAME_BYTES[b as usize] == 1
}
