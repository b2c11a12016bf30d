//! The lines of a text, and the markers among them.

ghost use Rattle.hv_text.specs.declared.fault.TheConstants.{MOST_BYTES};
ghost use Rattle.std.specs.Prelude.{◌≡◌, ◌==◌, ◌<◌, ◌≤◌, ◌+◌, ℕ, ◌∷◌, [], true, false, not, drop, length, MatchOption};
ghost use Rattle.std.specs.List.{prefix_len};
ghost use Rattle.hv_text.specs.Bytes.{lower};
ghost use Rattle.hv_text.specs.Words.{pieces};
ghost use Rattle.hv_plan.specs.Lines.{is_marker, is_only};
ghost use Rattle.hv_plan.specs.inside.Views.{line_view, lines_left, IsWithin};

use hv_text::{Word, first_letter, next_word};
use memchr::memchr;

/// A line without the byte 10 at its end, and its number.
#[derive(Clone, Copy)]
pub(crate) struct Line<'s> {
    pub(crate) bytes: &'s [u8],
    pub(crate) number: u32,
}

/// The lines of a text that are still to come, and the number of the first of them.
#[derive(Clone, Copy)]
pub(crate) struct Lines<'s> {
    pub(crate) left: &'s [u8],
    pub(crate) number: u32,
}

impl<'s> Lines<'s> {
    /// The next line.
    pub(crate) fn next(&mut self) -> Option<Line<'s>>
        requires { IsWithin self.old }
        ensures line { MatchOption result (lines_left self.old ≡ [])
            (λ l. lines_left self.old ≡ line_view l ∷ lines_left self.new) }
        ensures within { MatchOption result (Unit {0}) (λ l. IsWithin self.new) }
        ensures size { MatchOption result (Unit {0}) (λ l. length l.bytes.now ≤ MOST_BYTES) }
        ensures shorter { MatchOption result (Unit {0})
            (λ l. length self.new.left.now < length self.old.left.now) }
    {
        if self.left.is_empty() {
            return None;
        }
        let end = line_end(self.left);
        let line = Line {
            bytes: &self.left[..end],
            number: self.number,
        };
        self.left = behind(self.left, end);
        self.number += 1;
        Some(line)
    }
}

// Where the first line ends.
fn line_end(text: &[u8]) -> usize
    ensures end { result ≡ prefix_len (λ b. not (b == 10)) text.now }
    ensures within { result ≤ length text.now }
{
    match memchr(b'\n', text) {
        Some(end) => end,
        None => text.len(),
    }
}

// What stands behind the byte at the end of the first line.
fn behind<'s>(text: &'s [u8], end: usize) -> &'s [u8]
    requires { end ≤ length text.now }
    ensures { result.now ≡ drop (end + 1) text.now }
{
    if end == text.len() {
        &text[end..]
    } else {
        &text[end + 1..]
    }
}

// Whether a line begins with a word that begins otherwise than a marker. Most lines do, and it need
// not be asked what else stands there.
#[inline(always)]
fn begins_otherwise(line: &[u8], marker: &[u8]) -> bool
    ensures { result ≡ true → is_only (lower marker.now) (pieces line.now) ≡ false }
{
    let (Some(letter), Some(first)) = (first_letter(line), first_letter(marker)) else {
        return false;
    };
    letter != first
}

// Whether just one word stands in a line, comments aside, and it is a marker.
fn is_only(line: &[u8], marker: &[u8]) -> bool
    requires { length line.now ≤ MOST_BYTES }
    ensures { result ≡ is_only (lower marker.now) (pieces line.now) }
{
    let Ok(Some(first)) = next_word(line, 0) else {
        return false;
    };
    let Word::Name(name, _) = first.word else {
        return false;
    };
    if !name.is(marker) {
        return false;
    }
    match next_word(line, first.past) {
        Ok(None) => true,
        _ => false,
    }
}

/// Whether the line is this marker: cut at its first semicolon and stripped of white space, nothing
/// else. It is inlined, as the marker is known then.
#[inline(always)]
pub(crate) fn is_marker(line: Line<'_>, marker: &[u8]) -> bool
    requires { length line.bytes.now ≤ MOST_BYTES }
    ensures { result ≡ is_marker (lower marker.now) (line_view line.entry) }
{
    !begins_otherwise(line.bytes, marker) && is_only(line.bytes, marker)
}
