//! The words of a text.

ghost use Rattle.std.specs.Prelude.{◌≡◌, ◌<◌, ◌≤◌, ◌+◌, ℕ, true, false, ◌∷◌, [], length, drop, IsTrue, MatchOption, MatchResult, IfOk, IfErr, IfSome, OnOk, map};
ghost use Rattle.std.specs.List.{take_while, prefix_len};
ghost use Rattle.hv_text.specs.Bytes.{is_word_byte};
ghost use Rattle.hv_text.specs.Words.{class_of, first_letter, pieces, BeginsBy, IsNext, piece_of, IsBadNext, AreWords, IsWordFault};

use crate::fault::{MOST_BYTES, TextFault, TextKind};
use crate::name::{Name, is_word_byte};
use crate::span::Span;
use std::alloc::Global;

/// What a byte outside comments is.
#[derive(Clone, Copy)]
pub enum Class {
    Blank,
    Semicolon,
    Left,
    Right,
    Inner,
    Bad,
}

/// A word or a parenthesis, with its place.
#[derive(Clone, Copy)]
pub enum Word<'s> {
    Name(Name<'s>, Span),
    Left(Span),
    Right(Span),
}

/// A word, and where to go on behind it.
#[derive(Clone, Copy)]
pub struct Found<'s> {
    pub word: Word<'s>,
    pub past: usize,
}

// Most bytes that are asked of begin a word.
fn class_of(b: u8) -> Class
    ensures { result ≡ class_of b }
{
    if is_word_byte(b) {
        return Class::Inner;
    }
    match b {
        b'(' => Class::Left,
        b')' => Class::Right,
        b';' => Class::Semicolon,
        9..=13 | 32 => Class::Blank,
        _ => Class::Bad,
    }
}

fn span(start: usize, past: usize) -> Span
    requires order { start ≤ past }
    requires size { past ≤ MOST_BYTES }
    ensures { result ≡ record { start = start; past = past } }
{
    Span {
        start: start as u32,
        past: past as u32,
    }
}

// Where the word bytes from `i` on end.
fn word_end(text: &[u8], i: usize) -> usize
    requires { i ≤ length text.now }
    ensures end { result ≡ i + prefix_len is_word_byte (drop i text.now) }
    ensures within { result ≤ length text.now }
{
    for j in i..text.len() {
        if !is_word_byte(text[j]) {
            return j;
        }
    }
    text.len()
}

/// The next word from place `at` on, which is in no comment and behind no word byte, and where to
/// go on behind it. None where only white space and comments are left; the first bad byte where no
/// word stands before it. It is inlined, as a word that is handed over by itself costs as much as
/// to find it.
#[inline(always)]
pub fn next_word<'s>(text: &'s [u8], at: usize) -> Result<Option<Found<'s>>, TextFault>
    requires within { at ≤ length text.now }
    requires size { length text.now ≤ MOST_BYTES }
    ensures { MatchResult result (IsNext text.now at) (IsBadNext text.now at) }
{
    let mut comment = false;
    for i in at..text.len() {
        let b = text[i];
        if comment {
            comment = b != b'\n';
            continue;
        }
        match class_of(b) {
            Class::Blank => {}
            Class::Semicolon => comment = true,
            Class::Left => return Ok(Some(word_to(Word::Left(span(i, i + 1)), i + 1))),
            Class::Right => return Ok(Some(word_to(Word::Right(span(i, i + 1)), i + 1))),
            Class::Bad => return Err(bad_byte(span(i, i + 1))),
            Class::Inner => {
                let past = word_end(text, i);
                let name = Name::of_word(&text[i..past]);
                return Ok(Some(word_to(Word::Name(name, span(i, past)), past)));
            }
        }
    }
    Ok(None)
}

/// The byte with which a text begins, in lower case, where a word begins there.
#[inline(always)]
pub fn first_letter(text: &[u8]) -> Option<u8>
    ensures byte { result ≡ first_letter text.now }
    ensures word { IfSome result (λ b. BeginsBy b (pieces text.now)) }
{
    let (first, _others) = text.split_first()?;
    if !is_word_byte(*first) {
        return None;
    }
    Some(first.to_ascii_lowercase())
}

fn word_to<'s>(word: Word<'s>, past: usize) -> Found<'s>
    ensures word { result.word ≡ word.entry }
    ensures past { result.past ≡ past }
{
    Found { word, past }
}

fn bad_byte(span: Span) -> TextFault
    ensures { result ≡ record { kind = TextKind.BadByte; span = span } }
{
    TextFault {
        kind: TextKind::BadByte,
        span,
    }
}

/// The words and parentheses of a text, in order.
///
/// # Errors
///
/// `TooLong` or `BadByte`; `Memory` where a growth was refused.
pub fn read_words<'s>(alloc: Global, text: &'s [u8]) -> Result<Vec<Word<'s>>, TextFault>
    ensures ok { IfOk result (λ ws. AreWords text.now (map piece_of ws.items)) }
    ensures err { IfErr result (λ f. IsWordFault text.now f.kind f.span) }
{
    let mut words = Vec::new(alloc);
    fill_words(&mut words, text)?;
    Ok(words)
}

/// Puts the words and parentheses of a text, in order, in place of those that a list has.
///
/// # Errors
///
/// As `read_words`.
pub fn fill_words<'s>(words: &mut Vec<Word<'s>>, text: &'s [u8]) -> Result<(), TextFault>
    ensures ok { OnOk result (AreWords text.now (map piece_of words.new.items)) }
    ensures err { IfErr result (λ f. IsWordFault text.now f.kind f.span) }
{
    words.clear();
    if text.len() > MOST_BYTES {
        return Err(TextFault::nowhere(TextKind::TooLong));
    }
    let mut at = 0;
    'words: while let Some(found) = next_word(text, at)? {
        at = found.past;
        words.push(found.word)?;
    }
    Ok(())
}
