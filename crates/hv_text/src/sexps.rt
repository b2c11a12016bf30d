//! The expressions of a text.

ghost use Rattle.std.specs.Prelude.{◌≡◌, ◌<◌, ◌≤◌, ◌+◌, ◌-◌, ◌++◌, ℕ, [], ◌∷◌, length, IfOk, IfErr, OnErr, MatchResult, vec_len};
ghost use Rattle.hv_text.specs.Trees.{tree, trees, list};
ghost use Rattle.hv_text.specs.Sexps.{AreExpressions, IsTextFault};
ghost use Rattle.hv_text.specs.inside.Scan.{IsScanned, IsScanFault};

use crate::fault::{MOST_BYTES, MOST_OPEN, TextFault, TextKind};
use crate::sexp::{Open, Sexp};
use crate::span::Span;
use crate::words::{Word, next_word};
use std::alloc::Global;
use std::mem;

fn fault(kind: TextKind, span: Span) -> TextFault
    ensures { result ≡ record { kind = kind; span = span } }
{
    TextFault { kind, span }
}

// The list of these members, from its parenthesis at `start` to the one that ends at `past`.
fn list_of<'s>(members: Vec<Sexp<'s>>, start: u32, past: u32) -> Sexp<'s>
    ensures { tree result ≡ list (trees members.entry.items)
        (record { start = start; past = past }) }
{
    Sexp::List(members, Span { start, past })
}

/// The expressions of a text.
pub fn read_sexps<'s>(alloc: Global, text: &'s [u8]) -> Result<Vec<Sexp<'s>>, TextFault>
    ensures ok { IfOk result (λ es. AreExpressions text.now (trees es.items)) }
    ensures err { IfErr result (λ f. IsTextFault text.now f.kind f.span) }
{
    scan(alloc, text)
}

// The expressions, with a stack of the lists that are open.
fn scan<'s>(alloc: Global, text: &'s [u8]) -> Result<Vec<Sexp<'s>>, TextFault>
    ensures ok { IfOk result (λ es. IsScanned text.now es.items) }
    ensures err { IfErr result (λ f. IsScanFault text.now f.kind f.span) }
{
    if text.len() > MOST_BYTES {
        return Err(TextFault::nowhere(TextKind::TooLong));
    }
    let mut pending = Vec::new(alloc);
    let mut here = Vec::new(alloc);
    let mut at = 0;
    'words: while let Some(found) = next_word(text, at)? {
        at = found.past;
        match found.word {
            Word::Name(name, place) => here.push(Sexp::Word(name, place))?,
            Word::Left(place) => {
                if pending.len() == MOST_OPEN {
                    return Err(fault(TextKind::TooDeep, place));
                }
                let before = mem::replace(&mut here, Vec::new(alloc));
                pending.push(Open {
                    left: place,
                    before,
                })?;
            }
            Word::Right(place) => {
                let Some(list) = pending.pop() else {
                    return Err(fault(TextKind::Unopened, place));
                };
                let start = list.left.start;
                let members = mem::replace(&mut here, list.before);
                here.push(list_of(members, start, place.past))?;
            }
        }
    }
    match pending.pop() {
        None => Ok(here),
        Some(list) => Err(fault(TextKind::Unclosed, list.left)),
    }
}
