//! Literals.

ghost use Rattle.std.specs.Prelude.{◌≡◌, true, map, IfOk};
ghost use Rattle.hv_text.specs.Trees.{tree, trees};
ghost use Rattle.hv_reading.specs.inside.Reading.{Gives, every};
ghost use Rattle.hv_reading.specs.Literals.{are_constants};
ghost use Rattle.hv_reading.specs.inside.Literals.{literal_of, ground_literal_of};
ghost use Rattle.hv_syntax.specs.Views.{term_view, literal_view};
ghost use Rattle.hv_syntax.specs.Views.{constant_view, ground_literal_view};
ghost use Rattle.hv_syntax.specs.ProblemViews.{init_view};

mod stream;

use crate::list::negated;
use crate::refusal::Refusal;
use crate::term::read_atom;
use hv_syntax::{GroundLiteral, InitText, LiteralText, Placed, TermText};
use hv_text::{Memory, Sexp};
use std::alloc::Global;
pub(crate) use stream::read_ground_literals_at;

/// Reads a literal: an atom, or `(not atom)`.
///
/// # Errors
///
/// `NoSpelling` where the expression is none, and `Memory`.
pub(crate) fn read_literal<'s>(alloc: Global, e: &Sexp<'s>) -> Result<LiteralText<'s>, Refusal>
    ensures { Gives literal_view result (literal_of (tree e.now)) }
{
    match negated(e) {
        Some(part) => Ok(LiteralText::new(false, read_atom(alloc, part)?)),
        None => Ok(LiteralText::new(true, read_atom(alloc, e)?)),
    }
}

// Puts the names of terms into a room, in place of what it has, and answers whether all are names.
fn fill_constants<'s>(terms: &[TermText<'s>], room: &mut Vec<Placed<'s>>) -> Result<bool, Memory>
    ensures are { IfOk result (λ b. b ≡ are_constants (map term_view terms.now)) }
    ensures names { IfOk result
        (λ b. b ≡ true → map constant_view room.new.items ≡ map term_view terms.now) }
{
    room.clear();
    for term in terms {
        let TermText::Constant(word) = term else {
            return Ok(false);
        };
        room.push(*word)?;
    }
    Ok(true)
}

// A literal whose terms are names. They stand in the room.
fn read_ground_literal<'r, 's>(
    alloc: Global,
    e: &Sexp<'s>,
    room: &'r mut Vec<Placed<'s>>,
) -> Result<GroundLiteral<'r, 's>, Refusal>
    ensures { Gives ground_literal_view result (ground_literal_of (tree e.now)) }
{
    let literal = read_literal(alloc, e)?;
    let lent = literal.lend();
    let atom = lent.atom();
    if !fill_constants(atom.terms(), room)? {
        return Err(Refusal::NoSpelling);
    }
    Ok(GroundLiteral::new(lent.is_positive(), atom.symbol(), room))
}

/// Reads literals whose terms are names, one after another.
///
/// # Errors
///
/// `NoSpelling` where one of the expressions is none, and `Memory`.
pub(crate) fn read_ground_literals<'s>(
    alloc: Global,
    es: &[Sexp<'s>],
) -> Result<InitText<'s>, Refusal>
    ensures { Gives init_view result (every ground_literal_of (trees es.now)) }
{
    // The text is not at hand here, so the words are kept, as of few texts they are.
    let mut literals = InitText::new(alloc, &[])?;
    let mut room = Vec::new(alloc);
    for e in es {
        let literal = read_ground_literal(alloc, e, &mut room)?;
        literals.push(literal)?;
    }
    Ok(literals)
}
