//! Formulas and literals.

ghost use Rattle.std.specs.Prelude.{◌≡◌, ◌++◌, map, OnOk};
ghost use Rattle.hv_syntax.specs.Values.{formulas_of, not, forall, exists, equal};
ghost use Rattle.hv_reading.specs.Canonical.{text, spaced, each, formula_expression};
ghost use Rattle.hv_reading.specs.Canonical.{formula_expressions, literal_expression};
ghost use Rattle.hv_reading.specs.Canonical.{atom_expression};
ghost use Rattle.hv_reading.specs.inside.Formulas.{and_all, or_all};
ghost use Rattle.hv_syntax.specs.Views.{variable_view, term_view, formula_view};
ghost use Rattle.hv_syntax.specs.Views.{lent_literal_view, ground_literal_view};
ghost use Rattle.hv_syntax.specs.ProblemViews.{init_view};

use crate::print::terms::{put_atom, put_term, put_word, put_words};
use crate::print::variables::put_variables;
use hv_syntax::{FormulaText, GroundLiteral, InitText, LentLiteral, TermText, VariableText};
use hv_text::Memory;

// Puts that two terms are one.
fn put_equal(out: &mut Vec<u8>, left: TermText<'_>, right: TermText<'_>) -> Result<(), Memory>
    ensures { OnOk result (out.new.items ≡ out.old.items
        ++ text (formula_expression (equal (term_view left.entry) (term_view right.entry)))) }
{
    out.extend_from_slice(b"(= ")?;
    put_term(out, left)?;
    out.push(b' ')?;
    put_term(out, right)?;
    out.push(b')')?;
    Ok(())
}

/// Puts a formula.
///
/// # Errors
///
/// `Memory` where a growth was refused.
#[cycle(put)]
pub(crate) fn put_formula(out: &mut Vec<u8>, formula: &FormulaText<'_>) -> Result<(), Memory>
    ensures { OnOk result (out.new.items ≡ out.old.items
        ++ text (formula_expression (formula_view formula.now))) }
{
    match formula {
        FormulaText::Holds(atom) => put_atom(out, atom.lend()),
        FormulaText::And(parts) => put_conjunction(out, parts),
        FormulaText::Or(parts) => put_disjunction(out, parts),
        FormulaText::Not(part) => put_negation(out, part),
        FormulaText::Imply(premise, conclusion) => {
            out.extend_from_slice(b"(imply ")?;
            put_formula(out, premise)?;
            out.push(b' ')?;
            put_formula(out, conclusion)?;
            out.push(b')')?;
            Ok(())
        }
        FormulaText::Forall(variables, part) => put_forall(out, variables, part),
        FormulaText::Exists(variables, part) => put_exists(out, variables, part),
        FormulaText::Equal(left, right) => put_equal(out, *left, *right),
    }
}

#[cycle(put)]
fn put_conjunction(out: &mut Vec<u8>, parts: &[FormulaText<'_>]) -> Result<(), Memory>
    ensures { OnOk result (out.new.items ≡ out.old.items
        ++ text (formula_expression (and_all (map formula_view parts.now)))) }
{
    match parts {
        [] => {
            out.extend_from_slice(b"()")?;
            Ok(())
        }
        [_, ..] => {
            out.extend_from_slice(b"(and")?;
            put_formulas(out, parts)?;
            out.push(b')')?;
            Ok(())
        }
    }
}

#[cycle(put)]
fn put_disjunction(out: &mut Vec<u8>, parts: &[FormulaText<'_>]) -> Result<(), Memory>
    ensures { OnOk result (out.new.items ≡ out.old.items
        ++ text (formula_expression (or_all (map formula_view parts.now)))) }
{
    out.extend_from_slice(b"(or")?;
    put_formulas(out, parts)?;
    out.push(b')')?;
    Ok(())
}

#[cycle(put)]
fn put_negation(out: &mut Vec<u8>, part: &FormulaText<'_>) -> Result<(), Memory>
    ensures { OnOk result (out.new.items ≡ out.old.items
        ++ text (formula_expression (not (formula_view part.now)))) }
{
    out.extend_from_slice(b"(not ")?;
    put_formula(out, part)?;
    out.push(b')')?;
    Ok(())
}

#[cycle(put)]
fn put_forall(
    out: &mut Vec<u8>,
    variables: &[VariableText<'_>],
    part: &FormulaText<'_>,
) -> Result<(), Memory>
    ensures { OnOk result (out.new.items ≡ out.old.items
        ++ text (formula_expression (forall (map variable_view variables.now)
        (formula_view part.now)))) }
{
    out.extend_from_slice(b"(forall (")?;
    put_variables(out, variables)?;
    out.extend_from_slice(b") ")?;
    put_formula(out, part)?;
    out.push(b')')?;
    Ok(())
}

#[cycle(put)]
fn put_exists(
    out: &mut Vec<u8>,
    variables: &[VariableText<'_>],
    part: &FormulaText<'_>,
) -> Result<(), Memory>
    ensures { OnOk result (out.new.items ≡ out.old.items
        ++ text (formula_expression (exists (map variable_view variables.now)
        (formula_view part.now)))) }
{
    out.extend_from_slice(b"(exists (")?;
    put_variables(out, variables)?;
    out.extend_from_slice(b") ")?;
    put_formula(out, part)?;
    out.push(b')')?;
    Ok(())
}

// Puts formulas, a space before each.
#[cycle(put)]
fn put_formulas(out: &mut Vec<u8>, formulas: &[FormulaText<'_>]) -> Result<(), Memory>
    ensures { OnOk result (out.new.items ≡ out.old.items
        ++ spaced (formula_expressions (formulas_of (map formula_view formulas.now)))) }
{
    for formula in formulas {
        out.push(b' ')?;
        put_formula(out, formula)?;
    }
    Ok(())
}

/// Puts a literal.
///
/// # Errors
///
/// `Memory` where a growth was refused.
pub(crate) fn put_literal(out: &mut Vec<u8>, literal: LentLiteral<'_, '_>) -> Result<(), Memory>
    ensures { OnOk result (out.new.items ≡ out.old.items
        ++ text (literal_expression (lent_literal_view literal.entry))) }
{
    if literal.is_positive() {
        return put_atom(out, literal.atom());
    }
    out.extend_from_slice(b"(not ")?;
    put_atom(out, literal.atom())?;
    out.push(b')')?;
    Ok(())
}

// Puts the atom of a literal over names.
fn put_ground_atom(out: &mut Vec<u8>, literal: GroundLiteral<'_, '_>) -> Result<(), Memory>
    ensures { OnOk result (out.new.items ≡ out.old.items
        ++ text (atom_expression (ground_literal_view literal.entry).atom)) }
{
    out.push(b'(')?;
    put_word(out, literal.symbol())?;
    put_words(out, literal.names())?;
    out.push(b')')?;
    Ok(())
}

// Puts a literal over names.
fn put_ground_literal(out: &mut Vec<u8>, literal: GroundLiteral<'_, '_>) -> Result<(), Memory>
    ensures { OnOk result (out.new.items ≡ out.old.items
        ++ text (literal_expression (ground_literal_view literal.entry))) }
{
    if literal.is_positive() {
        return put_ground_atom(out, literal);
    }
    out.extend_from_slice(b"(not ")?;
    put_ground_atom(out, literal)?;
    out.push(b')')?;
    Ok(())
}

/// Puts the literals of an initial state, a space before each.
///
/// # Errors
///
/// `Memory` where a growth was refused.
pub(crate) fn put_literals(out: &mut Vec<u8>, init: &InitText<'_>) -> Result<(), Memory>
    ensures { OnOk result (out.new.items ≡ out.old.items
        ++ spaced (each literal_expression (init_view init.now))) }
{
    let mut literals = init.literals();
    let mut room = Vec::new(*out.allocator());
    'all: while let Some(literal) = literals.next_in(&mut room)? {
        out.push(b' ')?;
        put_ground_literal(out, literal)?;
    }
    Ok(())
}
