//! Formulas.

ghost use Rattle.std.specs.Prelude.{map};
ghost use Rattle.hv_text.specs.Trees.{tree, trees};
ghost use Rattle.hv_reading.specs.inside.Reading.{Gives, every};
ghost use Rattle.hv_reading.specs.Words.{head_of};
ghost use Rattle.hv_reading.specs.inside.Formulas.{formula_of, formula_by, each_formula};
ghost use Rattle.hv_reading.specs.inside.Formulas.{variables_of, negation, implication, quantified};
ghost use Rattle.hv_reading.specs.inside.Formulas.{equality};
ghost use Rattle.hv_syntax.specs.Views.{formula_view, variable_view, word_view};

use crate::list::two;
use crate::refusal::Refusal;
use crate::term::{read_term, read_terms};
use crate::variable::read_typed_variables;
use crate::word::{Head, head_of};
use hv_syntax::{AtomText, FormulaText, Placed, VariableText};
use hv_text::Sexp;
use std::alloc::Global;

/// Reads the list of a quantifier: at most 16 variables with their types.
///
/// # Errors
///
/// `NoSpelling` where the expression is none, and `Memory`.
pub(crate) fn read_variables<'s>(
    alloc: Global,
    e: &Sexp<'s>,
) -> Result<Vec<VariableText<'s>>, Refusal>
    ensures { Gives (λ v. map variable_view v.items) result (variables_of (tree e.now)) }
{
    let Sexp::List(members, _) = e else {
        return Err(Refusal::NoSpelling);
    };
    let variables = read_typed_variables(alloc, members)?;
    if variables.len() > 16 {
        return Err(Refusal::NoSpelling);
    }
    Ok(variables)
}

/// Reads a formula.
///
/// # Errors
///
/// `NoSpelling` where the expression spells none, and `Memory`.
#[cycle(formula)]
pub(crate) fn read_formula<'s>(alloc: Global, e: &Sexp<'s>) -> Result<FormulaText<'s>, Refusal>
    ensures { Gives formula_view result (formula_of (tree e.now)) }
{
    let Sexp::List(members, _) = e else {
        return Err(Refusal::NoSpelling);
    };
    match members.as_slice() {
        [] => Ok(FormulaText::And(Vec::new(alloc))),
        [head, others @ ..] => {
            let Sexp::Word(name, span) = head else {
                return Err(Refusal::NoSpelling);
            };
            read_headed(alloc, Placed::new(*name, *span), others)
        }
    }
}

// The formula that a word and the members behind it spell.
#[cycle(formula)]
fn read_headed<'s>(
    alloc: Global,
    head: Placed<'s>,
    others: &[Sexp<'s>],
) -> Result<FormulaText<'s>, Refusal>
    ensures { Gives formula_view result
        (formula_by (head_of (word_view head.entry).text) (word_view head.entry) (trees others.now)
        (each_formula (trees others.now))) }
{
    match head_of(head.name()) {
        Head::And => Ok(FormulaText::And(read_formulas(alloc, others)?)),
        Head::Or => Ok(FormulaText::Or(read_formulas(alloc, others)?)),
        Head::Not => read_negation(alloc, others),
        Head::Imply => read_implication(alloc, others),
        Head::Forall => {
            let (variables, part) = read_quantified(alloc, others)?;
            Ok(FormulaText::Forall(variables, part))
        }
        Head::Exists => {
            let (variables, part) = read_quantified(alloc, others)?;
            Ok(FormulaText::Exists(variables, part))
        }
        Head::Equal => read_equality(others),
        Head::Symbol => {
            let terms = read_terms(alloc, others)?;
            Ok(FormulaText::Holds(AtomText::new(head, terms)))
        }
        Head::When | Head::Other => Err(Refusal::NoSpelling),
    }
}

// The members behind `not`: one formula.
#[cycle(formula)]
fn read_negation<'s>(alloc: Global, others: &[Sexp<'s>]) -> Result<FormulaText<'s>, Refusal>
    ensures { Gives formula_view result (negation (each_formula (trees others.now))) }
{
    if others.len() != 1 {
        return Err(Refusal::NoSpelling);
    }
    let part = read_formula(alloc, &others[0])?;
    Ok(FormulaText::Not(Box::new(alloc, part)?))
}

// The members behind `imply`: two formulas.
#[cycle(formula)]
fn read_implication<'s>(alloc: Global, others: &[Sexp<'s>]) -> Result<FormulaText<'s>, Refusal>
    ensures { Gives formula_view result (implication (each_formula (trees others.now))) }
{
    if others.len() != 2 {
        return Err(Refusal::NoSpelling);
    }
    let premise = Box::new(alloc, read_formula(alloc, &others[0])?)?;
    let conclusion = Box::new(alloc, read_formula(alloc, &others[1])?)?;
    Ok(FormulaText::Imply(premise, conclusion))
}

// The members behind a quantifier: its variables, and a formula.
#[cycle(formula)]
fn read_quantified<'s>(
    alloc: Global,
    others: &[Sexp<'s>],
) -> Result<(Vec<VariableText<'s>>, Box<FormulaText<'s>>), Refusal>
    ensures { Gives (λ p. (map variable_view p.0.items, formula_view p.1.value)) result
        (quantified (trees others.now) (each_formula (trees others.now))) }
{
    if others.len() != 2 {
        return Err(Refusal::NoSpelling);
    }
    let variables = read_variables(alloc, &others[0])?;
    let part = read_formula(alloc, &others[1])?;
    Ok((variables, Box::new(alloc, part)?))
}

// The members behind `=`: two terms.
fn read_equality<'s>(others: &[Sexp<'s>]) -> Result<FormulaText<'s>, Refusal>
    ensures { Gives formula_view result (equality (trees others.now)) }
{
    let Some((left, right)) = two(others) else {
        return Err(Refusal::NoSpelling);
    };
    let left = read_term(left)?;
    let right = read_term(right)?;
    Ok(FormulaText::Equal(left, right))
}

#[cycle(formula)]
fn read_formulas<'s>(alloc: Global, es: &[Sexp<'s>]) -> Result<Vec<FormulaText<'s>>, Refusal>
    ensures { Gives (λ v. map formula_view v.items) result (every formula_of (trees es.now)) }
{
    let mut parts = Vec::with_capacity(alloc, es.len())?;
    for e in es {
        parts.push(read_formula(alloc, e)?)?;
    }
    Ok(parts)
}
