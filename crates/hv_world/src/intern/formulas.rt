//! Formulas over numbers, each with its first fault.

ghost use Rattle.std.specs.Prelude.{◌≡◌, ◌++◌, map, IfOk};
ghost use Rattle.hv_syntax.specs.Values.{formulas_of as said_formulas_of};
ghost use Rattle.hv_syntax.specs.Views.{variable_view, formula_view as said_formula};
ghost use Rattle.hv_world.specs.Faults.{least};
ghost use Rattle.hv_world.specs.Known.{variables};
ghost use Rattle.hv_world.specs.Scopes.{inside};
ghost use Rattle.hv_world.specs.StaticRules.{variable_faults, formula_faults, all_formula_faults};
ghost use Rattle.hv_world.specs.Values.{formulas_of};
ghost use Rattle.hv_world.specs.Views.{type_number, formula_view};
ghost use Rattle.hv_world.specs.Worlds.{types_of, formula_in, formulas_in};
ghost use Rattle.hv_world.specs.inside.Tables.{known_by, scope_view};

use crate::checked::Checked;
use crate::fault::{Side, earlier};
use crate::formula::Formula;
use crate::id::TypeId;
use crate::intern::terms::{checked_atom, checked_equality};
use crate::intern::types::checked_variables;
use crate::scope::Scope;
use crate::tables::Tables;
use hv_syntax::{FormulaText, VariableText};
use hv_text::Memory;
use std::alloc::Global;

/// A formula, and its first fault.
///
/// # Errors
///
/// `Memory` where a growth was refused.
#[cycle(intern)]
pub(crate) fn checked_formula<'s>(
    alloc: Global,
    tables: &Tables<'s>,
    scope: &Scope<'_, 's>,
    side: Side,
    formula: &FormulaText<'s>,
) -> Result<Checked<Formula>, Memory>
    ensures value { IfOk result
        (λ c. formula_view c.value
        ≡ formula_in (known_by tables.now) (scope_view scope.now) (said_formula formula.now)) }
    ensures fault { IfOk result
        (λ c. c.fault
        ≡ least (formula_faults (known_by tables.now) side (scope_view scope.now)
        (said_formula formula.now))) }
{
    match formula {
        FormulaText::Holds(atom) => {
            let atom = checked_atom(alloc, tables, scope, side, None, atom.lend())?;
            Ok(Checked::new(Formula::Holds(atom.value), atom.fault))
        }
        FormulaText::And(parts) => {
            let parts = checked_formulas(alloc, tables, scope, side, parts)?;
            Ok(Checked::new(Formula::And(parts.value), parts.fault))
        }
        FormulaText::Or(parts) => {
            let parts = checked_formulas(alloc, tables, scope, side, parts)?;
            Ok(Checked::new(Formula::Or(parts.value), parts.fault))
        }
        FormulaText::Not(part) => {
            let part = checked_part(alloc, tables, scope, side, part)?;
            Ok(Checked::new(Formula::Not(part.value), part.fault))
        }
        FormulaText::Imply(premise, conclusion) => {
            let premise = checked_part(alloc, tables, scope, side, premise)?;
            let conclusion = checked_part(alloc, tables, scope, side, conclusion)?;
            let fault = earlier(premise.fault, conclusion.fault);
            Ok(Checked::new(Formula::Imply(premise.value, conclusion.value), fault))
        }
        FormulaText::Forall(variables, part) => {
            let bound = checked_quantified(alloc, tables, scope, side, variables, part)?;
            let (types, part) = bound.value;
            Ok(Checked::new(Formula::Forall(types, part), bound.fault))
        }
        FormulaText::Exists(variables, part) => {
            let bound = checked_quantified(alloc, tables, scope, side, variables, part)?;
            let (types, part) = bound.value;
            Ok(Checked::new(Formula::Exists(types, part), bound.fault))
        }
        FormulaText::Equal(left, right) => {
            let both = checked_equality(tables, scope, side, *left, *right)?;
            let (left, right) = both.value;
            Ok(Checked::new(Formula::Equal(left, right), both.fault))
        }
    }
}

// A formula inside another, and its first fault.
#[cycle(intern)]
fn checked_part<'s>(
    alloc: Global,
    tables: &Tables<'s>,
    scope: &Scope<'_, 's>,
    side: Side,
    part: &FormulaText<'s>,
) -> Result<Checked<Box<Formula>>, Memory>
    ensures value { IfOk result
        (λ c. formula_view c.value.value
        ≡ formula_in (known_by tables.now) (scope_view scope.now) (said_formula part.now)) }
    ensures fault { IfOk result
        (λ c. c.fault
        ≡ least (formula_faults (known_by tables.now) side (scope_view scope.now)
        (said_formula part.now))) }
{
    let part = checked_formula(alloc, tables, scope, side, part)?;
    let value = Box::new(alloc, part.value)?;
    Ok(Checked::new(value, part.fault))
}

// The types of the variables of a quantifier and the formula behind them, and their first fault.
#[cycle(intern)]
fn checked_quantified<'s>(
    alloc: Global,
    tables: &Tables<'s>,
    scope: &Scope<'_, 's>,
    side: Side,
    list: &[VariableText<'s>],
    part: &FormulaText<'s>,
) -> Result<Checked<(Vec<TypeId>, Box<Formula>)>, Memory>
    ensures types { IfOk result
        (λ c. map type_number c.value.0.items
        ≡ types_of (known_by tables.now) (map variable_view list.now)) }
    ensures part { IfOk result
        (λ c. formula_view c.value.1.value
        ≡ formula_in (known_by tables.now)
        (inside (scope_view scope.now) (variables (map variable_view list.now)))
        (said_formula part.now)) }
    ensures fault { IfOk result
        (λ c. c.fault
        ≡ least (variable_faults (known_by tables.now) side (map variable_view list.now)
        ++ formula_faults (known_by tables.now) side
        (inside (scope_view scope.now) (variables (map variable_view list.now)))
        (said_formula part.now))) }
{
    let inner = Scope::Inside(&*scope, list);
    let types = checked_variables(alloc, tables, side, list)?;
    let part = checked_part(alloc, tables, &inner, side, part)?;
    let fault = earlier(types.fault, part.fault);
    Ok(Checked::new((types.value, part.value), fault))
}

// Formulas, and their first fault.
#[cycle(intern)]
fn checked_formulas<'s>(
    alloc: Global,
    tables: &Tables<'s>,
    scope: &Scope<'_, 's>,
    side: Side,
    formulas: &[FormulaText<'s>],
) -> Result<Checked<Vec<Formula>>, Memory>
    ensures value { IfOk result
        (λ c. formulas_of (map formula_view c.value.items)
        ≡ formulas_in (known_by tables.now) (scope_view scope.now)
        (said_formulas_of (map said_formula formulas.now))) }
    ensures fault { IfOk result
        (λ c. c.fault
        ≡ least (all_formula_faults (known_by tables.now) side (scope_view scope.now)
        (said_formulas_of (map said_formula formulas.now)))) }
{
    let mut numbered = Checked::with_capacity(alloc, formulas.len())?;
    for formula in formulas {
        numbered.push(checked_formula(alloc, tables, scope, side, formula)?)?;
    }
    Ok(numbered)
}
