//! Predicates, and the sections of tasks, methods, actions and initial networks.

ghost use Rattle.std.specs.Prelude.{◌≡◌, ◌++◌, map, OnOk, codes};
ghost use Rattle.hv_reading.specs.Canonical.{text, spaced, each, the_list, variable_members};
ghost use Rattle.hv_reading.specs.Canonical.{formula_expression};
ghost use Rattle.hv_reading.specs.CanonicalSections.{predicate_expression, section_of_each};
ghost use Rattle.hv_reading.specs.CanonicalSections.{task_section, method_section, action_section};
ghost use Rattle.hv_reading.specs.CanonicalSections.{htn_section, lines};
ghost use Rattle.hv_syntax.specs.Views.{variable_view, formula_view};
ghost use Rattle.hv_syntax.specs.DeclarationViews.{predicate_view, task_view, method_view};
ghost use Rattle.hv_syntax.specs.DeclarationViews.{action_view};
ghost use Rattle.hv_syntax.specs.ProblemViews.{htn_view};

use crate::print::effects::put_effect;
use crate::print::formulas::put_formula;
use crate::print::networks::put_network;
use crate::print::terms::{put_atom, put_word};
use crate::print::variables::{put_spaced_variables, put_variables};
use hv_syntax::{
    ActionText, FormulaText, HtnText, MethodText, PredicateText, TaskText, VariableText,
};
use hv_text::Memory;

// Puts the field `:parameters`, a space before it.
fn put_parameters(out: &mut Vec<u8>, parameters: &[VariableText<'_>]) -> Result<(), Memory>
    ensures { OnOk result (out.new.items ≡ out.old.items
        ++ (codes " :parameters " ++ text
        (the_list (variable_members (map variable_view parameters.now))))) }
{
    out.extend_from_slice(b" :parameters (")?;
    put_variables(out, parameters)?;
    out.push(b')')?;
    Ok(())
}

// Puts the field `:precondition`, a space before it.
fn put_precondition(out: &mut Vec<u8>, precondition: &FormulaText<'_>) -> Result<(), Memory>
    ensures { OnOk result (out.new.items ≡ out.old.items
        ++ (codes " :precondition " ++ text (formula_expression (formula_view precondition.now)))) }
{
    out.extend_from_slice(b" :precondition ")?;
    put_formula(out, precondition)
}

// Puts a predicate.
fn put_predicate(out: &mut Vec<u8>, predicate: &PredicateText<'_>) -> Result<(), Memory>
    ensures { OnOk result (out.new.items ≡ out.old.items
        ++ text (predicate_expression (predicate_view predicate.now))) }
{
    out.push(b'(')?;
    put_word(out, predicate.name())?;
    put_spaced_variables(out, predicate.parameters())?;
    out.push(b')')?;
    Ok(())
}

/// Puts predicates, a space before each.
///
/// # Errors
///
/// `Memory` where a growth was refused.
pub(crate) fn put_predicates(
    out: &mut Vec<u8>,
    predicates: &[PredicateText<'_>],
) -> Result<(), Memory>
    ensures { OnOk result (out.new.items ≡ out.old.items
        ++ spaced (each predicate_expression (map predicate_view predicates.now))) }
{
    for predicate in predicates {
        out.push(b' ')?;
        put_predicate(out, predicate)?;
    }
    Ok(())
}

// Puts the section of a task.
fn put_task(out: &mut Vec<u8>, task: &TaskText<'_>) -> Result<(), Memory>
    ensures { OnOk result (out.new.items ≡ out.old.items
        ++ text (task_section (task_view task.now))) }
{
    out.extend_from_slice(b"(:task ")?;
    put_word(out, task.name())?;
    put_parameters(out, task.parameters())?;
    out.push(b')')?;
    Ok(())
}

// Puts the section of a method.
fn put_method(out: &mut Vec<u8>, method: &MethodText<'_>) -> Result<(), Memory>
    ensures { OnOk result (out.new.items ≡ out.old.items
        ++ text (method_section (method_view method.now))) }
{
    out.extend_from_slice(b"(:method ")?;
    put_word(out, method.name())?;
    put_parameters(out, method.parameters())?;
    out.extend_from_slice(b" :task ")?;
    put_atom(out, method.task().lend())?;
    put_precondition(out, method.precondition())?;
    put_network(out, method.network())?;
    out.push(b')')?;
    Ok(())
}

// Puts the section of an action.
fn put_action(out: &mut Vec<u8>, action: &ActionText<'_>) -> Result<(), Memory>
    ensures { OnOk result (out.new.items ≡ out.old.items
        ++ text (action_section (action_view action.now))) }
{
    out.extend_from_slice(b"(:action ")?;
    put_word(out, action.name())?;
    put_parameters(out, action.parameters())?;
    put_precondition(out, action.precondition())?;
    out.extend_from_slice(b" :effect ")?;
    put_effect(out, action.effect())?;
    out.push(b')')?;
    Ok(())
}

/// Puts the section of an initial network.
///
/// # Errors
///
/// `Memory` where a growth was refused.
pub(crate) fn put_htn(out: &mut Vec<u8>, htn: &HtnText<'_>) -> Result<(), Memory>
    ensures { OnOk result (out.new.items ≡ out.old.items ++ text (htn_section (htn_view htn.now))) }
{
    out.extend_from_slice(b"(:htn")?;
    put_parameters(out, htn.parameters())?;
    put_network(out, htn.network())?;
    out.push(b')')?;
    Ok(())
}

/// Puts the sections of tasks, each on a line.
///
/// # Errors
///
/// `Memory` where a growth was refused.
pub(crate) fn put_tasks(out: &mut Vec<u8>, tasks: &[TaskText<'_>]) -> Result<(), Memory>
    ensures { OnOk result (out.new.items ≡ out.old.items
        ++ lines (section_of_each task_section (map task_view tasks.now))) }
{
    for task in tasks {
        put_task(out, task)?;
        out.push(b'\n')?;
    }
    Ok(())
}

/// Puts the sections of methods, each on a line.
///
/// # Errors
///
/// `Memory` where a growth was refused.
pub(crate) fn put_methods(out: &mut Vec<u8>, methods: &[MethodText<'_>]) -> Result<(), Memory>
    ensures { OnOk result (out.new.items ≡ out.old.items
        ++ lines (section_of_each method_section (map method_view methods.now))) }
{
    for method in methods {
        put_method(out, method)?;
        out.push(b'\n')?;
    }
    Ok(())
}

/// Puts the sections of actions, each on a line.
///
/// # Errors
///
/// `Memory` where a growth was refused.
pub(crate) fn put_actions(out: &mut Vec<u8>, actions: &[ActionText<'_>]) -> Result<(), Memory>
    ensures { OnOk result (out.new.items ≡ out.old.items
        ++ lines (section_of_each action_section (map action_view actions.now))) }
{
    for action in actions {
        put_action(out, action)?;
        out.push(b'\n')?;
    }
    Ok(())
}
