//! What a domain and a problem list, over numbers.

ghost use Rattle.std.specs.Prelude.{◌≡◌, ◌++◌, [], None, length, map, option_map, IfOk, OnOk};
ghost use Rattle.std.specs.List.{flat_map};
ghost use Rattle.hv_text.specs.Names.{text_of};
ghost use Rattle.hv_syntax.specs.Views.{typed_view, formula_view as said_formula};
ghost use Rattle.hv_syntax.specs.DeclarationViews.{predicate_view as said_predicate, task_view as said_task, method_view as said_method, action_view as said_action};
ghost use Rattle.hv_world.specs.Scopes.{parameters};
ghost use Rattle.hv_world.specs.declared.fault.Side.TheVariants as sides;
ghost use Rattle.hv_world.specs.Faults.{least};
ghost use Rattle.hv_world.specs.StaticRules.{variable_faults, method_faults, action_faults, goal_faults};
ghost use Rattle.hv_world.specs.inside.Tables.{known_by};
ghost use Rattle.hv_world.specs.Views.{formula_view};
ghost use Rattle.hv_world.specs.MethodViews.{method_view};
ghost use Rattle.hv_world.specs.SectionViews.{task_view, action_view};
ghost use Rattle.hv_world.specs.Worlds.{type_pair, object_pair, either_pairs, eithers_pairs, formula_in, method_in, task_by, action_in};

use crate::action::Action;
use crate::checked::Checked;
use crate::fault::{Side, earlier};
use crate::formula::Formula;
use crate::id::{ObjectId, TypeId};
use crate::intern::formulas::checked_formula;
use crate::intern::sections::{checked_action, checked_compound, checked_method};
use crate::intern::types::type_of;
use crate::method::Method;
use crate::names::Names;
use crate::scope::Scope;
use crate::tables::Tables;
use crate::task::Task;
use hv_syntax::{ActionText, FormulaText, MethodText, PredicateText, TaskText, TypedText};
use hv_text::{Memory, Name};
use std::alloc::Global;

// The type of the last pair.
fn last_type<T>(pairs: &[(T, TypeId)]) -> Option<TypeId> {
    match pairs.last() {
        Some((_, of)) => Some(*of),
        None => None,
    }
}

/// The types, each with its parent.
pub(crate) fn type_pairs<'s>(
    alloc: Global,
    tables: &Tables<'s>,
    list: &[TypedText<'s>],
) -> Result<Vec<(TypeId, TypeId)>, Memory>
    ensures { IfOk result
        (λ v. map (λ p. (p.0.0, p.1.0)) v.items
        ≡ map (type_pair (known_by tables.now)) (map typed_view list.now)) }
{
    let mut pairs = Vec::new(alloc);
    for typed in list {
        let other = last_type(&pairs);
        let number = TypeId(tables.type_number(None, typed.name().name()));
        pairs.push((number, type_of(tables, other, *typed)))?;
    }
    Ok(pairs)
}

// Puts each of the types that a list names, with the type that they make, behind others.
fn add_either_pairs<'s>(
    tables: &Tables<'s>,
    pairs: &mut Vec<(TypeId, TypeId)>,
    list: &[Name<'s>],
    above: usize,
) -> Result<(), Memory>
    ensures { OnOk result
        (map (λ p. (p.0.0, p.1.0)) pairs.new.items ≡ map (λ p. (p.0.0, p.1.0)) pairs.old.items
        ++ either_pairs (known_by tables.now) above (map text_of list.now)) }
{
    for name in list {
        pairs.push((TypeId(tables.type_number(None, *name)), TypeId(above)))?;
    }
    Ok(())
}

/// Puts the types that names make, each with those that it names, behind others.
pub(crate) fn add_eithers_pairs<'s>(
    tables: &Tables<'s>,
    pairs: &mut Vec<(TypeId, TypeId)>,
) -> Result<(), Memory>
    ensures { OnOk result
        (map (λ p. (p.0.0, p.1.0)) pairs.new.items ≡ map (λ p. (p.0.0, p.1.0)) pairs.old.items
        ++ eithers_pairs (known_by tables.now) (length (known_by tables.now).types)
        (known_by tables.now).eithers) }
{
    let eithers = tables.types.eithers.as_slice();
    for (place, list) in eithers.iter().enumerate() {
        let above = tables.number_past(place)?;
        add_either_pairs(tables, pairs, list, above)?;
    }
    Ok(())
}

// The number of the object of the last pair.
fn last_object(pairs: &[(ObjectId, TypeId)]) -> Option<usize> {
    match pairs.last() {
        Some((object, _)) => Some(object.0),
        None => None,
    }
}

/// Puts the constants or objects of a list, each with its type, behind others.
pub(crate) fn add_object_pairs<'s>(
    tables: &Tables<'s>,
    pairs: &mut Vec<(ObjectId, TypeId)>,
    list: &[TypedText<'s>],
) -> Result<(), Memory>
    ensures { OnOk result
        (map (λ p. (p.0.0, p.1.0)) pairs.new.items ≡ map (λ p. (p.0.0, p.1.0)) pairs.old.items
        ++ map (object_pair (known_by tables.now)) (map typed_view list.now)) }
{
    for typed in list {
        let other = last_type(pairs);
        let number = tables.object_number(last_object(pairs), typed.name().name());
        pairs.push((ObjectId(number), type_of(tables, other, *typed)))?;
    }
    Ok(())
}

/// The names of the predicates, as written.
pub(crate) fn predicate_names<'s>(
    alloc: Global,
    predicates: &[PredicateText<'s>],
) -> Result<Vec<Name<'s>>, Memory>
    ensures { IfOk result
        (λ v. map text_of v.items ≡ map (λ q. q.name.text) (map said_predicate predicates.now)) }
{
    let mut names = Vec::new(alloc);
    for predicate in predicates {
        let word = predicate.name();
        names.push(word.name())?;
    }
    Ok(names)
}

/// The tasks that methods decompose, as written, and their first fault.
///
/// # Errors
///
/// `Memory` where a growth was refused.
pub(crate) fn checked_compounds<'s>(
    alloc: Global,
    tables: &Tables<'s>,
    tasks: &[TaskText<'s>],
) -> Result<Checked<Vec<Task<'s>>>, Memory>
    ensures value { IfOk result
        (λ c. map task_view c.value.items
        ≡ map (task_by (known_by tables.now)) (map said_task tasks.now)) }
    ensures fault { IfOk result
        (λ c. c.fault
        ≡ least (flat_map (λ t. variable_faults (known_by tables.now) sides.Domain t.parameters)
        (map said_task tasks.now))) }
{
    let mut numbered = Checked::with_capacity(alloc, tasks.len())?;
    for task in tasks {
        numbered.push(checked_compound(alloc, tables, task)?)?;
    }
    Ok(numbered)
}

/// The methods, as written, and their first fault. All are there unless one has a fault.
///
/// # Errors
///
/// `Memory` where a growth was refused.
pub(crate) fn checked_methods<'s>(
    alloc: Global,
    tables: &Tables<'s>,
    methods: &[MethodText<'s>],
) -> Result<Checked<Vec<Method<'s>>>, Memory>
    ensures value { IfOk result
        (λ c. c.fault ≡ None → map method_view c.value.items
        ≡ map (method_in (known_by tables.now)) (map said_method methods.now)) }
    ensures fault { IfOk result
        (λ c. c.fault
        ≡ least (flat_map (method_faults (known_by tables.now) sides.Domain)
        (map said_method methods.now))) }
{
    let mut numbered = Vec::new(alloc);
    let mut found = None;
    for method in methods {
        let checked = checked_method(alloc, tables, method)?;
        found = earlier(found, checked.fault);
        let value = checked.value;
        if let Some(method) = value {
            numbered.push(method)?;
        }
    }
    Ok(Checked {
        value: numbered,
        fault: found,
    })
}

/// The actions, as written, and their first fault.
///
/// # Errors
///
/// `Memory` where a growth was refused.
pub(crate) fn checked_actions<'s>(
    alloc: Global,
    tables: &Tables<'s>,
    actions: &[ActionText<'s>],
) -> Result<Checked<Vec<Action<'s>>>, Memory>
    ensures value { IfOk result
        (λ c. map action_view c.value.items
        ≡ map (action_in (known_by tables.now)) (map said_action actions.now)) }
    ensures fault { IfOk result
        (λ c. c.fault
        ≡ least (flat_map (action_faults (known_by tables.now) sides.Domain)
        (map said_action actions.now))) }
{
    let mut numbered = Checked::with_capacity(alloc, actions.len())?;
    for action in actions {
        numbered.push(checked_action(alloc, tables, action)?)?;
    }
    Ok(numbered)
}

/// The goal, where there is one, and its first fault: no variable is bound around it.
///
/// # Errors
///
/// `Memory` where a growth was refused.
pub(crate) fn checked_goal<'s>(
    alloc: Global,
    tables: &Tables<'s>,
    goal: Option<&FormulaText<'s>>,
) -> Result<Checked<Option<Formula>>, Memory>
    ensures value { IfOk result
        (λ c. option_map formula_view c.value
        ≡ option_map (formula_in (known_by tables.now) (parameters []))
        (option_map (λ f. said_formula f.now) goal.entry)) }
    ensures fault { IfOk result
        (λ c. c.fault
        ≡ least (goal_faults (known_by tables.now) sides.Problem
        (option_map (λ f. said_formula f.now) goal.entry))) }
{
    let Some(goal) = goal else {
        return Ok(Checked::new(None, None));
    };
    let names = Names::none(alloc);
    let scope = Scope::Parameters(&names, 0);
    let goal = checked_formula(alloc, tables, &scope, Side::Problem, goal)?;
    Ok(Checked::new(Some(goal.value), goal.fault))
}
