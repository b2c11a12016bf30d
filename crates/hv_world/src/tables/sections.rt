//! Tasks and actions in the order of their text.

ghost use Rattle.std.specs.Prelude.{◌≡◌, ◌≤◌, [], ◌∷◌, ◌+◌, ◌-◌, ◌++◌, length, take, drop, map, IfOk, OnOk};
ghost use Rattle.hv_syntax.specs.DeclarationViews.{task_view, action_view};
ghost use Rattle.hv_syntax.specs.DomainViews.{domain_view};
ghost use Rattle.hv_world.specs.Known.{task_declarations, action_declarations, those_before, by_place, declarations};
ghost use Rattle.hv_world.specs.inside.Tables.{declaration_view};

use crate::id::{ActionId, TaskId, TaskName};
use crate::tables::Declared;
use hv_syntax::{ActionText, DomainText, TaskText};
use hv_text::Memory;
use std::alloc::Global;

// The declarations of tasks.
fn task_declarations<'s>(alloc: Global, tasks: &[TaskText<'s>]) -> Result<Vec<Declared<'s>>, Memory>
    ensures { IfOk result
        (λ v. map declaration_view v.items ≡ task_declarations 0 (map task_view tasks.now)) }
{
    let mut found = Vec::new(alloc);
    for number in 0..tasks.len() {
        let task = &tasks[number];
        found.push(Declared {
            what: TaskName::Compound(TaskId(number)),
            arity: task.parameters().len(),
            name: task.name(),
            start: task.span().start,
        })?;
    }
    Ok(found)
}

// The declarations of actions.
fn action_declarations<'s>(
    alloc: Global,
    actions: &[ActionText<'s>],
) -> Result<Vec<Declared<'s>>, Memory>
    ensures { IfOk result
        (λ v. map declaration_view v.items ≡ action_declarations 0 (map action_view actions.now)) }
{
    let mut found = Vec::new(alloc);
    for number in 0..actions.len() {
        let action = &actions[number];
        found.push(Declared {
            what: TaskName::Primitive(ActionId(number)),
            arity: action.parameters().len(),
            name: action.name(),
            start: action.span().start,
        })?;
    }
    Ok(found)
}

// Where the first of these stands, from a place on, that does not start before a declaration.
fn first_behind(declared: Declared<'_>, list: &[Declared<'_>], done: usize) -> usize
    requires { done ≤ length list.now }
    ensures counted { result
        ≡ done + length
        (those_before (declaration_view declared.entry)
        (map declaration_view (drop done list.now))) }
    ensures from { done ≤ result }
    ensures within { result ≤ length list.now }
{
    for place in done..list.len() {
        let other = list[place];
        if declared.start <= other.start {
            return place;
        }
    }
    list.len()
}

// Adds those that stand from one place up to another.
fn push_part<'s>(
    merged: &mut Vec<Declared<'s>>,
    list: &[Declared<'s>],
    from: usize,
    to: usize,
) -> Result<(), Memory>
    requires { to ≤ length list.now }
    ensures { OnOk result
        (merged.new.items ≡ merged.old.items ++ take (to - from) (drop from list.now)) }
{
    for place in from..to {
        merged.push(list[place])?;
    }
    Ok(())
}

// Adds those that stand from one place up to another, and a declaration behind them.
fn push_behind<'s>(
    merged: &mut Vec<Declared<'s>>,
    declared: Declared<'s>,
    list: &[Declared<'s>],
    from: usize,
    to: usize,
) -> Result<(), Memory>
    requires { to ≤ length list.now }
    ensures { OnOk result
        (merged.new.items ≡ merged.old.items ++ take (to - from) (drop from list.now)
        ++ declared.entry ∷ []) }
{
    push_part(merged, list, from, to)?;
    merged.push(declared)?;
    Ok(())
}

// Two lists in one, by the places of their sections.
fn by_place<'s>(
    alloc: Global,
    tasks: &[Declared<'s>],
    actions: &[Declared<'s>],
) -> Result<Vec<Declared<'s>>, Memory>
    ensures { IfOk result
        (λ v. map declaration_view v.items
        ≡ by_place (map declaration_view tasks.now) (map declaration_view actions.now)) }
{
    let mut merged = Vec::new(alloc);
    let mut done = 0;
    for task in tasks {
        let next = first_behind(*task, actions, done);
        push_behind(&mut merged, *task, actions, done, next)?;
        done = next;
    }
    push_part(&mut merged, actions, done, actions.len())?;
    Ok(merged)
}

/// The tasks and actions of a domain, as they stand in its text.
pub(crate) fn declarations<'s>(
    alloc: Global,
    domain: &DomainText<'s>,
) -> Result<Vec<Declared<'s>>, Memory>
    ensures { IfOk result
        (λ v. map declaration_view v.items ≡ declarations (domain_view domain.now)) }
{
    let tasks = task_declarations(alloc, domain.tasks())?;
    let actions = action_declarations(alloc, domain.actions())?;
    by_place(alloc, &tasks, &actions)
}
