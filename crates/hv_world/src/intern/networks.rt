//! Networks over numbers, each with its first fault. Their names are looked up once for both, and
//! their order is built once.

ghost use Rattle.std.specs.Prelude.{◌≡◌, ◌≢◌, ◌<◌, ◌++◌, true, false, Some, None, All, map, IfOk, MatchOption};
ghost use Rattle.hv_syntax.specs.Views.{atom_view as said_atom};
ghost use Rattle.hv_syntax.specs.NetworkViews.{subtask_view as said_subtask, constraint_view as said_constraint, network_view as said_network};
ghost use Rattle.hv_world.specs.Cycles.{is_cyclic};
ghost use Rattle.hv_world.specs.Faults.{least};
ghost use Rattle.hv_world.specs.Known.{Known};
ghost use Rattle.hv_world.specs.Networks.{written_by};
ghost use Rattle.hv_world.specs.NetworkViews.{network_view};
ghost use Rattle.hv_world.specs.StaticRules.{arity_of_task, task_faults, subtask_faults, subtasks_faults, term_faults, constraints_faults, order_faults, network_faults};
ghost use Rattle.hv_world.specs.inside.Tables.{known_by, scope_view, declaration_view};
ghost use Rattle.hv_world.specs.Views.{subtask_view, constraint_view};
ghost use Rattle.hv_world.specs.Worlds.{task_in, subtasks_in, constraint_in, constraints_in, network_in};

use crate::checked::Checked;
use crate::fault::{Side, StaticFault, StaticKind, earlier};
use crate::formula::{Constraint, Subtask, Term};
use crate::id::{TaskId, TaskName};
use crate::intern::terms::{Head, checked_application, checked_equality};
use crate::labels::checked_pairs;
use crate::network::Network;
use crate::order::Order;
use crate::scope::Scope;
use crate::tables::{Declared, Tables};
use hv_syntax::{AtomText, ConstraintText, NetworkText, SubtaskText};
use hv_text::{Memory, Span};
use std::alloc::Global;

// How many terms a task takes, but not an action.
fn task_arity(declared: &Declared<'_>) -> Option<usize>
    ensures { result ≡ arity_of_task (Some (declaration_view declared.now)) }
{
    match declared.what {
        TaskName::Compound(_) => Some(declared.arity),
        TaskName::Primitive(_) => None,
    }
}

/// The task that a method is for, and its first fault.
///
/// # Errors
///
/// `Memory` where a growth was refused.
pub(crate) fn checked_task<'s>(
    alloc: Global,
    tables: &Tables<'s>,
    scope: &Scope<'_, 's>,
    side: Side,
    task: &AtomText<'s>,
) -> Result<Checked<Subtask>, Memory>
    ensures value { IfOk result
        (λ c. subtask_view c.value
        ≡ task_in (known_by tables.now) (scope_view scope.now) (said_atom task.now)) }
    ensures fault { IfOk result
        (λ c. c.fault
        ≡ least (task_faults (known_by tables.now) side (scope_view scope.now)
        (said_atom task.now))) }
{
    let (name, arity) = match tables.task(None, task.symbol().name()) {
        Some(declared) => (declared.what, task_arity(&declared)),
        None => (TaskName::Compound(TaskId(0)), None),
    };
    let head = Head {
        arity,
        unknown: StaticKind::UnknownTask,
    };
    let terms = checked_application(alloc, tables, scope, side, head, &[], task.lend())?;
    Ok(Checked {
        value: Subtask {
            name,
            terms: terms.value,
        },
        fault: terms.fault,
    })
}

// What a subtask is to do, and its terms, where there is one.
fn parts_of(subtask: Option<&Subtask>) -> (Option<TaskName>, &[Term]) {
    match subtask {
        Some(subtask) => (Some(subtask.name), &subtask.terms),
        None => (None, &[]),
    }
}

// A subtask, which is a task or an action, and its first fault; `other` is the one before it.
fn checked_subtask<'s>(
    alloc: Global,
    tables: &Tables<'s>,
    scope: &Scope<'_, 's>,
    side: Side,
    other: Option<&Subtask>,
    subtask: &SubtaskText<'s>,
) -> Result<Checked<Subtask>, Memory>
    ensures value { IfOk result
        (λ c. subtask_view c.value
        ≡ task_in (known_by tables.now) (scope_view scope.now) (said_subtask subtask.now).task) }
    ensures fault { IfOk result
        (λ c. c.fault
        ≡ least (subtask_faults (known_by tables.now) side (scope_view scope.now)
        (said_subtask subtask.now))) }
{
    let task = subtask.task();
    let (before, others) = parts_of(other);
    let (name, arity) = match tables.task(before, task.symbol().name()) {
        Some(declared) => (declared.what, Some(declared.arity)),
        None => (TaskName::Compound(TaskId(0)), None),
    };
    let head = Head {
        arity,
        unknown: StaticKind::UnknownTask,
    };
    let terms = checked_application(alloc, tables, scope, side, head, others, task.lend())?;
    Ok(Checked {
        value: Subtask {
            name,
            terms: terms.value,
        },
        fault: terms.fault,
    })
}

// The subtasks of a network, and their first fault.
fn checked_subtasks<'s>(
    alloc: Global,
    tables: &Tables<'s>,
    scope: &Scope<'_, 's>,
    side: Side,
    subtasks: &[SubtaskText<'s>],
) -> Result<Checked<Vec<Subtask>>, Memory>
    ensures value { IfOk result
        (λ c. map subtask_view c.value.items
        ≡ subtasks_in (known_by tables.now) (scope_view scope.now)
        (map said_subtask subtasks.now)) }
    ensures fault { IfOk result
        (λ c. c.fault
        ≡ least (subtasks_faults (known_by tables.now) side (scope_view scope.now)
        (map said_subtask subtasks.now))) }
{
    let mut numbered = Checked::with_capacity(alloc, subtasks.len())?;
    for subtask in subtasks {
        let other = numbered.value.last();
        let checked = checked_subtask(alloc, tables, scope, side, other, subtask)?;
        numbered.push(checked)?;
    }
    Ok(numbered)
}

// A constraint, and its first fault.
fn checked_constraint<'s>(
    tables: &Tables<'s>,
    scope: &Scope<'_, 's>,
    side: Side,
    constraint: ConstraintText<'s>,
) -> Result<Checked<Constraint>, Memory>
    ensures value { IfOk result
        (λ c. constraint_view c.value
        ≡ constraint_in (known_by tables.now) (scope_view scope.now)
        (said_constraint constraint.entry)) }
    ensures fault { IfOk result
        (λ c. c.fault
        ≡ least (term_faults (known_by tables.now) side (scope_view scope.now)
        (said_constraint constraint.entry).left
        ++ term_faults (known_by tables.now) side (scope_view scope.now)
        (said_constraint constraint.entry).right)) }
{
    let both = checked_equality(tables, scope, side, constraint.left(), constraint.right())?;
    let (left, right) = both.value;
    let constraint = Constraint {
        is_equal: constraint.is_equal(),
        left,
        right,
    };
    Ok(Checked::new(constraint, both.fault))
}

// The constraints of a network, and their first fault.
fn checked_constraints<'s>(
    alloc: Global,
    tables: &Tables<'s>,
    scope: &Scope<'_, 's>,
    side: Side,
    constraints: &[ConstraintText<'s>],
) -> Result<Checked<Vec<Constraint>>, Memory>
    ensures value { IfOk result
        (λ c. map constraint_view c.value.items
        ≡ constraints_in (known_by tables.now) (scope_view scope.now)
        (map said_constraint constraints.now)) }
    ensures fault { IfOk result
        (λ c. c.fault
        ≡ least (constraints_faults (known_by tables.now) side (scope_view scope.now)
        (map said_constraint constraints.now))) }
{
    let mut numbered = Checked::with_capacity(alloc, constraints.len())?;
    for constraint in constraints {
        numbered.push(checked_constraint(tables, scope, side, *constraint)?)?;
    }
    Ok(numbered)
}

// The order of a network of which these are the pairs, each of two subtasks; none where a subtask
// comes before itself.
fn order_of(
    alloc: Global,
    network: &NetworkText<'_>,
    pairs: Vec<(usize, usize)>,
) -> Result<Option<Order>, Memory>
    requires pairs { pairs.items ≡ (written_by (said_network network.now)).pairs }
    requires within { All
        (λ p. (p.0 < (written_by (said_network network.now)).len)
        × (p.1 < (written_by (said_network network.now)).len))
        (written_by (said_network network.now)).pairs }
    ensures { IfOk result
        (λ o. MatchOption o (is_cyclic (written_by (said_network network.now)) ≡ true)
        (λ order. (order ≡ written_by (said_network network.now))
        × (is_cyclic (written_by (said_network network.now)) ≡ false))) }
{
    let order = Order::new(alloc, network.subtasks().len(), network.is_ordered(), pairs)?;
    Ok(order)
}

// The order of a network, which is there unless it has a fault, and its first fault. That of a
// cycle stands at the place of the network's section.
fn checked_order(
    alloc: Global,
    side: Side,
    span: Span,
    network: &NetworkText<'_>,
) -> Result<Checked<Option<Order>>, Memory>
    ensures value { IfOk result
        (λ c. MatchOption c.value (c.fault ≢ None)
        (λ o. o ≡ written_by (said_network network.now))) }
    ensures fault { IfOk result
        (λ c. (k : Known)
        → c.fault ≡ least (order_faults k side span (said_network network.now))) }
{
    let pairs = checked_pairs(alloc, side, network)?;
    let found = pairs.fault;
    if let Some(fault) = found {
        return Ok(Checked {
            value: None,
            fault: Some(fault),
        });
    }
    let kind = StaticKind::CyclicOrdering;
    match order_of(alloc, network, pairs.value)? {
        Some(order) => Ok(Checked {
            value: Some(order),
            fault: None,
        }),
        None => Ok(Checked {
            value: None,
            fault: Some(StaticFault { kind, side, span }),
        }),
    }
}

/// A network, of whose section this is the place, and its first fault. It is there unless its order
/// has a fault.
///
/// # Errors
///
/// `Memory` where a growth was refused.
pub(crate) fn checked_network<'s>(
    alloc: Global,
    tables: &Tables<'s>,
    scope: &Scope<'_, 's>,
    side: Side,
    span: Span,
    network: &NetworkText<'s>,
) -> Result<Checked<Option<Network>>, Memory>
    ensures value { IfOk result
        (λ c. MatchOption c.value (c.fault ≢ None)
        (λ n. network_view n
        ≡ network_in (known_by tables.now) (scope_view scope.now) (said_network network.now))) }
    ensures fault { IfOk result
        (λ c. c.fault
        ≡ least (network_faults (known_by tables.now) side (scope_view scope.now) span
        (said_network network.now))) }
{
    let subtasks = checked_subtasks(alloc, tables, scope, side, network.subtasks())?;
    let constraints = checked_constraints(alloc, tables, scope, side, network.constraints())?;
    let order = checked_order(alloc, side, span, network)?;
    let parts = earlier(subtasks.fault, constraints.fault);
    let fault = earlier(parts, order.fault);
    match order.value {
        Some(order) => {
            let network = Network::new(alloc, subtasks.value, order, constraints.value)?;
            Ok(Checked {
                value: Some(network),
                fault,
            })
        }
        None => Ok(Checked { value: None, fault }),
    }
}
