//! Tasks, methods, actions and the initial network over numbers, each with its first fault.

ghost use Rattle.std.specs.Prelude.{◌≡◌, ◌≢◌, IfOk, MatchOption};
ghost use Rattle.hv_syntax.specs.DeclarationViews.{task_view as said_task, method_view as said_method, action_view as said_action};
ghost use Rattle.hv_syntax.specs.ProblemViews.{htn_view as said_htn};
ghost use Rattle.hv_world.specs.declared.fault.Side.TheVariants as sides;
ghost use Rattle.hv_world.specs.Faults.{least};
ghost use Rattle.hv_world.specs.StaticRules.{variable_faults, method_faults, action_faults, htn_faults};
ghost use Rattle.hv_world.specs.inside.Tables.{known_by, HaveParameters};
ghost use Rattle.hv_world.specs.Values.{and, no_formulas};
ghost use Rattle.hv_world.specs.Views.{formula_view};
ghost use Rattle.hv_world.specs.MethodViews.{method_view};
ghost use Rattle.hv_world.specs.SectionViews.{task_view, action_view};
ghost use Rattle.hv_world.specs.Worlds.{method_in, top_in, task_by, action_in};

use crate::action::Action;
use crate::checked::Checked;
use crate::fault::{Side, earlier};
use crate::formula::Formula;
use crate::intern::effects::checked_effects;
use crate::intern::formulas::checked_formula;
use crate::intern::networks::{checked_network, checked_task};
use crate::intern::types::checked_parameters;
use crate::method::Method;
use crate::names::Names;
use crate::scope::Scope;
use crate::tables::Tables;
use crate::task::Task;
use hv_syntax::{ActionText, HtnText, MethodText, TaskText};
use hv_text::Memory;
use std::alloc::Global;

/// A method over numbers, and its first fault. It is there unless it has a fault.
///
/// # Errors
///
/// `Memory` where a growth was refused.
pub(crate) fn checked_method<'s>(
    alloc: Global,
    tables: &Tables<'s>,
    method: &MethodText<'s>,
) -> Result<Checked<Option<Method<'s>>>, Memory>
    ensures value { IfOk result
        (λ c. MatchOption c.value (c.fault ≢ None)
        (λ m. method_view m ≡ method_in (known_by tables.now) (said_method method.now))) }
    ensures fault { IfOk result
        (λ c. c.fault
        ≡ least (method_faults (known_by tables.now) sides.Domain (said_method method.now))) }
{
    let side = Side::Domain;
    let list = method.parameters();
    let names = Names::of_variables(alloc, list)?;
    let scope = Scope::Parameters(&names, list.len());
    let own = checked_parameters(alloc, tables, &names, side, list)?;
    let task = checked_task(alloc, tables, &scope, side, method.task())?;
    let precondition = checked_formula(alloc, tables, &scope, side, method.precondition())?;
    let span = method.span();
    let network = checked_network(alloc, tables, &scope, side, span, method.network())?;
    let head = earlier(own.fault, task.fault);
    let front = earlier(head, precondition.fault);
    let fault = earlier(front, network.fault);
    let value = network.value;
    let Some(network) = value else {
        return Ok(Checked::new(None, fault));
    };
    let name = Some(method.name().name());
    let task = Some(task.value);
    let method = Method::new(alloc, name, own.value, task, precondition.value, network)?;
    Ok(Checked::new(Some(method), fault))
}

// A formula that is always true.
fn always(alloc: Global) -> Formula
    ensures { formula_view result ≡ and no_formulas }
{
    Formula::And(Vec::new(alloc))
}

/// The initial network over numbers, as a method, and its first fault. It is there unless it has a
/// fault.
///
/// # Errors
///
/// `Memory` where a growth was refused.
pub(crate) fn checked_top<'s>(
    alloc: Global,
    tables: &Tables<'s>,
    htn: &HtnText<'s>,
) -> Result<Checked<Option<Method<'s>>>, Memory>
    requires { HaveParameters (said_htn htn.now) tables.now }
    ensures value { IfOk result
        (λ c. MatchOption c.value (c.fault ≢ None)
        (λ m. method_view m ≡ top_in (known_by tables.now) (said_htn htn.now))) }
    ensures fault { IfOk result
        (λ c. c.fault ≡ least (htn_faults (known_by tables.now) sides.Problem (said_htn htn.now))) }
{
    let side = Side::Problem;
    let list = htn.parameters();
    let scope = Scope::Parameters(&tables.parameters, list.len());
    let own = checked_parameters(alloc, tables, &tables.parameters, side, list)?;
    let network = checked_network(alloc, tables, &scope, side, htn.span(), htn.network())?;
    let fault = earlier(own.fault, network.fault);
    let value = network.value;
    let Some(network) = value else {
        return Ok(Checked::new(None, fault));
    };
    let top = Method::new(alloc, None, own.value, None, always(alloc), network)?;
    Ok(Checked::new(Some(top), fault))
}

/// A task that methods decompose, over numbers, and its first fault.
///
/// # Errors
///
/// `Memory` where a growth was refused.
pub(crate) fn checked_compound<'s>(
    alloc: Global,
    tables: &Tables<'s>,
    task: &TaskText<'s>,
) -> Result<Checked<Task<'s>>, Memory>
    ensures value { IfOk result
        (λ c. task_view c.value ≡ task_by (known_by tables.now) (said_task task.now)) }
    ensures fault { IfOk result
        (λ c. c.fault
        ≡ least (variable_faults (known_by tables.now) sides.Domain
        (said_task task.now).parameters)) }
{
    let list = task.parameters();
    let names = Names::of_variables(alloc, list)?;
    let parameters = checked_parameters(alloc, tables, &names, Side::Domain, list)?;
    let word = task.name();
    let task = Task {
        name: word.name(),
        parameters: parameters.value,
    };
    Ok(Checked::new(task, parameters.fault))
}

/// An action over numbers, and its first fault.
///
/// # Errors
///
/// `Memory` where a growth was refused.
pub(crate) fn checked_action<'s>(
    alloc: Global,
    tables: &Tables<'s>,
    action: &ActionText<'s>,
) -> Result<Checked<Action<'s>>, Memory>
    ensures value { IfOk result
        (λ c. action_view c.value ≡ action_in (known_by tables.now) (said_action action.now)) }
    ensures fault { IfOk result
        (λ c. c.fault
        ≡ least (action_faults (known_by tables.now) sides.Domain (said_action action.now))) }
{
    let side = Side::Domain;
    let list = action.parameters();
    let names = Names::of_variables(alloc, list)?;
    let scope = Scope::Parameters(&names, list.len());
    let own = checked_parameters(alloc, tables, &names, side, list)?;
    let precondition = checked_formula(alloc, tables, &scope, side, action.precondition())?;
    let effect = checked_effects(alloc, tables, &scope, side, action.effect().items())?;
    let head = earlier(own.fault, precondition.fault);
    let fault = earlier(head, effect.fault);
    let word = action.name();
    let action = Action {
        name: word.name(),
        parameters: own.value,
        precondition: precondition.value,
        effect: effect.value,
    };
    Ok(Checked::new(action, fault))
}
