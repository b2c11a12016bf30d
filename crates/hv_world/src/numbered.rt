//! What is checked as it gets its numbers: the tasks, methods and actions of a domain, and the
//! initial network, the initial state and the goal of its problem.

ghost use Rattle.std.specs.Prelude.{IfOk};
ghost use Rattle.hv_syntax.specs.DomainViews.{domain_view};
ghost use Rattle.hv_syntax.specs.ProblemViews.{problem_view};
ghost use Rattle.hv_world.specs.inside.Numbered.{IsOfDomain, IsOfProblem};
ghost use Rattle.hv_world.specs.inside.Tables.{known_by, HaveParameters};

use crate::action::Action;
use crate::checked::Checked;
use crate::facts::Facts;
use crate::formula::Formula;
use crate::intern::lists::{checked_actions, checked_compounds, checked_goal, checked_methods};
use crate::intern::literals::checked_init;
use crate::intern::sections::checked_top;
use crate::method::Method;
use crate::tables::Tables;
use crate::task::Task;
use hv_syntax::{DomainText, ProblemText};
use hv_text::Memory;
use std::alloc::Global;

/// These parts over numbers, each with its first fault.
#[derive(Drop)]
pub(crate) struct Numbered<'s> {
    /// The tasks that methods decompose.
    pub tasks: Checked<Vec<Task<'s>>>,
    pub methods: Checked<Vec<Method<'s>>>,
    pub actions: Checked<Vec<Action<'s>>>,
    /// The initial network, as a method.
    pub top: Checked<Option<Method<'s>>>,
    /// The atoms that are true at the start.
    pub init: Checked<Facts>,
    pub goal: Checked<Option<Formula>>,
}

impl<'s> Numbered<'s> {
    /// Those of a domain and a problem.
    ///
    /// # Errors
    ///
    /// `Memory` where a growth was refused.
    pub(crate) fn of(
        alloc: Global,
        tables: &Tables<'s>,
        domain: &DomainText<'s>,
        problem: &ProblemText<'s>,
    ) -> Result<Numbered<'s>, Memory>
        requires { HaveParameters (problem_view problem.now).htn tables.now }
        ensures domain { IfOk result (IsOfDomain (known_by tables.now) (domain_view domain.now)) }
        ensures problem { IfOk result
            (IsOfProblem (known_by tables.now) (problem_view problem.now)) }
    {
        let tasks = checked_compounds(alloc, tables, domain.tasks())?;
        let methods = checked_methods(alloc, tables, domain.methods())?;
        let actions = checked_actions(alloc, tables, domain.actions())?;
        let top = checked_top(alloc, tables, problem.htn())?;
        let init = checked_init(alloc, tables, problem.init())?;
        let goal = checked_goal(alloc, tables, problem.goal())?;
        Ok(Numbered {
            tasks,
            methods,
            actions,
            top,
            init,
            goal,
        })
    }
}
