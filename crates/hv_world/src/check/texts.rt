//! Faults of a domain and of a problem.

ghost use Rattle.std.specs.Prelude.{◌≡◌, IfOk};
ghost use Rattle.hv_syntax.specs.DomainViews.{domain_view};
ghost use Rattle.hv_syntax.specs.ProblemViews.{problem_view};
ghost use Rattle.hv_world.specs.declared.fault.StaticKind.TheVariants as kinds;
ghost use Rattle.hv_world.specs.declared.fault.Side.TheVariants as sides;
ghost use Rattle.hv_world.specs.Faults.{least};
ghost use Rattle.hv_world.specs.StaticRules.{duplicate_faults, domain_faults_by, problem_faults_by};
ghost use Rattle.hv_world.specs.inside.Tables.{known_by, HavePlaces};
ghost use Rattle.hv_world.specs.inside.Numbered.{IsOfDomain, IsOfProblem};

use crate::check::types::typed_fault;
use crate::fault::{Side, StaticFault, StaticKind, earlier};
use crate::names::{Names, repeated_word};
use crate::numbered::Numbered;
use crate::tables::Tables;
use crate::tables::words::{declared_words, method_words, predicate_words};
use hv_syntax::{DomainText, Placed, ProblemText};
use hv_text::Memory;
use std::alloc::Global;

// The first name that is declared twice.
fn duplicate_fault<'s>(
    alloc: Global,
    tables: &Tables<'s>,
    domain: &DomainText<'s>,
) -> Result<Option<StaticFault>, Memory>
    requires { HavePlaces (domain_view domain.now) tables.now }
    ensures { IfOk result (λ o. o ≡ least (duplicate_faults (domain_view domain.now))) }
{
    let kind = StaticKind::DuplicateName;
    let side = Side::Domain;
    let predicate_words = predicate_words(alloc, domain.predicates())?;
    let predicate = repeated_word(&tables.predicates.places, &predicate_words, kind, side);
    let method_words = method_words(alloc, domain.methods())?;
    let method_names = Names::of(alloc, &method_words)?;
    let method = repeated_word(&method_names, &method_words, kind, side);
    let task_words = declared_words(alloc, &tables.tasks.list)?;
    let task = repeated_word(&tables.tasks.places, &task_words, kind, side);
    let front = earlier(predicate, method);
    Ok(earlier(front, task))
}

/// The first fault of a domain, whose tasks, methods and actions are these.
///
/// # Errors
///
/// `Memory` where a growth was refused.
pub(crate) fn domain_fault<'s>(
    alloc: Global,
    tables: &Tables<'s>,
    domain: &DomainText<'s>,
    numbered: &Numbered<'s>,
) -> Result<Option<StaticFault>, Memory>
    requires places { HavePlaces (domain_view domain.now) tables.now }
    requires numbered { IsOfDomain (known_by tables.now) (domain_view domain.now) numbered.now }
    ensures { IfOk result
        (λ o. o ≡ least (domain_faults_by (known_by tables.now) (domain_view domain.now))) }
{
    let duplicate = duplicate_fault(alloc, tables, domain)?;
    let constant = typed_fault(tables, Side::Domain, domain.constants());
    let names = earlier(duplicate, constant);
    let tasks = earlier(names, numbered.tasks.fault);
    let methods = earlier(tasks, numbered.methods.fault);
    Ok(earlier(methods, numbered.actions.fault))
}

/// The first fault of a problem, by the names that these tables have, whose initial network,
/// initial state and goal are these.
pub(crate) fn problem_fault<'s>(
    tables: &Tables<'s>,
    problem: &ProblemText<'s>,
    numbered: &Numbered<'s>,
) -> Option<StaticFault>
    requires { IsOfProblem (known_by tables.now) (problem_view problem.now) numbered.now }
    ensures { result ≡ least (problem_faults_by (known_by tables.now) (problem_view problem.now)) }
{
    let object = typed_fault(tables, Side::Problem, problem.objects());
    let front = earlier(object, numbered.top.fault);
    let state = earlier(front, numbered.init.fault);
    earlier(state, numbered.goal.fault)
}
