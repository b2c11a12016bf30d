//! The first static fault of a domain and a problem.

ghost use Rattle.std.specs.Prelude.{◌≡◌, Some, IfOk, MatchOption};
ghost use Rattle.hv_syntax.specs.DomainViews.{domain_view};
ghost use Rattle.hv_syntax.specs.ProblemViews.{problem_view};
ghost use Rattle.hv_world.specs.Known.{known_in};
ghost use Rattle.hv_world.specs.StaticRules.{IsStatic, first_fault};
ghost use Rattle.hv_world.specs.inside.Numbered.{IsOfDomain, IsOfProblem};
ghost use Rattle.hv_world.specs.inside.Tables.{known_by, HavePlaces};

mod texts;
mod types;

use crate::check::texts::{domain_fault, problem_fault};
use crate::fault::StaticFault;
use crate::numbered::Numbered;
use crate::tables::Tables;
use hv_syntax::{DomainText, ProblemText};
use hv_text::Memory;
use std::alloc::Global;

/// The static fault that stands first in a domain, and where the domain has none the one that
/// stands first in its problem, of both of which these parts have got their numbers.
///
/// # Errors
///
/// `Memory` where a growth was refused.
pub(crate) fn first_fault<'s>(
    alloc: Global,
    tables: &Tables<'s>,
    domain: &DomainText<'s>,
    problem: &ProblemText<'s>,
    numbered: &Numbered<'s>,
) -> Result<Option<StaticFault>, Memory>
    requires known { known_by tables.now
        ≡ known_in (domain_view domain.now) (problem_view problem.now) }
    requires places { HavePlaces (domain_view domain.now) tables.now }
    requires domain { IsOfDomain (known_by tables.now) (domain_view domain.now) numbered.now }
    requires problem { IsOfProblem (known_by tables.now) (problem_view problem.now) numbered.now }
    ensures { IfOk result
        (λ o. MatchOption o (IsStatic (domain_view domain.now) (problem_view problem.now))
        (λ f. first_fault (domain_view domain.now) (problem_view problem.now) ≡ Some f)) }
{
    if let Some(fault) = domain_fault(alloc, tables, domain, numbered)? {
        return Ok(Some(fault));
    }
    Ok(problem_fault(tables, problem, numbered))
}
