//! The judge: from the bytes of three texts to a verdict.

ghost use Rattle.std.specs.Prelude.{◌≡◌, ◌≤◌, length, IfOk, IfErr};
ghost use Rattle.hv_text.specs.declared.fault.TheConstants.{MOST_BYTES};
ghost use Rattle.hv_world.specs.WorldViews.{world_view};
ghost use Rattle.hv_answer.specs.declared.answer.Verdict.TheVariants as verdicts;
ghost use Rattle.hv_judge.specs.Rejections.{reported, reported_static, first_too_long, which_of, text_of_side};
ghost use Rattle.hv_judge.specs.Verdicts.{HasVerdict, IsRight, Judged};
ghost use Rattle.hv_judge.specs.inside.Ends.{Ends, Explains, IsPairEnd, IsWorldOf, rejected_at};

use crate::not_solved::NotSolved;
use crate::rejection::{fault_in, reported, reported_static};
use crate::verdict::judge_plan;
use hv_answer::{Answer, Fault, Verdict, Which};
use hv_certificate::Certificate;
use hv_plan::{plans_are_small, read_plan};
use hv_reading::{SyntaxFault, read_domain, read_problem};
use hv_text::{MOST_BYTES, Memory};
use hv_world::{Side, StaticFault, World};
use std::alloc::Global;

// The first text that is too long.
pub(crate) fn first_too_long(domain: &[u8], problem: &[u8], plan: &[u8]) -> Option<Which>
    ensures { result ≡ first_too_long domain.now problem.now plan.now }
{
    if domain.len() > MOST_BYTES {
        return Some(Which::Domain);
    }
    if problem.len() > MOST_BYTES {
        return Some(Which::Problem);
    }
    if plan.len() > MOST_BYTES {
        return Some(Which::Plan);
    }
    None
}

// A text that is not read is rejected.
fn not_read(which: Which, text: &[u8], fault: SyntaxFault) -> NotSolved
    requires { length text.now ≤ MOST_BYTES }
    ensures { result ≡ rejected_at which text.now fault.span (reported fault.kind) }
{
    match reported(fault.kind) {
        Some(kind) => NotSolved::Rejected(which, fault_in(kind, text, fault.span)),
        None => NotSolved::Memory,
    }
}

// The text that a static fault stands in is rejected.
fn not_static(which: Which, text: &[u8], fault: StaticFault) -> NotSolved
    requires { length text.now ≤ MOST_BYTES }
    ensures { result ≡ rejected_at which text.now fault.span (reported_static fault.kind) }
{
    match reported_static(fault.kind) {
        Some(kind) => NotSolved::Rejected(which, fault_in(kind, text, fault.span)),
        None => NotSolved::Memory,
    }
}

// Where a static rule is broken, the text in which it is is rejected.
fn not_built(domain: &[u8], problem: &[u8], fault: StaticFault) -> NotSolved
    requires domain { length domain.now ≤ MOST_BYTES }
    requires problem { length problem.now ≤ MOST_BYTES }
    ensures { result ≡ rejected_at (which_of fault.side)
        (text_of_side domain.now problem.now fault.side) fault.span (reported_static fault.kind) }
{
    match fault.side {
        Side::Domain => not_static(Which::Domain, domain, fault),
        Side::Problem => not_static(Which::Problem, problem, fault),
    }
}

// The world of a domain and a problem, or the first fault of the two.
pub(crate) fn read_world<'s>(
    alloc: Global,
    domain: &'s [u8],
    problem: &'s [u8],
) -> Result<World<'s>, NotSolved>
    requires domain { length domain.now ≤ MOST_BYTES }
    requires problem { length problem.now ≤ MOST_BYTES }
    ensures ok { IfOk result
        (λ w. IsWorldOf domain.entry.now problem.entry.now (world_view w)) }
    ensures err { IfErr result (IsPairEnd domain.entry.now problem.entry.now) }
{
    let domain_text = match read_domain(alloc, domain) {
        Ok(text) => text,
        Err(fault) => return Err(not_read(Which::Domain, domain, fault)),
    };
    let problem_text = match read_problem(alloc, problem) {
        Ok(text) => text,
        Err(fault) => return Err(not_read(Which::Problem, problem, fault)),
    };
    match World::build(alloc, &domain_text, &problem_text) {
        Ok(world) => Ok(world),
        Err(fault) => Err(not_built(domain, problem, fault)),
    }
}

// That a plan solves its problem, with its certificate where `explain` asks for it, or why that is
// not said.
fn judge_texts<'s>(
    alloc: Global,
    domain: &'s [u8],
    problem: &'s [u8],
    plan: &'s [u8],
    limit: u64,
    explain: bool,
) -> Result<Option<Certificate<'s>>, NotSolved>
    ensures solves { IfOk result (λ _. HasVerdict
        domain.entry.now problem.entry.now plan.entry.now limit verdicts.Solves) }
    ensures certificate { IfOk result
        (Explains explain (IsRight domain.entry.now problem.entry.now plan.entry.now)) }
    ensures err { IfErr result
        (Ends (HasVerdict domain.entry.now problem.entry.now plan.entry.now limit)) }
{
    plans_are_small();
    if let Some(which) = first_too_long(domain, problem, plan) {
        return Err(NotSolved::Rejected(which, Fault::too_long()));
    }
    let world = read_world(alloc, domain, problem)?;
    let plan = read_plan(alloc, plan)?;
    judge_plan(alloc, &world, plan, limit, explain)
}

/// Judges whether a plan solves a problem of a domain. Where a node of the plan has more choices
/// than the limit, a plan that reaches the goal is left undecided.
///
/// # Errors
///
/// `Memory` where a growth was refused.
pub fn judge<'s>(
    alloc: Global,
    domain: &'s [u8],
    problem: &'s [u8],
    plan: &'s [u8],
    limit: u64,
) -> Result<Answer<'s>, Memory>
    ensures { IfOk result (Judged domain.entry.now problem.entry.now plan.entry.now limit) }
{
    match judge_texts(alloc, domain, problem, plan, limit, true) {
        Ok(Some(certificate)) => Ok(Answer::Solves(certificate)),
        Ok(None) => unreachable!(),
        Err(why) => why.answer(),
    }
}

/// Judges the same, and gives the verdict alone: no certificate is made, which takes less
/// time and memory.
///
/// # Errors
///
/// `Memory` where a growth was refused.
pub fn decide(
    alloc: Global,
    domain: &[u8],
    problem: &[u8],
    plan: &[u8],
    limit: u64,
) -> Result<Verdict, Memory>
    ensures { IfOk result (HasVerdict domain.now problem.now plan.now limit) }
{
    match judge_texts(alloc, domain, problem, plan, limit, false) {
        Ok(_found) => Ok(Verdict::Solves),
        Err(why) => why.verdict(),
    }
}
