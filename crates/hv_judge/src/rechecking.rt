//! The check of the text of a certificate, also over readers and a writer.

ghost use Rattle.std.specs.Prelude.{◌≡◌, ◌<◌, ◌+◌, ◌-◌, ◌^◌, false, length, IfOk, IfErr};
ghost use Rattle.hv_world.specs.WorldViews.{world_view};
ghost use Rattle.hv_plan.specs.LineViews.{plan_view};
ghost use Rattle.hv_order.specs.Settings.{HasNoPrecondition};
ghost use Rattle.hv_answer.specs.declared.answer.Which.TheVariants as texts;
ghost use Rattle.hv_answer.specs.declared.answer.Which.{Which};
ghost use Rattle.hv_judge.specs.Checked.{Rechecked, AreExamined, IsExaminedOf, IsRecheckFault};
ghost use Rattle.hv_judge.specs.Rechecks.{IsRecheckLine, IsFoundLine, said_line, IsRecheckOfCertificate, IsRecheckOfPlan, IsRecheckOfProblem, IsRecheckOf, IsRecheckHaltOfCertificate, IsRecheckHaltOfPlan, IsRecheckHaltOfProblem, IsRecheckHaltOf};
ghost use Rattle.hv_judge.specs.inside.CheckEnds.{IsCertEnd};
ghost use Rattle.hv_judge.specs.declared.rechecking.RecheckKind.TheVariants as kinds;
ghost use Rattle.hv_judge.specs.Runs.{reads_failed, writes_failed, failures_at, Wrote, IsRejection, IsUnread, IfHalted, IsWant, IsFailureOf};

use crate::checking::{CheckFault, Examined, Recheck, check_plan};
use crate::judgement::{first_too_long, read_world};
use crate::running::RunFault;
use hv_answer::{Fault, Verdict, Which, write_refusal, write_verdict};
use hv_certificate::read_cert;
use hv_plan::{PlanText, plans_are_small, read_plan};
use hv_text::{MOST_BYTES, ReadFault, Sink, Source, read_all, write_all};
use hv_world::World;
use std::alloc::Global;

// Reads the text of a certificate, and checks a plan of a world by it.
fn check_text<'s>(
    alloc: Global,
    world: &World<'s>,
    plan: PlanText<'s>,
    certificate: &'s [u8],
) -> Result<Examined, CheckFault>
    requires top { HasNoPrecondition (world_view world.now) }
    requires small { length (plan_view plan).actions
        + length (plan_view plan).decompositions < 4294967295 }
    ensures ok { IfOk result (λ found. IsExaminedOf
        certificate.entry.now found (world_view world.now) (plan_view plan.entry)) }
    ensures err { IfErr result (IsCertEnd certificate.entry.now) }
{
    let certificate = read_cert(alloc, certificate)?;
    Ok(check_plan(alloc, world, plan, &certificate)?)
}

/// Checks the text of a certificate as `recheck` does, and tells the line that does not fit.
///
/// # Errors
///
/// As those of `recheck`.
pub fn examine<'s>(
    alloc: Global,
    domain: &'s [u8],
    problem: &'s [u8],
    plan: &'s [u8],
    certificate: &'s [u8],
) -> Result<Examined, CheckFault>
    ensures ok { IfOk result (AreExamined
        domain.entry.now problem.entry.now plan.entry.now certificate.entry.now) }
    ensures err { IfErr result (IsRecheckFault
        domain.entry.now problem.entry.now plan.entry.now certificate.entry.now) }
{
    plans_are_small();
    if let Some(which) = first_too_long(domain, problem, plan) {
        return Err(CheckFault::Rejected(which, Fault::too_long()));
    }
    if certificate.len() > MOST_BYTES {
        return Err(CheckFault::Rejected(Which::Certificate, Fault::too_long()));
    }
    let world = read_world(alloc, domain, problem)?;
    let plan = read_plan(alloc, plan)?;
    check_text(alloc, &world, plan, certificate)
}

/// Checks the text of a certificate, which is read and then checked as by `check`; no formula is
/// evaluated twice.
///
/// # Errors
///
/// `Rejected` where one of the four texts is: the first of them that is too long, else the
/// domain, the problem or the plan as `judge` says it, else the certificate. `Memory` where a
/// growth was refused.
pub fn recheck<'s>(
    alloc: Global,
    domain: &'s [u8],
    problem: &'s [u8],
    plan: &'s [u8],
    certificate: &'s [u8],
) -> Result<Recheck, CheckFault>
    ensures ok { IfOk result (Rechecked
        domain.entry.now problem.entry.now plan.entry.now certificate.entry.now) }
    ensures err { IfErr result (IsRecheckFault
        domain.entry.now problem.entry.now plan.entry.now certificate.entry.now) }
{
    let found = examine(alloc, domain, problem, plan, certificate)?;
    Ok(found.recheck)
}

/// What was said of a certificate.
#[derive(Clone, Copy, Debug, PartialEq, Eq)]
pub enum RecheckKind {
    /// The plan solves the problem by it.
    Certified,
    /// The plan does not solve the problem by it.
    NotCertified,
    /// One of the four texts is rejected.
    Rejected,
}

// The line of a certificate that is said, where it is asked for.
fn said_line(misfit: bool, line: Option<u64>) -> Option<u64>
    ensures { result ≡ said_line misfit line }
{
    if misfit { line } else { None }
}

// Writes what was found of a certificate.
fn tell<W: Sink>(certified: bool, line: Option<u64>, out: &mut W) -> Result<RecheckKind, RunFault>
    requires { W.failures out.old < 2 ^ 64 - 1 }
    ensures wrote { Wrote (IsFoundLine certified line) W.taken out.old out.new result }
    ensures reads { (w : Which) → reads_failed w result ≡ 0 }
    ensures halted { IfHalted (λ _. ⊥) result }
    ensures writes { W.failures out.new ≡ W.failures out.old + writes_failed result }
{
    if certified {
        write_all(out, b"certified\n")?;
        return Ok(RecheckKind::Certified);
    }
    write_refusal(line, out)?;
    Ok(RecheckKind::NotCertified)
}

// Writes the line of a rejection.
fn reject<W: Sink>(which: Which, fault: Fault, out: &mut W) -> Result<RecheckKind, RunFault>
    requires { W.failures out.old < 2 ^ 64 - 1 }
    ensures wrote { Wrote (IsRejection kinds.Rejected which fault) W.taken out.old out.new result }
    ensures reads { (w : Which) → reads_failed w result ≡ 0 }
    ensures halted { IfHalted (λ _. ⊥) result }
    ensures writes { W.failures out.new ≡ W.failures out.old + writes_failed result }
{
    write_verdict(Verdict::Rejected(which, fault), out)?;
    Ok(RecheckKind::Rejected)
}

// What is done with a text that was not read: one that is too long is rejected.
fn reject_unread<W: Sink>(
    which: Which,
    fault: ReadFault,
    out: &mut W,
) -> Result<RecheckKind, RunFault>
    requires { W.failures out.old < 2 ^ 64 - 1 }
    ensures wrote { Wrote (IsUnread kinds.Rejected which fault) W.taken out.old out.new result }
    ensures reads { (w : Which) → reads_failed w result ≡ failures_at w which fault }
    ensures halted { IfHalted (IsFailureOf which fault) result }
    ensures writes { W.failures out.new ≡ W.failures out.old + writes_failed result }
{
    match fault {
        ReadFault::TooLong => reject(which, Fault::too_long(), out),
        ReadFault::Device => Err(RunFault::Read(which)),
        ReadFault::Memory => Err(RunFault::Memory),
    }
}

// Checks a certificate by four texts and writes what was found.
fn recheck_texts<W: Sink>(
    alloc: Global,
    domain: &[u8],
    problem: &[u8],
    plan: &[u8],
    certificate: &[u8],
    misfit: bool,
    out: &mut W,
) -> Result<RecheckKind, RunFault>
    requires { W.failures out.old < 2 ^ 64 - 1 }
    ensures wrote { Wrote
        (IsRecheckLine misfit domain.now problem.now plan.now certificate.now)
        W.taken out.old out.new result }
    ensures reads { (w : Which) → reads_failed w result ≡ 0 }
    ensures halted { IfHalted IsWant result }
    ensures writes { W.failures out.new ≡ W.failures out.old + writes_failed result }
{
    match examine(alloc, domain, problem, plan, certificate) {
        Ok(found) => tell(
            found.recheck.certified,
            said_line(misfit, found.misfit),
            out,
        ),
        Err(CheckFault::Rejected(which, fault)) => reject(which, fault, out),
        Err(CheckFault::Memory) => Err(RunFault::Memory),
    }
}

// Reads a certificate, checks it and writes what was found.
fn recheck_certificate<D: Source, W: Sink>(
    alloc: Global,
    domain: &[u8],
    problem: &[u8],
    plan: &[u8],
    certificate: &mut D,
    misfit: bool,
    out: &mut W,
) -> Result<RecheckKind, RunFault>
    requires certificate { D.failures certificate.old < 2 ^ 64 - 1 }
    requires out { W.failures out.old < 2 ^ 64 - 1 }
    ensures wrote { Wrote
        (IsRecheckOfCertificate D.left certificate.old certificate.new
        misfit domain.now problem.now plan.now) W.taken out.old out.new result }
    ensures reads_domain { reads_failed texts.Domain result ≡ 0 }
    ensures reads_problem { reads_failed texts.Problem result ≡ 0 }
    ensures reads_plan { reads_failed texts.Plan result ≡ 0 }
    ensures reads_certificate { D.failures certificate.new
        ≡ D.failures certificate.old + reads_failed texts.Certificate result }
    ensures halted { IfHalted
        (IsRecheckHaltOfCertificate D.left certificate.old certificate.new) result }
    ensures writes { W.failures out.new ≡ W.failures out.old + writes_failed result }
{
    match read_all(alloc, certificate, MOST_BYTES) {
        Ok(certificate) => recheck_texts(alloc, domain, problem, plan, &certificate, misfit, out),
        Err(fault) => reject_unread(Which::Certificate, fault, out),
    }
}

// Reads a plan and then a certificate, checks it and writes what was found.
fn recheck_plan<C: Source, D: Source, W: Sink>(
    alloc: Global,
    domain: &[u8],
    problem: &[u8],
    plan: &mut C,
    certificate: &mut D,
    misfit: bool,
    out: &mut W,
) -> Result<RecheckKind, RunFault>
    requires plan { C.failures plan.old < 2 ^ 64 - 1 }
    requires certificate { D.failures certificate.old < 2 ^ 64 - 1 }
    requires out { W.failures out.old < 2 ^ 64 - 1 }
    ensures wrote { Wrote
        (IsRecheckOfPlan C.left plan.old plan.new D.left certificate.old certificate.new
        misfit domain.now problem.now) W.taken out.old out.new result }
    ensures reads_domain { reads_failed texts.Domain result ≡ 0 }
    ensures reads_problem { reads_failed texts.Problem result ≡ 0 }
    ensures reads_plan { C.failures plan.new
        ≡ C.failures plan.old + reads_failed texts.Plan result }
    ensures reads_certificate { D.failures certificate.new
        ≡ D.failures certificate.old + reads_failed texts.Certificate result }
    ensures later_certificate { 0 < reads_failed texts.Plan result
        → certificate.new ≡ certificate.old }
    ensures halted { IfHalted
        (IsRecheckHaltOfPlan C.left plan.old plan.new D.left certificate.old certificate.new)
        result }
    ensures writes { W.failures out.new ≡ W.failures out.old + writes_failed result }
{
    match read_all(alloc, plan, MOST_BYTES) {
        Ok(plan) => recheck_certificate(alloc, domain, problem, &plan, certificate, misfit, out),
        Err(fault) => reject_unread(Which::Plan, fault, out),
    }
}

// Reads a problem, a plan and then a certificate, checks it and writes what was found.
fn recheck_problem<B: Source, C: Source, D: Source, W: Sink>(
    alloc: Global,
    domain: &[u8],
    problem: &mut B,
    plan: &mut C,
    certificate: &mut D,
    misfit: bool,
    out: &mut W,
) -> Result<RecheckKind, RunFault>
    requires problem { B.failures problem.old < 2 ^ 64 - 1 }
    requires plan { C.failures plan.old < 2 ^ 64 - 1 }
    requires certificate { D.failures certificate.old < 2 ^ 64 - 1 }
    requires out { W.failures out.old < 2 ^ 64 - 1 }
    ensures wrote { Wrote
        (IsRecheckOfProblem B.left problem.old problem.new C.left plan.old plan.new
        D.left certificate.old certificate.new misfit domain.now) W.taken out.old out.new result }
    ensures reads_domain { reads_failed texts.Domain result ≡ 0 }
    ensures reads_problem { B.failures problem.new
        ≡ B.failures problem.old + reads_failed texts.Problem result }
    ensures reads_plan { C.failures plan.new
        ≡ C.failures plan.old + reads_failed texts.Plan result }
    ensures reads_certificate { D.failures certificate.new
        ≡ D.failures certificate.old + reads_failed texts.Certificate result }
    ensures later_plan { 0 < reads_failed texts.Problem result → plan.new ≡ plan.old }
    ensures later_certificate { 0 < reads_failed texts.Problem result
        + reads_failed texts.Plan result → certificate.new ≡ certificate.old }
    ensures halted { IfHalted
        (IsRecheckHaltOfProblem B.left problem.old problem.new C.left plan.old plan.new
        D.left certificate.old certificate.new) result }
    ensures writes { W.failures out.new ≡ W.failures out.old + writes_failed result }
{
    match read_all(alloc, problem, MOST_BYTES) {
        Ok(problem) => recheck_plan(alloc, domain, &problem, plan, certificate, misfit, out),
        Err(fault) => reject_unread(Which::Problem, fault, out),
    }
}

/// Reads a domain, a problem, a plan and a certificate, in this order, checks the certificate, and
/// writes a line, as `run_recheck` does. Where `misfit` is asked for, the line of the certificate
/// that does not fit stands behind `not certified`, unless no certificate helps the plan.
///
/// # Errors
///
/// As those of `run_recheck`.
pub fn run_examine<A: Source, B: Source, C: Source, D: Source, W: Sink>(
    alloc: Global,
    domain: &mut A,
    problem: &mut B,
    plan: &mut C,
    certificate: &mut D,
    misfit: bool,
    out: &mut W,
) -> Result<RecheckKind, RunFault>
    requires domain { A.failures domain.old < 2 ^ 64 - 1 }
    requires problem { B.failures problem.old < 2 ^ 64 - 1 }
    requires plan { C.failures plan.old < 2 ^ 64 - 1 }
    requires certificate { D.failures certificate.old < 2 ^ 64 - 1 }
    requires out { W.failures out.old < 2 ^ 64 - 1 }
    ensures wrote { Wrote
        (IsRecheckOf A.left domain.old domain.new B.left problem.old problem.new
        C.left plan.old plan.new D.left certificate.old certificate.new misfit)
        W.taken out.old out.new result }
    ensures reads_domain { A.failures domain.new
        ≡ A.failures domain.old + reads_failed texts.Domain result }
    ensures reads_problem { B.failures problem.new
        ≡ B.failures problem.old + reads_failed texts.Problem result }
    ensures reads_plan { C.failures plan.new
        ≡ C.failures plan.old + reads_failed texts.Plan result }
    ensures reads_certificate { D.failures certificate.new
        ≡ D.failures certificate.old + reads_failed texts.Certificate result }
    // where nothing is said, each reader has moved on by what it gave
    ensures halted { IfHalted
        (IsRecheckHaltOf A.left domain.old domain.new B.left problem.old problem.new
        C.left plan.old plan.new D.left certificate.old certificate.new) result }
    // a reader behind one that failed is left alone
    ensures later_problem { 0 < reads_failed texts.Domain result → problem.new ≡ problem.old }
    ensures later_plan { 0 < reads_failed texts.Domain result + reads_failed texts.Problem result
        → plan.new ≡ plan.old }
    ensures later_certificate { 0 < reads_failed texts.Domain result
        + reads_failed texts.Problem result + reads_failed texts.Plan result
        → certificate.new ≡ certificate.old }
    ensures writes { W.failures out.new ≡ W.failures out.old + writes_failed result }
{
    match read_all(alloc, domain, MOST_BYTES) {
        Ok(domain) => recheck_problem(alloc, &domain, problem, plan, certificate, misfit, out),
        Err(fault) => reject_unread(Which::Domain, fault, out),
    }
}

/// Reads a domain, a problem, a plan and a certificate, in this order, checks the certificate, and
/// writes a line: `certified`, `not certified`, or that of a rejection. A text that is too long is
/// rejected at once. The readers behind one that failed or gave too much are left alone.
///
/// # Errors
///
/// `Read` where a reader failed and `Memory` where a growth was refused: nothing was written then.
/// `Write` where the writer failed or took no byte of a text that is not empty.
pub fn run_recheck<A: Source, B: Source, C: Source, D: Source, W: Sink>(
    alloc: Global,
    domain: &mut A,
    problem: &mut B,
    plan: &mut C,
    certificate: &mut D,
    out: &mut W,
) -> Result<RecheckKind, RunFault>
    requires domain { A.failures domain.old < 2 ^ 64 - 1 }
    requires problem { B.failures problem.old < 2 ^ 64 - 1 }
    requires plan { C.failures plan.old < 2 ^ 64 - 1 }
    requires certificate { D.failures certificate.old < 2 ^ 64 - 1 }
    requires out { W.failures out.old < 2 ^ 64 - 1 }
    ensures wrote { Wrote
        (IsRecheckOf A.left domain.old domain.new B.left problem.old problem.new
        C.left plan.old plan.new D.left certificate.old certificate.new false)
        W.taken out.old out.new result }
    ensures reads_domain { A.failures domain.new
        ≡ A.failures domain.old + reads_failed texts.Domain result }
    ensures reads_problem { B.failures problem.new
        ≡ B.failures problem.old + reads_failed texts.Problem result }
    ensures reads_plan { C.failures plan.new
        ≡ C.failures plan.old + reads_failed texts.Plan result }
    ensures reads_certificate { D.failures certificate.new
        ≡ D.failures certificate.old + reads_failed texts.Certificate result }
    // where nothing is said, each reader has moved on by what it gave
    ensures halted { IfHalted
        (IsRecheckHaltOf A.left domain.old domain.new B.left problem.old problem.new
        C.left plan.old plan.new D.left certificate.old certificate.new) result }
    // a reader behind one that failed is left alone
    ensures later_problem { 0 < reads_failed texts.Domain result → problem.new ≡ problem.old }
    ensures later_plan { 0 < reads_failed texts.Domain result + reads_failed texts.Problem result
        → plan.new ≡ plan.old }
    ensures later_certificate { 0 < reads_failed texts.Domain result
        + reads_failed texts.Problem result + reads_failed texts.Plan result
        → certificate.new ≡ certificate.old }
    ensures writes { W.failures out.new ≡ W.failures out.old + writes_failed result }
{
    run_examine(alloc, domain, problem, plan, certificate, false, out)
}
