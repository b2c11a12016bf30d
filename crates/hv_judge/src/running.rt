//! The judge over readers and a writer.

ghost use Rattle.std.specs.Prelude.{◌≡◌, ◌<◌, ◌+◌, ◌-◌, ◌^◌};
ghost use Rattle.hv_answer.specs.declared.answer.Which.TheVariants as texts;
ghost use Rattle.hv_answer.specs.declared.answer.Which.{Which};
ghost use Rattle.hv_answer.specs.declared.answer.Kind.TheVariants as kinds;
ghost use Rattle.hv_judge.specs.Runs.{reads_failed, writes_failed, failures_at, Wrote, IsSaid, IsTextOf, IsExplained, IsUnread, IsRunOfPlan, IsRunOfProblem, IsRunOf, IfHalted, IsWant, IsFailureOf, IsHaltOfText, IsHaltOfProblem, IsHaltOf};

use crate::judgement::{decide, judge};
use hv_answer::{Answer, Fault, Kind, Verdict, Which, write_answer, write_verdict};
use hv_text::{MOST_BYTES, Memory, ReadFault, Sink, Source, WriteFault, read_all};
use std::alloc::Global;
use thiserror::Error;

/// Why no verdict was given, or was not written whole.
#[derive(Clone, Copy, Debug, PartialEq, Eq, Error)]
pub enum RunFault {
    /// This reader failed. Nothing was written.
    #[error("a text cannot be read")]
    Read(Which),
    /// A growth of memory was refused. Nothing was written.
    #[error("out of memory")]
    Memory,
    /// The writer failed, or took no byte of a text that is not empty. A beginning of the
    /// text was written.
    #[error("the verdict cannot be written")]
    Write,
}

impl From<Memory> for RunFault {
    ghost use Rattle.hv_judge.specs.declared.running.RunFault.TheVariants as faults;

    ghost from_gives = { λ _ e. e ≡ faults.Memory };

    fn from(_refused: Memory) -> RunFault {
        RunFault::Memory
    }
}

impl From<WriteFault> for RunFault {
    ghost use Rattle.hv_judge.specs.declared.running.RunFault.TheVariants as faults;

    ghost from_gives = { λ _ e. e ≡ faults.Write };

    fn from(_failed: WriteFault) -> RunFault {
        RunFault::Write
    }
}

// Writes a verdict and says its kind.
fn finish<W: Sink>(verdict: Verdict, out: &mut W) -> Result<Kind, RunFault>
    requires { W.failures out.old < 2 ^ 64 - 1 }
    ensures wrote { Wrote (IsTextOf verdict) W.taken out.old out.new result }
    ensures reads { (w : Which) → reads_failed w result ≡ 0 }
    ensures halted { IfHalted (λ _. ⊥) result }
    ensures writes { W.failures out.new ≡ W.failures out.old + writes_failed result }
{
    write_verdict(verdict, out)?;
    Ok(verdict.kind())
}

// Writes an answer, with what explains it, and says its kind.
fn finish_explained<W: Sink>(answer: &Answer<'_>, out: &mut W) -> Result<Kind, RunFault>
    requires { W.failures out.old < 2 ^ 64 - 1 }
    ensures wrote { Wrote (IsExplained answer.now) W.taken out.old out.new result }
    ensures reads { (w : Which) → reads_failed w result ≡ 0 }
    ensures halted { IfHalted (λ _. ⊥) result }
    ensures writes { W.failures out.new ≡ W.failures out.old + writes_failed result }
{
    write_answer(answer, true, out)?;
    Ok(answer.kind())
}

// What is done with a text that was not read: one that is too long is rejected.
fn finish_unread<W: Sink>(which: Which, fault: ReadFault, out: &mut W) -> Result<Kind, RunFault>
    requires { W.failures out.old < 2 ^ 64 - 1 }
    ensures wrote { Wrote (IsUnread kinds.Rejected which fault) W.taken out.old out.new result }
    ensures reads { (w : Which) → reads_failed w result ≡ failures_at w which fault }
    ensures halted { IfHalted (IsFailureOf which fault) result }
    ensures writes { W.failures out.new ≡ W.failures out.old + writes_failed result }
{
    match fault {
        ReadFault::TooLong => finish(Verdict::Rejected(which, Fault::too_long()), out),
        ReadFault::Device => Err(RunFault::Read(which)),
        ReadFault::Memory => Err(RunFault::Memory),
    }
}

// Judges three texts and writes the verdict. A certificate is made only where it is written.
fn judge_texts<W: Sink>(
    alloc: Global,
    domain: &[u8],
    problem: &[u8],
    plan: &[u8],
    limit: u64,
    explain: bool,
    out: &mut W,
) -> Result<Kind, RunFault>
    requires { W.failures out.old < 2 ^ 64 - 1 }
    ensures wrote { Wrote
        (IsSaid domain.now problem.now plan.now limit explain) W.taken out.old out.new result }
    ensures reads { (w : Which) → reads_failed w result ≡ 0 }
    ensures halted { IfHalted IsWant result }
    ensures writes { W.failures out.new ≡ W.failures out.old + writes_failed result }
{
    if explain {
        let answer = judge(alloc, domain, problem, plan, limit)?;
        return finish_explained(&answer, out);
    }
    let verdict = decide(alloc, domain, problem, plan, limit)?;
    finish(verdict, out)
}

// Reads a plan, judges it and writes the verdict.
fn run_plan<C: Source, W: Sink>(
    alloc: Global,
    domain: &[u8],
    problem: &[u8],
    plan: &mut C,
    limit: u64,
    explain: bool,
    out: &mut W,
) -> Result<Kind, RunFault>
    requires plan { C.failures plan.old < 2 ^ 64 - 1 }
    requires out { W.failures out.old < 2 ^ 64 - 1 }
    ensures wrote { Wrote
        (IsRunOfPlan C.left plan.old plan.new limit explain domain.now problem.now)
        W.taken out.old out.new result }
    ensures reads_domain { reads_failed texts.Domain result ≡ 0 }
    ensures reads_problem { reads_failed texts.Problem result ≡ 0 }
    ensures reads_plan { C.failures plan.new
        ≡ C.failures plan.old + reads_failed texts.Plan result }
    ensures halted { IfHalted (IsHaltOfText texts.Plan C.left plan.old plan.new) result }
    ensures writes { W.failures out.new ≡ W.failures out.old + writes_failed result }
{
    match read_all(alloc, plan, MOST_BYTES) {
        Ok(plan) => judge_texts(alloc, domain, problem, &plan, limit, explain, out),
        Err(fault) => finish_unread(Which::Plan, fault, out),
    }
}

// Reads a problem and then a plan, judges them and writes the verdict.
fn run_problem<B: Source, C: Source, W: Sink>(
    alloc: Global,
    domain: &[u8],
    problem: &mut B,
    plan: &mut C,
    limit: u64,
    explain: bool,
    out: &mut W,
) -> Result<Kind, RunFault>
    requires problem { B.failures problem.old < 2 ^ 64 - 1 }
    requires plan { C.failures plan.old < 2 ^ 64 - 1 }
    requires out { W.failures out.old < 2 ^ 64 - 1 }
    ensures wrote { Wrote
        (IsRunOfProblem B.left problem.old problem.new C.left plan.old plan.new
        limit explain domain.now) W.taken out.old out.new result }
    ensures reads_domain { reads_failed texts.Domain result ≡ 0 }
    ensures reads_problem { B.failures problem.new
        ≡ B.failures problem.old + reads_failed texts.Problem result }
    ensures reads_plan { C.failures plan.new
        ≡ C.failures plan.old + reads_failed texts.Plan result }
    ensures later_plan { 0 < reads_failed texts.Problem result → plan.new ≡ plan.old }
    ensures halted { IfHalted
        (IsHaltOfProblem B.left problem.old problem.new C.left plan.old plan.new) result }
    ensures writes { W.failures out.new ≡ W.failures out.old + writes_failed result }
{
    match read_all(alloc, problem, MOST_BYTES) {
        Ok(problem) => run_plan(alloc, domain, &problem, plan, limit, explain, out),
        Err(fault) => finish_unread(Which::Problem, fault, out),
    }
}

/// Reads a domain, a problem and a plan, in this order, judges them, and writes the verdict, whose
/// kind it answers, with the certificate of a plan that solves its problem where `explain` asks for
/// it. A text that is too long is rejected at once. The readers behind one that failed or gave too
/// much are left alone.
///
/// # Errors
///
/// `Read` where a reader failed and `Memory` where a growth was refused: nothing was written then.
/// `Write` where the writer failed or took no byte of a text that is not empty.
pub fn run<A: Source, B: Source, C: Source, W: Sink>(
    alloc: Global,
    domain: &mut A,
    problem: &mut B,
    plan: &mut C,
    limit: u64,
    explain: bool,
    out: &mut W,
) -> Result<Kind, RunFault>
    requires domain { A.failures domain.old < 2 ^ 64 - 1 }
    requires problem { B.failures problem.old < 2 ^ 64 - 1 }
    requires plan { C.failures plan.old < 2 ^ 64 - 1 }
    requires out { W.failures out.old < 2 ^ 64 - 1 }
    ensures wrote { Wrote
        (IsRunOf A.left domain.old domain.new B.left problem.old problem.new
        C.left plan.old plan.new limit explain)
        W.taken out.old out.new result }
    ensures reads_domain { A.failures domain.new
        ≡ A.failures domain.old + reads_failed texts.Domain result }
    ensures reads_problem { B.failures problem.new
        ≡ B.failures problem.old + reads_failed texts.Problem result }
    ensures reads_plan { C.failures plan.new
        ≡ C.failures plan.old + reads_failed texts.Plan result }
    // where no verdict is given, each reader has moved on by what it gave
    ensures halted { IfHalted
        (IsHaltOf A.left domain.old domain.new B.left problem.old problem.new
        C.left plan.old plan.new) result }
    // a reader behind one that failed is left alone
    ensures later_problem { 0 < reads_failed texts.Domain result → problem.new ≡ problem.old }
    ensures later_plan { 0 < reads_failed texts.Domain result + reads_failed texts.Problem result
        → plan.new ≡ plan.old }
    ensures writes { W.failures out.new ≡ W.failures out.old + writes_failed result }
{
    match read_all(alloc, domain, MOST_BYTES) {
        Ok(domain) => run_problem(alloc, &domain, problem, plan, limit, explain, out),
        Err(fault) => finish_unread(Which::Domain, fault, out),
    }
}
