//! A text printed anew: its canonical text, or the line of its rejection.

ghost use Rattle.std.specs.Prelude.{◌≡◌, ◌<◌, ◌≤◌, ◌+◌, ◌-◌, ◌^◌, false, length};
ghost use Rattle.hv_text.specs.declared.fault.TheConstants.{MOST_BYTES};
ghost use Rattle.hv_answer.specs.declared.answer.Which.{Which};
ghost use Rattle.hv_answer.specs.declared.answer.Which.TheVariants as texts;
ghost use Rattle.hv_judge.specs.Runs.{is_same, reads_failed, writes_failed, failures_at, Wrote, IfHalted, IsWant, IsFailureOf, IsHaltOfText};
ghost use Rattle.hv_judge.specs.Prints.{IsPrint, IsPrintOf, IsDone, IsRejection, IsTextRejection, IsPlanRejection, IsCertificateRejection, IsUnreadRejection};

use crate::rejection::{fault_in, reported, reported_cert, reported_plan};
use crate::running::RunFault;
use hv_answer::{Fault, Verdict, Which, write_verdict};
use hv_certificate::{CertFault, print_cert, read_cert};
use hv_plan::{PlanFault, print_plan, read_plan};
use hv_reading::{SyntaxFault, print_domain, print_problem, read_domain, read_problem};
use hv_text::{MOST_BYTES, ReadFault, Sink, Source, read_all, write_all};
use std::alloc::Global;

/// How a text was printed.
#[derive(Clone, Copy, Debug, PartialEq, Eq)]
pub enum Printed {
    /// Its canonical text was written.
    Done,
    /// It says nothing of its kind, and the line of its rejection was written.
    Rejected,
}

// Writes the line of a rejection.
fn reject<W: Sink>(which: Which, fault: Fault, out: &mut W) -> Result<Printed, RunFault>
    requires { W.failures out.old < 2 ^ 64 - 1 }
    ensures wrote { Wrote (IsRejection which fault) W.taken out.old out.new result }
    ensures reads { (w : Which) → reads_failed w result ≡ 0 }
    ensures halted { IfHalted (λ _. ⊥) result }
    ensures writes { W.failures out.new ≡ W.failures out.old + writes_failed result }
{
    write_verdict(Verdict::Rejected(which, fault), out)?;
    Ok(Printed::Rejected)
}

// Writes the line of the rejection of a domain or a problem.
fn reject_text<W: Sink>(
    which: Which,
    text: &[u8],
    fault: SyntaxFault,
    out: &mut W,
) -> Result<Printed, RunFault>
    requires text { length text.now ≤ MOST_BYTES }
    requires out { W.failures out.old < 2 ^ 64 - 1 }
    ensures wrote { Wrote
        (IsTextRejection which text.now fault) W.taken out.old out.new result }
    ensures reads { (w : Which) → reads_failed w result ≡ 0 }
    ensures halted { IfHalted IsWant result }
    ensures writes { W.failures out.new ≡ W.failures out.old + writes_failed result }
{
    match reported(fault.kind) {
        Some(kind) => reject(which, fault_in(kind, text, fault.span), out),
        None => Err(RunFault::Memory),
    }
}

// Writes bytes that are the canonical text of something.
fn write_canonical<W: Sink>(bytes: &[u8], out: &mut W) -> Result<Printed, RunFault>
    requires { W.failures out.old < 2 ^ 64 - 1 }
    ensures wrote { Wrote (IsDone bytes.now) W.taken out.old out.new result }
    ensures reads { (w : Which) → reads_failed w result ≡ 0 }
    ensures halted { IfHalted IsWant result }
    ensures writes { W.failures out.new ≡ W.failures out.old + writes_failed result }
{
    write_all(out, bytes)?;
    Ok(Printed::Done)
}

// Prints a domain.
fn print_domain_text<W: Sink>(alloc: Global, text: &[u8], out: &mut W) -> Result<Printed, RunFault>
    requires text { length text.now ≤ MOST_BYTES }
    requires out { W.failures out.old < 2 ^ 64 - 1 }
    ensures wrote { Wrote (IsPrint text.now texts.Domain) W.taken out.old out.new result }
    ensures reads { (w : Which) → reads_failed w result ≡ 0 }
    ensures halted { IfHalted IsWant result }
    ensures writes { W.failures out.new ≡ W.failures out.old + writes_failed result }
{
    match read_domain(alloc, text) {
        Ok(domain) => {
            let mut bytes = Vec::new(alloc);
            print_domain(&domain, &mut bytes)?;
            write_canonical(&bytes, out)
        }
        Err(fault) => reject_text(Which::Domain, text, fault, out),
    }
}

// Prints a problem.
fn print_problem_text<W: Sink>(alloc: Global, text: &[u8], out: &mut W) -> Result<Printed, RunFault>
    requires text { length text.now ≤ MOST_BYTES }
    requires out { W.failures out.old < 2 ^ 64 - 1 }
    ensures wrote { Wrote (IsPrint text.now texts.Problem) W.taken out.old out.new result }
    ensures reads { (w : Which) → reads_failed w result ≡ 0 }
    ensures halted { IfHalted IsWant result }
    ensures writes { W.failures out.new ≡ W.failures out.old + writes_failed result }
{
    match read_problem(alloc, text) {
        Ok(problem) => {
            let mut bytes = Vec::new(alloc);
            print_problem(&problem, &mut bytes)?;
            write_canonical(&bytes, out)
        }
        Err(fault) => reject_text(Which::Problem, text, fault, out),
    }
}

// Prints a plan.
fn print_plan_text<W: Sink>(alloc: Global, text: &[u8], out: &mut W) -> Result<Printed, RunFault>
    requires { W.failures out.old < 2 ^ 64 - 1 }
    ensures wrote { Wrote (IsPrint text.now texts.Plan) W.taken out.old out.new result }
    ensures reads { (w : Which) → reads_failed w result ≡ 0 }
    ensures halted { IfHalted IsWant result }
    ensures writes { W.failures out.new ≡ W.failures out.old + writes_failed result }
{
    match read_plan(alloc, text) {
        Ok(plan) => {
            let mut bytes = Vec::new(alloc);
            print_plan(&plan, &mut bytes)?;
            write_canonical(&bytes, out)
        }
        Err(fault) => reject_plan(fault, out),
    }
}

// Writes the line of the rejection of a plan.
fn reject_plan<W: Sink>(fault: PlanFault, out: &mut W) -> Result<Printed, RunFault>
    requires { W.failures out.old < 2 ^ 64 - 1 }
    ensures wrote { Wrote (IsPlanRejection fault) W.taken out.old out.new result }
    ensures reads { (w : Which) → reads_failed w result ≡ 0 }
    ensures halted { IfHalted IsWant result }
    ensures writes { W.failures out.new ≡ W.failures out.old + writes_failed result }
{
    match reported_plan(fault) {
        Some(fault) => reject(Which::Plan, fault, out),
        None => Err(RunFault::Memory),
    }
}

// Prints a certificate.
fn print_certificate_text<W: Sink>(
    alloc: Global,
    text: &[u8],
    out: &mut W,
) -> Result<Printed, RunFault>
    requires { W.failures out.old < 2 ^ 64 - 1 }
    ensures wrote { Wrote (IsPrint text.now texts.Certificate) W.taken out.old out.new result }
    ensures reads { (w : Which) → reads_failed w result ≡ 0 }
    ensures halted { IfHalted IsWant result }
    ensures writes { W.failures out.new ≡ W.failures out.old + writes_failed result }
{
    match read_cert(alloc, text) {
        Ok(certificate) => {
            let mut bytes = Vec::new(alloc);
            print_cert(&certificate, &mut bytes)?;
            write_canonical(&bytes, out)
        }
        Err(fault) => reject_certificate(fault, out),
    }
}

// Writes the line of the rejection of a certificate.
fn reject_certificate<W: Sink>(fault: CertFault, out: &mut W) -> Result<Printed, RunFault>
    requires { W.failures out.old < 2 ^ 64 - 1 }
    ensures wrote { Wrote (IsCertificateRejection fault) W.taken out.old out.new result }
    ensures reads { (w : Which) → reads_failed w result ≡ 0 }
    ensures halted { IfHalted IsWant result }
    ensures writes { W.failures out.new ≡ W.failures out.old + writes_failed result }
{
    match reported_cert(fault) {
        Some(fault) => reject(Which::Certificate, fault, out),
        None => Err(RunFault::Memory),
    }
}

// Prints a text of this kind.
fn print_text<W: Sink>(
    alloc: Global,
    which: Which,
    text: &[u8],
    out: &mut W,
) -> Result<Printed, RunFault>
    requires text { length text.now ≤ MOST_BYTES }
    requires out { W.failures out.old < 2 ^ 64 - 1 }
    ensures wrote { Wrote (IsPrint text.now which) W.taken out.old out.new result }
    ensures reads { (w : Which) → reads_failed w result ≡ 0 }
    ensures halted { IfHalted IsWant result }
    ensures writes { W.failures out.new ≡ W.failures out.old + writes_failed result }
{
    match which {
        Which::Domain => print_domain_text(alloc, text, out),
        Which::Problem => print_problem_text(alloc, text, out),
        Which::Plan => print_plan_text(alloc, text, out),
        Which::Certificate => print_certificate_text(alloc, text, out),
    }
}

// What is done with a text that was not read: one that is too long is rejected.
fn print_unread<W: Sink>(which: Which, fault: ReadFault, out: &mut W) -> Result<Printed, RunFault>
    requires { W.failures out.old < 2 ^ 64 - 1 }
    ensures wrote { Wrote (IsUnreadRejection which fault) W.taken out.old out.new result }
    ensures reads { (w : Which) → reads_failed w result ≡ failures_at w which fault }
    ensures halted { IfHalted (IsFailureOf which fault) result }
    ensures writes { W.failures out.new ≡ W.failures out.old + writes_failed result }
{
    match fault {
        ReadFault::TooLong => reject(which, Fault::too_long(), out),
        ReadFault::Device => Err(RunFault::Read(which)),
        ReadFault::Memory => Err(RunFault::Memory),
    }
}

/// Reads a text of this kind and writes its canonical text; where it says nothing of its kind, it
/// writes the line of its rejection. Texts of the whole language are printed.
///
/// # Errors
///
/// `Read` where the reader failed and `Memory` where a growth was refused: nothing was written
/// then. `Write` where the writer failed or took no byte of a text that is not empty.
pub fn run_print<R: Source, W: Sink>(
    alloc: Global,
    which: Which,
    reader: &mut R,
    out: &mut W,
) -> Result<Printed, RunFault>
    requires reader { R.failures reader.old < 2 ^ 64 - 1 }
    requires out { W.failures out.old < 2 ^ 64 - 1 }
    ensures wrote { Wrote
        (IsPrintOf which R.left reader.old reader.new) W.taken out.old out.new result }
    ensures reads { R.failures reader.new ≡ R.failures reader.old + reads_failed which result }
    // no other reader is blamed
    ensures only { (w : Which) → is_same w which ≡ false → reads_failed w result ≡ 0 }
    // where nothing is printed, the reader has moved on by what it gave
    ensures halted { IfHalted (IsHaltOfText which R.left reader.old reader.new) result }
    ensures writes { W.failures out.new ≡ W.failures out.old + writes_failed result }
{
    match read_all(alloc, reader, MOST_BYTES) {
        Ok(text) => print_text(alloc, which, &text, out),
        Err(fault) => print_unread(which, fault, out),
    }
}
