//! From the bytes of a text to the domain or the problem that it says.

ghost use Rattle.std.specs.Prelude.{IfOk, IfErr};
ghost use Rattle.hv_reading.specs.Texts.{IsDomainText, IsDomainFault, IsProblemText, IsProblemFault};
ghost use Rattle.hv_syntax.specs.DomainViews.{domain_view};
ghost use Rattle.hv_syntax.specs.ProblemViews.{problem_view};

use crate::domain::{read_domain_at, read_domain_of};
use crate::fault::SyntaxFault;
use crate::problem::{read_problem_at, read_problem_of};
use crate::refusal::Refusal;
use hv_syntax::{DomainText, ProblemText};
use hv_text::{Cursor, read_sexps};
use std::alloc::Global;

/// Reads the domain that a text says.
///
/// # Errors
///
/// The fault of the text: that it has no expressions, or the first one of these; and that memory
/// ran out.
pub fn read_domain<'s>(alloc: Global, text: &'s [u8]) -> Result<DomainText<'s>, SyntaxFault>
    ensures ok { IfOk result (λ d. IsDomainText text.now (domain_view d)) }
    ensures err { IfErr result (λ f. IsDomainFault text.now f.kind f.span) }
{
    let Some(start) = Cursor::new(text) else {
        return read_whole_domain(alloc, text);
    };
    match read_domain_at(alloc, start) {
        Ok(domain) => Ok(domain),
        Err(Refusal::Memory) => Err(SyntaxFault::memory()),
        Err(Refusal::NoSpelling) => read_whole_domain(alloc, text),
    }
}

// Reads the domain that a text says by the tree of all its expressions, which tells the fault.
fn read_whole_domain<'s>(alloc: Global, text: &'s [u8]) -> Result<DomainText<'s>, SyntaxFault>
    ensures ok { IfOk result (λ d. IsDomainText text.now (domain_view d)) }
    ensures err { IfErr result (λ f. IsDomainFault text.now f.kind f.span) }
{
    let es = read_sexps(alloc, text)?;
    read_domain_of(alloc, &es)
}

/// Reads the problem that a text says.
///
/// # Errors
///
/// The fault of the text: that it has no expressions, or the first one of these; and that memory
/// ran out.
pub fn read_problem<'s>(alloc: Global, text: &'s [u8]) -> Result<ProblemText<'s>, SyntaxFault>
    ensures ok { IfOk result (λ p. IsProblemText text.now (problem_view p)) }
    ensures err { IfErr result (λ f. IsProblemFault text.now f.kind f.span) }
{
    let Some(start) = Cursor::new(text) else {
        return read_whole_problem(alloc, text);
    };
    match read_problem_at(alloc, start) {
        Ok(problem) => Ok(problem),
        Err(Refusal::Memory) => Err(SyntaxFault::memory()),
        Err(Refusal::NoSpelling) => read_whole_problem(alloc, text),
    }
}

// Reads the problem that a text says by the tree of all its expressions, which tells the fault.
fn read_whole_problem<'s>(alloc: Global, text: &'s [u8]) -> Result<ProblemText<'s>, SyntaxFault>
    ensures ok { IfOk result (λ p. IsProblemText text.now (problem_view p)) }
    ensures err { IfErr result (λ f. IsProblemFault text.now f.kind f.span) }
{
    let es = read_sexps(alloc, text)?;
    read_problem_of(alloc, &es)
}
