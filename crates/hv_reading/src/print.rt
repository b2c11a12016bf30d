//! Canonical text.

ghost use Rattle.std.specs.Prelude.{◌≡◌, ◌++◌, OnOk, OnErr};
ghost use Rattle.hv_reading.specs.CanonicalSections.{canonical_domain, canonical_problem};
ghost use Rattle.hv_syntax.specs.DomainViews.{domain_view};
ghost use Rattle.hv_syntax.specs.ProblemViews.{problem_view};

mod declarations;
mod definitions;
mod effects;
mod formulas;
mod networks;
mod terms;
mod variables;

use definitions::{put_domain, put_problem};
use hv_syntax::{DomainText, ProblemText};
use hv_text::Memory;

// Appends a text; where nothing stands before it, it is handed on.
fn append(out: &mut Vec<u8>, text: Vec<u8>) -> Result<(), Memory>
    ensures ok { OnOk result (out.new.items ≡ out.old.items ++ text.items) }
    ensures err { OnErr result (out.new.items ≡ out.old.items) }
{
    if out.is_empty() {
        *out = text;
        return Ok(());
    }
    out.extend_from_slice(&text)?;
    Ok(())
}

/// Appends the canonical text of a domain.
///
/// # Errors
///
/// `Memory` where a growth was refused; then nothing is appended.
pub fn print_domain(domain: &DomainText<'_>, out: &mut Vec<u8>) -> Result<(), Memory>
    ensures ok { OnOk result (out.new.items ≡ out.old.items
        ++ canonical_domain (domain_view domain.now)) }
    ensures err { OnErr result (out.new.items ≡ out.old.items) }
{
    let mut text = Vec::new(*out.allocator());
    put_domain(&mut text, domain)?;
    append(out, text)
}

/// Appends the canonical text of a problem.
///
/// # Errors
///
/// `Memory` where a growth was refused; then nothing is appended.
pub fn print_problem(problem: &ProblemText<'_>, out: &mut Vec<u8>) -> Result<(), Memory>
    ensures ok { OnOk result (out.new.items ≡ out.old.items
        ++ canonical_problem (problem_view problem.now)) }
    ensures err { OnErr result (out.new.items ≡ out.old.items) }
{
    let mut text = Vec::new(*out.allocator());
    put_problem(&mut text, problem)?;
    append(out, text)
}
