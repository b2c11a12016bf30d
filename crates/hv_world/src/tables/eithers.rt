//! The types that several names make.

ghost use Rattle.std.specs.Prelude.{◌≡◌, map, IfOk, OnOk};
ghost use Rattle.indexmap.specs.IndexSet.{hasher_of};
ghost use Rattle.hv_text.specs.Seeds.{start_of};
ghost use Rattle.hv_syntax.specs.DomainViews.{domain_view};
ghost use Rattle.hv_syntax.specs.ProblemViews.{problem_view};
ghost use Rattle.hv_world.specs.Eithers.{with_lists, either_types};
ghost use Rattle.hv_world.specs.inside.Tables.{names_in};
ghost use Rattle.hv_world.specs.inside.Gathers.{IsSeededBy};

use crate::seed::with_lists;
use crate::tables::gather::gathered;
use hv_syntax::{DomainText, ProblemText};
use hv_text::{Memory, Name, Seeded};
use indexmap::IndexSet;
use std::alloc::Global;

// The same names once more.
fn copy_of<'s>(alloc: Global, list: &[Name<'s>]) -> Result<Vec<Name<'s>>, Memory>
    ensures { IfOk result (λ v. v.items ≡ list.now) }
{
    let mut copy = Vec::new(alloc);
    copy.extend_from_slice(list)?;
    Ok(copy)
}

// Adds lists of names.
fn add_lists<'s>(
    alloc: Global,
    eithers: &mut IndexSet<Vec<Name<'s>>, Seeded>,
    lists: &[Vec<Name<'s>>],
) -> Result<(), Memory>
    ensures seed { hasher_of eithers.new ≡ hasher_of eithers.old }
    ensures keys { OnOk result
        (map names_in eithers.new.keys
        ≡ with_lists (map names_in eithers.old.keys) (map names_in lists.now)) }
{
    for list in lists {
        let names = copy_of(alloc, list)?;
        eithers.insert(names)?;
    }
    Ok(())
}

/// The types that several names make, by first sight.
///
/// # Errors
///
/// `Memory` where a growth was refused.
pub(crate) fn either_types<'s>(
    alloc: Global,
    domain: &DomainText<'s>,
    problem: &ProblemText<'s>,
) -> Result<IndexSet<Vec<Name<'s>>, Seeded>, Memory>
    ensures keys { IfOk result
        (λ t. map names_in t.keys
        ≡ either_types (domain_view domain.now) (problem_view problem.now)) }
    ensures seed { IfOk result (λ t. IsSeededBy (map names_in t.keys) (start_of (hasher_of t))) }
{
    let lists = gathered(alloc, domain, problem)?;
    let mut eithers = IndexSet::with_hasher(alloc, with_lists(Seeded::new(), &lists));
    add_lists(alloc, &mut eithers, &lists)?;
    Ok(eithers)
}
