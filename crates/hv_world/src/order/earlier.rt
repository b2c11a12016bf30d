//! The earlier ones of each subtask.

ghost use Rattle.std.specs.Prelude.{◌≡◌, ℕ, ◌<◌, All, IfOk, length, []};
ghost use Rattle.hv_world.specs.inside.OrderWalks.{AreEarlier, lists_of, list_at};

use std::alloc::{AllocError, Global};

/// As many empty lists.
fn empty_lists(alloc: Global, len: usize) -> Result<Vec<Vec<usize>>, AllocError>
    ensures count { IfOk result (λ v. length (lists_of v.items) ≡ len) }
    ensures empty { IfOk result (λ v. (j : ℕ) → list_at (lists_of v.items) j ≡ []) }
{
    let mut lists = Vec::new(alloc);
    for _ in 0..len {
        lists.push(Vec::new(alloc))?;
    }
    Ok(lists)
}

/// For each subtask, those that a pair puts before it.
pub(super) fn earlier_lists(
    alloc: Global,
    len: usize,
    pairs: &[(usize, usize)],
) -> Result<Vec<Vec<usize>>, AllocError>
    requires { All (λ p. (p.0 < len) × (p.1 < len)) pairs.now }
    ensures { IfOk result (λ v. AreEarlier len pairs.now (lists_of v.items)) }
{
    let mut lists = empty_lists(alloc, len)?;
    for (earlier, later) in pairs {
        lists[*later].push(*earlier)?;
    }
    Ok(lists)
}
