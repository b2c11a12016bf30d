//! A walk along the pairs, from each subtask to those before it.

ghost use Rattle.std.specs.Prelude.{◌≡◌, ℕ, true, false, [], ◌<◌, IfOk, MatchOption, length, slice_index};
ghost use Rattle.hv_world.specs.declared.order.walk.Mark.TheVariants as marks;
ghost use Rattle.hv_world.specs.Orders.{Leads, HasCycle, IsRow};
ghost use Rattle.hv_world.specs.inside.OrderWalks.{IsListed, IsWalkOf, lists_of, list_at, steps_left, mark_at, EndsWith, StaySeen};

use std::alloc::{AllocError, Global};

/// How far the walk has come with a subtask.
#[derive(Clone, Copy)]
enum Mark {
    /// It was not met.
    Unseen,
    /// It waits for those before it.
    Open,
    /// It stands in the row.
    Placed,
}

/// Where the walk is.
#[derive(Drop)]
struct Walk {
    marks: Vec<Mark>,
    /// For each subtask, how many of those before it are still to be looked at.
    left: Vec<usize>,
    /// The open ones: each is before those in front of it.
    trail: Vec<usize>,
    /// The placed ones.
    row: Vec<usize>,
}

/// A subtask that was not met stands at the end of the trail from now on.
fn open(lists: &[Vec<usize>], walk: &mut Walk, subtask: usize) -> Result<(), AllocError>
    requires within { subtask < length lists.now }
    requires walk { IsWalkOf (lists_of lists.now) walk.old }
    requires unseen { mark_at walk.old.marks.items subtask ≡ marks.Unseen }
    requires next { (a : ℕ) → a < length walk.old.trail.items
        → Leads (IsListed (lists_of lists.now)) subtask (slice_index walk.old.trail.items a) }
    ensures walk { IfOk result (λ _. IsWalkOf (lists_of lists.now) walk.new) }
    ensures steps { IfOk result (λ _. steps_left walk.new < steps_left walk.old) }
    ensures seen { IfOk result (λ _. StaySeen walk.old walk.new) }
    ensures opened { IfOk result (λ _. mark_at walk.new.marks.items subtask ≡ marks.Open) }
{
    walk.trail.push(subtask)?;
    walk.marks[subtask] = Mark::Open;
    Ok(())
}

/// The subtask at the end of the trail, with all before it placed, goes to the end of the row.
fn place(lists: &[Vec<usize>], walk: &mut Walk, last: usize) -> Result<(), AllocError>
    requires walk { IsWalkOf (lists_of lists.now) walk.old }
    requires last { EndsWith walk.old.trail.items last }
    requires left { slice_index walk.old.left.items last ≡ 0 }
    requires within { last < length lists.now }
    ensures walk { IfOk result (λ _. IsWalkOf (lists_of lists.now) walk.new) }
    ensures steps { IfOk result (λ _. steps_left walk.new < steps_left walk.old) }
    ensures seen { IfOk result (λ _. StaySeen walk.old walk.new) }
{
    walk.row.push(last)?;
    let _ = walk.trail.pop();
    walk.marks[last] = Mark::Placed;
    Ok(())
}

/// One of those before a subtask.
fn earlier(lists: &[Vec<usize>], subtask: usize, at: usize) -> usize
    requires subtask { subtask < length lists.now }
    requires at { at < length (list_at (lists_of lists.now) subtask) }
    ensures { result ≡ slice_index (list_at (lists_of lists.now) subtask) at }
{
    lists[subtask][at]
}

/// One step from the end of the trail; false where a subtask is before itself.
fn step(lists: &[Vec<usize>], walk: &mut Walk, last: usize) -> Result<bool, AllocError>
    requires walk { IsWalkOf (lists_of lists.now) walk.old }
    requires last { EndsWith walk.old.trail.items last }
    requires known { (i j : ℕ) → IsListed (lists_of lists.now) i j → i < length lists.now }
    ensures steps { IfOk result (λ goes. goes ≡ true → steps_left walk.new < steps_left walk.old) }
    ensures walk { IfOk result (λ goes. goes ≡ true → IsWalkOf (lists_of lists.now) walk.new) }
    ensures seen { IfOk result (λ goes. goes ≡ true → StaySeen walk.old walk.new) }
    ensures cycle { IfOk result (λ goes. goes ≡ false → HasCycle (IsListed (lists_of lists.now))) }
{
    let left = walk.left[last];
    if left == 0 {
        place(lists, walk, last)?;
        return Ok(true);
    }
    let next = earlier(lists, last, left - 1);
    match walk.marks[next] {
        Mark::Unseen => open(lists, walk, next)?,
        Mark::Open => return Ok(false),
        Mark::Placed => walk.left[last] = left - 1,
    }
    Ok(true)
}

/// The walk from a subtask to those before it; false where one of them is before itself.
fn go(lists: &[Vec<usize>], walk: &mut Walk, root: usize) -> Result<bool, AllocError>
    requires walk { IsWalkOf (lists_of lists.now) walk.old }
    requires trail { walk.old.trail.items ≡ [] }
    requires root { root < length lists.now }
    requires known { (i j : ℕ) → IsListed (lists_of lists.now) i j → i < length lists.now }
    ensures walk { IfOk result (λ goes. goes ≡ true → IsWalkOf (lists_of lists.now) walk.new) }
    ensures trail { IfOk result (λ goes. goes ≡ true → walk.new.trail.items ≡ []) }
    ensures seen { IfOk result (λ goes. goes ≡ true → StaySeen walk.old walk.new) }
    ensures root { IfOk result
        (λ goes. goes ≡ true → mark_at walk.new.marks.items root ≡ marks.Unseen → ⊥) }
    ensures cycle { IfOk result (λ goes. goes ≡ false → HasCycle (IsListed (lists_of lists.now))) }
{
    if let Mark::Unseen = walk.marks[root] {
        open(lists, walk, root)?;
    }
    while let Some(last) = walk.trail.last() {
        let last = *last;
        if !step(lists, walk, last)? {
            return Ok(false);
        }
    }
    Ok(true)
}

/// How many are listed for each.
fn lengths(alloc: Global, lists: &[Vec<usize>]) -> Result<Vec<usize>, AllocError>
    ensures count { IfOk result (λ v. length v.items ≡ length lists.now) }
    ensures each { IfOk result
        (λ v. (j : ℕ) → slice_index v.items j ≡ length (list_at (lists_of lists.now) j)) }
{
    let mut lengths = Vec::new(alloc);
    for list in lists {
        lengths.push(list.len())?;
    }
    Ok(lengths)
}

/// The walk before its first step.
fn start(alloc: Global, lists: &[Vec<usize>]) -> Result<Walk, AllocError>
    ensures walk { IfOk result (λ w. IsWalkOf (lists_of lists.now) w) }
    ensures trail { IfOk result (λ w. w.trail.items ≡ []) }
{
    Ok(Walk {
        marks: vec![in alloc; Mark::Unseen; lists.len()]?,
        left: lengths(alloc, lists)?,
        trail: Vec::new(alloc),
        row: Vec::new(alloc),
    })
}

/// The subtasks in a row, each behind those before it; None where one is before itself.
pub(super) fn row_of(alloc: Global, lists: &[Vec<usize>]) -> Result<Option<Vec<usize>>, AllocError>
    requires known { (i j : ℕ) → IsListed (lists_of lists.now) i j → i < length lists.now }
    ensures { IfOk result
        (λ o. MatchOption o (HasCycle (IsListed (lists_of lists.now)))
        (λ v. IsRow (Leads (IsListed (lists_of lists.now))) (length lists.now) v.items)) }
{
    let mut walk = start(alloc, lists)?;
    for root in 0..lists.len() {
        if !go(lists, &mut walk, root)? {
            return Ok(None);
        }
    }
    Ok(Some(walk.row))
}
