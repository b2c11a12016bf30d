//! The order of a network's subtasks.

mod earlier;
mod walk;

ghost use Rattle.std.specs.Prelude.{◌≡◌, ℕ, ◌<◌, ◌≤◌, ◌⊎◌, true, false, All, IfOk, MatchBool, MatchOption, length, slice_index, slice_index_or};

use earlier::earlier_lists;
use hv_text::Memory;
use std::alloc::{AllocError, Global};
use std::marker::Model;
use walk::row_of;

/// The order of a network's subtasks. The subtasks are numbered from 0 as they are written, and
/// none of them comes before itself.
#[derive(Drop)]
pub struct Order {
    len: usize,
    pairs: Vec<(usize, usize)>,
    arrangement: Vec<usize>,
    links: Links,
}

/// What comes before what.
#[derive(Drop)]
enum Links {
    /// Each subtask comes before those written after it.
    AsWritten,
    /// The pairs alone order the subtasks. For each of them: those that a pair puts before it.
    Pairs(Vec<Vec<usize>>),
}

impl Model for Order {
    ghost use Rattle.hv_world.specs.Orders.{Written};

    ghost Value = { Written };

    ghost use Rattle.hv_world.specs.inside.OrderViews.{written_of, IsOrder};

    ghost view = { written_of };

    ghost invariant = { IsOrder };
}

ghost use Rattle.hv_world.specs.Orders.{written, Before, IsCyclic, IsArrangement, AreDirect};
ghost use Rattle.hv_world.specs.inside.OrderWalks.{list_at, lists_of};

/// Whether each pair goes on to a subtask written later.
fn all_go_on(pairs: &[(usize, usize)]) -> bool
    ensures { MatchBool result (All (λ p. p.0 < p.1) pairs.now)
        ((k : ℕ) × (k < length pairs.now)
        × ((slice_index_or pairs.now k (0, 0)).1 ≤ (slice_index_or pairs.now k (0, 0)).0)) }
{
    for (earlier, later) in pairs {
        if later <= earlier {
            return false;
        }
    }
    true
}

/// The numbers from 0 on.
fn numbers(alloc: Global, len: usize) -> Result<Vec<usize>, AllocError>
    ensures count { IfOk result (λ v. length v.items ≡ len) }
    ensures each { IfOk result (λ v. (k : ℕ) → k < len → slice_index v.items k ≡ k) }
{
    let mut numbers = Vec::new(alloc);
    for number in 0..len {
        numbers.push(number)?;
    }
    Ok(numbers)
}

/// What is listed for a subtask; there is nothing past the end.
fn list_of(lists: &[Vec<usize>], subtask: usize) -> &[usize]
    ensures { result.now ≡ list_at (lists_of lists.now) subtask }
{
    match lists.get(subtask) {
        Some(list) => list,
        None => &[],
    }
}

/// The order of subtasks that come as they are written; None where a pair goes back.
fn as_written(
    alloc: Global,
    len: usize,
    pairs: Vec<(usize, usize)>,
) -> Result<Option<Order>, AllocError>
    requires { All (λ p. (p.0 < len) × (p.1 < len)) pairs.items }
    ensures { IfOk result
        (λ o. MatchOption o (IsCyclic (written len true pairs.items))
        (λ o. o ≡ written len true pairs.items)) }
{
    if !all_go_on(&pairs) {
        return Ok(None);
    }
    let arrangement = numbers(alloc, len)?;
    Ok(Some(Order {
        len,
        pairs,
        arrangement,
        links: Links::AsWritten,
    }))
}

/// The order that pairs alone make; None where one of the subtasks comes before itself.
fn by_pairs(
    alloc: Global,
    len: usize,
    pairs: Vec<(usize, usize)>,
) -> Result<Option<Order>, AllocError>
    requires { All (λ p. (p.0 < len) × (p.1 < len)) pairs.items }
    ensures { IfOk result
        (λ o. MatchOption o (IsCyclic (written len false pairs.items))
        (λ o. o ≡ written len false pairs.items)) }
{
    let direct = earlier_lists(alloc, len, &pairs)?;
    let Some(arrangement) = row_of(alloc, &direct)? else {
        return Ok(None);
    };
    Ok(Some(Order {
        len,
        pairs,
        arrangement,
        links: Links::Pairs(direct),
    }))
}

impl Order {
    /// The order that is written; None where a subtask comes before itself. It takes time and
    /// memory in proportion to the subtasks and the pairs.
    pub(crate) fn new(
        alloc: Global,
        len: usize,
        is_ordered: bool,
        pairs: Vec<(usize, usize)>,
    ) -> Result<Option<Order>, Memory>
        requires { All (λ p. (p.0 < len) × (p.1 < len)) pairs.items }
        ensures { IfOk result
            (λ o. MatchOption o (IsCyclic (written len is_ordered pairs.items))
            (λ o. (o ≡ written len is_ordered pairs.items)
            × (IsCyclic (written len is_ordered pairs.items) → ⊥))) }
    {
        let order = if is_ordered {
            as_written(alloc, len, pairs)?
        } else {
            by_pairs(alloc, len, pairs)?
        };
        Ok(order)
    }

    /// The subtasks in a row that their order allows, each once; none comes before itself.
    pub fn arrangement(&self) -> &[usize]
        ensures row { IsArrangement self.now result.now }
        ensures acyclic { IsCyclic self.now → ⊥ }
    {
        &self.arrangement
    }

    /// The subtasks directly before one: in the ordered form the one in front of it, and otherwise
    /// those that a pair puts before it. All others that come before it come before one of these.
    pub fn directly_before(&self, later: usize) -> &[usize]
        ensures { AreDirect self.now later result.now }
    {
        match &self.links {
            Links::AsWritten if 0 < later && later < self.len => {
                let front = later - 1;
                &self.arrangement[front..later]
            }
            Links::AsWritten => &self.arrangement[..0],
            Links::Pairs(direct) => list_of(direct, later),
        }
    }

    /// Whether the form orders the subtasks as they are written.
    pub fn is_ordered(&self) -> bool
        ensures { result ≡ self.now.is_ordered }
    {
        match self.links {
            Links::AsWritten => true,
            Links::Pairs(_) => false,
        }
    }

    /// The pairs, as written: the first comes before the second.
    pub fn pairs(&self) -> &[(usize, usize)]
        ensures { result.now ≡ self.now.pairs }
    {
        &self.pairs
    }

    /// A law of the value: whether one subtask comes before another is decided.
    pub fn is_decided(&self)
        ensures { (i j : ℕ) → Before self.now i j ⊎ (Before self.now i j → ⊥) }
    {
        let _len = self.len;
    }
}
