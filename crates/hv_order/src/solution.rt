//! Whether a plan has a solution, and why it has none.

ghost use Rattle.std.specs.Prelude.{◌≡◌, length, true, IfOk, IfErr, MatchBool};
ghost use Rattle.hv_world.specs.WorldViews.{world_view};
ghost use Rattle.hv_plan.specs.BuiltTrees.{tree_view};
ghost use Rattle.hv_order.specs.Settings.{setting, without_preconditions, BelongTogether, IsSolved};
ghost use Rattle.hv_order.specs.Certified.{Certifies, IsUnsolvedBy};
ghost use Rattle.hv_order.specs.inside.Memos.{AreKnown};
ghost use Rattle.hv_order.specs.inside.PlanFacts.{IsSetting, plan_facts};

use crate::first::first_without;
use crate::memo::Memo;
use crate::memory::Memory;
use crate::plain::plain_nodes;
use crate::plan_nodes::PlanNodes;
use crate::solve::new_memo;
use crate::solved::{certificate_of, is_solved};
use hv_certificate::Certificate;
use hv_match::Matcher;
use hv_plan::Tree;
use hv_state::{BitState, Trace};
use hv_world::World;
use std::alloc::Global;

/// Why it is not said that a plan has a solution, the goal aside.
#[derive(Clone, Copy, Debug, PartialEq, Eq)]
pub enum Unsolved {
    /// The node of this line of the text has no candidate; it is the first in the order of nodes.
    NoBinding(u32),
    /// Each node has a candidate, and there is no solution even where each method's precondition is
    /// taken as true.
    OrderBroken,
    /// Each node has a candidate, and there is a solution only where each method's precondition is
    /// taken as true.
    PreconditionUnplaced,
    /// A growth was refused.
    Memory,
}

impl From<Memory> for Unsolved {
    ghost use Rattle.hv_order.specs.declared.solution.Unsolved.TheVariants as unsolved;

    ghost from_gives = { λ _ e. e ≡ unsolved.Memory };

    fn from(_error: Memory) -> Unsolved {
        Unsolved::Memory
    }
}

// Whether a plan without a solution has one where each method's precondition is taken as true. What
// is known of nodes that no precondition counts for is known there too.
fn is_solved_without(alloc: Global, nodes: PlanNodes<'_>, memo: Memo) -> Result<bool, Memory>
    requires setting { IsSetting nodes }
    requires memo { AreKnown (plan_facts nodes) (length nodes.tree.nodes) memo }
    ensures { IfOk result (λ b. MatchBool b
        (IsSolved (without_preconditions nodes.entry))
        (IsSolved (without_preconditions nodes.entry) → ⊥)) }
{
    let plain = plain_nodes(alloc, nodes.world(), nodes.tree())?;
    let mut known = memo;
    known.keep_only(&plain);
    let nodes = nodes.without_preconditions();
    is_solved(alloc, &nodes, &mut known)
}

// Why a plan has no solution, of whose nodes this is known.
fn why_unsolved(alloc: Global, nodes: PlanNodes<'_>, memo: Memo) -> Result<Unsolved, Memory>
    requires setting { IsSetting nodes }
    requires memo { AreKnown (plan_facts nodes) (length nodes.tree.nodes) memo }
    requires none { IsSolved nodes → ⊥ }
    ensures { IfOk result (IsUnsolvedBy nodes.entry) }
{
    let bound = memo.finishing(alloc)?;
    if let Some(line) = first_without(alloc, nodes.matcher(), nodes.tree(), &bound)? {
        return Ok(Unsolved::NoBinding(line));
    }
    if is_solved_without(alloc, nodes, memo)? {
        Ok(Unsolved::PreconditionUnplaced)
    } else {
        Ok(Unsolved::OrderBroken)
    }
}

/// That a plan has a solution, the goal aside. No certificate is made.
///
/// # Errors
///
/// Why it has none, and `Memory` where a growth was refused.
#[tactic(auto, using(crate::proofs::WhyUnsolved::memory_is))]
pub fn has_solution<'s>(
    alloc: Global,
    world: &World<'s>,
    matcher: &Matcher<'_>,
    tree: &Tree,
    trace: &Trace<'_, BitState>,
) -> Result<(), Unsolved>
    requires { BelongTogether (world_view world.now) matcher.now (tree_view tree.now) trace.now }
    ensures solved { IfOk result
        (λ _. IsSolved (setting (tree_view tree.now) trace.now true)) }
    ensures unsolved { IfErr result (IsUnsolvedBy (setting (tree_view tree.now) trace.now true)) }
{
    world.is_sound();
    let nodes = PlanNodes::new(alloc, world, matcher, tree, trace, true)?;
    let mut memo = new_memo(alloc, &nodes, tree.node_count() as usize, 0)?;
    if is_solved(alloc, &nodes, &mut memo)? {
        return Ok(());
    }
    Err(why_unsolved(alloc, nodes, memo)?)
}

/// A certificate of a plan, exactly where it has a solution, the goal aside.
///
/// # Errors
///
/// Why it has none, and `Memory` where a growth was refused.
#[tactic(auto, using(crate::proofs::WhyUnsolved::memory_is))]
pub fn solution<'s>(
    alloc: Global,
    world: &World<'s>,
    matcher: &Matcher<'_>,
    tree: &Tree,
    trace: &Trace<'_, BitState>,
) -> Result<Certificate<'s>, Unsolved>
    requires { BelongTogether (world_view world.now) matcher.now (tree_view tree.now) trace.now }
    ensures certified { IfOk result
        (Certifies (setting (tree_view tree.now) trace.now true)) }
    ensures unsolved { IfErr result (IsUnsolvedBy (setting (tree_view tree.now) trace.now true)) }
{
    world.is_sound();
    let nodes = PlanNodes::new(alloc, world, matcher, tree, trace, true)?;
    let count = tree.node_count() as usize;
    let mut memo = new_memo(alloc, &nodes, count, count)?;
    match certificate_of(alloc, world, &nodes, &mut memo)? {
        Some(certificate) => Ok(certificate),
        None => Err(why_unsolved(alloc, nodes, memo)?),
    }
}
