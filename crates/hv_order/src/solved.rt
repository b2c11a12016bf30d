//! Whether a plan is solved, by the run of its root, and its certificate, by a walk of its nodes.

ghost use Rattle.std.specs.Prelude.{◌≡◌, length, IfOk, MatchBool, MatchOption};
ghost use Rattle.hv_world.specs.WorldViews.{world_view};
ghost use Rattle.hv_plan.specs.BuiltTrees.{tree_view};
ghost use Rattle.hv_order.specs.Certified.{Certifies};
ghost use Rattle.hv_order.specs.Settings.{IsSolved};
ghost use Rattle.hv_order.specs.inside.Memos.{AreKnown};
ghost use Rattle.hv_order.specs.inside.PlanFacts.{IsSetting, plan_facts};
ghost use Rattle.hv_order.specs.inside.Walks.{AreWalked};
ghost use Rattle.hv_order.specs.inside.Writings.{IsSettingOver};

use crate::certify::write_certificate;
use crate::chosen::choose;
use crate::memo::Memo;
use crate::memory::Memory;
use crate::plan_nodes::PlanNodes;
use crate::solve::run_for;
use crate::walk::{Stand, walk};
use hv_certificate::Certificate;
use hv_plan::Tree;
use hv_world::World;
use std::alloc::Global;

// The certificate that a walk of a plan's nodes gives.
fn by_walk<'s>(
    alloc: Global,
    world: &World<'s>,
    tree: &Tree,
    _nodes: &PlanNodes<'_>,
    stands: &[Option<Stand>],
) -> Result<Certificate<'s>, Memory>
    requires setting { IsSetting _nodes.now }
    requires over { IsSettingOver (world_view world.now) (tree_view tree.now) _nodes.now }
    requires walked { AreWalked (plan_facts _nodes.now) (length _nodes.now.tree.nodes) stands.now }
    ensures { IfOk result (Certifies _nodes.now) }
{
    let chosen = choose(alloc, stands)?;
    let certificate = write_certificate(alloc, world, tree, &chosen)?;
    Ok(certificate)
}

/// Whether a plan has a solution, the goal aside. Only the finishes that this hangs on are worked
/// out; no candidate is kept, and nothing is written down.
pub fn is_solved(alloc: Global, nodes: &PlanNodes<'_>, memo: &mut Memo) -> Result<bool, Memory>
    requires setting { IsSetting nodes.now }
    requires memo { AreKnown (plan_facts nodes.now) (length nodes.now.tree.nodes) memo.old }
    ensures solved { IfOk result
        (λ b. MatchBool b (IsSolved nodes.now) (IsSolved nodes.now → ⊥)) }
    ensures memo { AreKnown (plan_facts nodes.now) (length nodes.now.tree.nodes) memo.new }
{
    let root = nodes.tree().node_count() - 1;
    let run = run_for(alloc, nodes, memo, root, 0)?;
    Ok(run.finish.is_some())
}

/// A certificate of a plan of this world, exactly where it has a solution, the goal aside. Only the
/// finishes that it hangs on are worked out.
pub fn certificate_of<'s>(
    alloc: Global,
    world: &World<'s>,
    nodes: &PlanNodes<'_>,
    memo: &mut Memo,
) -> Result<Option<Certificate<'s>>, Memory>
    requires world { nodes.now.plan.world ≡ world_view world.now }
    requires setting { IsSetting nodes.now }
    requires memo { AreKnown (plan_facts nodes.now) (length nodes.now.tree.nodes) memo.old }
    ensures certificate { IfOk result
        (λ o. MatchOption o (IsSolved nodes.now → ⊥) (Certifies nodes.now)) }
    ensures memo { AreKnown (plan_facts nodes.now) (length nodes.now.tree.nodes) memo.new }
{
    let tree = nodes.tree();
    match walk(alloc, nodes, memo, tree.node_count())? {
        None => Ok(None),
        Some(stands) => {
            memo.forget_winners();
            let certificate = by_walk(alloc, world, tree, nodes, &stands)?;
            Ok(Some(certificate))
        }
    }
}
