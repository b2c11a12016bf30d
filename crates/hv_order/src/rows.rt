//! The rows of a plan: for each node and each start, the least finish, and what they
//! say of the plan.

ghost use Rattle.std.specs.Prelude.{◌≡◌, ◌<◌, ◌≤◌, length, IfOk, IfErr, MatchOption};
ghost use Rattle.hv_world.specs.WorldViews.{world_view};
ghost use Rattle.hv_state.specs.Plans.{plan};
ghost use Rattle.hv_plan.specs.BuiltTrees.{tree_view};
ghost use Rattle.hv_plan.specs.PlanTrees.{IsTreeIn};
ghost use Rattle.hv_order.specs.Certified.{Certifies, IsRowFault};
ghost use Rattle.hv_order.specs.LeastFinishes.{NodeCanBePlaced, IsLeastFinishOf, IsNumberOfAnswers, IsCounted};
ghost use Rattle.hv_order.specs.Settings.{setting, last, HasNoPrecondition, IsSolved, HaveCandidates};
ghost use Rattle.hv_order.specs.inside.PlanFacts.{IsSetting};
ghost use Rattle.hv_order.specs.inside.Runs.{ArePlanRows};

use crate::first::first_without;
use crate::memory::Memory;
use crate::plan_nodes::PlanNodes;
use crate::runs::{Row, build, count_runs, least_finish_counted};
use crate::solve::new_memo;
use crate::solved::certificate_of;
use hv_certificate::Certificate;
use hv_match::Matcher;
use hv_plan::Tree;
use hv_state::{BitState, Trace};
use hv_text::Memory as NoMemory;
use hv_world::World;
use std::alloc::Global;
use std::marker::Model;

/// Why there are no rows of a plan.
#[derive(Clone, Copy, Debug, PartialEq, Eq)]
pub enum RowFault {
    /// The node of this line of the text has no candidate; it is the first in the order of nodes.
    NoBinding(u32),
    /// A growth was refused.
    Memory,
}

impl From<Memory> for RowFault {
    ghost use Rattle.hv_order.specs.declared.rows.RowFault.TheVariants as faults;

    ghost from_gives = { λ _ e. e ≡ faults.Memory };

    fn from(_error: Memory) -> RowFault {
        RowFault::Memory
    }
}

impl From<NoMemory> for RowFault {
    ghost use Rattle.hv_order.specs.declared.rows.RowFault.TheVariants as faults;

    ghost from_gives = { λ _ e. e ≡ faults.Memory };

    fn from(_error: NoMemory) -> RowFault {
        RowFault::Memory
    }
}

// The rows of a plan's nodes.
fn rows_of(alloc: Global, nodes: &PlanNodes<'_>, count: usize) -> Result<Vec<Row>, Memory>
    requires setting { IsSetting nodes.now }
    requires candidates { HaveCandidates nodes.now }
    requires count { count ≡ length nodes.now.tree.nodes }
    ensures { IfOk result (λ rows. ArePlanRows nodes.now rows.items) }
{
    let rows = build(alloc, nodes, count)?;
    Ok(rows)
}

/// The rows of a plan's nodes, of which each has a candidate. Its value is the plan: the tree, the
/// states that its actions pass, and whether the preconditions of methods count.
#[derive(Drop)]
pub struct Rows<'a, 's> {
    world: &'a World<'s>,
    nodes: PlanNodes<'a>,
    rows: Vec<Row>,
}

impl<'a, 's> Model for Rows<'a, 's> {
    ghost use Rattle.std.specs.Coded.{codes};
    ghost use Rattle.hv_world.specs.Codes.{formula_code, effects_code};
    ghost use Rattle.hv_order.specs.Settings.{Setting};
    ghost use Rattle.hv_world.specs.WorldViews.{world_view};
    ghost use Rattle.hv_order.specs.inside.Runs.{AreRowsIn};

    ghost Value = { Setting };

    ghost coded = { Prim.hlevel (codes, formula_code, effects_code) };

    ghost view = { λ s. s.nodes };

    ghost invariant = { λ s. AreRowsIn (world_view s.world.now) s.nodes s.rows.items };
}

impl<'a, 's> Rows<'a, 's> {
    /// The rows of the nodes of a plan's tree. Where `is_with` is false, each method's precondition
    /// is taken as true.
    ///
    /// # Errors
    ///
    /// `NoBinding` exactly where a node has no candidate, and `Memory` where a growth was refused.
    #[tactic(auto, using(crate::proofs::RowFaults::memory_is))]
    pub fn build(
        alloc: Global,
        world: &'a World<'s>,
        matcher: &'a Matcher<'a>,
        tree: &'a Tree,
        trace: &'a Trace<'a, BitState>,
        is_with: bool,
    ) -> Result<Rows<'a, 's>, RowFault>
        requires world { matcher.now ≡ world_view world.now }
        requires top { HasNoPrecondition (world_view world.now) }
        requires tree { IsTreeIn (world_view world.now) (tree_view tree.now) }
        requires trace { trace.now ≡ plan (world_view world.now) (tree_view tree.now).actions }
        requires small { length (tree_view tree.now).actions < 4294967295 }
        ensures value { IfOk result
            (λ rows. rows ≡ setting (tree_view tree.now) trace.now is_with) }
        ensures candidates { IfOk result
            (λ _. HaveCandidates (setting (tree_view tree.now) trace.now is_with)) }
        ensures fault { IfErr result (IsRowFault (setting (tree_view tree.now) trace.now is_with)) }
    {
        match first_without(alloc, matcher, tree, &[])? {
            Some(line) => Err(RowFault::NoBinding(line)),
            None => {
                world.is_sound();
                let nodes = PlanNodes::new(alloc, &*world, &*matcher, &*tree, &*trace, is_with)?;
                let rows = rows_of(alloc, &nodes, tree.node_count() as usize)?;
                Ok(Rows { world, nodes, rows })
            }
        }
    }

    /// The least finish of a node for a start, if it has one.
    pub fn least_finish(&self, node: u32, start: u32) -> Option<u32>
        requires node { node < length self.now.tree.nodes }
        requires start { start ≤ last self.now }
        ensures { IsLeastFinishOf self.now node start result }
    {
        self.least_finish_counted(node, start).0
    }

    /// How many different answers `least_finish` gives for the starts of a node, none
    /// counted as one.
    pub fn runs(&self, node: u32) -> u64
        requires node { node < length self.now.tree.nodes }
        ensures { IsNumberOfAnswers (NodeCanBePlaced self.now node) (last self.now) result }
    {
        count_runs(&self.nodes, &self.rows, node as usize)
    }

    /// The answer of `least_finish`, and how many runs were looked at for it: one or more, and at
    /// most as many as `runs` has binary digits.
    pub fn least_finish_counted(&self, node: u32, start: u32) -> (Option<u32>, u32)
        requires node { node < length self.now.tree.nodes }
        requires start { start ≤ last self.now }
        ensures finish { IsLeastFinishOf self.now node start result.0 }
        ensures looked { IsCounted (NodeCanBePlaced self.now node) (last self.now) result.1 }
    {
        least_finish_counted(&self.nodes, &self.rows, node as usize, start)
    }

    /// A certificate of the plan, exactly where it has a solution, the goal aside.
    ///
    /// # Errors
    ///
    /// `Memory` where a growth was refused.
    pub fn certificate(&self, alloc: Global) -> Result<Option<Certificate<'s>>, Memory>
        ensures { IfOk result (λ o. MatchOption o (IsSolved self.now → ⊥) (Certifies self.now)) }
    {
        let count = self.nodes.tree().node_count() as usize;
        let mut memo = new_memo(alloc, &self.nodes, count, count)?;
        certificate_of(alloc, self.world, &self.nodes, &mut memo)
    }
}
