//! The nodes of a plan's tree, with their candidates.
ghost use Rattle.std.specs.Prelude.{◌≡◌, ◌<◌, ◌≤◌, ◌↔◌, ℕ, length, option_map, None, IfOk};
ghost use Rattle.hv_world.specs.WorldViews.{world_view};
ghost use Rattle.hv_state.specs.Ever.{ever_rows};
ghost use Rattle.hv_state.specs.Plans.{plan};
ghost use Rattle.hv_plan.specs.BuiltTrees.{tree_view};
ghost use Rattle.hv_plan.specs.PlanTrees.{IsTreeIn, root_number};
ghost use Rattle.hv_order.specs.Meanings.{Meaning};
ghost use Rattle.hv_order.specs.Settings.{setting, without_preconditions, last, HasNoPrecondition, HasCandidate, IsMeaning, IsSolved};
ghost use Rattle.hv_order.specs.Tables.{IsLeast};
ghost use Rattle.hv_order.specs.inside.Listers.{IsEver, still_listed};
ghost use Rattle.hv_order.specs.inside.Nodes.{AreAllOf, AreNodes};
ghost use Rattle.hv_order.specs.inside.PlanFacts.{FitsNode, plan_facts};
ghost use Rattle.hv_order.specs.inside.PlanNodes.{IsRange};

use crate::children::latest_start;
use crate::ends::end_at;
use crate::firsts::first_at;
use crate::lister::Lister;
use crate::listing::candidates_of;
use crate::memory::Memory;
use crate::node_methods::{method_for, method_if};
use crate::nodes::Nodes;
use crate::sequencing::{Sequencings, make_sequencings, sequencing_of};
use crate::spans::Spans;
use crate::told::{Told, is_empty, told_children};
use crate::trial::{Arranged, Stretch};
use hv_match::{CandidateRoom, Matcher};
use hv_plan::{Child, Tree};
use hv_state::{BitState, EverTrue, Trace};
use hv_world::{Binding, Method, World};
use std::alloc::Global;
use std::marker::Model;
use std::rc::Rc;

/// A plan's tree, with the states that the plan's actions pass. Where `is_with` is false, each
/// method's precondition is taken as true.
#[derive(Drop)]
pub struct PlanNodes<'a> {
    world: &'a World<'a>,
    matcher: &'a Matcher<'a>,
    tree: &'a Tree,
    trace: &'a Trace<'a, BitState>,
    is_with: bool,
    sequencings: Sequencings,
    spans: Rc<Spans>,
}

impl<'a> Model for PlanNodes<'a> {
    ghost use Rattle.std.specs.Coded.{codes};
    ghost use Rattle.hv_world.specs.Codes.{formula_code, effects_code};
    ghost use Rattle.hv_plan.specs.BuiltTrees.{tree_view};
    ghost use Rattle.hv_order.specs.Settings.{Setting, setting};
    ghost use Rattle.hv_order.specs.inside.PlanNodes.{ArePlanNodes};

    ghost Value = { Setting };

    ghost coded = { Prim.hlevel (codes, formula_code, effects_code) };

    ghost view = { λ s. setting (tree_view s.tree.now) s.trace.now s.is_with };

    ghost invariant = { λ s. ArePlanNodes s.world.now s.matcher.now s.sequencings
        s.spans.value (setting (tree_view s.tree.now) s.trace.now s.is_with) };
}

// All indices of a range.
fn whole(from: u32, upto: u32) -> Option<Stretch>
    ensures { IsRange from upto result }
{
    if from <= upto {
        Some(Stretch {
            first: from,
            last: upto,
        })
    } else {
        None
    }
}

impl<'a> PlanNodes<'a> {
    /// The nodes of a tree of a world.
    pub fn new(
        alloc: Global,
        world: &'a World<'a>,
        matcher: &'a Matcher<'a>,
        tree: &'a Tree,
        trace: &'a Trace<'a, BitState>,
        is_with: bool,
    ) -> Result<PlanNodes<'a>, Memory>
        requires world { matcher.now ≡ world_view world.now }
        requires top { HasNoPrecondition (world_view world.now) }
        requires tree { IsTreeIn (world_view world.now) (tree_view tree.now) }
        requires trace { trace.now ≡ plan (world_view world.now) (tree_view tree.now).actions }
        requires small { length (tree_view tree.now).actions < 4294967295 }
        ensures { IfOk result (λ nodes. nodes ≡ setting (tree_view tree.now) trace.now is_with) }
    {
        world.is_sound();
        let sequencings = make_sequencings(alloc, world)?;
        let spans = Rc::new(alloc, Spans::new(alloc, tree)?)?;
        Ok(PlanNodes {
            world,
            matcher,
            tree,
            trace,
            is_with,
            sequencings,
            spans,
        })
    }

    /// The world of the plan.
    pub fn world(&self) -> &'a World<'a>
        ensures { self.now.plan.world ≡ world_view result.now }
    {
        self.world
    }

    /// What looks for the candidates of the plan's nodes.
    pub fn matcher(&self) -> &'a Matcher<'a>
        ensures { result.now ≡ self.now.plan.world }
    {
        self.matcher
    }

    /// The tree of the plan.
    pub fn tree(&self) -> &'a Tree
        ensures { self.now.tree ≡ tree_view result.now }
    {
        self.tree
    }

    /// The same plan, where each method's precondition is taken as true.
    pub fn without_preconditions(self) -> PlanNodes<'a>
        ensures { result ≡ without_preconditions self.entry }
    {
        let PlanNodes {
            world,
            matcher,
            tree,
            trace,
            sequencings,
            spans,
            ..
        } = self;
        PlanNodes {
            world,
            matcher,
            tree,
            trace,
            is_with: false,
            sequencings,
            spans,
        }
    }

    // The state from a start on that the children of a node with this method begin behind:
    // where its precondition counts, the first in which it is true, which is not told where it
    // has parameters.
    fn told_begin(&self, method: &Method<'_>, children: &[Child], start: u32) -> Option<u32> {
        if !self.is_with || is_empty(method.precondition()) {
            return Some(start);
        }
        if !method.parameters().is_empty() {
            return None;
        }
        let end = self.tree.actions().len();
        let latest = latest_start(children, u32::MAX) as usize;
        let (first, _) = self.trace.first_true(
            start as usize,
            latest.min(end),
            method.precondition(),
            &Binding::Given(&[]),
        )?;
        Some(first as u32)
    }

    // Where preconditions count, what is true from a start on up to the first action below a node:
    // no candidate is of use whose precondition is not true there.
    fn ever_before(&self, node: u32, start: u32) -> Option<EverTrue<'a>>
        requires start { start ≤ last self.now }
        ensures { IsEver self.now node start (option_map ever_rows result) }
    {
        if self.is_with {
            let latest = start.max(first_at(&self.spans.firsts, node));
            Some(self.trace.ever_true(start as usize, latest as usize + 1))
        } else {
            None
        }
    }

    /// A law of the value: these are nodes whose finishes can be worked out.
    pub fn are_nodes(&self)
        ensures { AreNodes (plan_facts self.now) }
    {
        let _is_with = self.is_with;
    }

    /// A law of the value: the plan is solved exactly where the root's node fits from the initial
    /// state to the last, and not where that node has no finish.
    pub fn root_decides(&self)
        ensures fits { IsSolved self.now
            ↔ FitsNode self.now (root_number self.now.tree) 0 (last self.now) }
        ensures unsolved { IsLeast (FitsNode self.now (root_number self.now.tree) 0)
            (last self.now) None
            → IsSolved self.now → ⊥ }
    {
        let _is_with = self.is_with;
    }

    /// A law of the value: what a candidate amounts to is something, so a node that has a candidate
    /// has a meaning, and only such a node.
    pub fn candidates_have_meanings(&self)
        ensures { (v : ℕ) → HasCandidate self.now v ↔ ((c : Meaning) × IsMeaning self.now v c) }
    {
        let _is_with = self.is_with;
    }
}

impl<'a> Nodes for PlanNodes<'a> {
    type Left = Lister<'a>;

    type Room = CandidateRoom<'a>;

    ghost facts = { plan_facts };

    ghost size = { λ q. length q.tree.nodes };

    fn last(&self) -> u32 {
        self.tree.actions().len() as u32
    }

    fn candidates(
        &self,
        alloc: Global,
        room: Option<CandidateRoom<'a>>,
        node: usize,
        start: u32,
    ) -> Result<Lister<'a>, Memory>
        requires node { node < length self.now.tree.nodes }
        requires start { start ≤ last self.now }
        ensures { IfOk result
            (λ all. AreAllOf (plan_facts self.now) node start (still_listed all)) }
    {
        let _count = self.tree.node_count();
        let number = node as u32;
        let shared = sequencing_of(self.world, &self.sequencings, self.tree, number).clone()?;
        let ever = self.ever_before(number, start);
        let spans = self.spans.clone()?;
        let room = match room {
            Some(room) => room,
            None => CandidateRoom::new(alloc),
        };
        candidates_of(
            alloc,
            room,
            self.matcher,
            self.tree,
            number,
            shared,
            spans,
            ever,
        )
    }

    fn take_back(&self, left: Lister<'a>) -> CandidateRoom<'a> {
        left.coming.into_room()
    }

    fn earliest(&self, node: u32) -> u32 {
        end_at(&self.spans.ends, node)
    }

    fn told(&self, node: u32, start: u32) -> Option<Told> {
        let node = self.tree.node(node)?;
        let method = method_for(self.world, &node)?;
        let children = told_children(self.tree, method, &node)?;
        let begin = self.told_begin(method, node.children(), start)?;
        Some(Told { begin, children })
    }

    fn first_true(&self, candidate: &Arranged, from: u32, upto: u32) -> Option<Stretch> {
        let method = method_if(self.world, self.tree, candidate.node)?;
        let range = whole(from, upto)?;
        if !self.is_with {
            return Some(range);
        }
        // What is true behind the last state is what is true there.
        let end = self.tree.actions().len() as u32;
        let (first, last) = self.trace.first_true(
            from.min(end) as usize,
            upto.min(end) as usize,
            method.precondition(),
            &Binding::Given(candidate.objects.as_slice()),
        )?;
        Some(Stretch {
            first: from.max(first as u32),
            last: from.max(last as u32),
        })
    }
}
