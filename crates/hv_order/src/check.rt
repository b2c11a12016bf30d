//! The check of a certificate, node by node and without a search.

ghost use Rattle.std.specs.Prelude.{◌≡◌, ◌<◌, ◌≤◌, true, length, map, slice_index, IfOk, IfErr, OnOk, IfSome, MatchOption, is_none};
ghost use Rattle.hv_world.specs.WorldViews.{world_view};
ghost use Rattle.hv_state.specs.Plans.{plan};
ghost use Rattle.hv_plan.specs.BuiltTrees.{tree_view};
ghost use Rattle.hv_plan.specs.PlanTrees.{IsTreeIn, tree_of};
ghost use Rattle.hv_plan.specs.TreeViews.{child_view};
ghost use Rattle.hv_match.specs.Candidates.{Tells};
ghost use Rattle.hv_order.specs.Settings.{setting, HasNoPrecondition};
ghost use Rattle.hv_order.specs.Certificates.{AreFinishes, subtask_start};
ghost use Rattle.hv_order.specs.Certified.{Certifies, line_numbers, CountsTo};
ghost use Rattle.hv_order.specs.Misfits.{IsMisfit};
ghost use Rattle.hv_order.specs.inside.Checks.{ArePlaces, matching_in, finish_in, child_at, IsLatest, AreOver, KeepsDirect, StartBehind, KeepsNode, KeepNodes, IsOutOfOrder, KeepAll, IsLate, IfLine, IsRefused};

use crate::entries::{NodeEntries, entries, other_line, places};
use crate::memory::Memory;
use crate::node_methods::{method_of, node_of};
use crate::unfit::Unfit;
use hv_certificate::Certificate;
use hv_plan::{Child, Tree};
use hv_state::{BitState, Trace};
use hv_world::{Order, World};
use std::alloc::Global;

// Where a child starts: an action in the state of its number, a node at its own index.
fn start_of(starts: &[u32], child: Child) -> u64
    ensures { result ≡ subtask_start (slice_index starts.now) (child_view child) }
{
    match child {
        Child::Action(action) => u64::from(action),
        Child::Node(node) => match starts.get(node as usize) {
            Some(start) => u64::from(*start),
            None => 0,
        },
    }
}

// When a child is over: an action in the state behind it, a node at its finish.
fn finish_of(finishes: &[u64], child: Child) -> u64
    ensures { result ≡ finish_in finishes.now (child_view child) }
{
    match child {
        Child::Action(action) => u64::from(action) + 1,
        Child::Node(node) => match finishes.get(node as usize) {
            Some(finish) => *finish,
            None => 0,
        },
    }
}

// The latest of an index and the finishes of children.
fn latest(finishes: &[u64], children: &[Child], at: u32) -> u64
    ensures { IsLatest at (map child_view children.now) (finish_in finishes.now) result }
{
    let mut latest = u64::from(at);
    for child in children {
        latest = latest.max(finish_of(finishes, *child));
    }
    latest
}

// The finish of each node, children first.
fn finishes(
    alloc: Global,
    _world: &World<'_>,
    tree: &Tree,
    starts: &[u32],
) -> Result<Vec<u64>, Memory>
    requires tree { IsTreeIn (world_view _world.now) (tree_view tree.now) }
    requires as_many { length starts.now ≡ length (tree_view tree.now).nodes }
    ensures { IfOk result (λ v. AreFinishes
        (tree_of (tree_view tree.now)) (slice_index starts.now) (finish_in v.items)) }
{
    let mut finishes = Vec::with_capacity(alloc, starts.len())?;
    for node in 0..tree.node_count() {
        let children = node_of(tree, node).children();
        finishes.push(latest(&finishes, children, starts[node as usize]))?;
    }
    Ok(finishes)
}

// The child that stands for a subtask.
fn child_for(children: &[Child], places: &[u32], subtask: usize) -> Child
    ensures { child_view result
        ≡ child_at (map child_view children.now) places.now subtask }
{
    let place = match places.get(subtask) {
        Some(place) => *place as usize,
        None => 0,
    };
    match children.get(place) {
        Some(child) => *child,
        None => Child::Action(0),
    }
}

// Whether these subtasks are over when another starts.
fn are_over(
    finishes: &[u64],
    children: &[Child],
    places: &[u32],
    subtasks: &[usize],
    start: u64,
) -> bool
    ensures { Tells (AreOver
        finishes.now (map child_view children.now) places.now subtasks.now start) result }
{
    for subtask in subtasks {
        if start < finish_of(finishes, child_for(children, places, *subtask)) {
            return false;
        }
    }
    true
}

// Whether each subtask starts when those directly before it are over.
fn keeps_order(
    starts: &[u32],
    finishes: &[u64],
    children: &[Child],
    places: &[u32],
    order: &Order,
) -> bool
    ensures { Tells (KeepsDirect
        starts.now finishes.now (map child_view children.now) places.now order.now) result }
{
    for subtask in 0..places.len() {
        let start = start_of(starts, child_for(children, places, subtask));
        if !are_over(
            finishes,
            children,
            places,
            order.directly_before(subtask),
            start,
        ) {
            return false;
        }
    }
    true
}

// Whether none of these children starts before an index.
fn start_behind(starts: &[u32], children: &[Child], at: u32) -> bool
    ensures { Tells (StartBehind starts.now (map child_view children.now) at) result }
{
    for child in children {
        if start_of(starts, *child) < u64::from(at) {
            return false;
        }
    }
    true
}

// Whether the children of a node start behind its precondition, and in its method's order.
fn keeps_node(
    world: &World<'_>,
    tree: &Tree,
    entries: &NodeEntries,
    finishes: &[u64],
    node: u32,
) -> bool
    requires tree { IsTreeIn (world_view world.now) (tree_view tree.now) }
    requires node { node < length (tree_view tree.now).nodes }
    requires as_many { length entries.now.starts.items ≡ length (tree_view tree.now).nodes }
    ensures { Tells (KeepsNode (world_view world.now) (tree_view tree.now) entries.now.starts.items
        finishes.now node (matching_in entries.now.matchings node)) result }
{
    let starts: &[u32] = &entries.starts;
    let children = node_of(tree, node).children();
    let order = method_of(world, tree, node).network().order();
    start_behind(starts, children, starts[node as usize])
        && keeps_order(
            starts,
            finishes,
            children,
            entries.matchings.at(node as usize),
            order,
        )
}

// A node whose children do not; None where those of all nodes do.
fn out_of_order(
    world: &World<'_>,
    tree: &Tree,
    entries: &NodeEntries,
    finishes: &[u64],
) -> Option<u32>
    requires tree { IsTreeIn (world_view world.now) (tree_view tree.now) }
    requires as_many { length entries.now.starts.items ≡ length (tree_view tree.now).nodes }
    ensures order { MatchOption result
        (KeepNodes (world_view world.now) (tree_view tree.now)
        entries.now.matchings entries.now.starts.items finishes.now)
        (IsOutOfOrder (world_view world.now) (tree_view tree.now)
        entries.now.matchings entries.now.starts.items finishes.now) }
    ensures node { IfSome result (λ v. v < length (tree_view tree.now).nodes) }
{
    for node in 0..tree.node_count() {
        if !keeps_node(world, tree, entries, finishes, node) {
            return Some(node);
        }
    }
    None
}

// The place of a node that does not keep the rules, or of the root line where it is not over when
// the plan is; None where all nodes keep them.
fn late(
    world: &World<'_>,
    tree: &Tree,
    entries: &NodeEntries,
    finishes: &[u64],
    places: &[u32],
) -> Option<u32>
    requires tree { IsTreeIn (world_view world.now) (tree_view tree.now) }
    requires as_many { length entries.now.starts.items ≡ length (tree_view tree.now).nodes }
    requires places { ArePlaces (tree_view tree.now) places.now }
    ensures { MatchOption result
        (KeepAll (world_view world.now) (tree_view tree.now)
        entries.now.matchings entries.now.starts.items finishes.now
        (length (tree_view tree.now).actions))
        (IsLate (world_view world.now) (tree_view tree.now)
        entries.now.matchings entries.now.starts.items finishes.now places.now
        (length (tree_view tree.now).actions)) }
{
    let root = Child::Node(tree.node_count() - 1);
    if finish_of(finishes, root) > tree.actions().len() as u64 {
        return Some(0);
    }
    let node = out_of_order(world, tree, entries, finishes)?;
    Some(places[node as usize])
}

// Whether what a certificate says of each node is right, and all nodes keep the rules.
fn keep_rules<'s>(
    alloc: Global,
    world: &World<'s>,
    tree: &Tree,
    trace: &Trace<'_, BitState>,
    certificate: &Certificate<'s>,
    evaluated: &mut u64,
) -> Result<(), Unfit>
    requires top { HasNoPrecondition (world_view world.now) }
    requires tree { IsTreeIn (world_view world.now) (tree_view tree.now) }
    requires trace { trace.now ≡ plan (world_view world.now) (tree_view tree.now).actions }
    requires small { length (tree_view tree.now).actions < 4294967295 }
    requires counted { evaluated.old ≡ 0 }
    ensures certified { OnOk result
        (Certifies (setting (tree_view tree.now) trace.now true) certificate.now) }
    ensures refused { IfErr result
        (IsRefused (setting (tree_view tree.now) trace.now true) certificate.now) }
    ensures counted { OnOk result
        (evaluated.new ≡ length (line_numbers (tree_view tree.now))) }
    ensures within { IfErr result (IfLine
        (λ _. evaluated.new ≤ length (line_numbers (tree_view tree.now)))) }
{
    world.is_sound();
    if let Some(place) = other_line(world, tree, certificate) {
        return Err(Unfit::Line(place));
    }
    let places = places(alloc, world, tree)?;
    let entries = entries(alloc, world, tree, trace, certificate, &places, evaluated)?;
    let finishes = finishes(alloc, world, tree, &entries.starts)?;
    match late(world, tree, &entries, &finishes, &places) {
        None => Ok(()),
        Some(place) => Err(Unfit::Line(place)),
    }
}

/// What the check of a certificate found.
#[derive(Clone, Copy, Debug, PartialEq, Eq)]
pub struct Checked {
    /// A line that does not fit, by its place in the order of nodes, in which the root line stands
    /// first. None where the certificate certifies the plan.
    pub misfit: Option<u32>,
    /// How many preconditions of decomposition lines were evaluated.
    pub evaluated: u64,
}

/// Whether a certificate certifies a plan, and if not, which of its lines does not fit. Nothing is
/// searched: each node is looked at once, and the precondition of each decomposition line is
/// evaluated once at most, and once on a yes.
///
/// # Errors
///
/// `Memory` where a growth was refused.
pub fn certifies<'s>(
    alloc: Global,
    world: &World<'s>,
    tree: &Tree,
    trace: &Trace<'_, BitState>,
    certificate: &Certificate<'s>,
) -> Result<Checked, Memory>
    requires top { HasNoPrecondition (world_view world.now) }
    requires tree { IsTreeIn (world_view world.now) (tree_view tree.now) }
    requires trace { trace.now ≡ plan (world_view world.now) (tree_view tree.now).actions }
    requires small { length (tree_view tree.now).actions < 4294967295 }
    ensures certified { IfOk result (λ found.
        Tells (Certifies (setting (tree_view tree.now) trace.now true) certificate.now)
        (is_none found.misfit)) }
    ensures misfit { IfOk result (λ found. IfSome found.misfit
        (IsMisfit (setting (tree_view tree.now) trace.now true) certificate.now)) }
    ensures evaluated { IfOk result (λ found. CountsTo
        (length (line_numbers (tree_view tree.now))) (is_none found.misfit) found.evaluated) }
{
    let mut evaluated = 0;
    match keep_rules(alloc, world, tree, trace, certificate, &mut evaluated) {
        Ok(()) => Ok(Checked {
            misfit: None,
            evaluated,
        }),
        Err(Unfit::Line(place)) => Ok(Checked {
            misfit: Some(place),
            evaluated,
        }),
        Err(Unfit::Memory) => Err(Memory),
    }
}
