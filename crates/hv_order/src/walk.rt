//! Where each node of a plan begins and is over in a certificate, found with parents first.
ghost use Rattle.std.specs.Prelude.{◌≡◌, ◌<◌, ◌≤◌, ◌-◌, length, IfOk, Some, option_map};
ghost use Rattle.hv_order.specs.Tables.{IsLeast};
ghost use Rattle.hv_order.specs.inside.Children.{ChildFits, IsNodeBelow, AreNodesBelow};
ghost use Rattle.hv_order.specs.inside.Arrangements.{arrangement_of};
ghost use Rattle.hv_order.specs.inside.Frames.{IsArranged};
ghost use Rattle.hv_order.specs.inside.Memos.{AreKnown};
ghost use Rattle.hv_order.specs.inside.Nodes.{AreNodes};
ghost use Rattle.hv_order.specs.inside.Walks.{said_of, root_of, AreApartNodes, HaveOneParent, AreWalked, IsWalk};
ghost use Rattle.hv_order.specs.inside.Begun.{CanBeOver, IsLaidOut, HasFinish, HaveFinishes, IsStandFrom, AreSet, IsVisited, IsVisit};

use crate::children::run_of_action;
use crate::memo::Memo;
use crate::memory::Memory;
use crate::nodes::Nodes;
use crate::sequencing::Sequencing;
use crate::solve::{run_for, settled_from};
use crate::trial::{Arranged, start_of};
use hv_plan::Child;
use std::alloc::Global;

/// Where a node begins, its least finish from there, the index at which its precondition is true,
/// and the candidate that gives this finish.
#[derive(Drop)]
pub struct Stand {
    pub start: u32,
    pub finish: u32,
    pub at: u32,
    pub winner: Arranged,
}

/// Where each subtask of a candidate begins, and where it is over.
#[derive(Drop)]
pub struct Layout {
    pub starts: Vec<u32>,
    pub finishes: Vec<u32>,
}

/// The least finish of a child for a start.
pub fn finish_of_child<N: Nodes>(
    alloc: Global,
    nodes: &N,
    memo: &mut Memo,
    child: Child,
    start: u32,
) -> Result<Option<u32>, Memory>
    requires nodes { AreNodes (N.facts nodes.now) }
    requires memo { AreKnown (N.facts nodes.now) (N.size nodes.now) memo.old }
    requires child { IsNodeBelow (N.size nodes.now) child }
    requires start { start ≤ (N.facts nodes.now).last }
    ensures finish { IfOk result
        (IsLeast (ChildFits (N.facts nodes.now).fits child start) (N.facts nodes.now).last) }
    ensures memo { AreKnown (N.facts nodes.now) (N.size nodes.now) memo.new }
{
    match child {
        Child::Action(action) => Ok(run_of_action(action, start, nodes.last()).finish),
        Child::Node(node) => {
            let run = run_for(alloc, nodes, memo, node, start)?;
            Ok(run.finish)
        }
    }
}

/// Lays out the subtasks of a candidate behind `at`, where they can all be over by `finish`.
pub fn lay_out<N: Nodes>(
    alloc: Global,
    nodes: &N,
    memo: &mut Memo,
    candidate: &Arranged,
    at: u32,
    _finish: u32,
) -> Result<Layout, Memory>
    requires nodes { AreNodes (N.facts nodes.now) }
    requires memo { AreKnown (N.facts nodes.now) (N.size nodes.now) memo.old }
    requires arranged { IsArranged (N.facts nodes.now) (arrangement_of candidate.now) }
    requires below { AreNodesBelow (N.size nodes.now) candidate.now.children.items }
    requires over { CanBeOver (N.facts nodes.now) (arrangement_of candidate.now) at _finish }
    ensures laid { IfOk result
        (IsLaidOut (N.facts nodes.now) (arrangement_of candidate.now) at _finish) }
    ensures memo { AreKnown (N.facts nodes.now) (N.size nodes.now) memo.new }
{
    let count = candidate.children.len();
    let mut starts = vec![in alloc; 0; count]?;
    let mut finishes = vec![in alloc; 0; count]?;
    let sequencing: &Sequencing = &candidate.sequencing;
    for subtask in &sequencing.order {
        let start = start_of(&finishes, sequencing.direct.at(*subtask), at);
        match finish_of_child(alloc, nodes, memo, candidate.children[*subtask], start)? {
            None => unreachable!(),
            Some(finish) => {
                starts[*subtask] = start;
                finishes[*subtask] = finish;
            }
        }
    }
    Ok(Layout { starts, finishes })
}

/// Begins the nodes among some children, each where its subtask does.
pub fn begin_children(starts: &mut [Option<u32>], children: &[Child], begins: &[u32])
    requires below { AreNodesBelow (length starts.old) children.now }
    requires as_many { length begins.now ≡ length children.now }
    requires apart { AreApartNodes children.now }
    ensures { AreSet starts.old children.now begins.now starts.new }
{
    for (subtask, child) in children.iter().enumerate() {
        match *child {
            Child::Action(_) => {}
            Child::Node(node) => starts[node as usize] = Some(begins[subtask]),
        }
    }
}

/// Where a node stands that begins at a start from which it has a finish.
pub fn stand_from<N: Nodes>(
    alloc: Global,
    nodes: &N,
    memo: &mut Memo,
    node: u32,
    start: u32,
) -> Result<Stand, Memory>
    requires nodes { AreNodes (N.facts nodes.now) }
    requires memo { AreKnown (N.facts nodes.now) (N.size nodes.now) memo.old }
    requires node { node < N.size nodes.now }
    requires finish { HasFinish (N.facts nodes.now) node start }
    ensures stand { IfOk result (IsStandFrom (N.facts nodes.now) node start) }
    ensures memo { AreKnown (N.facts nodes.now) (N.size nodes.now) memo.new }
{
    let settled = settled_from(alloc, nodes, memo, node, start)?;
    let finish = match settled.run.finish {
        None => unreachable!(),
        Some(finish) => finish,
    };
    let winner = match settled.winner {
        None => unreachable!(),
        Some(winner) => winner,
    };
    let at = match nodes.first_true(&winner, start, finish) {
        None => unreachable!(),
        Some(truth) => truth.first,
    };
    Ok(Stand {
        start,
        finish,
        at,
        winner,
    })
}

/// Lets a node stand from its start on, and begins its children.
pub fn place_node<N: Nodes>(
    alloc: Global,
    nodes: &N,
    memo: &mut Memo,
    starts: &mut [Option<u32>],
    node: u32,
    start: u32,
) -> Result<Stand, Memory>
    requires nodes { AreNodes (N.facts nodes.now) }
    requires memo { AreKnown (N.facts nodes.now) (N.size nodes.now) memo.old }
    requires tree { HaveOneParent (N.facts nodes.now) }
    requires node { node < N.size nodes.now }
    requires as_many { length starts.old ≡ N.size nodes.now }
    requires finish { HasFinish (N.facts nodes.now) node start }
    ensures visited { IfOk result
        (IsVisited (N.facts nodes.now) node start starts.old starts.new) }
    ensures memo { AreKnown (N.facts nodes.now) (N.size nodes.now) memo.new }
{
    let stand = stand_from(alloc, nodes, memo, node, start)?;
    let layout = lay_out(alloc, nodes, memo, &stand.winner, stand.at, stand.finish)?;
    begin_children(starts, &stand.winner.children, &layout.starts);
    Ok(stand)
}

/// Visits a node: if it is begun, it stands.
pub fn visit<N: Nodes>(
    alloc: Global,
    nodes: &N,
    memo: &mut Memo,
    starts: &mut [Option<u32>],
    node: u32,
) -> Result<Option<Stand>, Memory>
    requires nodes { AreNodes (N.facts nodes.now) }
    requires memo { AreKnown (N.facts nodes.now) (N.size nodes.now) memo.old }
    requires tree { HaveOneParent (N.facts nodes.now) }
    requires node { node < N.size nodes.now }
    requires as_many { length starts.old ≡ N.size nodes.now }
    requires finishes { HaveFinishes (N.facts nodes.now) starts.old }
    ensures visit { IfOk result
        (IsVisit (N.facts nodes.now) node starts.old starts.new (said_of starts.old node)) }
    ensures memo { AreKnown (N.facts nodes.now) (N.size nodes.now) memo.new }
{
    match starts[node as usize] {
        None => Ok(None),
        Some(start) => Ok(Some(place_node(alloc, nodes, memo, starts, node, start)?)),
    }
}

/// As long a list as there are nodes, of which none stands yet.
pub fn none_stands(alloc: Global, count: u32) -> Result<Vec<Option<Stand>>, Memory>
    ensures { IfOk result (λ stands. length stands.items ≡ count) }
{
    let mut stands = Vec::with_capacity(alloc, count as usize)?;
    for _ in 0..count {
        stands.push(None)?;
    }
    Ok(stands)
}

/// Visits all nodes, parents first, where the root is begun.
pub fn visit_all<N: Nodes>(
    alloc: Global,
    nodes: &N,
    memo: &mut Memo,
    starts: &mut [Option<u32>],
    count: u32,
) -> Result<Vec<Option<Stand>>, Memory>
    requires nodes { AreNodes (N.facts nodes.now) }
    requires memo { AreKnown (N.facts nodes.now) (N.size nodes.now) memo.old }
    requires tree { HaveOneParent (N.facts nodes.now) }
    requires count { count ≡ N.size nodes.now }
    requires some { 0 < count }
    requires as_many { length starts.old ≡ count }
    requires finishes { HaveFinishes (N.facts nodes.now) starts.old }
    requires root { said_of starts.old (root_of count) ≡ Some 0 }
    ensures walked { IfOk result (λ stands. AreWalked (N.facts nodes.now) count stands.items) }
    ensures memo { AreKnown (N.facts nodes.now) (N.size nodes.now) memo.new }
{
    let mut stands = none_stands(alloc, count)?;
    for node in (0..count).rev() {
        stands[node as usize] = visit(alloc, nodes, memo, starts, node)?;
    }
    Ok(stands)
}

/// Where each node stands that is reached from the root, if the root has a finish from the first
/// state on. The root is the last of the nodes.
pub fn walk<N: Nodes>(
    alloc: Global,
    nodes: &N,
    memo: &mut Memo,
    count: u32,
) -> Result<Option<Vec<Option<Stand>>>, Memory>
    requires nodes { AreNodes (N.facts nodes.now) }
    requires memo { AreKnown (N.facts nodes.now) (N.size nodes.now) memo.old }
    requires tree { HaveOneParent (N.facts nodes.now) }
    requires count { count ≡ N.size nodes.now }
    requires some { 0 < count }
    ensures walk { IfOk result
        (λ o. IsWalk (N.facts nodes.now) count (option_map (λ stands. stands.items) o)) }
    ensures memo { AreKnown (N.facts nodes.now) (N.size nodes.now) memo.new }
{
    let root = count - 1;
    let run = run_for(alloc, nodes, memo, root, 0)?;
    match run.finish {
        None => Ok(None),
        Some(_finish) => {
            let mut starts = vec![in alloc; None; count as usize]?;
            starts[root as usize] = Some(0);
            Ok(Some(visit_all(alloc, nodes, memo, &mut starts, count)?))
        }
    }
}
