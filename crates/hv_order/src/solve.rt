//! What a node comes to from one start, where only what is asked for is worked out.
//!
//! Tasks, frames and turns are large values that go from call to call: most calls are inlined, so
//! that none is copied on its way. What the candidates of one node are written down in is handed on
//! to the next (`room`).
ghost use Rattle.std.specs.Prelude.{◌≡◌, ◌<◌, ◌≤◌, IfOk, IfSome, OnOk, is_some, true};
ghost use Rattle.hv_order.specs.inside.Facts.{IsNodeRun};
ghost use Rattle.hv_order.specs.inside.Memos.{found, AreKnown, IsSmall, Keeps, IsBelow, IsWanted};
ghost use Rattle.hv_order.specs.inside.Tasks.{pair_of, task_pair, IsPair, IsTask, IsPending, IsOutcome, IsOpened, Settles, Waits};
ghost use Rattle.hv_order.specs.inside.Nodes.{AreNodes, IsSettled, settled_by};
ghost use Rattle.hv_order.specs.inside.Trials.{IfWants, WantsOnly};
ghost use Rattle.hv_order.specs.inside.Winners.{as_winner};

use crate::children::run_of_action;
use crate::frame::{Candidates, Frame, advance, next_turn};
use crate::memo::{Memo, Pair};
use crate::memory::Memory;
use crate::nodes::Nodes;
use crate::settle::{Settled, run_of};
use crate::told::is_node_told_behind;
use crate::trial::{Arranged, Best, Finish, Progress, Run, Stretch, Table};
use crate::winner::{no_candidate, with_candidate};
use hv_plan::Child;
use std::alloc::Global;

// So many children at most has a task that is let go: it is begun anew for each.
pub(crate) const FEW: usize = 4;

// So many tasks that wait are kept whatever they take.
const NEAR: usize = 1024;

/// What is known of the nodes before one, as a table.
#[derive_where(Clone, Copy)]
pub struct Below<'a, N> {
    pub nodes: &'a N,
    pub memo: &'a Memo,
    pub node: u32,
}

impl<N: Nodes> Table for Below<'_, N> {
    ghost facts = { λ t. N.facts t.nodes.now };

    ghost sound = { λ t. IsBelow (N.facts t.nodes.now) (N.size t.nodes.now) t.memo.now t.node };

    ghost size = { λ t. t.node };

    ghost unknown = { λ t v s. IsWanted (N.facts t.nodes.now) t.memo.now t.node v s };

    fn look_up(&self, node: u32, start: u32) -> Finish {
        self.memo.known(node, start)
    }

    fn first_true(&self, candidate: &Arranged, from: u32, upto: u32) -> Option<Stretch> {
        self.nodes.first_true(candidate, from, upto)
    }
}

/// A memory for the nodes of a plan, which knows nothing of them, and keeps the winner of each node
/// below `winners`.
pub fn new_memo<N: Nodes>(
    alloc: Global,
    nodes: &N,
    count: usize,
    winners: usize,
) -> Result<Memo, Memory>
    requires room { N.size nodes.now ≤ count }
    ensures { IfOk result (AreKnown (N.facts nodes.now) (N.size nodes.now)) }
{
    Memo::new(alloc, count, winners)
}

/// A node that is worked out from a start on: its candidates that are still to come, and how far
/// it is.
#[derive(Drop)]
pub struct Task<L> {
    pub node: u32,
    pub left: L,
    pub frame: Frame,
}

/// A node that waits for the one above it.
#[derive(Drop)]
pub enum Pending<L> {
    /// To be begun from its start. Where it is far down, it asks ahead first.
    Asked(Pair),
    /// To be begun from its start, with nothing left to ask ahead.
    Ready(Pair),
    /// Begun.
    Begun(Box<Task<L>>),
}

/// A finish that a node will want, and whether it is the last that is told before the
/// node is begun.
#[derive(Clone, Copy)]
pub struct WantedAhead {
    pub child: Pair,
    pub is_last: bool,
}

/// What a node came to: it waits for the finish of a child, or all candidates are over.
#[derive(Drop)]
pub enum Outcome<L> {
    Wants(Pending<L>, Pair),
    Over(Settled),
}

impl<L> Pending<L> {
    /// Which node waits, and from which start.
    pub fn pair(&self) -> Pair
        ensures { result ≡ pair_of self.now }
    {
        match self {
            Pending::Asked(pair) | Pending::Ready(pair) => *pair,
            Pending::Begun(task) => Pair {
                node: task.node,
                start: task.frame.start,
            },
        }
    }
}

/// Begins to work a node out. Where there is no task, no start from this one on has a finish.
#[inline(always)]
pub fn open<N: Nodes>(
    alloc: Global,
    nodes: &N,
    memo: &Memo,
    room: &mut Option<N::Room>,
    node: u32,
    start: u32,
) -> Result<Option<Task<N::Left>>, Memory>
    requires nodes { AreNodes (N.facts nodes.now) }
    requires node { node < N.size nodes.now }
    requires start { start ≤ (N.facts nodes.now).last }
    ensures { IfOk result (IsOpened N.Left.left (N.facts nodes.now) (N.size nodes.now) node start) }
{
    let mut left = nodes.candidates(alloc, room.take(), node as usize, start)?;
    let table = Below { nodes, memo, node };
    let earliest = start.max(nodes.earliest(node));
    match next_turn(
        alloc,
        &table,
        &mut left,
        None,
        start,
        earliest,
        nodes.last(),
    )? {
        None => {
            *room = Some(nodes.take_back(left));
            Ok(None)
        }
        Some(turn) => {
            let frame = Frame {
                start,
                earliest,
                best: None,
                winner: no_candidate(alloc, &turn.candidate)?,
                candidate: turn.candidate,
                trial: turn.trial,
            };
            Ok(Some(Task { node, left, frame }))
        }
    }
}

/// Goes on with a task: a child's finish is wanted, or all candidates are over.
#[inline(always)]
pub fn step<N: Nodes>(
    alloc: Global,
    nodes: &N,
    memo: &Memo,
    task: &mut Task<N::Left>,
) -> Result<Progress, Memory>
    requires nodes { AreNodes (N.facts nodes.now) }
    requires memo { AreKnown (N.facts nodes.now) (N.size nodes.now) memo.now }
    requires task { IsTask N.Left.left (N.facts nodes.now) (N.size nodes.now) task.old }
    ensures over { IfOk result
        (Settles (N.facts nodes.now) task.old.node task.old.frame.start task.new.frame.winner) }
    ensures wanted { IfOk result (WantsOnly (IsWanted (N.facts nodes.now) memo.now task.old.node)) }
    ensures task { IfOk result
        (λ p. IfWants p (IsTask N.Left.left (N.facts nodes.now) (N.size nodes.now) task.new)) }
    ensures node { task.new.node ≡ task.old.node }
    ensures start { task.new.frame.start ≡ task.old.frame.start }
{
    let table = Below {
        nodes,
        memo,
        node: task.node,
    };
    advance(alloc, &table, &mut task.left, &mut task.frame, nodes.last())
}

/// What a task came to, all of whose candidates are over.
#[inline(always)]
pub fn close<N: Nodes>(
    nodes: &N,
    room: &mut Option<N::Room>,
    task: Task<N::Left>,
    best: Option<Best>,
    last: u32,
) -> Settled
    ensures { result ≡ settled_by (as_winner best task.frame.winner) last }
{
    let Task { left, frame, .. } = task;
    *room = Some(nodes.take_back(left));
    run_of(with_candidate(best, frame.winner), last)
}

/// Takes in a run that a node has from a start on, with its winner.
pub fn keep<N: Nodes>(
    _nodes: &N,
    memo: &mut Memo,
    node: u32,
    start: u32,
    settled: Settled,
) -> Result<(), Memory>
    requires memo { AreKnown (N.facts _nodes.now) (N.size _nodes.now) memo.old }
    requires node { node < N.size _nodes.now }
    requires settled { IsSettled (N.facts _nodes.now) node start settled }
    requires small { IsSmall settled.run.finish }
    ensures memo { AreKnown (N.facts _nodes.now) (N.size _nodes.now) memo.new }
    ensures keeps { Keeps memo.old memo.new node start settled.run }
    ensures known { OnOk result (is_some (found memo.new node start) ≡ true) }
{
    memo.learn(node, start, settled.run)?;
    if settled.winner.is_some() {
        memo.remember(node, start, settled);
    }
    Ok(())
}

/// Works on a task up to the next finish that it wants, or to its end.
#[inline(always)]
pub fn work<N: Nodes>(
    alloc: Global,
    nodes: &N,
    memo: &Memo,
    room: &mut Option<N::Room>,
    task: Task<N::Left>,
    far: bool,
) -> Result<Outcome<N::Left>, Memory>
    requires nodes { AreNodes (N.facts nodes.now) }
    requires memo { AreKnown (N.facts nodes.now) (N.size nodes.now) memo.now }
    requires task { IsTask N.Left.left (N.facts nodes.now) (N.size nodes.now) task }
    ensures { IfOk result (IsOutcome N.Left.left (N.facts nodes.now) (N.size nodes.now) memo.now
        (task_pair task)) }
{
    let mut task = task;
    match step(alloc, nodes, memo, &mut task)? {
        Progress::Wants(node, start) => {
            let waits = wait(alloc, nodes, room, task, far)?;
            Ok(Outcome::Wants(waits, Pair { node, start }))
        }
        Progress::Over(best) => Ok(Outcome::Over(close(nodes, room, task, best, nodes.last()))),
    }
}

/// Works on a task that waited, up to the next finish that it wants, or to its end.
#[inline(always)]
pub fn work_on<N: Nodes>(
    alloc: Global,
    nodes: &N,
    memo: &Memo,
    room: &mut Option<N::Room>,
    task: Box<Task<N::Left>>,
) -> Result<Outcome<N::Left>, Memory>
    requires nodes { AreNodes (N.facts nodes.now) }
    requires memo { AreKnown (N.facts nodes.now) (N.size nodes.now) memo.now }
    requires task { IsTask N.Left.left (N.facts nodes.now) (N.size nodes.now) task.value }
    ensures { IfOk result (IsOutcome N.Left.left (N.facts nodes.now) (N.size nodes.now) memo.now
        (task_pair task.value)) }
{
    let mut task = task;
    match step(alloc, nodes, memo, &mut task)? {
        Progress::Wants(node, start) => {
            Ok(Outcome::Wants(Pending::Begun(task), Pair { node, start }))
        }
        Progress::Over(best) => {
            let task = Box::into_inner(task);
            Ok(Outcome::Over(close(nodes, room, task, best, nodes.last())))
        }
    }
}

/// A child of a node, and a start, of which the finish will be wanted and is not known yet, as
/// far as that is told before the node is begun: when it is begun behind them, it need not
/// wait for them.
pub fn ahead<N: Nodes>(nodes: &N, memo: &Memo, pair: Pair) -> Option<WantedAhead>
    requires memo { AreKnown (N.facts nodes.now) (N.size nodes.now) memo.now }
    requires pair { IsPair (N.facts nodes.now) (N.size nodes.now) pair }
    ensures { IfSome result (λ a.
        IsWanted (N.facts nodes.now) memo.now pair.node a.child.node a.child.start) }
{
    let last = nodes.last();
    let told = nodes.told(pair.node, pair.start)?;
    let mut start = told.begin;
    for (place, child) in told.children.iter().enumerate() {
        if last < start {
            return None;
        }
        match (*child)? {
            Child::Action(action) => start = run_of_action(action, start, last).finish?,
            Child::Node(node) => {
                if pair.node <= node {
                    return None;
                }
                match memo.known(node, start) {
                    Finish::Unknown => {
                        return Some(WantedAhead {
                            child: Pair { node, start },
                            is_last: !is_node_told_behind(&told.children, place),
                        });
                    }
                    Finish::Known(run) => start = run.finish?,
                }
            }
        }
    }
    None
}

/// Begins a node, and works on it up to the first finish that it wants, or to its end.
pub fn begin<N: Nodes>(
    alloc: Global,
    nodes: &N,
    memo: &Memo,
    room: &mut Option<N::Room>,
    pair: Pair,
    far: bool,
) -> Result<Outcome<N::Left>, Memory>
    requires nodes { AreNodes (N.facts nodes.now) }
    requires memo { AreKnown (N.facts nodes.now) (N.size nodes.now) memo.now }
    requires pair { IsPair (N.facts nodes.now) (N.size nodes.now) pair }
    ensures { IfOk result
        (IsOutcome N.Left.left (N.facts nodes.now) (N.size nodes.now) memo.now pair) }
{
    match open(alloc, nodes, memo, room, pair.node, pair.start)? {
        None => Ok(Outcome::Over(run_of(None, nodes.last()))),
        Some(task) => work(alloc, nodes, memo, room, task, far),
    }
}

/// Begins a node. One that is `far` down asks ahead for finishes that it will want, since it may be
/// let go where it waits.
pub fn set_out<N: Nodes>(
    alloc: Global,
    nodes: &N,
    memo: &Memo,
    room: &mut Option<N::Room>,
    pair: Pair,
    far: bool,
) -> Result<Outcome<N::Left>, Memory>
    requires nodes { AreNodes (N.facts nodes.now) }
    requires memo { AreKnown (N.facts nodes.now) (N.size nodes.now) memo.now }
    requires pair { IsPair (N.facts nodes.now) (N.size nodes.now) pair }
    ensures { IfOk result
        (IsOutcome N.Left.left (N.facts nodes.now) (N.size nodes.now) memo.now pair) }
{
    if far {
        if let Some(wanted) = ahead(nodes, memo, pair) {
            let waits = if wanted.is_last {
                Pending::Ready(pair)
            } else {
                Pending::Asked(pair)
            };
            return Ok(Outcome::Wants(waits, wanted.child));
        }
    }
    begin(alloc, nodes, memo, room, pair, far)
}

/// Goes on with a node that waited, which is begun where it is not yet. Where it waits again `far`
/// down, it may be let go.
#[inline(always)]
pub fn resume<N: Nodes>(
    alloc: Global,
    nodes: &N,
    memo: &Memo,
    room: &mut Option<N::Room>,
    pending: Pending<N::Left>,
    far: bool,
) -> Result<Outcome<N::Left>, Memory>
    requires nodes { AreNodes (N.facts nodes.now) }
    requires memo { AreKnown (N.facts nodes.now) (N.size nodes.now) memo.now }
    requires pending { IsPending N.Left.left (N.facts nodes.now) (N.size nodes.now) pending }
    ensures { IfOk result (IsOutcome N.Left.left (N.facts nodes.now) (N.size nodes.now) memo.now
        (pair_of pending)) }
{
    match pending {
        Pending::Begun(task) => work_on(alloc, nodes, memo, room, task),
        Pending::Ready(pair) => begin(alloc, nodes, memo, room, pair, far),
        Pending::Asked(pair) => set_out(alloc, nodes, memo, room, pair, far),
    }
}

/// Lets a task wait. One of those that are `far` down is let go where it is soon begun anew, so
/// that a deep plan's tasks take little memory.
pub fn wait<N: Nodes>(
    alloc: Global,
    nodes: &N,
    room: &mut Option<N::Room>,
    task: Task<N::Left>,
    far: bool,
) -> Result<Pending<N::Left>, Memory>
    requires task { IsTask N.Left.left (N.facts nodes.now) (N.size nodes.now) task }
    ensures { IfOk result (Waits N.Left.left (N.facts nodes.now) (N.size nodes.now)
        (task_pair task)) }
{
    if far && task.left.is_at_first() && task.frame.candidate.children.len() <= FEW {
        let Task { node, left, frame } = task;
        *room = Some(nodes.take_back(left));
        return Ok(Pending::Ready(Pair {
            node,
            start: frame.start,
        }));
    }
    Ok(Pending::Begun(Box::new(alloc, task)?))
}

/// A run of a node from a start on, with its winner. What was found on the way is kept.
pub fn solve<N: Nodes>(
    alloc: Global,
    nodes: &N,
    memo: &mut Memo,
    node: u32,
    start: u32,
) -> Result<Settled, Memory>
    requires nodes { AreNodes (N.facts nodes.now) }
    requires memo { AreKnown (N.facts nodes.now) (N.size nodes.now) memo.old }
    requires node { node < N.size nodes.now }
    requires start { start ≤ (N.facts nodes.now).last }
    ensures settled { IfOk result (IsSettled (N.facts nodes.now) node start) }
    ensures small { IfOk result (λ r. IsSmall r.run.finish) }
    ensures memo { AreKnown (N.facts nodes.now) (N.size nodes.now) memo.new }
{
    let mut below: Vec<Pending<N::Left>> = Vec::new(alloc);
    let mut top: Pending<N::Left> = Pending::Asked(Pair { node, start });
    let mut room = None;
    loop {
        let pair = top.pair();
        let far = NEAR <= below.len();
        match resume(alloc, nodes, memo, &mut room, top, far)? {
            Outcome::Wants(waits, child) => {
                below.push(waits)?;
                top = Pending::Asked(child);
            }
            Outcome::Over(settled) => match below.pop() {
                None => return Ok(settled),
                Some(waiting) => {
                    keep(nodes, memo, pair.node, pair.start, settled)?;
                    top = waiting;
                }
            },
        }
    }
}

/// The run of a node in which a start lies.
pub fn run_for<N: Nodes>(
    alloc: Global,
    nodes: &N,
    memo: &mut Memo,
    node: u32,
    start: u32,
) -> Result<Run, Memory>
    requires nodes { AreNodes (N.facts nodes.now) }
    requires memo { AreKnown (N.facts nodes.now) (N.size nodes.now) memo.old }
    requires node { node < N.size nodes.now }
    requires start { start ≤ (N.facts nodes.now).last }
    ensures run { IfOk result (IsNodeRun (N.facts nodes.now) node start) }
    ensures memo { AreKnown (N.facts nodes.now) (N.size nodes.now) memo.new }
{
    match memo.known(node, start) {
        Finish::Known(run) => Ok(run),
        Finish::Unknown => {
            let settled = solve(alloc, nodes, memo, node, start)?;
            let run = settled.run;
            keep(nodes, memo, node, start, settled)?;
            Ok(run)
        }
    }
}

/// A run of a node from a start on, with its winner: as it was kept, or else worked out.
pub fn settled_from<N: Nodes>(
    alloc: Global,
    nodes: &N,
    memo: &mut Memo,
    node: u32,
    start: u32,
) -> Result<Settled, Memory>
    requires nodes { AreNodes (N.facts nodes.now) }
    requires memo { AreKnown (N.facts nodes.now) (N.size nodes.now) memo.old }
    requires node { node < N.size nodes.now }
    requires start { start ≤ (N.facts nodes.now).last }
    ensures settled { IfOk result (IsSettled (N.facts nodes.now) node start) }
    ensures memo { AreKnown (N.facts nodes.now) (N.size nodes.now) memo.new }
{
    match memo.take_won(node, start) {
        Some(settled) => Ok(settled),
        None => solve(alloc, nodes, memo, node, start),
    }
}
