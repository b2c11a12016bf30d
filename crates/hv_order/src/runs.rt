//! The row of a node: its least finish for each start, as runs of starts with the same finish.
ghost use Rattle.std.specs.Prelude.{◌≡◌, ◌<◌, ◌≤◌, ◌-◌, ◌↔◌, length, IfOk, IsTrue};
ghost use Rattle.hv_order.specs.LeastFinishes.{IsCounted, IsNumberOfAnswers};
ghost use Rattle.hv_order.specs.Tables.{IsLeast};
ghost use Rattle.hv_order.specs.inside.Facts.{IsNodeRun};
ghost use Rattle.hv_order.specs.inside.Nodes.{AreNodes};
ghost use Rattle.hv_order.specs.inside.Runs.{IsRow, AreApart, IsRowOf, AreRows, AreRising, Reaches, EndsWith, IsTrimmed, IsPlace, AreFew, AreFewOf, runs_of};
ghost use Rattle.hv_order.specs.declared.runs.Row.TheVariants as kinds;

use crate::idle::is_idle;
use crate::memory::Memory;
use crate::nodes::Nodes;
use crate::settle::settle;
use crate::trial::Run;
use std::alloc::Global;

/// The row of one node.
#[derive(Drop)]
pub enum Row {
    /// The node finishes where it starts, whatever the start: a run for each start,
    /// none of them kept.
    Idle,
    /// Runs, of which each goes from behind the run before it.
    Runs(Vec<Run>),
}

impl Row {
    /// Whether the node finishes where it starts, whatever the start.
    pub fn is_idle(&self) -> bool
        ensures { IsTrue result ↔ (self.now ≡ kinds.Idle) }
    {
        matches!(self, Row::Idle)
    }
}

/// Whether two finishes are the same.
pub fn is_same(first: Option<u32>, second: Option<u32>) -> bool
    ensures { IsTrue result ↔ (first ≡ second) }
{
    first == second
}

/// Whether the last of these runs has this finish.
pub fn ends_with(runs: &[Run], finish: Option<u32>) -> bool
    ensures { IsTrue result ↔ EndsWith runs.now finish }
{
    match runs.last() {
        None => false,
        Some(previous) => is_same(previous.finish, finish),
    }
}

/// Takes off the last run, if it has the finish of the next: the next stands for both.
pub fn trim(runs: &mut Vec<Run>, finish: Option<u32>)
    ensures { IsTrimmed runs.old.items finish runs.new.items }
{
    if !ends_with(runs, finish) {
        return;
    }
    let kept = runs.len() - 1;
    runs.truncate(kept);
}

/// The runs of the node behind these rows, of which the first is known.
pub fn make_runs<N: Nodes>(
    alloc: Global,
    nodes: &N,
    rows: &[Row],
    first: Run,
) -> Result<Vec<Run>, Memory>
    requires nodes { AreNodes (N.facts nodes.now) }
    requires rows { AreRows (N.facts nodes.now) rows.now }
    requires node { length rows.now < N.size nodes.now }
    requires first { IsNodeRun (N.facts nodes.now) (length rows.now) 0 first }
    ensures row { IfOk result (λ runs.
        IsRow ((N.facts nodes.now).fits (length rows.now)) (N.facts nodes.now).last 0 runs.items) }
    ensures apart { IfOk result (λ runs. AreApart runs.items) }
{
    let last = nodes.last();
    let mut runs = vec![in alloc; first]?;
    let mut start = first.last + 1;
    while start <= last {
        let settled = settle(alloc, nodes, rows, start)?;
        start = settled.run.last + 1;
        trim(&mut runs, settled.run.finish);
        runs.push(settled.run)?;
    }
    Ok(runs)
}

/// The row of the node behind these rows.
pub fn make_row<N: Nodes>(alloc: Global, nodes: &N, rows: &[Row]) -> Result<Row, Memory>
    requires nodes { AreNodes (N.facts nodes.now) }
    requires rows { AreRows (N.facts nodes.now) rows.now }
    requires node { length rows.now < N.size nodes.now }
    ensures { IfOk result (IsRowOf (N.facts nodes.now) (length rows.now)) }
{
    let first = settle(alloc, nodes, rows, 0)?;
    if is_idle(nodes, rows, &first) {
        return Ok(Row::Idle);
    }
    let runs = make_runs(alloc, nodes, rows, first.run)?;
    Ok(Row::Runs(runs))
}

/// The rows of the first `count` nodes, children first.
pub fn build<N: Nodes>(alloc: Global, nodes: &N, count: usize) -> Result<Vec<Row>, Memory>
    requires nodes { AreNodes (N.facts nodes.now) }
    requires count { count ≤ N.size nodes.now }
    ensures count { IfOk result (λ rows. length rows.items ≡ count) }
    ensures rows { IfOk result (λ rows. AreRows (N.facts nodes.now) rows.items) }
{
    let mut rows = Vec::new(alloc);
    for node in 0..count {
        let made = make_row(alloc, nodes, &rows)?;
        rows.push(made)?;
    }
    Ok(rows)
}

/// The place of a run among others, and how many of these were looked at to find it.
#[derive(Clone, Copy)]
pub struct Place {
    pub at: usize,
    pub looked: usize,
}

/// The place of the run in which a start lies, by halving.
pub fn run_at(runs: &[Run], start: u32) -> Place
    requires some { 0 < length runs.now }
    requires rise { AreRising runs.now }
    requires end { Reaches runs.now (length runs.now - 1) start }
    ensures place { IsPlace runs.now start result }
    ensures small { result.looked ≤ 64 }
{
    let mut low = 0;
    let mut high = runs.len();
    let mut looked = 0;
    while low < high {
        let middle = low + (high - low) / 2;
        looked += 1;
        if runs[middle].last < start {
            low = middle + 1;
        } else {
            high = middle;
        }
    }
    Place { at: low, looked }
}

/// A run in which a start lies, and how many runs were looked at to find it.
#[derive(Clone, Copy)]
pub struct Found {
    pub run: Run,
    pub looked: usize,
}

/// The run of a node in which a start lies, by the row of the node.
pub fn find_in<N: Nodes>(_nodes: &N, row: &Row, _node: usize, start: u32) -> Found
    requires row { IsRowOf (N.facts _nodes.now) _node row.now }
    requires start { start ≤ (N.facts _nodes.now).last }
    ensures run { IsNodeRun (N.facts _nodes.now) _node start result.run }
    ensures small { result.looked ≤ 64 }
    ensures looked { AreFew (runs_of (N.facts _nodes.now).last row.now) result.looked }
{
    match row {
        Row::Idle => Found {
            run: Run {
                last: start,
                finish: Some(start),
            },
            looked: 1,
        },
        Row::Runs(runs) => {
            let place = run_at(runs, start);
            Found {
                run: runs[place.at],
                looked: place.looked,
            }
        }
    }
}

/// The run of a node in which a start lies, by the rows of the nodes.
pub fn find<N: Nodes>(nodes: &N, rows: &[Row], node: usize, start: u32) -> Found
    requires rows { AreRows (N.facts nodes.now) rows.now }
    requires node { node < length rows.now }
    requires start { start ≤ (N.facts nodes.now).last }
    ensures run { IsNodeRun (N.facts nodes.now) node start result.run }
    ensures small { result.looked ≤ 64 }
    ensures looked { AreFewOf (N.facts nodes.now).last rows.now node result.looked }
{
    find_in(nodes, &rows[node], node, start)
}

/// The least finish of a node for a start, and how many runs of its row were looked at.
pub fn least_finish_counted<N: Nodes>(
    nodes: &N,
    rows: &[Row],
    node: usize,
    start: u32,
) -> (Option<u32>, u32)
    requires nodes { AreNodes (N.facts nodes.now) }
    requires rows { AreRows (N.facts nodes.now) rows.now }
    requires node { node < length rows.now }
    requires start { start ≤ (N.facts nodes.now).last }
    ensures finish { IsLeast ((N.facts nodes.now).fits node start) (N.facts nodes.now).last
        result.0 }
    ensures looked { IsCounted ((N.facts nodes.now).fits node) (N.facts nodes.now).last result.1 }
{
    let found = find(nodes, rows, node, start);
    (found.run.finish, found.looked as u32)
}

/// How many runs a row of a node stands for.
pub fn count_in<N: Nodes>(nodes: &N, row: &Row) -> u64
    ensures { result ≡ length (runs_of (N.facts nodes.now).last row.now) }
{
    match row {
        Row::Idle => u64::from(nodes.last()) + 1,
        Row::Runs(runs) => runs.len() as u64,
    }
}

/// How many different answers a node has for its starts, none counted as one.
pub fn count_runs<N: Nodes>(nodes: &N, rows: &[Row], node: usize) -> u64
    requires nodes { AreNodes (N.facts nodes.now) }
    requires rows { AreRows (N.facts nodes.now) rows.now }
    requires node { node < length rows.now }
    ensures { IsNumberOfAnswers ((N.facts nodes.now).fits node) (N.facts nodes.now).last result }
{
    count_in(nodes, &rows[node])
}
