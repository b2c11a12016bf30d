//! What is known of the least finishes of a plan's nodes, while they are worked out on demand.
ghost use Rattle.std.specs.Prelude.{◌≡◌, ◌<◌, ◌≤◌, [], length, IfOk, OnOk, is_some, true};
ghost use Rattle.hv_order.specs.inside.Memos.{found, as_finish, finish_from, IsSmall, IsEmptyList, KnowsNothing, Keeps, KeepsOnly, KeepsSpans, SameRuns, IsRemembered, IsTaken, OnlyTaken, TellsFinishes};

use crate::memory::Memory;
use crate::settle::Settled;
use crate::trial::{Finish, Run};
use std::alloc::Global;
use std::collections::BTreeMap;
use std::mem::replace;

/// A node and a start.
#[derive(Clone, Copy, PartialEq, Eq, PartialOrd, Ord, Drop)]
pub struct Pair {
    pub node: u32,
    pub start: u32,
}

/// Starts from `first` to `last` with the same finish, where the greatest number stands for none.
/// Where `last` is before `first` it has no start.
#[derive(Clone, Copy)]
pub struct Span {
    pub first: u32,
    pub last: u32,
    pub finish: u32,
}

/// A run that a node has from a start on, with its winner.
#[derive(Drop)]
pub struct Won {
    pub start: u32,
    pub settled: Settled,
}

/// What is known of the least finishes of a plan's nodes: for each node one interval of starts, and
/// further starts one by one. Nothing of that is ever forgotten. The table is one in order, so no
/// plan can make it slow. For each node that has a place among the winners, one run is kept with
/// its winner until that is taken.
#[derive(Drop)]
pub struct Memo {
    pub spans: Vec<Span>,
    pub more: BTreeMap<Pair, Run>,
    pub won: Vec<Option<Won>>,
}

// An interval without a start.
const NONE: Span = Span {
    first: 1,
    last: 0,
    finish: 0,
};

/// The finish that a number stands for.
pub fn finish_of(number: u32) -> Option<u32>
    ensures { result ≡ finish_from number }
{
    if number == u32::MAX {
        None
    } else {
        Some(number)
    }
}

/// The number that stands for a finish.
pub fn number_of(finish: Option<u32>) -> u32
    requires small { IsSmall finish }
    ensures { finish_from result ≡ finish }
{
    finish.unwrap_or(u32::MAX)
}

// A list of so many nodes, of which none has a winner.
fn none_won(alloc: Global, count: usize) -> Result<Vec<Option<Won>>, Memory>
    ensures { IfOk result (λ won. IsEmptyList count won.items) }
{
    let mut won = Vec::with_capacity(alloc, count)?;
    for _ in 0..count {
        won.push(None)?;
    }
    Ok(won)
}

// Forgets the intervals of the nodes that are not to be kept.
fn forget(spans: &mut [Span], kept: &[bool])
    ensures size { length spans.new ≡ length spans.old }
    ensures only { KeepsSpans spans.old kept.now spans.new }
{
    for node in 0..spans.len() {
        if !kept.get(node).copied().unwrap_or(false) {
            spans[node] = NONE;
        }
    }
}

impl Memo {
    /// A memory with room for so many nodes, which knows nothing, and a place for the winner of
    /// each node below `winners`.
    pub fn new(alloc: Global, count: usize, winners: usize) -> Result<Memo, Memory>
        ensures { IfOk result (KnowsNothing count) }
    {
        let spans = vec![in alloc; NONE; count]?;
        Ok(Memo {
            spans,
            more: BTreeMap::new(alloc),
            won: none_won(alloc, winners)?,
        })
    }

    /// What is known of a node and a start.
    pub fn known(&self, node: u32, start: u32) -> Finish
        requires node { node < length self.now.spans.items }
        ensures { result ≡ as_finish (found self.now node start) }
    {
        let span = self.spans[node as usize];
        if span.first <= start && start <= span.last {
            return Finish::Known(Run {
                last: span.last,
                finish: finish_of(span.finish),
            });
        }
        match self.more.get(&Pair { node, start }) {
            None => Finish::Unknown,
            Some(run) => Finish::Known(*run),
        }
    }

    /// Takes in the run of a node in which a start lies. The first is kept for all its starts.
    pub fn learn(&mut self, node: u32, start: u32, run: Run) -> Result<(), Memory>
        requires node { node < length self.old.spans.items }
        requires begun { start ≤ run.last }
        requires small { IsSmall run.finish }
        ensures keeps { Keeps self.old self.new node start run }
        ensures won { self.new.won ≡ self.old.won }
        ensures known { OnOk result (is_some (found self.new node start) ≡ true) }
    {
        let span = self.spans[node as usize];
        if span.last < span.first {
            self.spans[node as usize] = Span {
                first: start,
                last: run.last,
                finish: number_of(run.finish),
            };
            return Ok(());
        }
        self.more.insert(Pair { node, start }, run)?;
        Ok(())
    }

    /// Keeps a run that a node has from a start on, with its winner, where that has a place.
    pub fn remember(&mut self, node: u32, start: u32, settled: Settled)
        ensures same { SameRuns self.old self.new }
        ensures won { IsRemembered self.old self.new node start settled }
    {
        if (node as usize) < self.won.len() {
            self.won[node as usize] = Some(Won { start, settled });
        }
    }

    /// Hands out the run that is kept of a node, where a start lies in it.
    pub fn take_won(&mut self, node: u32, start: u32) -> Option<Settled>
        ensures same { SameRuns self.old self.new }
        ensures left { OnlyTaken self.old self.new }
        ensures taken { IsTaken self.old node start result }
    {
        if self.won.len() <= node as usize {
            return None;
        }
        let won = replace(&mut self.won[node as usize], None)?;
        if won.start <= start && start <= won.settled.run.last {
            Some(won.settled)
        } else {
            None
        }
    }

    /// Gives back the places of winners, once all that are wanted are taken: each is larger than all
    /// else that is known of a node.
    pub fn forget_winners(&mut self)
        ensures same { SameRuns self.old self.new }
        ensures gone { self.new.won.items ≡ [] }
    {
        self.won = Vec::new(*self.won.allocator());
    }

    /// Keeps what is known of the nodes that are to be kept, one interval of each, and
    /// forgets all else.
    pub fn keep_only(&mut self, kept: &[bool])
        ensures { KeepsOnly self.old kept.now self.new }
    {
        self.more.clear();
        self.won.clear();
        forget(&mut self.spans, kept);
    }

    /// For each node whether a finish of it is known.
    pub fn finishing(&self, alloc: Global) -> Result<Vec<bool>, Memory>
        ensures { IfOk result (λ v. TellsFinishes self.now v.items) }
    {
        let mut finishing = Vec::with_capacity(alloc, self.spans.len())?;
        for span in &self.spans {
            finishing.push(span.first <= span.last && finish_of(span.finish).is_some())?;
        }
        Ok(finishing)
    }
}
