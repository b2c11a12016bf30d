//! What a node comes to from one start, by the rows of the nodes before it.
ghost use Rattle.std.specs.Prelude.{◌≡◌, ◌<◌, ◌≤◌, length, IfOk};
ghost use Rattle.hv_order.specs.inside.Nodes.{AreNodes, IsSettled, settled_by};
ghost use Rattle.hv_order.specs.inside.Runs.{AreRows};

use crate::memory::Memory;
use crate::nodes::Nodes;
use crate::runs::{Row, find};
use crate::trial::{Arranged, Finish, Run, Stretch, Table};
use crate::winner::{Winner, best_of};
use std::alloc::Global;

/// The rows of the nodes before one, as a table.
#[derive_where(Clone, Copy)]
pub struct Before<'a, N> {
    pub nodes: &'a N,
    pub rows: &'a [Row],
}

impl<N: Nodes> Table for Before<'_, N> {
    ghost facts = { λ t. N.facts t.nodes.now };

    ghost sound = { λ t. AreRows (N.facts t.nodes.now) t.rows.now };

    ghost size = { λ t. length t.rows.now };

    ghost unknown = { λ _ _ _. ⊥ };

    fn look_up(&self, node: u32, start: u32) -> Finish {
        Finish::Known(find(self.nodes, self.rows, node as usize, start).run)
    }

    fn first_true(&self, candidate: &Arranged, from: u32, upto: u32) -> Option<Stretch> {
        self.nodes.first_true(candidate, from, upto)
    }
}

/// A run of a node, and the candidate that gives its finish from its last start.
#[derive(Drop)]
pub struct Settled {
    pub run: Run,
    pub winner: Option<Arranged>,
}

/// The run that the best of a node's candidates gives. Where there is none, no later
/// start has a finish.
pub fn run_of(winner: Option<Winner>, last: u32) -> Settled
    ensures { result ≡ settled_by winner last }
{
    match winner {
        None => Settled {
            run: Run { last, finish: None },
            winner: None,
        },
        Some(winner) => Settled {
            run: Run {
                last: winner.best.last,
                finish: Some(winner.best.finish),
            },
            winner: Some(winner.candidate),
        },
    }
}

/// The run of the node behind these rows that begins with a start.
pub fn settle<N: Nodes>(
    alloc: Global,
    nodes: &N,
    rows: &[Row],
    start: u32,
) -> Result<Settled, Memory>
    requires nodes { AreNodes (N.facts nodes.now) }
    requires rows { AreRows (N.facts nodes.now) rows.now }
    requires node { length rows.now < N.size nodes.now }
    requires start { start ≤ (N.facts nodes.now).last }
    ensures { IfOk result (IsSettled (N.facts nodes.now) (length rows.now) start) }
{
    let last = nodes.last();
    let mut left = nodes.candidates(alloc, None, rows.len(), start)?;
    let table = Before { nodes, rows };
    let winner = best_of(alloc, &table, &mut left, start, last)?;
    Ok(run_of(winner, last))
}
