//! One node from one start: its candidates one after another, each laid out as far as
//! finishes are known.
//!
//! Tasks, frames and turns are large values that go from call to call: most calls are inlined, so
//! that none is copied on its way.
ghost use Rattle.std.specs.Prelude.{◌≡◌, ◌≤◌, ℕ, IfOk, Some, List};
ghost use Rattle.hv_order.specs.inside.Arrangements.{Arrangement, arrangement_of};
ghost use Rattle.hv_order.specs.inside.Facts.{AreFits};
ghost use Rattle.hv_order.specs.inside.Choosing.{newer};
ghost use Rattle.hv_order.specs.inside.Trials.{WantsOnly};
ghost use Rattle.hv_order.specs.inside.Winners.{StaysListed};
ghost use Rattle.hv_order.specs.inside.Frames.{IsArranged, AreArranged, IsHead, IsEarliest, IsBegun, IsNext, IfTurn, TakesWinner, IsFrame, EndsLeast, EndsWon, StaysFrame, StaysTried};
ghost use Rattle.hv_order.specs.declared.trial.Best.{Best};

use crate::children::latest_start;
use crate::memory::Memory;
use crate::sequencing::Sequencing;
use crate::trial::{Arranged, Best, Progress, Table, Trial, go_on};
use std::alloc::Global;
use std::mem::swap;

/// The candidates of a node that are still to come.
pub trait Candidates {
    ghost left: { Self → List Arrangement };

    /// The next candidate.
    fn next(&mut self) -> Result<Option<Arranged>, Memory>
        ensures { IfOk result (IsHead (left self.old) (left self.new)) };

    /// Whether no more than the first was given. It is asked for to save memory, and no answer
    /// hangs on it.
    fn is_at_first(&self) -> bool;
}

/// The best of the candidates that are over, with the last start up to which it stays the best, and
/// the candidate that is laid out now. None ends before `earliest`.
#[derive(Drop)]
pub struct Frame {
    pub start: u32,
    pub earliest: u32,
    pub best: Option<Best>,
    pub winner: Arranged,
    pub candidate: Arranged,
    pub trial: Trial,
}

/// A candidate that is now laid out.
#[derive(Drop)]
pub struct Turn {
    pub candidate: Arranged,
    pub trial: Trial,
}

/// Begins a candidate, of which nothing is laid out yet, if its precondition is true somewhere from
/// `start` to `cap`. It is not looked for behind the first action among the children, since that
/// could not come behind it.
#[inline(always)]
pub fn begin<T: Table>(
    alloc: Global,
    table: &T,
    candidate: &Arranged,
    start: u32,
    cap: u32,
) -> Result<Option<Trial>, Memory>
    requires fits { AreFits (T.facts table.now).fits }
    requires cap { cap ≤ (T.facts table.now).last }
    requires arranged { IsArranged (T.facts table.now) (arrangement_of candidate.now) }
    ensures { IfOk result (IsBegun (T.facts table.now) start candidate.now cap) }
{
    let latest = latest_start(&candidate.children, cap);
    match table.first_true(candidate, start, latest) {
        None => Ok(None),
        Some(truth) => {
            let finishes = vec![in alloc; 0; candidate.children.len()]?;
            Ok(Some(Trial {
                at: truth.first,
                last: truth.last,
                cap,
                placed: 0,
                latest: truth.first,
                finishes,
            }))
        }
    }
}

/// Takes what the current candidate came to.
pub fn take(frame: &mut Frame, best: Option<Best>)
    ensures best { frame.new.best ≡ newer frame.old.best best }
    ensures winner { TakesWinner frame.old frame.new best }
    ensures start { frame.new.start ≡ frame.old.start }
    ensures earliest { frame.new.earliest ≡ frame.old.earliest }
{
    if best.is_some() {
        frame.best = best;
        swap(&mut frame.winner, &mut frame.candidate);
    }
}

/// The next candidate that may be better than the best so far, if there is one.
#[inline(always)]
pub fn next_turn<T: Table, C: Candidates>(
    alloc: Global,
    table: &T,
    left: &mut C,
    best: Option<Best>,
    start: u32,
    earliest: u32,
    last: u32,
) -> Result<Option<Turn>, Memory>
    requires last { last ≡ (T.facts table.now).last }
    requires fits { AreFits (T.facts table.now).fits }
    requires within { (b : Best) → best ≡ Some b → b.finish ≤ last }
    requires earliest { IsEarliest (T.facts table.now) start (C.left left.old) earliest }
    requires arranged { AreArranged (T.facts table.now) (T.size table.now) (C.left left.old) }
    ensures next { IfOk result
        (IsNext (T.facts table.now) start best (C.left left.old) (C.left left.new)) }
    ensures turn { IfOk result (IfTurn (T.facts table.now) (T.size table.now) start best
        (C.left left.old) (C.left left.new)) }
{
    let cap = match best {
        None => last,
        Some(found) => {
            if found.finish <= earliest {
                return Ok(None);
            }
            found.finish - 1
        }
    };
    while let Some(candidate) = left.next()? {
        if let Some(trial) = begin(alloc, table, &candidate, start, cap)? {
            return Ok(Some(Turn { candidate, trial }));
        }
    }
    Ok(None)
}

/// Goes on with a node, as far as finishes are known: a child's finish is wanted, or all candidates
/// are over.
#[inline(always)]
pub fn advance<T: Table, C: Candidates>(
    alloc: Global,
    table: &T,
    left: &mut C,
    frame: &mut Frame,
    last: u32,
) -> Result<Progress, Memory>
    requires last { last ≡ (T.facts table.now).last }
    requires fits { AreFits (T.facts table.now).fits }
    requires sound { T.sound table.now }
    requires earliest { IsEarliest (T.facts table.now) frame.old.start (C.left left.old)
        frame.old.earliest }
    requires frame { IsFrame (T.facts table.now) (T.size table.now) frame.old.start frame.old
        (C.left left.old) }
    ensures over { IfOk result (EndsLeast (T.facts table.now) frame.old (C.left left.old)) }
    ensures won { IfOk result (EndsWon (T.facts table.now) frame.old frame.new) }
    ensures frame { IfOk result
        (StaysFrame (T.facts table.now) (T.size table.now) frame.old frame.new (C.left left.new)) }
    ensures tried { IfOk result
        (StaysTried (T.facts table.now) frame.old frame.new (C.left left.old) (C.left left.new)) }
    ensures listed { IfOk result
        (StaysListed frame.old frame.new (C.left left.old) (C.left left.new)) }
    ensures unknown { IfOk result (WantsOnly (T.unknown table.now)) }
    ensures start { frame.new.start ≡ frame.old.start }
    ensures earliest { frame.new.earliest ≡ frame.old.earliest }
{
    loop {
        let candidate = &frame.candidate;
        let sequencing: &Sequencing = &candidate.sequencing;
        match go_on(
            table,
            &candidate.children,
            &sequencing.order,
            &sequencing.direct,
            last,
            &mut frame.trial,
        ) {
            Progress::Wants(child, start) => return Ok(Progress::Wants(child, start)),
            Progress::Over(best) => {
                take(frame, best);
                match next_turn(
                    alloc,
                    table,
                    left,
                    frame.best,
                    frame.start,
                    frame.earliest,
                    last,
                )? {
                    None => return Ok(Progress::Over(frame.best)),
                    Some(turn) => {
                        frame.candidate = turn.candidate;
                        frame.trial = turn.trial;
                    }
                }
            }
        }
    }
}
