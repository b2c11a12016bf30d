//! The best of a node's candidates from one start, where the finishes of all its
//! children are known.
ghost use Rattle.std.specs.Prelude.{◌≡◌, ℕ, [], IfOk};
ghost use Rattle.hv_order.specs.inside.Facts.{AreFits};
ghost use Rattle.hv_order.specs.inside.Frames.{AreArranged};
ghost use Rattle.hv_order.specs.inside.Winners.{as_winner, IsBestOf};

use crate::frame::{Candidates, Frame, advance, next_turn};
use crate::memory::Memory;
use crate::trial::{Arranged, Best, Progress, Table};
use std::alloc::Global;

/// The best of some candidates, and the one that gave it.
#[derive(Drop)]
pub struct Winner {
    pub best: Best,
    pub candidate: Arranged,
}

/// A candidate of the same node without subtasks, which stands where none has won yet. It
/// takes no memory.
pub fn no_candidate(alloc: Global, candidate: &Arranged) -> Result<Arranged, Memory>
    ensures { IfOk result (λ none. none.children.items ≡ []) }
{
    Ok(Arranged {
        node: candidate.node,
        objects: Vec::new(alloc),
        children: Vec::new(alloc),
        sequencing: candidate.sequencing.clone()?,
    })
}

/// A best with its candidate.
pub fn with_candidate(best: Option<Best>, candidate: Arranged) -> Option<Winner>
    ensures { result ≡ as_winner best candidate }
{
    match best {
        None => None,
        Some(best) => Some(Winner { best, candidate }),
    }
}

/// The best of the candidates that are left, by a table that knows each finish that it
/// may be asked for.
pub fn best_of<T: Table, C: Candidates>(
    alloc: Global,
    table: &T,
    left: &mut C,
    start: u32,
    last: u32,
) -> Result<Option<Winner>, Memory>
    requires last { last ≡ (T.facts table.now).last }
    requires fits { AreFits (T.facts table.now).fits }
    requires sound { T.sound table.now }
    requires known { (v s : ℕ) → T.unknown table.now v s → ⊥ }
    requires arranged { AreArranged (T.facts table.now) (T.size table.now) (C.left left.old) }
    ensures { IfOk result (IsBestOf (T.facts table.now) start (C.left left.old)) }
{
    let turn = match next_turn(alloc, table, left, None, start, start, last)? {
        None => return Ok(None),
        Some(turn) => turn,
    };
    let mut frame = Frame {
        start,
        earliest: start,
        best: None,
        winner: no_candidate(alloc, &turn.candidate)?,
        candidate: turn.candidate,
        trial: turn.trial,
    };
    match advance(alloc, table, left, &mut frame, last)? {
        Progress::Wants(_, _) => unreachable!(),
        Progress::Over(best) => Ok(with_candidate(best, frame.winner)),
    }
}
