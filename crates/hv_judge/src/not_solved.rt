//! What the judge says where it finds no solution.

ghost use Rattle.std.specs.Prelude.{◌≡◌, IfOk};
ghost use Rattle.hv_judge.specs.inside.Ends.{IsAnswerOf, IsVerdictOf};

use crate::rejection::reported_plan;
use hv_answer::{Answer, Cause, CauseKind, Fault, Verdict, Which};
use hv_order::solution::Unsolved;
use hv_plan::{PlanFault, TreeFault};
use hv_text::Memory;

/// Why it is not said that a plan solves its problem.
#[derive(Clone, Copy, Debug, PartialEq, Eq)]
pub(crate) enum NotSolved {
    /// One of the texts is rejected.
    Rejected(Which, Fault),
    /// The plan fails.
    Fails(Cause),
    /// The node on this line has more choices than the limit.
    Undecided(u32),
    /// A growth of memory was refused.
    Memory,
}

impl NotSolved {
    /// The verdict, which there is unless a growth was refused.
    pub(crate) fn verdict(self) -> Result<Verdict, Memory>
        ensures { IfOk result (IsVerdictOf self) }
    {
        match self {
            NotSolved::Rejected(which, fault) => Ok(Verdict::Rejected(which, fault)),
            NotSolved::Fails(cause) => Ok(Verdict::Fails(cause)),
            NotSolved::Undecided(line) => Ok(Verdict::Undecided(line)),
            NotSolved::Memory => Err(Memory),
        }
    }

    /// The answer, which there is unless a growth was refused.
    pub(crate) fn answer<'s>(self) -> Result<Answer<'s>, Memory>
        ensures { IfOk result (IsAnswerOf self) }
    {
        match self {
            NotSolved::Rejected(which, fault) => Ok(Answer::Rejected(which, fault)),
            NotSolved::Fails(cause) => Ok(Answer::Fails(cause)),
            NotSolved::Undecided(line) => Ok(Answer::Undecided(line)),
            NotSolved::Memory => Err(Memory),
        }
    }
}

impl From<Memory> for NotSolved {
    ghost use Rattle.hv_judge.specs.declared.not_solved.NotSolved.TheVariants as ends;

    ghost from_gives = { λ _ e. e ≡ ends.Memory };

    fn from(_refused: Memory) -> NotSolved {
        NotSolved::Memory
    }
}

impl From<PlanFault> for NotSolved {
    ghost use Rattle.hv_judge.specs.inside.Ends.{plan_end};

    ghost from_gives = { λ f e. e ≡ plan_end f };

    fn from(fault: PlanFault) -> NotSolved {
        match reported_plan(fault) {
            Some(fault) => NotSolved::Rejected(Which::Plan, fault),
            None => NotSolved::Memory,
        }
    }
}

impl From<TreeFault> for NotSolved {
    ghost use Rattle.hv_judge.specs.inside.Ends.{tree_end};

    ghost from_gives = { λ f e. e ≡ tree_end f };

    fn from(fault: TreeFault) -> NotSolved {
        match fault {
            TreeFault::Cause(cause) => {
                NotSolved::Fails(Cause::at(CauseKind::Tree(cause.kind), cause.line))
            }
            TreeFault::Memory => NotSolved::Memory,
        }
    }
}

impl From<Unsolved> for NotSolved {
    ghost use Rattle.hv_judge.specs.inside.Ends.{unsolved_end};

    ghost from_gives = { λ u e. e ≡ unsolved_end u };

    fn from(unsolved: Unsolved) -> NotSolved {
        match unsolved {
            Unsolved::NoBinding(line) => NotSolved::Fails(Cause::at(CauseKind::NoBinding, line)),
            Unsolved::OrderBroken => NotSolved::Fails(Cause::nowhere(CauseKind::OrderBroken)),
            Unsolved::PreconditionUnplaced => {
                NotSolved::Fails(Cause::nowhere(CauseKind::PreconditionUnplaced))
            }
            Unsolved::Memory => NotSolved::Memory,
        }
    }
}
