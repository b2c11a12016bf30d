//! Why the lines of a plan form no tree that fits a world.

ghost use Rattle.std.specs.Prelude.{◌≡◌};
ghost use Rattle.hv_plan.specs.Causes.{name, number};
ghost use Rattle.hv_plan.specs.inside.LineFaults.{comes_before, earlier};

use hv_text::Memory;
use std::alloc::AllocFailed;

/// Why the lines of a plan form no tree that fits a world. Each kind has a number, and is read
/// where none of a smaller number applies.
#[derive(Clone, Copy, Debug, PartialEq, Eq)]
pub enum CauseKind {
    /// An id begins two lines.
    RepeatedId,
    /// A child id begins no line.
    UnknownChild,
    /// An id is a child twice.
    TwoParents,
    /// A line is not reached from `root` by children.
    Unreached,
    /// A name is neither a task nor an action.
    UnknownTask,
    /// A name is no method.
    UnknownMethod,
    /// An argument is no object.
    UnknownObject,
    /// Another number of arguments than declared.
    ArgumentCount,
    /// An object is not of its parameter's type.
    ArgumentType,
    /// An action line names a task.
    NotPrimitive,
    /// A decomposition line names an action.
    NotAbstract,
    /// The method is for another task.
    OtherTask,
    /// The numbers of children and of subtasks differ.
    ChildCount,
    /// The names of children and of subtasks, each as often as it stands there, differ.
    ChildNames,
}

impl CauseKind {
    /// The number under which the cause is reported, from 50 to 63.
    pub fn number(self) -> u32
        ensures { result ≡ number self }
    {
        match self {
            CauseKind::RepeatedId => 50,
            CauseKind::UnknownChild => 51,
            CauseKind::TwoParents => 52,
            CauseKind::Unreached => 53,
            CauseKind::UnknownTask => 54,
            CauseKind::UnknownMethod => 55,
            CauseKind::UnknownObject => 56,
            CauseKind::ArgumentCount => 57,
            CauseKind::ArgumentType => 58,
            CauseKind::NotPrimitive => 59,
            CauseKind::NotAbstract => 60,
            CauseKind::OtherTask => 61,
            CauseKind::ChildCount => 62,
            CauseKind::ChildNames => 63,
        }
    }

    /// The name under which the cause is reported.
    pub fn name(self) -> &'static str
        ensures { result.now ≡ name self }
    {
        match self {
            CauseKind::RepeatedId => "RepeatedId",
            CauseKind::UnknownChild => "UnknownChild",
            CauseKind::TwoParents => "TwoParents",
            CauseKind::Unreached => "Unreached",
            CauseKind::UnknownTask => "UnknownTask",
            CauseKind::UnknownMethod => "UnknownMethod",
            CauseKind::UnknownObject => "UnknownObject",
            CauseKind::ArgumentCount => "ArgumentCount",
            CauseKind::ArgumentType => "ArgumentType",
            CauseKind::NotPrimitive => "NotPrimitive",
            CauseKind::NotAbstract => "NotAbstract",
            CauseKind::OtherTask => "OtherTask",
            CauseKind::ChildCount => "ChildCount",
            CauseKind::ChildNames => "ChildNames",
        }
    }
}

/// Why the lines of a plan form no tree that fits a world, and the number of the line
/// that is at fault.
#[derive(Clone, Copy, Debug, PartialEq, Eq)]
pub struct Cause {
    pub kind: CauseKind,
    pub line: u32,
}

impl Cause {
    // Whether it is reported in place of another: it has the smaller number, or the same on a line
    // that is not behind the other's.
    fn comes_before(self, other: Cause) -> bool
        ensures { result ≡ comes_before self other }
    {
        let own = self.kind.number();
        let others = other.kind.number();
        own < others || (own == others && self.line <= other.line)
    }
}

/// The one of two causes that is reported.
pub(crate) fn earlier(one: Option<Cause>, other: Option<Cause>) -> Option<Cause>
    ensures { result ≡ earlier one other }
{
    match (one, other) {
        (None, other) => other,
        (one, None) => one,
        (Some(one), Some(other)) => {
            if one.comes_before(other) {
                Some(one)
            } else {
                Some(other)
            }
        }
    }
}

/// Why there is no tree.
#[derive(Clone, Copy, Debug, PartialEq, Eq)]
pub enum TreeFault {
    /// The lines form no tree, or do not fit the world.
    Cause(Cause),
    /// A growth of memory was refused.
    Memory,
}

impl From<Memory> for TreeFault {
    ghost use Rattle.std.specs.Prelude.{◌≡◌};
    ghost use Rattle.hv_plan.specs.declared.cause.TreeFault.TheVariants as faults;

    ghost from_gives = { λ _ e. e ≡ faults.Memory };

    fn from(_refused: Memory) -> TreeFault {
        TreeFault::Memory
    }
}

impl<T: Drop> From<AllocFailed<T>> for TreeFault {
    ghost use Rattle.std.specs.Prelude.{◌≡◌};
    ghost use Rattle.hv_plan.specs.declared.cause.TreeFault.TheVariants as faults;

    ghost from_gives = { λ _ e. e ≡ faults.Memory };

    fn from(_refused: AllocFailed<T>) -> TreeFault {
        TreeFault::Memory
    }
}
