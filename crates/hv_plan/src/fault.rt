//! Why a text holds no plan.

use hv_text::Memory;
use std::alloc::AllocFailed;

/// Why a text holds no plan, with the number of the line where there is one.
#[derive(Clone, Copy, Debug, PartialEq, Eq)]
pub enum PlanFault {
    /// A byte that may stand only in a comment.
    BadByte(u32),
    /// The text has more than 268435456 bytes.
    TooLong,
    /// No line is the marker `==>`.
    NoStart,
    /// No line behind the first `==>` is the marker `<==`.
    NoEnd,
    /// The line is of no form.
    BadLine(u32),
    /// An id is past 18446744073709551615.
    IdTooLarge(u32),
    /// No line is a root line.
    NoRoot,
    /// The line is the second root line.
    RepeatedRoot(u32),
    /// A growth of memory was refused.
    Memory,
}

impl From<Memory> for PlanFault {
    ghost use Rattle.std.specs.Prelude.{◌≡◌};
    ghost use Rattle.hv_plan.specs.declared.fault.PlanFault.TheVariants as faults;

    ghost from_gives = { λ _ e. e ≡ faults.Memory };

    fn from(_refused: Memory) -> PlanFault {
        PlanFault::Memory
    }
}

impl<T: Drop> From<AllocFailed<T>> for PlanFault {
    ghost use Rattle.std.specs.Prelude.{◌≡◌};
    ghost use Rattle.hv_plan.specs.declared.fault.PlanFault.TheVariants as faults;

    ghost from_gives = { λ _ e. e ≡ faults.Memory };

    fn from(_refused: AllocFailed<T>) -> PlanFault {
        PlanFault::Memory
    }
}
