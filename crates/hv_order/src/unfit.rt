//! Why a certificate is not found to be one of a plan.

use crate::memory::Memory;
use std::alloc::AllocFailed;

/// Why a certificate is not found to be one of a plan.
#[derive(Drop)]
pub enum Unfit {
    /// A line does not fit: its place in the order of nodes, in which the root line stands first.
    Line(u32),
    /// A growth of memory was refused.
    Memory,
}

impl From<Memory> for Unfit {
    ghost use Rattle.std.specs.Prelude.{◌≡◌};
    ghost use Rattle.hv_order.specs.declared.unfit.Unfit.TheVariants as unfit;

    ghost from_gives = { λ _ e. e ≡ unfit.Memory };

    fn from(_refused: Memory) -> Unfit {
        Unfit::Memory
    }
}

impl<T: Drop> From<AllocFailed<T>> for Unfit {
    ghost use Rattle.std.specs.Prelude.{◌≡◌};
    ghost use Rattle.hv_order.specs.declared.unfit.Unfit.TheVariants as unfit;

    ghost from_gives = { λ _ e. e ≡ unfit.Memory };

    fn from(_refused: AllocFailed<T>) -> Unfit {
        Unfit::Memory
    }
}
