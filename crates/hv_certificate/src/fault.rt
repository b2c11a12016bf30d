//! Why a text is no certificate's text.

use hv_text::Memory;
use std::alloc::AllocFailed;

/// Why no certificate was read.
#[derive(Clone, Copy, Debug, PartialEq, Eq)]
pub enum CertFault {
    /// The text has more than 268435456 bytes.
    TooLong,
    /// The first line that is not of its form.
    BadCertificate(u32),
    /// A growth of memory was refused.
    Memory,
}

impl From<Memory> for CertFault {
    ghost use Rattle.std.specs.Prelude.{◌≡◌};
    ghost use Rattle.hv_certificate.specs.declared.fault.CertFault.TheVariants as faults;

    ghost from_gives = { λ _ e. e ≡ faults.Memory };

    fn from(_refused: Memory) -> CertFault {
        CertFault::Memory
    }
}

impl<T: Drop> From<AllocFailed<T>> for CertFault {
    ghost use Rattle.std.specs.Prelude.{◌≡◌};
    ghost use Rattle.hv_certificate.specs.declared.fault.CertFault.TheVariants as faults;

    ghost from_gives = { λ _ e. e ≡ faults.Memory };

    fn from(_refused: AllocFailed<T>) -> CertFault {
        CertFault::Memory
    }
}
