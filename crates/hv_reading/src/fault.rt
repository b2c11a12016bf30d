//! What is wrong with the text of a domain or a problem.

ghost use Rattle.std.specs.Prelude.{◌≡◌};

use hv_text::{Memory, Span, TextFault, TextKind};
use std::alloc::AllocFailed;

/// The kinds of faults of the text of a domain or a problem.
#[derive(Clone, Copy, Debug, PartialEq, Eq)]
pub enum SyntaxKind {
    /// The text is no list of expressions, or memory ran out.
    Text(TextKind),
    /// The text is not exactly one list that begins with `define` and its title.
    NotDefine,
    /// A member is no list that a section's keyword heads.
    UnknownSection,
    /// A second section of a head that may stand once.
    RepeatedSection,
    /// A problem lacks `:domain`, `:htn` or `:init`.
    MissingSection,
    /// The section is no spelling.
    BadShape,
    /// Its head is an unsupported form, or it is no spelling and holds one.
    Unsupported,
}

/// A fault, and its place: 0 to 0 where it has none.
#[derive(Clone, Copy, Debug, PartialEq, Eq)]
pub struct SyntaxFault {
    pub kind: SyntaxKind,
    pub span: Span,
}

impl SyntaxFault {
    // Memory ran out.
    pub(crate) fn memory() -> SyntaxFault
        ensures kind { result.kind ≡ SyntaxKind.Text TextKind.Memory }
        ensures span { result.span ≡ record { start = 0; past = 0 } }
    {
        SyntaxFault {
            kind: SyntaxKind::Text(TextKind::Memory),
            span: Span { start: 0, past: 0 },
        }
    }
}

impl From<TextFault> for SyntaxFault {
    ghost use Rattle.std.specs.Prelude.{◌≡◌};
    ghost use Rattle.hv_reading.specs.declared.fault.SyntaxKind.TheVariants as kinds;

    ghost from_gives = { λ f e. e ≡ record { kind = kinds.Text f.kind; span = f.span } };

    fn from(fault: TextFault) -> SyntaxFault {
        SyntaxFault {
            kind: SyntaxKind::Text(fault.kind),
            span: fault.span,
        }
    }
}

impl<T: Drop> From<AllocFailed<T>> for SyntaxFault {
    ghost use Rattle.std.specs.Prelude.{◌≡◌};
    ghost use Rattle.hv_reading.specs.declared.fault.SyntaxKind.TheVariants as kinds;
    ghost use Rattle.hv_text.specs.declared.fault.TextKind.TheVariants as texts;

    ghost from_gives = { λ _ e. (e.kind ≡ kinds.Text texts.Memory)
        × (e.span ≡ record { start = 0; past = 0 }) };

    fn from(_refused: AllocFailed<T>) -> SyntaxFault {
        SyntaxFault::memory()
    }
}

impl From<Memory> for SyntaxFault {
    ghost use Rattle.std.specs.Prelude.{◌≡◌};
    ghost use Rattle.hv_reading.specs.declared.fault.SyntaxKind.TheVariants as kinds;
    ghost use Rattle.hv_text.specs.declared.fault.TextKind.TheVariants as texts;

    ghost from_gives = { λ _ e. (e.kind ≡ kinds.Text texts.Memory)
        × (e.span ≡ record { start = 0; past = 0 }) };

    fn from(_refused: Memory) -> SyntaxFault {
        SyntaxFault::memory()
    }
}
