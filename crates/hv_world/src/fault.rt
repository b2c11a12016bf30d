//! What is wrong with a domain and a problem beside their form.

ghost use Rattle.std.specs.Prelude.{◌≡◌};
ghost use Rattle.hv_syntax.specs.Views.{word_view};
ghost use Rattle.hv_world.specs.Faults.{earlier, fault_if};

use hv_syntax::Placed;
use hv_text::{Memory, Span};
use std::alloc::AllocFailed;

/// The kinds of static faults.
#[derive(Clone, Copy, Debug, PartialEq, Eq)]
pub enum StaticKind {
    /// A constant, an object, a parameter or a quantified variable has a type that is not declared.
    UnknownType,
    /// A name in the place of a term is no constant or object.
    UnknownObject,
    /// A predicate that the domain does not declare.
    UnknownPredicate,
    /// A method is for a task that is not declared, or a subtask names neither a task
    /// nor an action.
    UnknownTask,
    /// A variable that neither the parameters of its section nor a quantifier around it bind.
    UnboundVariable,
    /// A known predicate, task or action with another number of terms than declared.
    Arity,
    /// A second predicate or method, or a second task or action, of one name.
    DuplicateName,
    /// A variable that stands twice in one list of parameters or one quantifier.
    DuplicateVariable,
    /// A label that stands twice in one network.
    DuplicateLabel,
    /// An ordering names a label that its network lacks.
    UnknownLabel,
    /// The order of a network puts a subtask before itself.
    CyclicOrdering,
    /// Memory ran out.
    Memory,
}

/// Which of the two texts a fault stands in.
#[derive(Clone, Copy, Debug, PartialEq, Eq)]
pub enum Side {
    Domain,
    Problem,
}

/// A static fault, and its place in its text; want of memory stands at 0 to 0 of the domain.
#[derive(Clone, Copy, Debug, PartialEq, Eq)]
pub struct StaticFault {
    pub kind: StaticKind,
    pub side: Side,
    pub span: Span,
}

impl From<Memory> for StaticFault {
    ghost use Rattle.std.specs.Prelude.{◌≡◌};
    ghost use Rattle.hv_world.specs.Faults.{memory_fault};

    ghost from_gives = { λ _ f. f ≡ memory_fault };

    fn from(_refused: Memory) -> StaticFault {
        StaticFault {
            kind: StaticKind::Memory,
            side: Side::Domain,
            span: Span { start: 0, past: 0 },
        }
    }
}

impl<T: Drop> From<AllocFailed<T>> for StaticFault {
    ghost use Rattle.std.specs.Prelude.{◌≡◌};
    ghost use Rattle.hv_world.specs.Faults.{memory_fault};

    ghost from_gives = { λ _ f. f ≡ memory_fault };

    fn from(_refused: AllocFailed<T>) -> StaticFault {
        StaticFault {
            kind: StaticKind::Memory,
            side: Side::Domain,
            span: Span { start: 0, past: 0 },
        }
    }
}

/// The one of two faults that stands first; the first of them where they stand at one place.
pub(crate) fn earlier(a: Option<StaticFault>, b: Option<StaticFault>) -> Option<StaticFault>
    ensures { result ≡ earlier a b }
{
    match (a, b) {
        (None, b) => b,
        (a, None) => a,
        (Some(f), Some(g)) => {
            if f.span.start <= g.span.start {
                Some(f)
            } else {
                Some(g)
            }
        }
    }
}

/// A fault at a word, where there is one.
pub(crate) fn fault_if(
    is_fault: bool,
    kind: StaticKind,
    side: Side,
    word: Placed<'_>,
) -> Option<StaticFault>
    ensures { result ≡ fault_if is_fault kind side (word_view word.entry) }
{
    if is_fault {
        Some(StaticFault {
            kind,
            side,
            span: word.span(),
        })
    } else {
        None
    }
}
