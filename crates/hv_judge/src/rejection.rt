//! The fault of a rejection, from what the readers and the static rules say.

ghost use Rattle.std.specs.Prelude.{◌≡◌, ◌≤◌, length, Some};
ghost use Rattle.hv_text.specs.declared.fault.TheConstants.{MOST_BYTES};
ghost use Rattle.hv_judge.specs.Rejections.{fault_in, reported, reported_static, reported_plan, reported_cert};

use hv_answer::{Fault, FaultKind, Place};
use hv_certificate::CertFault;
use hv_plan::PlanFault;
use hv_reading::SyntaxKind;
use hv_text::{MOST_BYTES, Span, TextKind, place};
use hv_world::StaticKind;

// The fault of this kind at a place of a text.
pub(crate) fn fault_in(kind: FaultKind, text: &[u8], span: Span) -> Fault
    requires { length text.now ≤ MOST_BYTES }
    ensures { result ≡ fault_in kind text.now span }
{
    let (line, column) = place(text, span);
    Fault {
        kind,
        place: Place::At { line, column },
    }
}

// The kind under which a fault of the text of a domain or a problem is reported; None for
// want of memory.
pub(crate) fn reported(kind: SyntaxKind) -> Option<FaultKind>
    ensures { result ≡ reported kind }
{
    match kind {
        SyntaxKind::Text(TextKind::BadByte) => Some(FaultKind::BadByte),
        SyntaxKind::Text(TextKind::Unclosed) => Some(FaultKind::Unclosed),
        SyntaxKind::Text(TextKind::Unopened) => Some(FaultKind::Unopened),
        SyntaxKind::Text(TextKind::TooDeep) => Some(FaultKind::TooDeep),
        SyntaxKind::Text(TextKind::TooLong) => Some(FaultKind::TooLong),
        SyntaxKind::Text(TextKind::Memory) => None,
        SyntaxKind::NotDefine => Some(FaultKind::NotDefine),
        SyntaxKind::UnknownSection => Some(FaultKind::UnknownSection),
        SyntaxKind::RepeatedSection => Some(FaultKind::RepeatedSection),
        SyntaxKind::MissingSection => Some(FaultKind::MissingSection),
        SyntaxKind::BadShape => Some(FaultKind::BadShape),
        SyntaxKind::Unsupported => Some(FaultKind::Unsupported),
    }
}

// The kind under which a static fault is reported; None for want of memory.
pub(crate) fn reported_static(kind: StaticKind) -> Option<FaultKind>
    ensures { result ≡ reported_static kind }
{
    match kind {
        StaticKind::UnknownType => Some(FaultKind::UnknownType),
        StaticKind::UnknownObject => Some(FaultKind::UnknownObject),
        StaticKind::UnknownPredicate => Some(FaultKind::UnknownPredicate),
        StaticKind::UnknownTask => Some(FaultKind::UnknownTask),
        StaticKind::UnboundVariable => Some(FaultKind::UnboundVariable),
        StaticKind::Arity => Some(FaultKind::Arity),
        StaticKind::DuplicateName => Some(FaultKind::DuplicateName),
        StaticKind::DuplicateVariable => Some(FaultKind::DuplicateVariable),
        StaticKind::DuplicateLabel => Some(FaultKind::DuplicateLabel),
        StaticKind::UnknownLabel => Some(FaultKind::UnknownLabel),
        StaticKind::CyclicOrdering => Some(FaultKind::CyclicOrdering),
        StaticKind::Memory => None,
    }
}

// A fault that is told by its line alone.
fn at_line(kind: FaultKind, line: u32) -> Option<Fault>
    ensures { result ≡ Some (record { kind = kind; place = Place.Line line }) }
{
    Some(Fault {
        kind,
        place: Place::Line(line),
    })
}

// A fault without a place.
fn nowhere(kind: FaultKind) -> Option<Fault>
    ensures { result ≡ Some (record { kind = kind; place = Place.Nowhere }) }
{
    Some(Fault {
        kind,
        place: Place::Nowhere,
    })
}

// The fault that is reported for a plan's; None for want of memory.
pub(crate) fn reported_plan(fault: PlanFault) -> Option<Fault>
    ensures { result ≡ reported_plan fault }
{
    match fault {
        PlanFault::BadByte(line) => at_line(FaultKind::BadByte, line),
        PlanFault::TooLong => nowhere(FaultKind::TooLong),
        PlanFault::NoStart => nowhere(FaultKind::NoStart),
        PlanFault::NoEnd => nowhere(FaultKind::NoEnd),
        PlanFault::BadLine(line) => at_line(FaultKind::BadLine, line),
        PlanFault::IdTooLarge(line) => at_line(FaultKind::IdTooLarge, line),
        PlanFault::NoRoot => nowhere(FaultKind::NoRoot),
        PlanFault::RepeatedRoot(line) => at_line(FaultKind::RepeatedRoot, line),
        PlanFault::Memory => None,
    }
}

// The fault that is reported for a certificate's; None for want of memory.
pub(crate) fn reported_cert(fault: CertFault) -> Option<Fault>
    ensures { result ≡ reported_cert fault }
{
    match fault {
        CertFault::TooLong => nowhere(FaultKind::TooLong),
        CertFault::BadCertificate(line) => at_line(FaultKind::BadCertificate, line),
        CertFault::Memory => None,
    }
}
