//! How the program ends: its exit status, and its line on standard error.

ghost use Rattle.std.specs.Prelude.{◌≡◌, ◌<◌, ◌+◌, ◌-◌, ◌^◌, ◌++◌, codes, OnOk, OnErr, is_ok, if◌then◌else◌};
ghost use Rattle.std.specs.Io.KnownBytes.{Appends};
ghost use Rattle.hv_text.specs.Io.{AppendsBeginning};
ghost use Rattle.hddlv.specs.Ends.{status_of, line_of};

use hv_judge::{Kind, Printed, RecheckKind};
use hv_text::{Sink, WriteFault, write_all, write_parts};

/// How a run of the program ends.
#[derive(Clone, Copy)]
pub enum End<'a> {
    /// A verdict of this kind was written.
    Judged(Kind),
    /// What was said of a certificate was written.
    Rechecked(RecheckKind),
    /// A canonical text was written, or the line of a rejection.
    Printed(Printed),
    /// The words of the command line do not parse, or ask for help or the version; their
    /// text was written.
    Words,
    /// A word of the command line is not UTF-8.
    NotUtf8,
    /// The words parse, but lack a command or a value that each line must have.
    Missing,
    /// The file of this name cannot be opened or read.
    CannotRead(&'a str),
    /// The answer or the canonical text cannot be written.
    CannotWrite,
    /// A growth of memory was refused.
    OutOfMemory,
}

/// The exit status: 0 for a plan that solves its problem, a certificate that is right or a text
/// that was printed, 1 for a plan that fails or a certificate that is not right, 2 for
/// undecided, 3 for a rejected text, 4 for words that name no job, and 5 where a file, the
/// output or memory failed.
pub fn status(end: &End<'_>) -> u8
    ensures { result ≡ status_of end.now }
{
    match end {
        End::Judged(Kind::Solves)
        | End::Rechecked(RecheckKind::Certified)
        | End::Printed(Printed::Done) => 0,
        End::Judged(Kind::Fails) | End::Rechecked(RecheckKind::NotCertified) => 1,
        End::Judged(Kind::Undecided) => 2,
        End::Judged(Kind::Rejected)
        | End::Rechecked(RecheckKind::Rejected)
        | End::Printed(Printed::Rejected) => 3,
        End::Words | End::NotUtf8 | End::Missing => 4,
        End::CannotRead(_) | End::CannotWrite | End::OutOfMemory => 5,
    }
}

/// Writes the line of an end that has one: of all with status 5, and of those with status 4 for
/// which no text was written yet.
///
/// # Errors
///
/// `Device` where a write failed or took no byte; a beginning of the line was written then.
pub fn write_end<W: Sink>(end: &End<'_>, out: &mut W) -> Result<(), WriteFault>
    requires { W.failures out.old < 2 ^ 64 - 1 }
    ensures ok { OnOk result (Appends (W.taken out.old) (W.taken out.new) (line_of end.now)) }
    ensures err { OnErr result (AppendsBeginning (W.taken out.old) (W.taken out.new)
        (line_of end.now)) }
    ensures failures { W.failures out.new ≡ W.failures out.old + (if is_ok result then 0 else 1) }
{
    match end {
        End::NotUtf8 => write_all(out, b"hddlv: a word of the command line is not UTF-8\n"),
        End::Missing => write_all(out, b"hddlv: the command line lacks a command or a value\n"),
        End::CannotRead(name) => write_parts(
            out,
            &[b"hddlv: cannot read ", name.as_bytes(), b"\n"],
        ),
        End::CannotWrite => write_all(out, b"hddlv: cannot write\n"),
        End::OutOfMemory => write_all(out, b"hddlv: out of memory\n"),
        End::Judged(_) | End::Rechecked(_) | End::Printed(_) | End::Words => Ok(()),
    }
}
