//! The text of a verdict and of an answer, written piece by piece: writing takes no memory.

ghost use Rattle.std.specs.Prelude.{◌≡◌, ◌<◌, ◌≤◌, length, ◌+◌, ◌-◌, ◌^◌, ◌++◌, codes, Some, OnOk, OnErr, is_ok, if◌then◌else◌};
ghost use Rattle.std.specs.Io.KnownBytes.{Appends};
ghost use Rattle.hv_text.specs.Bytes.{lower};
ghost use Rattle.hv_text.specs.Names.{text_of};
ghost use Rattle.hv_text.specs.Io.{AppendsBeginning};
ghost use Rattle.hv_certificate.specs.Texts.{ids_text, names_text, children_text, objects_text, choice_text, root_text, node_text, nodes_text, certificate_text};
ghost use Rattle.hv_answer.specs.Kinds.{verdict_of};
ghost use Rattle.hv_answer.specs.Text.{line_text, place_text, cause_text, fault_text, refusal_text, verdict_words, verdict_text, explanation, answer_text};

use crate::answer::{Answer, Cause, Fault, Place, Verdict, Which};
use hv_certificate::{Certificate, Choice};
use hv_text::{Name, Sink, WriteFault, write_all, write_parts};
use itoa::Buffer;

fn write_line<W: Sink>(out: &mut W, line: u32) -> Result<(), WriteFault>
    requires { W.failures out.old < 2 ^ 64 - 1 }
    ensures ok { OnOk result (Appends (W.taken out.old) (W.taken out.new) (line_text (Some line))) }
    ensures err { OnErr result (AppendsBeginning (W.taken out.old) (W.taken out.new)
        (line_text (Some line))) }
    ensures failures { W.failures out.new ≡ W.failures out.old + (if is_ok result then 0 else 1) }
{
    let mut buffer = Buffer::new();
    write_parts(out, &[b" line ", buffer.format(line).as_bytes()])
}

// Writes a few bytes in lower case.
fn write_lower_part<W: Sink>(out: &mut W, bytes: &[u8]) -> Result<(), WriteFault>
    requires few { length bytes.now ≤ 64 }
    requires failures { W.failures out.old < 2 ^ 64 - 1 }
    ensures ok { OnOk result (Appends (W.taken out.old) (W.taken out.new) (lower bytes.now)) }
    ensures err { OnErr result (AppendsBeginning (W.taken out.old) (W.taken out.new)
        (lower bytes.now)) }
    ensures failures { W.failures out.new ≡ W.failures out.old + (if is_ok result then 0 else 1) }
{
    let mut part = [0; 64];
    let part = &mut part[..bytes.len()];
    part.copy_from_slice(bytes);
    part.make_ascii_lowercase();
    write_all(out, part)
}

// Writes bytes in lower case, a few at a time, so that no memory is taken.
fn write_lower<W: Sink>(out: &mut W, bytes: &[u8]) -> Result<(), WriteFault>
    requires { W.failures out.old < 2 ^ 64 - 1 }
    ensures ok { OnOk result (Appends (W.taken out.old) (W.taken out.new) (lower bytes.now)) }
    ensures err { OnErr result (AppendsBeginning (W.taken out.old) (W.taken out.new)
        (lower bytes.now)) }
    ensures failures { W.failures out.new ≡ W.failures out.old + (if is_ok result then 0 else 1) }
{
    let mut at = 0;
    'parts: while at < bytes.len() {
        let count = (bytes.len() - at).min(64);
        write_lower_part(out, &bytes[at..at + count])?;
        at += count;
    }
    Ok(())
}

fn write_name<W: Sink>(out: &mut W, name: &Name<'_>) -> Result<(), WriteFault>
    requires { W.failures out.old < 2 ^ 64 - 1 }
    ensures ok { OnOk result (Appends (W.taken out.old) (W.taken out.new)
        (codes " " ++ text_of name.now)) }
    ensures err { OnErr result (AppendsBeginning (W.taken out.old) (W.taken out.new)
        (codes " " ++ text_of name.now)) }
    ensures failures { W.failures out.new ≡ W.failures out.old + (if is_ok result then 0 else 1) }
{
    write_all(out, b" ")?;
    write_lower(out, name.written())
}

fn write_ids<W: Sink>(out: &mut W, ids: &[u64]) -> Result<(), WriteFault>
    requires { W.failures out.old < 2 ^ 64 - 1 }
    ensures ok { OnOk result (Appends (W.taken out.old) (W.taken out.new) (ids_text ids.now)) }
    ensures err { OnErr result (AppendsBeginning (W.taken out.old) (W.taken out.new)
        (ids_text ids.now)) }
    ensures failures { W.failures out.new ≡ W.failures out.old + (if is_ok result then 0 else 1) }
{
    for id in ids {
        let mut buffer = Buffer::new();
        write_parts(out, &[b" ", buffer.format(*id).as_bytes()])?;
    }
    Ok(())
}

fn write_names<W: Sink>(out: &mut W, names: &[Name<'_>]) -> Result<(), WriteFault>
    requires { W.failures out.old < 2 ^ 64 - 1 }
    ensures ok { OnOk result (Appends (W.taken out.old) (W.taken out.new) (names_text names.now)) }
    ensures err { OnErr result (AppendsBeginning (W.taken out.old) (W.taken out.new)
        (names_text names.now)) }
    ensures failures { W.failures out.new ≡ W.failures out.old + (if is_ok result then 0 else 1) }
{
    for name in names {
        write_name(out, name)?;
    }
    Ok(())
}

fn write_children<W: Sink>(out: &mut W, choice: &Choice<'_>) -> Result<(), WriteFault>
    requires { W.failures out.old < 2 ^ 64 - 1 }
    ensures ok { OnOk result (Appends (W.taken out.old) (W.taken out.new)
        (children_text choice.now)) }
    ensures err { OnErr result (AppendsBeginning (W.taken out.old) (W.taken out.new)
        (children_text choice.now)) }
    ensures failures { W.failures out.new ≡ W.failures out.old + (if is_ok result then 0 else 1) }
{
    write_all(out, b" children")?;
    write_ids(out, &choice.children)
}

fn write_objects<W: Sink>(out: &mut W, choice: &Choice<'_>) -> Result<(), WriteFault>
    requires { W.failures out.old < 2 ^ 64 - 1 }
    ensures ok { OnOk result (Appends (W.taken out.old) (W.taken out.new)
        (objects_text choice.now)) }
    ensures err { OnErr result (AppendsBeginning (W.taken out.old) (W.taken out.new)
        (objects_text choice.now)) }
    ensures failures { W.failures out.new ≡ W.failures out.old + (if is_ok result then 0 else 1) }
{
    write_all(out, b" objects")?;
    write_names(out, &choice.objects)
}

fn write_choice<W: Sink>(out: &mut W, choice: &Choice<'_>) -> Result<(), WriteFault>
    requires { W.failures out.old < 2 ^ 64 - 1 }
    ensures ok { OnOk result (Appends (W.taken out.old) (W.taken out.new)
        (choice_text choice.now)) }
    ensures err { OnErr result (AppendsBeginning (W.taken out.old) (W.taken out.new)
        (choice_text choice.now)) }
    ensures failures { W.failures out.new ≡ W.failures out.old + (if is_ok result then 0 else 1) }
{
    write_children(out, choice)?;
    write_objects(out, choice)
}

fn write_named_choice<W: Sink>(
    out: &mut W,
    name: &[u8],
    choice: &Choice<'_>,
) -> Result<(), WriteFault>
    requires { W.failures out.old < 2 ^ 64 - 1 }
    ensures ok { OnOk result (Appends (W.taken out.old) (W.taken out.new)
        (name.now ++ choice_text choice.now)) }
    ensures err { OnErr result (AppendsBeginning (W.taken out.old) (W.taken out.new)
        (name.now ++ choice_text choice.now)) }
    ensures failures { W.failures out.new ≡ W.failures out.old + (if is_ok result then 0 else 1) }
{
    write_all(out, name)?;
    write_choice(out, choice)
}

fn write_root<W: Sink>(out: &mut W, root: &Choice<'_>) -> Result<(), WriteFault>
    requires { W.failures out.old < 2 ^ 64 - 1 }
    ensures ok { OnOk result (Appends (W.taken out.old) (W.taken out.new) (root_text root.now)) }
    ensures err { OnErr result (AppendsBeginning (W.taken out.old) (W.taken out.new)
        (root_text root.now)) }
    ensures failures { W.failures out.new ≡ W.failures out.old + (if is_ok result then 0 else 1) }
{
    write_named_choice(out, b"root", root)?;
    write_all(out, b"\n")
}

fn write_node<W: Sink>(out: &mut W, node: &(u64, Choice<'_>, u32)) -> Result<(), WriteFault>
    requires { W.failures out.old < 2 ^ 64 - 1 }
    ensures ok { OnOk result (Appends (W.taken out.old) (W.taken out.new) (node_text node.now)) }
    ensures err { OnErr result (AppendsBeginning (W.taken out.old) (W.taken out.new)
        (node_text node.now)) }
    ensures failures { W.failures out.new ≡ W.failures out.old + (if is_ok result then 0 else 1) }
{
    let mut id = Buffer::new();
    let mut index = Buffer::new();
    write_named_choice(out, id.format(node.0).as_bytes(), &node.1)?;
    write_parts(out, &[b" pre ", index.format(node.2).as_bytes(), b"\n"])
}

fn write_nodes<W: Sink>(out: &mut W, nodes: &[(u64, Choice<'_>, u32)]) -> Result<(), WriteFault>
    requires { W.failures out.old < 2 ^ 64 - 1 }
    ensures ok { OnOk result (Appends (W.taken out.old) (W.taken out.new) (nodes_text nodes.now)) }
    ensures err { OnErr result (AppendsBeginning (W.taken out.old) (W.taken out.new)
        (nodes_text nodes.now)) }
    ensures failures { W.failures out.new ≡ W.failures out.old + (if is_ok result then 0 else 1) }
{
    for node in nodes {
        write_node(out, node)?;
    }
    Ok(())
}

fn write_certificate<W: Sink>(out: &mut W, certificate: &Certificate<'_>) -> Result<(), WriteFault>
    requires { W.failures out.old < 2 ^ 64 - 1 }
    ensures ok { OnOk result (Appends (W.taken out.old) (W.taken out.new)
        (certificate_text certificate.now)) }
    ensures err { OnErr result (AppendsBeginning (W.taken out.old) (W.taken out.new)
        (certificate_text certificate.now)) }
    ensures failures { W.failures out.new ≡ W.failures out.old + (if is_ok result then 0 else 1) }
{
    write_root(out, &certificate.root)?;
    write_nodes(out, &certificate.lines)
}

fn write_cause<W: Sink>(out: &mut W, cause: Cause) -> Result<(), WriteFault>
    requires { W.failures out.old < 2 ^ 64 - 1 }
    ensures ok { OnOk result (Appends (W.taken out.old) (W.taken out.new) (cause_text cause)) }
    ensures err { OnErr result (AppendsBeginning (W.taken out.old) (W.taken out.new)
        (cause_text cause)) }
    ensures failures { W.failures out.new ≡ W.failures out.old + (if is_ok result then 0 else 1) }
{
    let mut number = Buffer::new();
    let number = number.format(cause.kind.number()).as_bytes();
    write_parts(
        out,
        &[b"fails ", number, b" ", cause.kind.name().as_bytes()],
    )?;
    match cause.line {
        Some(line) => write_line(out, line),
        None => Ok(()),
    }
}

fn write_place<W: Sink>(out: &mut W, place: Place) -> Result<(), WriteFault>
    requires { W.failures out.old < 2 ^ 64 - 1 }
    ensures ok { OnOk result (Appends (W.taken out.old) (W.taken out.new) (place_text place)) }
    ensures err { OnErr result (AppendsBeginning (W.taken out.old) (W.taken out.new)
        (place_text place)) }
    ensures failures { W.failures out.new ≡ W.failures out.old + (if is_ok result then 0 else 1) }
{
    match place {
        Place::Nowhere => Ok(()),
        Place::Line(line) => write_line(out, line),
        Place::At { line, column } => {
            let mut left = Buffer::new();
            let mut right = Buffer::new();
            let line = left.format(line).as_bytes();
            let column = right.format(column).as_bytes();
            write_parts(out, &[b" ", line, b":", column])
        }
    }
}

fn write_fault<W: Sink>(out: &mut W, which: Which, fault: Fault) -> Result<(), WriteFault>
    requires { W.failures out.old < 2 ^ 64 - 1 }
    ensures ok { OnOk result (Appends (W.taken out.old) (W.taken out.new)
        (fault_text which fault)) }
    ensures err { OnErr result (AppendsBeginning (W.taken out.old) (W.taken out.new)
        (fault_text which fault)) }
    ensures failures { W.failures out.new ≡ W.failures out.old + (if is_ok result then 0 else 1) }
{
    let mut number = Buffer::new();
    let number = number.format(fault.kind.number()).as_bytes();
    let which = which.name().as_bytes();
    write_parts(
        out,
        &[
            b"rejected ",
            which,
            b" ",
            number,
            b" ",
            fault.kind.name().as_bytes(),
        ],
    )?;
    write_place(out, fault.place)
}

// Writes the line of a verdict, without its end.
fn write_words<W: Sink>(out: &mut W, verdict: Verdict) -> Result<(), WriteFault>
    requires { W.failures out.old < 2 ^ 64 - 1 }
    ensures ok { OnOk result (Appends (W.taken out.old) (W.taken out.new)
        (verdict_words verdict)) }
    ensures err { OnErr result (AppendsBeginning (W.taken out.old) (W.taken out.new)
        (verdict_words verdict)) }
    ensures failures { W.failures out.new ≡ W.failures out.old + (if is_ok result then 0 else 1) }
{
    match verdict {
        Verdict::Solves => write_all(out, b"solves"),
        Verdict::Fails(cause) => write_cause(out, cause),
        Verdict::Undecided(line) => {
            let mut number = Buffer::new();
            write_parts(out, &[b"undecided line ", number.format(line).as_bytes()])
        }
        Verdict::Rejected(which, fault) => write_fault(out, which, fault),
    }
}

/// Writes the text of a verdict, which is one line. Where a write fails, a beginning of that text
/// was written. No memory is taken.
pub fn write_verdict<W: Sink>(verdict: Verdict, out: &mut W) -> Result<(), WriteFault>
    requires { W.failures out.old < 2 ^ 64 - 1 }
    ensures ok { OnOk result (Appends (W.taken out.old) (W.taken out.new)
        (verdict_text verdict)) }
    ensures err { OnErr result (AppendsBeginning (W.taken out.old) (W.taken out.new)
        (verdict_text verdict)) }
    ensures failures { W.failures out.new ≡ W.failures out.old + (if is_ok result then 0 else 1) }
{
    write_words(out, verdict)?;
    write_all(out, b"\n")
}

/// Writes that a plan does not solve its problem by a certificate, and where a line of the
/// certificate's text is given, that this one does not fit. Where a write fails, a beginning of
/// that text was written. No memory is taken.
pub fn write_refusal<W: Sink>(line: Option<u64>, out: &mut W) -> Result<(), WriteFault>
    requires { W.failures out.old < 2 ^ 64 - 1 }
    ensures ok { OnOk result (Appends (W.taken out.old) (W.taken out.new) (refusal_text line)) }
    ensures err { OnErr result (AppendsBeginning (W.taken out.old) (W.taken out.new)
        (refusal_text line)) }
    ensures failures { W.failures out.new ≡ W.failures out.old + (if is_ok result then 0 else 1) }
{
    let Some(line) = line else {
        return write_all(out, b"not certified\n");
    };
    let mut number = Buffer::new();
    let number = number.format(line).as_bytes();
    write_parts(out, &[b"not certified line ", number, b"\n"])
}

fn write_explanation<W: Sink>(out: &mut W, answer: &Answer<'_>) -> Result<(), WriteFault>
    requires { W.failures out.old < 2 ^ 64 - 1 }
    ensures ok { OnOk result (Appends (W.taken out.old) (W.taken out.new)
        (explanation answer.now)) }
    ensures err { OnErr result (AppendsBeginning (W.taken out.old) (W.taken out.new)
        (explanation answer.now)) }
    ensures failures { W.failures out.new ≡ W.failures out.old + (if is_ok result then 0 else 1) }
{
    match answer {
        Answer::Solves(certificate) => write_certificate(out, certificate),
        _ => Ok(()),
    }
}

// Writes the text of an answer with its explanation.
fn write_explained<W: Sink>(out: &mut W, answer: &Answer<'_>) -> Result<(), WriteFault>
    requires { W.failures out.old < 2 ^ 64 - 1 }
    ensures ok { OnOk result (Appends (W.taken out.old) (W.taken out.new)
        (verdict_text (verdict_of answer.now) ++ explanation answer.now)) }
    ensures err { OnErr result (AppendsBeginning (W.taken out.old) (W.taken out.new)
        (verdict_text (verdict_of answer.now) ++ explanation answer.now)) }
    ensures failures { W.failures out.new ≡ W.failures out.old + (if is_ok result then 0 else 1) }
{
    write_verdict(answer.verdict(), out)?;
    write_explanation(out, answer)
}

/// Writes the text of an answer: that of its verdict, and where a plan solves its problem and
/// `explain` is asked for, a line for `root` and one for each decomposition line. Where a write
/// fails, a beginning of that text was written. No memory is taken.
pub fn write_answer<W: Sink>(
    answer: &Answer<'_>,
    explain: bool,
    out: &mut W,
) -> Result<(), WriteFault>
    requires { W.failures out.old < 2 ^ 64 - 1 }
    ensures ok { OnOk result (Appends (W.taken out.old) (W.taken out.new)
        (answer_text answer.now explain)) }
    ensures err { OnErr result (AppendsBeginning (W.taken out.old) (W.taken out.new)
        (answer_text answer.now explain)) }
    ensures failures { W.failures out.new ≡ W.failures out.old + (if is_ok result then 0 else 1) }
{
    if explain {
        write_explained(out, answer)
    } else {
        write_verdict(answer.verdict(), out)
    }
}
