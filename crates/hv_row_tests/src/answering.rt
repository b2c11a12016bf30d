//! Answers to rows.

use crate::command::{Command, Options};
use anyhow::Result;
use hv_judge::{
    Answer, Kind, Printed, RecheckKind, Which, check, judge, recheck, run, run_print, run_recheck,
    write_answer,
};
use hv_text::{FromMemory, ToMemory};
use std::alloc::Global;

// How a plan is judged, in a word.
fn judged(kind: Kind) -> &'static str {
    match kind {
        Kind::Solves => "solves",
        Kind::Fails => "fails",
        Kind::Undecided => "undecided",
        Kind::Rejected => "rejected",
    }
}

// How a text is printed, in a word.
fn printed(printed: Printed) -> &'static str {
    match printed {
        Printed::Done => "printed",
        Printed::Rejected => "rejected",
    }
}

// What was said of a certificate, in a word.
fn rechecked(kind: RecheckKind) -> &'static str {
    match kind {
        RecheckKind::Certified => "certified",
        RecheckKind::NotCertified => "not-certified",
        RecheckKind::Rejected => "rejected",
    }
}

// Whether the text of an answer, written with its certificate, is certified by `recheck`.
fn is_text_certified(
    alloc: Global,
    domain: &[u8],
    problem: &[u8],
    plan: &[u8],
    answer: &Answer<'_>,
) -> Result<bool> {
    let mut text = ToMemory::new(alloc);
    write_answer(answer, true, &mut text)?;
    match recheck(alloc, domain, problem, plan, text.written()) {
        Ok(found) => Ok(found.certified),
        Err(_) => Ok(false),
    }
}

// Whether the certificate of solved texts is right, as a text by `recheck` and as a value by
// `check`, and wrong once it names a state that no plan passes.
fn is_certified<'t>(
    alloc: Global,
    domain: &'t [u8],
    problem: &'t [u8],
    plan: &'t [u8],
    limit: u64,
) -> Result<bool> {
    let answer = judge(alloc, domain, problem, plan, limit)?;
    if !is_text_certified(alloc, domain, problem, plan, &answer)? {
        return Ok(false);
    }
    let Answer::Solves(mut certificate) = answer else {
        return Ok(false);
    };
    if check(alloc, domain, problem, plan, &certificate) != Ok(true) {
        return Ok(false);
    }
    match certificate.lines.last_mut() {
        Some(line) => line.2 = u32::MAX,
        None => return Ok(true),
    }
    Ok(check(alloc, domain, problem, plan, &certificate) == Ok(false))
}

// Judges a plan, and says in a word how that ended, and what was written.
fn judge_texts(
    alloc: Global,
    domain: &[u8],
    problem: &[u8],
    plan: &[u8],
    options: Options,
) -> Result<(&'static str, String)> {
    let mut out = ToMemory::new(alloc);
    let kind = run(
        alloc,
        &mut FromMemory::new(domain),
        &mut FromMemory::new(problem),
        &mut FromMemory::new(plan),
        options.limit,
        options.explain,
        &mut out,
    )?;
    let text = String::from_utf8_lossy(alloc, out.written())?;
    if kind == Kind::Solves && !is_certified(alloc, domain, problem, plan, options.limit)? {
        return Ok(("solves, not certified", text));
    }
    Ok((judged(kind), text))
}

// Checks the text of a certificate, and says the same.
fn recheck_texts(
    alloc: Global,
    domain: &[u8],
    problem: &[u8],
    plan: &[u8],
    certificate: &[u8],
) -> Result<(&'static str, String)> {
    let mut out = ToMemory::new(alloc);
    let kind = run_recheck(
        alloc,
        &mut FromMemory::new(domain),
        &mut FromMemory::new(problem),
        &mut FromMemory::new(plan),
        &mut FromMemory::new(certificate),
        &mut out,
    )?;
    let text = String::from_utf8_lossy(alloc, out.written())?;
    Ok((rechecked(kind), text))
}

// Prints a text, and says the same.
fn print_text(alloc: Global, which: Which, text: &[u8]) -> Result<(&'static str, String)> {
    let mut out = ToMemory::new(alloc);
    let end = run_print(alloc, which, &mut FromMemory::new(text), &mut out)?;
    Ok((printed(end), String::from_utf8_lossy(alloc, out.written())?))
}

/// Does what a row asks for, and says in a word how that ended, and what was written.
///
/// # Errors
///
/// A growth of memory was refused.
pub fn answer(alloc: Global, command: &Command<'_>) -> Result<(&'static str, String)> {
    match *command {
        Command::Judge {
            domain,
            problem,
            plan,
            options,
        } => judge_texts(alloc, domain, problem, plan, options),
        Command::Recheck {
            domain,
            problem,
            plan,
            certificate,
        } => recheck_texts(alloc, domain, problem, plan, certificate),
        Command::Print(which, text) => print_text(alloc, which, text),
    }
}
