//! Judges and prints the worked rows of the files that are named, checks their certificates, writes
//! each answer, and compares it with the one that is wanted.
//!
//! A file of rows is cut into sections by lines that begin with `### `. What stands before the
//! first is a comment. A text is named once, above the rows that call it. A row has the line that
//! asks, and below it how it is to end, with the answer to the byte:
//!
//! ```text
//! ### domain NAME             or problem NAME, plan NAME, certificate NAME
//! the text
//! ### row NAME
//! judge [--limit N] [--explain] DOMAIN PROBLEM PLAN
//!                             or recheck DOMAIN PROBLEM PLAN CERTIFICATE
//!                             or print-domain NAME, print-problem NAME, print-plan NAME
//! ### solves                  or fails, undecided, rejected, certified, not-certified, printed
//! the answer
//! ```
//!
//! In the line that asks, `NAME[..9]` stands for the first 9 bytes of a text.
#![tactic(auto)]

mod answering;
mod command;
mod texts;

use answering::answer;
use anyhow::{Context, Result, ensure};
use command::read_command;
use std::{env, fs};
use texts::Texts;

/// What is asked, under a name.
#[derive(Clone, Copy)]
struct Row<'f> {
    name: &'f str,
    command: &'f str,
}

/// How a row is to end, and what is to be written.
#[derive(Clone, Copy)]
struct Wanted<'f> {
    end: &'f str,
    text: &'f str,
}

/// How an answer compares with the one that is wanted.
#[derive(Clone, Copy, PartialEq, Eq)]
enum Outcome {
    AsWanted,
    Differs,
}

// Answers a row, and writes its name, how it ended and the answer.
fn run_row(
    rt: &HostRuntime,
    texts: &Texts<'_>,
    row: Row<'_>,
    wanted: Wanted<'_>,
) -> Result<Outcome> {
    let command = read_command(rt.alloc(), texts, row.command)?;
    let (end, text) = answer(rt.alloc(), &command)?;
    print!(rt; "### {}: {end}\n{text}", row.name)?;
    if end == wanted.end && text.as_str() == wanted.text {
        return Ok(Outcome::AsWanted);
    }
    print!(rt; "### wanted: {}\n{}", wanted.end, wanted.text)?;
    Ok(Outcome::Differs)
}

// Answers each row of a file.
fn run_rows(rt: &HostRuntime, file: &str, outcomes: &mut Vec<Outcome>) -> Result<()> {
    let mut texts = Texts::new(rt.alloc());
    // an answer that stands above all rows is one to a line of no form
    let mut row = Row {
        name: "",
        command: "",
    };
    for section in file.split("### ").skip(1) {
        let (heading, body) = section.split_once('\n').context("a heading ends the file")?;
        match heading.split_once(' ') {
            Some(("row", name)) => row = Row {
                name,
                command: body,
            },
            Some((kind, name)) => texts.add(kind, name, body)?,
            None => {
                let wanted = Wanted {
                    end: heading,
                    text: body,
                };
                let outcome = run_row(rt, &texts, row, wanted).context(format_args!(
                    "row {}",
                    row.name
                ))?;
                outcomes.push(outcome)?;
            }
        }
    }
    Ok(())
}

fn run_file(rt: &HostRuntime, name: &str, outcomes: &mut Vec<Outcome>) -> Result<()> {
    let file = fs::read_to_string(rt, name)?;
    run_rows(rt, &file, outcomes)
}

fn main(rt: HostRuntime) -> Result<()> {
    let mut outcomes = Vec::new(rt.alloc());
    let words: Vec<String> = env::args(&rt)?.collect(rt.alloc())?;
    for name in words.iter().skip(1) {
        run_file(&rt, name.as_str(), &mut outcomes).context(format_args!("file {name}"))?;
    }
    let differing = outcomes
        .iter()
        .filter(|outcome| **outcome == Outcome::Differs)
        .count();
    println!(rt;
        "{} rows, {differing} of them not as wanted",
        outcomes.len()
    )?;
    ensure!(differing == 0, "rows are not answered as wanted");
    Ok(())
}
