//! What a row asks for.

use crate::texts::Texts;
use anyhow::{Result, bail};
use hv_judge::Which;
use std::alloc::Global;

/// The limit where a row gives none, as on the command line of the program.
const LIMIT: u64 = 1_000_000;

/// How a plan is judged.
#[derive(Clone, Copy)]
pub struct Options {
    pub limit: u64,
    pub explain: bool,
}

/// What a row asks for, with the texts that it names.
#[derive(Clone, Copy)]
pub enum Command<'f> {
    Judge {
        domain: &'f [u8],
        problem: &'f [u8],
        plan: &'f [u8],
        options: Options,
    },
    Recheck {
        domain: &'f [u8],
        problem: &'f [u8],
        plan: &'f [u8],
        certificate: &'f [u8],
    },
    Print(Which, &'f [u8]),
}

// The options that these words spell.
fn read_options(words: &[&str]) -> Result<Options> {
    let (limit, explain) = match words {
        [] => (LIMIT, false),
        ["--explain"] => (LIMIT, true),
        ["--limit", limit] => (limit.parse::<u64>()?, false),
        ["--limit", limit, "--explain"] => (limit.parse::<u64>()?, true),
        _ => bail!("options of no form"),
    };
    Ok(Options { limit, explain })
}

fn read_print<'f>(texts: &Texts<'f>, which: Which, name: &str) -> Result<Command<'f>> {
    Ok(Command::Print(which, texts.find(which, name)?))
}

/// Reads what a row asks for.
///
/// # Errors
///
/// The line is of no form, it names a text that is not there, or a growth of memory was refused.
pub fn read_command<'f>(alloc: Global, texts: &Texts<'f>, line: &str) -> Result<Command<'f>> {
    let words: Vec<&str> = line.split_whitespace().collect(alloc)?;
    match words.as_slice() {
        ["judge", options @ .., domain, problem, plan] => Ok(Command::Judge {
            domain: texts.find(Which::Domain, domain)?,
            problem: texts.find(Which::Problem, problem)?,
            plan: texts.find(Which::Plan, plan)?,
            options: read_options(options)?,
        }),
        ["recheck", domain, problem, plan, certificate] => Ok(Command::Recheck {
            domain: texts.find(Which::Domain, domain)?,
            problem: texts.find(Which::Problem, problem)?,
            plan: texts.find(Which::Plan, plan)?,
            certificate: texts.find(Which::Certificate, certificate)?,
        }),
        ["print-domain", name] => read_print(texts, Which::Domain, name),
        ["print-problem", name] => read_print(texts, Which::Problem, name),
        ["print-plan", name] => read_print(texts, Which::Plan, name),
        _ => bail!("a line of no form"),
    }
}
