//! The command line.

ghost use Rattle.std.specs.Prelude.{◌≡◌, ◌↔◌, ◌∷◌, [], codes, map, IfOk, IfSome, Some, true, false, string_bytes};
ghost use Rattle.clap.specs.Words.{app_of, subcommand_of, rule_of, rows_of, found_of, first_of, with_rule, with_subcommand};
ghost use Rattle.clap.specs.declared.builder.command.Command.TheViews.{out-Command};
ghost use Rattle.hv_command.specs.Line.{line, judge_line, recheck_line, print_line, limit_rule, flag_rule, file_rule, with_plan_rules, command_of, file_arguments, HasFiles, HasLimit, IsGiven, HasOptions, IsJobOf};

use crate::help;
use crate::task::{Job, JobFault, Mode};
use clap::{Arg, ArgAction, ArgMatches, Command};
use std::alloc::{AllocError, Global};

fn limit_arg<'a>(alloc: Global) -> Arg<'a>
    ensures rule { rule_of result ≡ limit_rule }
    ensures local { result.global ≡ false }
{
    Arg::new(alloc, "limit")
        .long("limit")
        .help(help::LIMIT)
        .default_value("1000000")
        .value_parser(clap::value_parser!(u64))
}

fn flag_arg<'a>(alloc: Global, id: &'a str, help: &'a str) -> Arg<'a>
    ensures rule { rule_of result ≡ flag_rule id.entry.now }
    ensures local { result.global ≡ false }
{
    Arg::new(alloc, id)
        .long(id)
        .help(help)
        .action(ArgAction::SetTrue)
}

fn file_arg<'a>(alloc: Global, id: &'a str, help: &'a str) -> Arg<'a>
    ensures rule { rule_of result ≡ file_rule id.entry.now }
    ensures local { result.global ≡ false }
{
    Arg::new(alloc, id).help(help).required(true)
}

fn with_arg<'a>(command: Command<'a>, arg: Arg<'a>) -> Result<Command<'a>, AllocError>
    requires { arg.global ≡ false }
    ensures app { IfOk result (λ c. app_of c ≡ with_rule (app_of command.entry)
        (rule_of arg.entry)) }
    ensures local { IfOk result (λ c. (out-Command c).has_globals
        ≡ (out-Command command.entry).has_globals) }
{
    command.arg(arg)
}

fn with_command<'a>(above: Command<'a>, command: Command<'a>) -> Result<Command<'a>, AllocError>
    requires { (out-Command command).has_globals ≡ false }
    ensures app { IfOk result (λ c. app_of c ≡ with_subcommand (app_of above.entry)
        (app_of command.entry).top) }
    ensures local { IfOk result (λ c. (out-Command c).has_globals
        ≡ (out-Command above.entry).has_globals) }
{
    above.subcommand(command)
}

// The command, given the files of a plan: its domain, its problem and the plan itself.
fn with_plan_args<'a>(alloc: Global, command: Command<'a>) -> Result<Command<'a>, AllocError>
    ensures app { IfOk result (λ c. app_of c ≡ with_plan_rules (app_of command.entry)) }
    ensures local { IfOk result (λ c. (out-Command c).has_globals
        ≡ (out-Command command.entry).has_globals) }
{
    let command = with_arg(command, file_arg(alloc, "domain", "The domain, in HDDL"))?;
    let command = with_arg(command, file_arg(alloc, "problem", "The problem, in HDDL"))?;
    let command = with_arg(
        command,
        file_arg(alloc, "plan", "The plan, with its decomposition tree"),
    )?;
    Ok(command)
}

fn judge_command<'a>(alloc: Global) -> Result<Command<'a>, AllocError>
    ensures app { IfOk result (λ c. app_of c ≡ judge_line) }
    ensures local { IfOk result (λ c. (out-Command c).has_globals ≡ false) }
{
    let command = Command::new(alloc, "judge")
        .about(help::JUDGE)
        .after_help(help::JUDGE_END);
    let command = with_arg(command, limit_arg(alloc))?;
    let command = with_arg(command, flag_arg(alloc, "explain", help::EXPLAIN))?;
    let command = with_plan_args(alloc, command)?;
    Ok(command)
}

fn recheck_command<'a>(alloc: Global) -> Result<Command<'a>, AllocError>
    ensures app { IfOk result (λ c. app_of c ≡ recheck_line) }
    ensures local { IfOk result (λ c. (out-Command c).has_globals ≡ false) }
{
    let command = Command::new(alloc, "recheck")
        .about(help::RECHECK)
        .after_help(help::RECHECK_END);
    let command = with_arg(command, flag_arg(alloc, "misfit", help::MISFIT))?;
    let command = with_plan_args(alloc, command)?;
    let command = with_arg(
        command,
        file_arg(
            alloc,
            "certificate",
            "The certificate, as judge --explain writes it",
        ),
    )?;
    Ok(command)
}

fn print_command<'a>(
    alloc: Global,
    name: &'a str,
    about: &'a str,
    end: &'a str,
) -> Result<Command<'a>, AllocError>
    ensures app { IfOk result (λ c. app_of c ≡ print_line name.entry.now) }
    ensures local { IfOk result (λ c. (out-Command c).has_globals ≡ false) }
{
    let command = Command::new(alloc, name).about(about).after_help(end);
    let command = with_arg(command, file_arg(alloc, "file", help::FILE))?;
    Ok(command)
}

fn command<'a>(alloc: Global) -> Result<Command<'a>, AllocError>
    ensures { IfOk result (λ c. app_of c ≡ line) }
{
    let command = Command::new(alloc, "hddlv")
        .about(help::PROGRAM)
        .after_help(help::PROGRAM_END)
        .version("0.1.0")
        .subcommand_required(true);
    let command = with_command(command, judge_command(alloc)?)?;
    let command = with_command(command, recheck_command(alloc)?)?;
    let command = with_command(
        command,
        print_command(
            alloc,
            "print-domain",
            help::PRINT_DOMAIN,
            help::PRINT_DOMAIN_END,
        )?,
    )?;
    let command = with_command(
        command,
        print_command(
            alloc,
            "print-problem",
            help::PRINT_PROBLEM,
            help::PRINT_PROBLEM_END,
        )?,
    )?;
    let command = with_command(
        command,
        print_command(alloc, "print-plan", help::PRINT_PLAN, help::PRINT_PLAN_END)?,
    )?;
    Ok(command)
}

// A value that the definition of the command asks for is never missing; nothing here proves that,
// so `Missing` is answered in its place.
fn text_of(alloc: Global, matches: &ArgMatches<'_>, id: &str) -> Result<String, JobFault>
    ensures { IfOk result (λ s. first_of id.now (rows_of (found_of matches.now))
        ≡ Some (string_bytes s)) }
{
    match matches.get_str(id) {
        Some(text) => Ok(String::from_str(alloc, text)?),
        None => Err(JobFault::Missing),
    }
}

fn limit_of(matches: &ArgMatches<'_>) -> Result<u64, JobFault>
    ensures { IfOk result (HasLimit (rows_of (found_of matches.now))) }
{
    match matches.get_one::<u64>("limit") {
        Some(limit) => Ok(limit),
        None => Err(JobFault::Missing),
    }
}

// Whether a flag is given.
fn is_given(matches: &ArgMatches<'_>, id: &str) -> bool
    ensures { (result ≡ true) ↔ IsGiven id.now (rows_of (found_of matches.now)) }
{
    match matches.get_str(id) {
        Some(text) => text == "true",
        None => false,
    }
}

fn judge_job(alloc: Global, matches: &ArgMatches<'_>) -> Result<Job, JobFault>
    ensures named { IfOk result (λ job. command_of job.mode ≡ codes "judge") }
    ensures files { IfOk result (λ job. HasFiles (file_arguments job.mode)
        (rows_of (found_of matches.now)) job) }
    ensures options { IfOk result (λ job. HasOptions job.mode (rows_of (found_of matches.now))
        job) }
{
    let domain = text_of(alloc, matches, "domain")?;
    let problem = text_of(alloc, matches, "problem")?;
    let plan = text_of(alloc, matches, "plan")?;
    let files = vec![in alloc; domain, problem, plan]?;
    let limit = limit_of(matches)?;
    let explain = is_given(matches, "explain");
    Ok(Job {
        mode: Mode::Judge,
        files,
        limit,
        explain,
        misfit: false,
    })
}

fn recheck_job(alloc: Global, matches: &ArgMatches<'_>) -> Result<Job, JobFault>
    ensures named { IfOk result (λ job. command_of job.mode ≡ codes "recheck") }
    ensures files { IfOk result (λ job. HasFiles (file_arguments job.mode)
        (rows_of (found_of matches.now)) job) }
    ensures options { IfOk result (λ job. HasOptions job.mode (rows_of (found_of matches.now))
        job) }
{
    let domain = text_of(alloc, matches, "domain")?;
    let problem = text_of(alloc, matches, "problem")?;
    let plan = text_of(alloc, matches, "plan")?;
    let certificate = text_of(alloc, matches, "certificate")?;
    let files = vec![in alloc; domain, problem, plan, certificate]?;
    let misfit = is_given(matches, "misfit");
    Ok(Job {
        mode: Mode::Recheck,
        files,
        limit: 1_000_000,
        explain: false,
        misfit,
    })
}

// The job of a command that prints a text, which has neither a limit nor a certificate.
fn print_job(alloc: Global, mode: Mode, matches: &ArgMatches<'_>) -> Result<Job, JobFault>
    ensures named { IfOk result (λ job. job.mode ≡ mode) }
    ensures files { IfOk result (HasFiles (codes "file" ∷ []) (rows_of (found_of matches.now))) }
    ensures options { IfOk result (λ job. (job.limit ≡ 1000000) × (job.explain ≡ false)
        × (job.misfit ≡ false)) }
{
    let file = text_of(alloc, matches, "file")?;
    let files = vec![in alloc; file]?;
    Ok(Job {
        mode,
        files,
        limit: 1_000_000,
        explain: false,
        misfit: false,
    })
}

// The mode that the command of this name stands for.
fn mode_of(name: &str) -> Option<Mode>
    ensures { IfSome result (λ mode. name.now ≡ command_of mode) }
{
    match name {
        "judge" => Some(Mode::Judge),
        "recheck" => Some(Mode::Recheck),
        "print-domain" => Some(Mode::PrintDomain),
        "print-problem" => Some(Mode::PrintProblem),
        "print-plan" => Some(Mode::PrintPlan),
        _ => None,
    }
}

/// The job that the words name: what the definition of the command reads in them. The first word is
/// the program's own.
///
/// # Errors
///
/// `Words` where they do not parse, or ask for help or the version; `Missing` where they parse but
/// lack a command or a value that each line must have; and `Memory` where a growth was refused.
pub fn job<'a>(alloc: Global, words: &'a [&'a str]) -> Result<Job, JobFault>
    ensures { IfOk result (IsJobOf (subcommand_of line (map (λ w. w.now) words.entry.now))) }
{
    let command = command(alloc)?;
    let matches = command.try_get_matches_from(words)?;
    // nor is one of the defined commands ever missing
    let Some((name, inner)) = matches.subcommand() else {
        return Err(JobFault::Missing);
    };
    match mode_of(name) {
        Some(Mode::Judge) => Ok(judge_job(alloc, inner)?),
        Some(Mode::Recheck) => Ok(recheck_job(alloc, inner)?),
        Some(mode) => Ok(print_job(alloc, mode, inner)?),
        None => Err(JobFault::Missing),
    }
}
