//! The program: judges three files, checks a certificate for them, or prints one.
#![tactic(auto)]

mod end;
#[cfg(test)]
mod tests;

ghost use Rattle.std.specs.Prelude.{◌≡◌, ◌≢◌, ◌⊎◌, Err, IfOk, IfErr, length};
ghost use Rattle.std.specs.Process.{exit_status};
ghost use Rattle.hv_answer.specs.declared.answer.Which.TheVariants as texts;
ghost use Rattle.hv_judge.specs.declared.running.RunFault.TheVariants as faults;
ghost use Rattle.hddlv.specs.Ends.{status_of};
ghost use Rattle.hv_command.specs.Line.{file_arguments};

use end::{End, status, write_end};
use hv_command::{Job, JobFault, Mode, job};
use hv_judge::{Kind, RecheckKind, RunFault, Which, run, run_examine, run_print};
use hv_text::{FromReader, ToWriter};
use std::alloc::Global;
use std::fs::{self, File};
use std::io::{BufWriter, Write};
use std::process::ExitCode;
use std::{env, io};

fn open<'a>(rt: &HostRuntime, name: &'a str) -> Result<File, &'a str> {
    fs::open(rt, name).map_err(|_| name)
}

// The three files, opened in this order, or the name of the first that cannot be opened.
fn open_three<'a>(
    rt: &HostRuntime,
    domain: &'a str,
    problem: &'a str,
    plan: &'a str,
) -> Result<(File, File, File), &'a str> {
    let domain = open(rt, domain)?;
    let problem = open(rt, problem)?;
    let plan = open(rt, plan)?;
    Ok((domain, problem, plan))
}

// The four files, opened in this order, or the name of the first that cannot be opened.
fn open_four<'a>(
    rt: &HostRuntime,
    domain: &'a str,
    problem: &'a str,
    plan: &'a str,
    certificate: &'a str,
) -> Result<(File, File, File, File), &'a str> {
    let (domain, problem, plan) = open_three(rt, domain, problem, plan)?;
    let certificate = open(rt, certificate)?;
    Ok((domain, problem, plan, certificate))
}

// Writes out what the buffer of an output still holds, where the run came to its end.
fn finish<W: Write + Drop, T: Drop>(
    out: ToWriter<W>,
    ended: Result<T, RunFault>,
) -> Result<T, RunFault>
    ensures { IfErr result (λ fault. (fault ≡ faults.Write) ⊎ (ended ≡ Err fault)) }
{
    let ended = ended?;
    let ToWriter { mut writer, .. } = out;
    match writer.flush() {
        Ok(()) => Ok(ended),
        Err(_) => Err(RunFault::Write),
    }
}

// Judges open files and writes the verdict to standard output. A certificate has many short parts,
// so they are gathered in a buffer.
fn judge_open(
    rt: &HostRuntime,
    files: (File, File, File),
    limit: u64,
    explain: bool,
) -> Result<Kind, RunFault>
    ensures { IfErr result (λ fault. fault ≢ faults.Read texts.Certificate) }
{
    let (domain, problem, plan) = files;
    let mut domain = FromReader::new(domain);
    let mut problem = FromReader::new(problem);
    let mut plan = FromReader::new(plan);
    let Ok(buffer) = BufWriter::new(rt.alloc(), io::writer(rt)) else {
        return Err(RunFault::Memory);
    };
    let mut out = ToWriter::new(buffer);
    let ended = run(
        rt.alloc(),
        &mut domain,
        &mut problem,
        &mut plan,
        limit,
        explain,
        &mut out,
    );
    finish(out, ended)
}

fn judge_files<'a>(rt: &HostRuntime, job: &'a Job) -> End<'a>
    requires { length job.now.files.items ≡ 3 }
{
    let [domain, problem, plan] = job.files.as_slice() else {
        unreachable!()
    };
    let files = match open_three(rt, domain.as_str(), problem.as_str(), plan.as_str()) {
        Ok(files) => files,
        Err(name) => return End::CannotRead(name),
    };
    match judge_open(rt, files, job.limit, job.explain) {
        Ok(kind) => End::Judged(kind),
        Err(RunFault::Read(Which::Domain)) => End::CannotRead(domain.as_str()),
        Err(RunFault::Read(Which::Problem)) => End::CannotRead(problem.as_str()),
        Err(RunFault::Read(Which::Plan)) => End::CannotRead(plan.as_str()),
        Err(RunFault::Read(Which::Certificate)) => unreachable!(),
        Err(RunFault::Memory) => End::OutOfMemory,
        Err(RunFault::Write) => End::CannotWrite,
    }
}

// Checks an open certificate for open files and writes what was found to standard output.
fn recheck_open(
    rt: &HostRuntime,
    files: (File, File, File, File),
    misfit: bool,
) -> Result<RecheckKind, RunFault> {
    let (domain, problem, plan, certificate) = files;
    let mut domain = FromReader::new(domain);
    let mut problem = FromReader::new(problem);
    let mut plan = FromReader::new(plan);
    let mut certificate = FromReader::new(certificate);
    let mut out = ToWriter::new(io::writer(rt));
    run_examine(
        rt.alloc(),
        &mut domain,
        &mut problem,
        &mut plan,
        &mut certificate,
        misfit,
        &mut out,
    )
}

fn recheck_files<'a>(rt: &HostRuntime, job: &'a Job) -> End<'a>
    requires { length job.now.files.items ≡ 4 }
{
    let [domain, problem, plan, certificate] = job.files.as_slice() else {
        unreachable!()
    };
    let files = match open_four(
        rt,
        domain.as_str(),
        problem.as_str(),
        plan.as_str(),
        certificate.as_str(),
    ) {
        Ok(files) => files,
        Err(name) => return End::CannotRead(name),
    };
    match recheck_open(rt, files, job.misfit) {
        Ok(kind) => End::Rechecked(kind),
        Err(RunFault::Read(Which::Domain)) => End::CannotRead(domain.as_str()),
        Err(RunFault::Read(Which::Problem)) => End::CannotRead(problem.as_str()),
        Err(RunFault::Read(Which::Plan)) => End::CannotRead(plan.as_str()),
        Err(RunFault::Read(Which::Certificate)) => End::CannotRead(certificate.as_str()),
        Err(RunFault::Memory) => End::OutOfMemory,
        Err(RunFault::Write) => End::CannotWrite,
    }
}

// Writes the canonical text of the one file of a job to standard output.
fn print_file<'a>(rt: &HostRuntime, which: Which, job: &'a Job) -> End<'a>
    requires { length job.now.files.items ≡ 1 }
{
    let [name] = job.files.as_slice() else {
        unreachable!()
    };
    let file = match open(rt, name.as_str()) {
        Ok(file) => file,
        Err(name) => return End::CannotRead(name),
    };
    let mut reader = FromReader::new(file);
    let mut out = ToWriter::new(io::writer(rt));
    match run_print(rt.alloc(), which, &mut reader, &mut out) {
        Ok(printed) => End::Printed(printed),
        Err(RunFault::Read(_)) => End::CannotRead(name.as_str()),
        Err(RunFault::Memory) => End::OutOfMemory,
        Err(RunFault::Write) => End::CannotWrite,
    }
}

fn end_of<'a>(rt: &HostRuntime, job: &'a Job) -> End<'a>
    requires { length job.now.files.items ≡ length (file_arguments job.now.mode) }
{
    match job.mode {
        Mode::Judge => judge_files(rt, job),
        Mode::Recheck => recheck_files(rt, job),
        Mode::PrintDomain => print_file(rt, Which::Domain, job),
        Mode::PrintProblem => print_file(rt, Which::Problem, job),
        Mode::PrintPlan => print_file(rt, Which::Plan, job),
    }
}

// Writes the line of an end to standard error, and gives its status.
fn conclude(rt: &HostRuntime, end: &End<'_>) -> ExitCode
    ensures { exit_status result ≡ status_of end.now }
{
    let mut err = ToWriter::new(rt.stderr());
    let _ = write_end(end, &mut err);
    ExitCode::from(status(end))
}

// Writes `clap`'s text on the words to standard error. A mistake is said to be one of this
// program's words; help and the version say so themselves.
fn refuse_words(rt: &HostRuntime, error: &clap::Error) -> ExitCode
    ensures { exit_status result ≡ 4 }
{
    let owner = if error.use_stderr() { "hddlv: " } else { "" };
    let _ = eprint!(rt; "{owner}{error}");
    conclude(rt, &End::Words)
}

fn job_of(alloc: Global, words: &[String]) -> Result<Job, JobFault>
    ensures { IfOk result (λ job. length job.files.items ≡ length (file_arguments job.mode)) }
{
    let words: Vec<&str> = words.iter().map(|word| word.as_str()).collect(alloc)?;
    job(alloc, &words)
}

// Pieces of memory of at most so many bytes are kept for later as they are freed. It is somewhat
// less than 2 MiB, so that a list which doubles to there and beyond is moved by the system, and not
// copied.
const KEPT: usize = 2_000_000;

// Has the C library keep pieces of memory that are freed for those that are asked for later. It
// gives pieces of 128 KiB and more back to the system, and freeing one raises that bound to its
// size. Each page that comes anew is a fault, and these are a third of the time of a short run. The
// piece that is freed here is not written to, so it takes no page. Where it is refused, a run takes
// longer and is else the same.
fn keep_freed(alloc: Global) {
    let _room: Result<Vec<u8>, _> = Vec::with_capacity(alloc, KEPT);
}

fn main(rt: HostRuntime) -> ExitCode {
    keep_freed(rt.alloc());
    let words: io::Result<Vec<String>> = env::args(&rt).and_then(|words| Ok(words.collect(
        rt.alloc(),
    )?));
    let words = match words {
        Ok(words) => words,
        Err(error) if error.kind() == io::ErrorKind::OutOfMemory => {
            return conclude(&rt, &End::OutOfMemory);
        }
        Err(_) => return conclude(&rt, &End::NotUtf8),
    };
    match job_of(rt.alloc(), &words) {
        Ok(job) => conclude(&rt, &end_of(&rt, &job)),
        Err(JobFault::Words(error)) => refuse_words(&rt, &error),
        Err(JobFault::Missing) => conclude(&rt, &End::Missing),
        Err(JobFault::Memory) => conclude(&rt, &End::OutOfMemory),
    }
}
