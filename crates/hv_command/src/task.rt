//! What the words of the command line ask for.

use std::alloc::{AllocError, AllocFailed};
use thiserror::Error;

/// What is to be done with the files.
#[derive(Clone, Copy, Debug, PartialEq, Eq)]
pub enum Mode {
    /// To judge a plan.
    Judge,
    /// To check a certificate.
    Recheck,
    /// To write the canonical text of a domain.
    PrintDomain,
    /// To write the canonical text of a problem.
    PrintProblem,
    /// To write the canonical text of a plan.
    PrintPlan,
}

/// What the program is to do.
#[derive(Debug, Drop, PartialEq, Eq)]
pub struct Job {
    /// What is to be done with the files.
    pub mode: Mode,
    /// Their names as given: of the domain, the problem and the plan, in this order, with the
    /// certificate last where one is to be checked; or of the one text that is to be printed.
    pub files: Vec<String>,
    /// The limit on the choices of a node that are searched; 1,000,000 where none is given.
    pub limit: u64,
    /// Whether the certificate of a plan that solves its problem is written.
    pub explain: bool,
    /// Whether the line of a certificate that does not fit is said.
    pub misfit: bool,
}

/// Why the words name no job.
#[derive(Debug, Drop, Error)]
pub enum JobFault {
    /// They do not parse, or ask for help or the version.
    #[error("{0}")]
    Words(clap::Error),
    /// They parse, but lack a command or a value that each line must have.
    #[error("the command line lacks a command or a value")]
    Missing,
    /// A growth of memory was refused.
    #[error("out of memory")]
    Memory,
}

impl From<AllocError> for JobFault {
    fn from(_refused: AllocError) -> JobFault {
        JobFault::Memory
    }
}

impl<T: Drop> From<AllocFailed<T>> for JobFault {
    fn from(_refused: AllocFailed<T>) -> JobFault {
        JobFault::Memory
    }
}

impl From<clap::Error> for JobFault {
    fn from(error: clap::Error) -> JobFault {
        match error.kind() {
            clap::error::ErrorKind::OutOfMemory => JobFault::Memory,
            _ => JobFault::Words(error),
        }
    }
}
