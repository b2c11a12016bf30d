//! The command line: which words there are, and the job that they name.
#![tactic(auto)]

mod help;
mod line;
mod task;

pub use line::job;
pub use task::{Job, JobFault, Mode};
