//! Answers: what is said of a domain, a problem and a plan, and its text. How a verdict is found is
//! not known here.
#![tactic(auto)]

mod answer;
mod write;

pub use answer::{Answer, Cause, CauseKind, Fault, FaultKind, Kind, Place, Verdict, Which};
pub use write::{write_answer, write_refusal, write_verdict};
