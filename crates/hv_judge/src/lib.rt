//! The judge: from the bytes of three texts to a verdict.
#![tactic(auto)]

mod checking;
mod judgement;
mod law;
mod limit;
mod not_solved;
mod order;
mod printing;
mod rechecking;
mod rejection;
mod running;
mod verdict;

pub use checking::{CheckFault, Examined, Recheck, check};
pub use hv_answer::{
    Answer, Cause, CauseKind, Fault, FaultKind, Kind, Place, Verdict, Which, write_answer,
    write_verdict,
};
pub use hv_certificate::{Certificate, Choice};
pub use judgement::{decide, judge};
pub use law::{
    a_certificate_of_a_solution, a_solution_or_none, one_answer, one_recheck, values_or_a_rejection,
};
pub use printing::{Printed, run_print};
pub use rechecking::{RecheckKind, examine, recheck, run_examine, run_recheck};
pub use running::{RunFault, run};
