//! Certificates: why a plan solves its problem, and their text.
#![tactic(auto)]

pub mod certificate;
mod choice;
mod fault;
mod laws;
mod number;
mod print;
mod read;
#[cfg(test)]
mod tests;
mod words;

pub use certificate::{Certificate, Choice};
pub use fault::CertFault;
pub use laws::{a_certificate_or_a_fault, certificates_are_their_texts};
pub use print::print_cert;
pub use read::read_cert;
