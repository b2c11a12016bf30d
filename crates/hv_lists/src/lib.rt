//! Words on lists, and lemmas on lists, numbers and truth values that the proofs of several crates
//! use. There is no code here but a law.
#![tactic(auto)]

mod laws;

pub use laws::once_by_cases;
