//! The candidates of the nodes of a plan: which child is which subtask, and which objects the
//! parameters have.

#![tactic(auto)]

mod candidates;
mod check;
mod child_rows;
mod counts;
mod decided;
mod forced;
mod foretold;
mod laws;
mod make;
mod matcher;
mod parts;
mod possible;
mod prune;
mod puzzle;
mod puzzle_laws;
mod rule;
mod skip;
mod sources;
mod state;
mod table;

pub use candidates::{CandidateRoom, Candidates};
pub use check::{Room, is_candidate};
pub use counts::{count, exceeds};
pub use laws::{counts_are_one, nodes_have_methods};
pub use matcher::Matcher;
