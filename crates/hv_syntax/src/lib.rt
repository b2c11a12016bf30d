//! The language of domains and problems: what they say, with the place of every word.
#![tactic(auto)]

mod action;
mod domain;
mod effect;
mod formula;
mod ground;
mod init;
mod literal;
mod method;
mod network;
mod predicate;
mod problem;
mod task;
mod term;
mod typed;
mod variable;
mod word;

pub use action::ActionText;
pub use domain::{DomainSection, DomainText};
pub use effect::{EffectText, ItemText};
pub use formula::FormulaText;
pub use ground::GroundLiteral;
pub use init::{InitLiterals, InitText};
pub use literal::{LentLiteral, LiteralText};
pub use method::MethodText;
pub use network::{ConstraintText, NetworkText, PairText, SubtaskText};
pub use predicate::PredicateText;
pub use problem::{HtnText, ProblemParts, ProblemSection, ProblemText};
pub use task::TaskText;
pub use term::{AtomText, LentAtom, TermText};
pub use typed::{TypeText, TypedText};
pub use variable::VariableText;
pub use word::Placed;
