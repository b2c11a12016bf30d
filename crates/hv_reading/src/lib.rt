//! Texts of domains and problems: reading them, and printing them in one canonical form.
#![tactic(auto)]

mod action;
mod domain;
mod effect;
mod fault;
mod field;
mod formula;
mod laws;
mod list;
mod literal;
mod method;
mod network;
mod predicate;
mod print;
mod print_law;
mod problem;
mod read;
mod refusal;
mod section;
mod stream;
mod task;
mod term;
mod typed;
mod unsupported;
mod variable;
mod word;

pub use fault::{SyntaxFault, SyntaxKind};
pub use laws::{
    a_domain_or_a_fault, a_problem_or_a_fault, a_text_says_one_thing, a_value_or_a_fault,
    atoms_are_spelled, effects_are_spelled, faults_are_first, fields_are_pairs,
    formulas_are_spelled, letter_case_decides_nothing, networks_are_spelled, sections_stand_once,
    texts_are_spelled, typed_lists_are_spelled,
};
pub use print::{print_domain, print_problem};
pub use print_law::{
    domain_texts_are_printed_again, domain_texts_are_read_back, domain_texts_have_their_expression,
    domains_are_printed_alike, domains_are_read_again, domains_are_read_wherever_they_stand,
    effects_are_read_again, formulas_are_read_again, problem_texts_are_printed_again,
    problem_texts_are_read_back, problem_texts_have_their_expression, problems_are_printed_alike,
    problems_are_read_again, problems_are_read_wherever_they_stand,
    texts_have_the_words_of_their_expressions,
};
pub use read::{read_domain, read_problem};
