//! The tests of the command line, which call its public items alone. Beside the tests there is
//! nothing here.
#![tactic(auto)]

#[cfg(test)]
mod words;
