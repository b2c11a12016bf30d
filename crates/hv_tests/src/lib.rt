//! The tests of the library crates below the judge, which call their public items alone. Beside the
//! tests there is nothing here.
#![tactic(auto)]

#[cfg(test)]
mod candidates;
#[cfg(test)]
mod state;
#[cfg(test)]
mod text;
#[cfg(test)]
mod texts;
#[cfg(test)]
mod tree;
#[cfg(test)]
mod world;
#[cfg(test)]
mod worlds;
