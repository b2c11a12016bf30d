//! The tests of the judge that its worked texts do not hold: certificates that are given, as values
//! and as texts, readers and writers that falter, a long chain, and texts that are printed anew.
//! They call its public items alone; beside them there is nothing here.
#![tactic(auto)]

#[cfg(test)]
mod chain;
#[cfg(test)]
mod check;
#[cfg(test)]
mod faltering;
#[cfg(test)]
mod judged;
#[cfg(test)]
mod printing;
#[cfg(test)]
mod rechecked;
