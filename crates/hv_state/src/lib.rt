//! What holds in a state, what an action leaves, and which states a plan passes.

#![tactic(auto)]

mod atom;
mod bit_state;
mod bits;
mod changes;
mod evaluate;
mod ever;
mod facts;
mod find;
mod gap;
mod ground;
mod guesses;
mod history;
mod lacks;
mod lanes;
mod laws;
mod lit;
mod made;
mod makes;
mod needed;
mod next;
mod pass;
mod rows;
mod shared;
mod sorted;
mod state;
mod touched;
mod trace;

pub use atom::AtomView;
pub use bit_state::BitState;
pub use evaluate::truth;
pub use ever::EverTrue;
pub use ground::GroundAtoms;
pub use lanes::next_row;
pub use laws::{
    adds_come_last, changes_tell, needed_atoms_are_true, no_object_fails_and_none_serves,
    truth_is_decided, truth_is_of_sets, truth_stays,
};
pub use needed::needed_atoms;
pub use sorted::SortedState;
pub use state::State;
pub use trace::{Stop, Trace};
