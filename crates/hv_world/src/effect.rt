//! Effects over numbers.

use crate::formula::Atom;
use crate::id::TypeId;

/// A part of what an action does to a state (PDDL's effect). An action first deletes all that its
/// effects make false, and then adds all that they make true: an atom that they make both is true.
#[derive(Drop)]
pub enum Effect {
    /// The atom becomes true (an add) or false (a delete).
    Becomes(bool, Atom),
    /// Each of these effects for every choice of objects of these types (PDDL's `forall`). Its
    /// variables are numbered behind those around it, as a quantifier's are.
    Forall(Vec<TypeId>, Vec<Effect>),
}
