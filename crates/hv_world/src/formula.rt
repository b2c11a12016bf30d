//! Formulas over numbers.

use crate::id::{ObjectId, PredicateId, TaskName, TypeId};
use smallvec::SmallVec;

/// A term: an object, or a variable. The variables in scope are numbered from 0: first the
/// parameters as written, then those of the quantifiers around, the outermost first.
#[derive(Clone, Copy, Debug)]
pub enum Term {
    Object(ObjectId),
    Variable(usize),
}

// What stands where a short list of terms has room left.
impl Default for Term {
    fn default() -> Term {
        Term::Object(ObjectId(0))
    }
}

/// A predicate and its terms. Mostly these are one or two, which take no allocation.
#[derive(Drop)]
pub struct Atom {
    pub predicate: PredicateId,
    pub terms: SmallVec<Term, 2>,
}

/// A formula, as preconditions and goals have it (PDDL's goal description).
#[derive(Drop)]
pub enum Formula {
    /// The atom is true.
    Holds(Atom),
    /// All of these hold; where there are none, it is true.
    And(Vec<Formula>),
    /// One of these holds; where there are none, it is false.
    Or(Vec<Formula>),
    /// This one does not hold.
    Not(Box<Formula>),
    /// The second holds where the first does.
    Imply(Box<Formula>, Box<Formula>),
    /// It holds for all objects of these types.
    Forall(Vec<TypeId>, Box<Formula>),
    /// It holds for some objects of these types.
    Exists(Vec<TypeId>, Box<Formula>),
    /// Both terms are one object.
    Equal(Term, Term),
}

/// A subtask: what is to be done, and with what.
#[derive(Drop)]
pub struct Subtask {
    pub name: TaskName,
    pub terms: SmallVec<Term, 2>,
}

/// A constraint: two terms are one object, or they are not.
#[derive(Clone, Copy)]
pub struct Constraint {
    pub is_equal: bool,
    pub left: Term,
    pub right: Term,
}
