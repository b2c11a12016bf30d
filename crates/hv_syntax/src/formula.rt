//! Formulas.

use crate::term::{AtomText, TermText};
use crate::variable::VariableText;

/// A formula, as preconditions and goals have it (PDDL's goal description).
#[derive(Drop)]
pub enum FormulaText<'s> {
    /// The atom is true.
    Holds(AtomText<'s>),
    /// All of these hold; none of them is always true.
    And(Vec<FormulaText<'s>>),
    /// One of these holds; none of them is never true.
    Or(Vec<FormulaText<'s>>),
    /// This one does not hold.
    Not(Box<FormulaText<'s>>),
    /// The second holds where the first does.
    Imply(Box<FormulaText<'s>>, Box<FormulaText<'s>>),
    /// It holds for all objects of these types.
    Forall(Vec<VariableText<'s>>, Box<FormulaText<'s>>),
    /// It holds for some objects of these types.
    Exists(Vec<VariableText<'s>>, Box<FormulaText<'s>>),
    /// Both terms are one object.
    Equal(TermText<'s>, TermText<'s>),
}
