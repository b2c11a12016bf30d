//! Certificates: what is chosen for each node of a plan.

use hv_text::Name;

/// What is chosen for one node of a plan.
#[derive(Drop)]
pub struct Choice<'s> {
    /// For each subtask, in written order, the id of the child that does it.
    pub children: Vec<u64>,
    /// For each parameter, in written order, its object.
    pub objects: Vec<Name<'s>>,
}

/// Why a plan solves its problem: one choice for `root`, and for each decomposition line, in the
/// order of the text, its id, its choice and the index of the state in which its method's
/// precondition is true.
#[derive(Drop)]
pub struct Certificate<'s> {
    pub root: Choice<'s>,
    pub lines: Vec<(u64, Choice<'s>, u32)>,
}
