//! The text of a plan: what it says, line by line, and its canonical text.

#![tactic(auto)]

mod build;
mod cause;
mod fault;
mod fit;
mod form;
mod id;
mod id_table;
mod ids;
mod laws;
mod lines;
mod origin;
mod plan;
mod print;
mod read;
mod shape;
mod subtasks;
mod task;
mod tree;

pub use cause::{Cause, CauseKind, TreeFault};
pub use fault::PlanFault;
pub use id_table::{place_in, table_of_ids};
pub use laws::{
    a_plan_has_one_tree, a_plan_or_a_fault, a_tree_or_a_cause, forms_are_spelled, nodes_are_lines,
    plans_are_read_back, plans_are_small, plans_are_spelled,
};
pub use plan::{
    ActionLine, ActionLines, ActionLinesIter, DecompositionLine, DecompositionLines,
    DecompositionLinesIter, PlanText,
};
pub use print::print_plan;
pub use read::read_plan;
pub use tree::{Child, Node, Tree};
