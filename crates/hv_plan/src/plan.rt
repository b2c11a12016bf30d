//! A plan: its action lines, its decomposition lines and its root line.

mod actions;
mod decompositions;

ghost use Rattle.std.specs.Prelude.{◌≡◌};
ghost use Rattle.hv_plan.specs.PlanLines.{actions_view, decompositions_view, plan_of};
ghost use Rattle.hv_plan.specs.Shapes.{IsInTextOrder};

pub use actions::{ActionLine, ActionLines, ActionLinesIter};
pub use decompositions::{DecompositionLine, DecompositionLines, DecompositionLinesIter};

/// A plan: its action lines and its decomposition lines, each kind in the order of the text, and
/// its root line; no two of them have one number.
#[derive(Drop)]
pub struct PlanText<'s> {
    pub(crate) actions: ActionLines<'s>,
    pub(crate) root: Vec<u64>,
    pub(crate) root_line: u32,
    pub(crate) decompositions: DecompositionLines<'s>,
    pub ghost order: { IsInTextOrder (plan_of actions root.items root_line decompositions) },
}

impl<'s> PlanText<'s> {
    ghost use Rattle.hv_plan.specs.LineViews.{plan_view};

    /// Its action lines, in the order of the text.
    pub fn actions(&self) -> &ActionLines<'s>
        ensures { actions_view result.now ≡ (plan_view self.now).actions }
    {
        &self.actions
    }

    /// The ids of the tasks of the initial network, as written.
    pub fn root(&self) -> &[u64]
        ensures { result.now ≡ (plan_view self.now).root.ids }
    {
        &self.root
    }

    /// The number of the root line in the text.
    pub fn root_line(&self) -> u32
        ensures { result ≡ (plan_view self.now).root.line }
    {
        self.root_line
    }

    /// Its decomposition lines, in the order of the text.
    pub fn decompositions(&self) -> &DecompositionLines<'s>
        ensures { decompositions_view result.now ≡ (plan_view self.now).decompositions }
    {
        &self.decompositions
    }
}
