//! Where the actions and the nodes of a plan come from.

ghost use Rattle.std.specs.Prelude.{◌≡◌, map, IfOk};
ghost use Rattle.hv_plan.specs.LineViews.{actions_view, decompositions_view};
ghost use Rattle.hv_plan.specs.inside.Origins.{origin_of_action, origin_of_line};

use crate::plan::{ActionLines, DecompositionLines};
use hv_text::Memory;
use std::alloc::Global;

/// Where an action or a node comes from: the id of its line, and the number of the line in the
/// text.
#[derive(Clone, Copy)]
pub(crate) struct Origin {
    pub(crate) id: u64,
    pub(crate) line: u32,
}

/// Where the actions of action lines come from.
///
/// # Errors
///
/// `Memory` where a growth was refused.
pub(crate) fn action_origins(alloc: Global, lines: &ActionLines<'_>) -> Result<Vec<Origin>, Memory>
    ensures { IfOk result (λ v. v.items ≡ map origin_of_action (actions_view lines.now)) }
{
    let mut origins = Vec::with_capacity(alloc, lines.len())?;
    for line in lines.iter() {
        origins.push(Origin {
            id: line.id,
            line: line.line,
        })?;
    }
    Ok(origins)
}

/// Where the nodes of decomposition lines come from.
///
/// # Errors
///
/// `Memory` where a growth was refused.
pub(crate) fn line_origins(
    alloc: Global,
    lines: &DecompositionLines<'_>,
) -> Result<Vec<Origin>, Memory>
    ensures { IfOk result (λ v. v.items ≡ map origin_of_line (decompositions_view lines.now)) }
{
    let mut origins = Vec::with_capacity(alloc, lines.len())?;
    for line in lines.iter() {
        origins.push(Origin {
            id: line.id,
            line: line.line,
        })?;
    }
    Ok(origins)
}
