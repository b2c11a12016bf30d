//! The first node of a tree that has more choices than a limit.

ghost use Rattle.std.specs.Prelude.{◌≡◌, MatchOption};
ghost use Rattle.hv_plan.specs.BuiltTrees.{tree_view};
ghost use Rattle.hv_plan.specs.PlanTrees.{IsTreeIn};
ghost use Rattle.hv_judge.specs.Causes.{IsFirstAbove, IsWithinLimit};
ghost use Rattle.hv_judge.specs.inside.Ends.{IsAboveAt, IsWithinAt};

use hv_match::{Matcher, exceeds};
use hv_plan::Tree;

// The line of the node at a place in the order of nodes, where its count is above the limit.
fn above_at(matcher: &Matcher<'_>, tree: &Tree, place: usize, limit: u64) -> Option<u32>
    requires { IsTreeIn matcher.now (tree_view tree.now) }
    ensures { MatchOption result
        (IsWithinAt matcher.now (tree_view tree.now) limit place)
        (IsAboveAt matcher.now (tree_view tree.now) limit place) }
{
    let number = tree.node_at(place)?;
    if !exceeds(matcher, tree, number, limit) {
        return None;
    }
    let node = tree.node(number)?;
    Some(node.line())
}

/// The line of the first node whose count is above the limit, in the order of nodes.
pub(crate) fn first_above(matcher: &Matcher<'_>, tree: &Tree, limit: u64) -> Option<u32>
    requires { IsTreeIn matcher.now (tree_view tree.now) }
    ensures { MatchOption result
        (IsWithinLimit matcher.now (tree_view tree.now) limit)
        (IsFirstAbove matcher.now (tree_view tree.now) limit) }
{
    for place in 0..tree.node_count() as usize {
        if let Some(line) = above_at(matcher, tree, place, limit) {
            return Some(line);
        }
    }
    None
}
