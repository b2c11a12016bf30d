//! Laws of puzzles. These functions do nothing: their contracts are the laws.

ghost use Rattle.hv_match.specs.inside.Ways.{OrdersAreWays, WaysAreCounts, WaysAreEnough};

use hv_world::{classes_are_counted, instances_keep_their_key};

/// A search finds no more than the ways that there may be.
pub(crate) fn ways_are_enough()
    ensures { WaysAreEnough }
{
    instances_keep_their_key();
}

/// The ways of the subtasks are the orders of their classes.
pub(crate) fn orders_are_ways()
    ensures { OrdersAreWays }
{
    classes_are_counted();
}

/// The ways of the puzzle of a node are its count.
pub(crate) fn ways_are_counts()
    ensures { WaysAreCounts }
{
    orders_are_ways();
}
