//! What stands for a candidate's subtasks: actions of the plan, and nodes.
ghost use Rattle.std.specs.Prelude.{◌≡◌, ◌<◌, ◌≤◌, IfOk, IfErr};
ghost use Rattle.hv_order.specs.Finishes.{ActionFits};
ghost use Rattle.hv_order.specs.inside.Children.{IsNodeBelow, IsLatestStart};
ghost use Rattle.hv_order.specs.inside.Facts.{IsRunOf, IsChildRun};

use crate::trial::{Finish, Run, Table};
use hv_plan::Child;

/// The run of an action in which a start lies. It begins in the state of its number, for each start
/// up to that, and is over in the next.
pub fn run_of_action(action: u32, start: u32, last: u32) -> Run
    requires start { start ≤ last }
    ensures { IsRunOf (ActionFits action) last start result }
{
    let never = Run { last, finish: None };
    if action < start {
        return never;
    }
    if last <= action {
        return never;
    }
    Run {
        last: action,
        finish: Some(action + 1),
    }
}

/// The last state up to `cap` in which all of these children can still begin, as far as the actions
/// among them say: none begins behind the state of its number.
pub fn latest_start(children: &[Child], cap: u32) -> u32
    ensures { IsLatestStart children.now cap result }
{
    let mut latest = cap;
    for child in children {
        match *child {
            Child::Action(action) => latest = latest.min(action),
            Child::Node(_) => {}
        }
    }
    latest
}

/// The run of a child in which a start lies, or the node whose finish for this start is not known.
pub fn run_of_child<T: Table>(table: &T, child: Child, start: u32, last: u32) -> Result<Run, u32>
    requires last { last ≡ (T.facts table.now).last }
    requires sound { T.sound table.now }
    requires child { IsNodeBelow (T.size table.now) child }
    requires start { start ≤ (T.facts table.now).last }
    ensures known { IfOk result (IsChildRun (T.facts table.now) child start) }
    ensures unknown { IfErr result (λ node. T.unknown table.now node start) }
{
    match child {
        Child::Action(action) => Ok(run_of_action(action, start, last)),
        Child::Node(node) => match table.look_up(node, start) {
            Finish::Unknown => Err(node),
            Finish::Known(run) => Ok(run),
        },
    }
}
