//! The names of children and of subtasks, and a number for each.

ghost use Rattle.std.specs.Prelude.{◌≡◌, ◌+◌, ◌<◌, ◌^◌, None, Some, length, map, option_map, if◌then◌else◌, IfOk, IfSome};
ghost use Rattle.hv_world.specs.Bindings.{ground_actions_view};
ghost use Rattle.hv_world.specs.Views.{name_view, subtask_view};
ghost use Rattle.hv_world.specs.WorldViews.{world_view};
ghost use Rattle.hv_plan.specs.Fits.{names_of};
ghost use Rattle.hv_plan.specs.inside.FitViews.{decomposed_lines, item_name};
ghost use Rattle.hv_plan.specs.Forms.{every};
ghost use Rattle.hv_plan.specs.inside.Tallies.{number_in};
ghost use Rattle.hv_plan.specs.Trees as items;
ghost use Rattle.hv_plan.specs.TreeViews.{child_view};

use crate::fit::lines::DecomposedLines;
use crate::tree::Child;
use hv_text::Memory;
use hv_world::{GroundActions, Subtask, TaskName, World};

/// How many tasks and actions a world has. Each has a number: the tasks come first.
#[derive(Clone, Copy)]
pub(crate) struct Sizes {
    pub(crate) tasks: usize,
    pub(crate) actions: usize,
    ghost sum: { tasks + actions < 2 ^ 64 },
}

/// What names the children of nodes: the actions, what the decomposition lines say, and the line of
/// each node.
#[derive(Clone, Copy)]
pub(crate) struct Said<'a> {
    pub(crate) actions: &'a GroundActions,
    pub(crate) lines: &'a DecomposedLines,
    pub(crate) places: &'a [u32],
}

impl Sizes {
    /// The sizes of a world; None where there would be too many numbers.
    pub(crate) fn of(world: &World<'_>) -> Option<Sizes>
        ensures { IfSome result (λ s. (s.tasks ≡ length (world_view world.now).tasks)
            × (s.actions ≡ length (world_view world.now).actions)) }
    {
        let tasks = world.tasks().len();
        let actions = world.actions().len();
        if actions <= usize::MAX - tasks {
            Some(Sizes { tasks, actions })
        } else {
            None
        }
    }

    // The number of a task or an action, where there is one.
    fn number(self, name: TaskName) -> Option<usize>
        ensures { result ≡ number_in self.tasks self.actions (name_view name) }
    {
        match name {
            TaskName::Compound(task) => {
                if task.0 < self.tasks {
                    Some(task.0)
                } else {
                    None
                }
            }
            TaskName::Primitive(action) => {
                if action.0 < self.actions {
                    Some(self.tasks + action.0)
                } else {
                    None
                }
            }
        }
    }
}

/// Puts the numbers of names in place of what a list has; false where one of them has none.
///
/// # Errors
///
/// `Memory` where a growth was refused.
pub(crate) fn put_numbers(
    numbers: &mut Vec<usize>,
    sizes: Sizes,
    names: &[TaskName],
) -> Result<bool, Memory>
    ensures { IfOk result (λ b. every (number_in sizes.tasks sizes.actions)
        (map name_view names.now) ≡ (if b then Some numbers.new.items else None)) }
{
    numbers.clear();
    for name in names {
        let Some(number) = sizes.number(*name) else {
            return Ok(false);
        };
        numbers.push(number)?;
    }
    Ok(true)
}

/// Puts the numbers of the names of subtasks in place of what a list has; false where one of them
/// has none.
///
/// # Errors
///
/// `Memory` where a growth was refused.
pub(crate) fn put_numbers_of_subtasks(
    numbers: &mut Vec<usize>,
    sizes: Sizes,
    subtasks: &[Subtask],
) -> Result<bool, Memory>
    ensures { IfOk result (λ b. every (number_in sizes.tasks sizes.actions)
        (names_of (map subtask_view subtasks.now)) ≡ (if b then Some numbers.new.items else None)) }
{
    numbers.clear();
    for subtask in subtasks {
        let Some(number) = sizes.number(subtask.name) else {
            return Ok(false);
        };
        numbers.push(number)?;
    }
    Ok(true)
}

impl Said<'_> {
    // The task of a node, where there is one.
    fn task_name(&self, node: usize) -> Option<TaskName>
        ensures { option_map name_view result
            ≡ item_name (ground_actions_view self.now.actions.now)
            (decomposed_lines self.now.lines.now) self.now.places.now (items.Task node) }
    {
        let place = *self.places.get(node)?;
        let line = self.lines.get(place as usize)?;
        Some(TaskName::Compound(line.task))
    }

    // The name of a child, where there is one.
    fn name(&self, child: Child) -> Option<TaskName>
        ensures { option_map name_view result
            ≡ item_name (ground_actions_view self.now.actions.now)
            (decomposed_lines self.now.lines.now) self.now.places.now (child_view child) }
    {
        match child {
            Child::Action(action) => match self.actions.get(action as usize) {
                Some(action) => Some(TaskName::Primitive(action.action())),
                None => None,
            },
            Child::Node(node) => self.task_name(node as usize),
        }
    }

    /// Puts the names of children in place of what a list has; false where one of them has none.
    ///
    /// # Errors
    ///
    /// `Memory` where a growth was refused.
    pub(crate) fn put_names(
        &self,
        names: &mut Vec<TaskName>,
        children: &[Child],
    ) -> Result<bool, Memory>
        ensures { IfOk result (λ b. every
            (item_name (ground_actions_view self.now.actions.now)
            (decomposed_lines self.now.lines.now) self.now.places.now) (map child_view children.now)
            ≡ (if b then Some (map name_view names.new.items) else None)) }
    {
        names.clear();
        for child in children {
            let Some(name) = self.name(*child) else {
                return Ok(false);
            };
            names.push(name)?;
        }
        Ok(true)
    }
}
