//! What the search works on, made from a world and a node of a tree.

ghost use Rattle.std.specs.Prelude.{◌≡◌, map, option_map, IfOk};
ghost use Rattle.hv_world.specs.Bindings.{ground_action_view};
ghost use Rattle.hv_world.specs.Views.{term_view};
ghost use Rattle.hv_world.specs.Worlds.{terms_of};
ghost use Rattle.hv_world.specs.MethodViews.{method_view};
ghost use Rattle.hv_world.specs.WorldViews.{world_view};
ghost use Rattle.hv_state.specs.Ever.{ever_rows};
ghost use Rattle.hv_plan.specs.BuiltTrees.{tree_view};
ghost use Rattle.hv_plan.specs.TreeViews.{child_view, node_view};
ghost use Rattle.hv_match.specs.Candidates as candidates;
ghost use Rattle.hv_match.specs.inside.PuzzleViews.{puzzle_view};
ghost use Rattle.hv_match.specs.inside.Checks.{tasks_of, tasks_at};
ghost use Rattle.hv_match.specs.inside.Tables.{work_view};
ghost use Rattle.hv_match.specs.inside.Ranges.{AreRangesOf, AreWorks, as_subtask, IsTableOf};

use crate::child_rows::child_rows;
use crate::counts::exact_count;
use crate::decided::{decided, decided_atoms};
use crate::foretold::tellers;
use crate::puzzle::{Puzzle, Work};
use crate::sources::sources;
use crate::table::MethodTable;
use hv_plan::{Child, Node, Tree};
use hv_state::{EverTrue, needed_atoms};
use hv_text::Memory;
use hv_world::{GroundAction, Method, Range, TaskName, Term, TypeId, World};
use std::alloc::Global;

/// The objects of each of these types.
pub(crate) fn ranges<'a>(
    alloc: Global,
    world: &'a World<'_>,
    types: &[TypeId],
) -> Result<Vec<Range<'a>>, Memory>
    ensures { IfOk result (λ v. AreRangesOf (world_view world.now) v.items types.now) }
{
    let mut ranges = Vec::new(alloc);
    for of in types {
        ranges.push(world.range_of(*of))?;
    }
    Ok(ranges)
}

// What an action does.
fn action_work<'a>(action: &GroundAction<'a>) -> Work<'a>
    ensures { as_subtask (work_view result)
        ≡ candidates.action_task (ground_action_view action.now) }
{
    Work {
        name: TaskName::Primitive(action.action()),
        objects: action.objects(),
    }
}

// What a node does; the root line's does nothing.
fn node_work<'a>(node: &Node<'a>) -> Option<Work<'a>>
    ensures { option_map as_subtask (option_map work_view result)
        ≡ candidates.node_task (node_view node.now) }
{
    match node.task() {
        None => None,
        Some(task) => Some(Work {
            name: TaskName::Compound(task),
            objects: node.objects(),
        }),
    }
}

/// What a child does, where the tree has it.
pub(crate) fn work<'a>(tree: &'a Tree, child: Child) -> Option<Work<'a>>
    ensures { option_map as_subtask (option_map work_view result)
        ≡ candidates.child_task (tree_view tree.now) (child_view child) }
{
    match child {
        Child::Action(action) => match tree.actions().get(action as usize) {
            None => None,
            Some(action) => Some(action_work(&action)),
        },
        Child::Node(node) => match tree.node(node) {
            None => None,
            Some(node) => node_work(&node),
        },
    }
}

// What these children do, in a list that had others.
fn works<'a>(
    room: Vec<Option<Work<'a>>>,
    tree: &'a Tree,
    children: &[Child],
) -> Result<Vec<Option<Work<'a>>>, Memory>
    ensures { IfOk result (λ v. AreWorks (map (option_map work_view) v.items)
        (tasks_of tree.now children.now)) }
{
    let mut works = room;
    works.clear();
    works.reserve(children.len())?;
    for child in children {
        works.push(work(tree, *child))?;
    }
    Ok(works)
}

/// The terms of a method's task; none where it has none.
pub(crate) fn terms<'a>(method: &'a Method<'_>) -> &'a [Term]
    ensures { map term_view result.now ≡ terms_of (method_view method.now).task }
{
    match method.task() {
        None => &[],
        Some(task) => &task.terms,
    }
}

/// The table of a method of a world.
pub(crate) fn method_table<'w>(
    alloc: Global,
    world: &'w World<'_>,
    method: &'w Method<'_>,
) -> Result<MethodTable<'w>, Memory>
    ensures { IfOk result (IsTableOf (world_view world.now) (method_view method.now)) }
{
    let ranges = ranges(alloc, world, method.parameters())?;
    let task = terms(method);
    let network = method.network();
    let subtasks = network.subtasks();
    let constraints = network.constraints();
    let sources = sources(alloc, ranges.len(), task, subtasks)?;
    let tellers = tellers(alloc, ranges.len(), network)?;
    let decided = decided(alloc, subtasks.len(), &sources, constraints)?;
    let needed = needed_atoms(alloc, method.precondition())?;
    let needed_by = decided_atoms(alloc, subtasks.len(), &sources, &needed)?;
    let count = exact_count(world, method);
    Ok(MethodTable {
        ranges,
        task,
        network,
        subtasks,
        constraints,
        decided,
        sources,
        tellers,
        needed,
        needed_by,
        count,
    })
}

/// The puzzle of a node whose method has this table. What its children do is put in a list that had
/// others.
pub(crate) fn puzzle<'a>(
    alloc: Global,
    room: Vec<Option<Work<'a>>>,
    table: &'a MethodTable<'a>,
    tree: &'a Tree,
    node: &Node<'a>,
    ever: Option<EverTrue<'a>>,
) -> Result<Puzzle<'a>, Memory>
    ensures ever { IfOk result (λ p. (puzzle_view p).ever ≡ option_map ever_rows ever.entry) }
    ensures table { IfOk result (λ p. p.table.now ≡ table.now) }
    ensures given { IfOk result (λ p. (puzzle_view p).objects ≡ (node_view node.now).objects) }
    ensures works { IfOk result (λ p. AreWorks (puzzle_view p).children
        (tasks_at tree.now node.now)) }
{
    let children = works(room, tree, node.children())?;
    // 32 bits are enough for the children in every text
    if u32::try_from(children.len()).is_err() {
        return Err(Memory);
    }
    let places = child_rows(alloc, table.network, &children)?;
    Ok(Puzzle {
        table,
        objects: node.objects(),
        children,
        places,
        ever,
    })
}
