//! The tree that the lines of a plan form.

ghost use Rattle.std.specs.Prelude.{◌≡◌, ◌<◌, map, option_map, option_and_then, slice_get, length, IfSome};
ghost use Rattle.hv_world.specs.Bindings.{object_number, ground_actions_view};
ghost use Rattle.hv_plan.specs.BuiltTrees.{tree_view};
ghost use Rattle.hv_plan.specs.inside.FitViews.{decomposed_line, decomposed_lines};
ghost use Rattle.hv_plan.specs.inside.NodeViews.{node_of, node_of_line, node_of_root};
ghost use Rattle.hv_plan.specs.inside.ShapeViews.{shape_view, children_of_node};
ghost use Rattle.hv_plan.specs.TreeViews.{child_view, node_view};

use crate::fit::lines::{DecomposedLine, DecomposedLines};
use crate::origin::Origin;
use crate::shape::Shape;
use hv_world::{GroundActions, MethodId, ObjectId, TaskId};

/// What stands below a node: an action by its place in plan order, or a node by its number. 32 bits
/// are enough for the lines of every text.
#[derive(Clone, Copy, Debug, PartialEq, Eq)]
pub enum Child {
    Action(u32),
    Node(u32),
}

/// The line of a node and its number in the text; a decomposition line says an id, a
/// task and a method.
#[derive(Clone, Copy)]
pub(crate) enum Head {
    Root {
        line: u32,
    },
    Decomposition {
        line: u32,
        id: u64,
        task: TaskId,
        method: MethodId,
    },
}

/// A line that has children: a decomposition line, or the root line. It is lent by a tree.
#[derive(Clone, Copy)]
pub struct Node<'a> {
    pub(crate) head: Head,
    pub(crate) objects: &'a [ObjectId],
    pub(crate) children: &'a [Child],
}

/// The tree that the lines of a plan form: its actions, and its nodes, which name their children by
/// number. Children stand before parents, so that no walk needs recursion. The tree borrows nothing:
/// it has what is needed of the lines, over numbers, so that the plan that was read, which takes
/// some times the memory, may go before the plan is judged.
#[derive(Drop)]
pub struct Tree {
    pub(crate) action_origins: Vec<Origin>,
    pub(crate) line_origins: Vec<Origin>,
    pub(crate) root_line: u32,
    pub(crate) actions: GroundActions,
    pub(crate) said: DecomposedLines,
    pub(crate) shape: Shape,
}

impl<'a> Node<'a> {
    /// Its id; the root line has none.
    pub fn id(&self) -> Option<u64>
        ensures { result ≡ (node_view self.now).id }
    {
        match self.head {
            Head::Root { .. } => None,
            Head::Decomposition { id, .. } => Some(id),
        }
    }

    /// The number of its line in the text.
    pub fn line(&self) -> u32
        ensures { result ≡ (node_view self.now).line }
    {
        match self.head {
            Head::Root { line } => line,
            Head::Decomposition { line, .. } => line,
        }
    }

    /// Its task; the root line has none.
    pub fn task(&self) -> Option<TaskId>
        ensures { option_map (λ t. t.0) result ≡ (node_view self.now).task }
    {
        match self.head {
            Head::Root { .. } => None,
            Head::Decomposition { task, .. } => Some(task),
        }
    }

    /// The objects of its task.
    pub fn objects(&self) -> &'a [ObjectId]
        ensures { map object_number result.now ≡ (node_view self.now).objects }
    {
        self.objects
    }

    /// The method that decomposes its task; for the root line, which stands for the initial
    /// network, there is none.
    pub fn method(&self) -> Option<MethodId>
        ensures { option_map (λ m. m.0) result ≡ (node_view self.now).method }
    {
        match self.head {
            Head::Root { .. } => None,
            Head::Decomposition { method, .. } => Some(method),
        }
    }

    /// What stands below it, in the order of the line.
    pub fn children(&self) -> &'a [Child]
        ensures { map child_view result.now ≡ (node_view self.now).children }
    {
        self.children
    }
}

// The node of a decomposition line that says this.
fn line_node<'a>(origin: Origin, said: DecomposedLine<'a>, children: &'a [Child]) -> Node<'a>
    ensures { node_view result
        ≡ node_of_line origin (decomposed_line said.entry) (map child_view children.now) }
{
    Node {
        head: Head::Decomposition {
            line: origin.line,
            id: origin.id,
            task: said.task,
            method: said.method,
        },
        objects: said.objects,
        children,
    }
}

// The node of the root line.
fn root_node<'a>(line: u32, children: &'a [Child]) -> Node<'a>
    ensures { node_view result ≡ node_of_root line (map child_view children.now) }
{
    Node {
        head: Head::Root { line },
        objects: &[],
        children,
    }
}

impl Tree {
    /// The actions, in plan order.
    pub fn actions(&self) -> &GroundActions
        ensures { ground_actions_view result.now ≡ (tree_view self.now).actions }
    {
        &self.actions
    }

    /// The id of the action of a place in plan order, where there is one.
    pub fn action_id(&self, action: usize) -> Option<u64>
        ensures { result ≡ slice_get (tree_view self.now).action_ids action }
    {
        Some(self.action_origins.get(action)?.id)
    }

    /// The number of the line of the action of a place in plan order, where there is one.
    pub fn action_line(&self, action: usize) -> Option<u32>
        ensures { result ≡ slice_get (tree_view self.now).action_lines action }
    {
        Some(self.action_origins.get(action)?.line)
    }

    /// How many nodes there are, one at least: children have lower numbers than parents, and the
    /// last node is that of the root line.
    pub fn node_count(&self) -> u32
        ensures { result ≡ length (tree_view self.now).nodes }
    {
        self.shape.root + 1
    }

    // The place of the line of a node, where it is a decomposition line.
    fn place_of(&self, node: usize) -> Option<usize>
        ensures { result ≡ slice_get self.now.shape.lines.items node }
    {
        match self.shape.lines.get(node) {
            Some(place) => Some(*place as usize),
            None => None,
        }
    }

    // The children of a node.
    fn children_of(&self, node: usize) -> &[Child]
        ensures { map child_view result.now ≡ children_of_node (shape_view self.now.shape) node }
    {
        self.shape.children.at(node)
    }

    // The node of a number, whose line has this place.
    #[inline(always)]
    fn node_of_place(&self, node: usize, place: Option<usize>) -> Node<'_>
        ensures { node_view result ≡ node_of self.now.root_line
            (option_and_then (slice_get self.now.line_origins.items) place)
            (option_and_then (slice_get (decomposed_lines self.now.said)) place)
            (children_of_node (shape_view self.now.shape) node) }
    {
        let children = self.children_of(node);
        let Some(place) = place else {
            return root_node(self.root_line, children);
        };
        let Some(origin) = self.line_origins.get(place) else {
            return root_node(self.root_line, children);
        };
        match self.said.get(place) {
            Some(said) => line_node(*origin, said, children),
            None => root_node(self.root_line, children),
        }
    }

    /// The node of a number, where there is one. It is inlined, so that what is not asked of the
    /// node is not looked up.
    #[inline(always)]
    pub fn node(&self, node: u32) -> Option<Node<'_>>
        ensures { option_map node_view result ≡ slice_get (tree_view self.now).nodes node }
    {
        if node <= self.shape.root {
            Some(self.node_of_place(node as usize, self.place_of(node as usize)))
        } else {
            None
        }
    }

    // The number of the node of the decomposition line at a place, where there is one.
    fn number_of(&self, line: usize) -> Option<u32>
        ensures { result ≡ slice_get self.now.shape.numbers.items line }
    {
        self.shape.numbers.get(line).copied()
    }

    /// The number of the k-th node in the order of nodes, where there is one: 0 is the root line,
    /// and the decomposition lines follow as the text has them.
    pub fn node_at(&self, k: usize) -> Option<u32>
        ensures number { result ≡ slice_get (tree_view self.now).order k }
        ensures within { IfSome result (λ v. v < length (tree_view self.now).nodes) }
    {
        match k.checked_sub(1) {
            None => Some(self.shape.root),
            Some(line) => self.number_of(line),
        }
    }
}
