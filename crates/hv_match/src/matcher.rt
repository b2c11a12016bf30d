//! What the search keeps of the methods of a world.

ghost use Rattle.std.specs.Prelude.{◌≡◌, ◌<◌, Some, length, option_map, slice_get, IfOk};
ghost use Rattle.hv_world.specs.WorldViews.{world_view};
ghost use Rattle.hv_plan.specs.BuiltTrees.{tree_view};
ghost use Rattle.hv_plan.specs.PlanTrees.{IsTreeIn};
ghost use Rattle.hv_plan.specs.TreeViews.{node_view};
ghost use Rattle.hv_match.specs.inside.Ranges.{AreTables, HasTable, IsTableAt};

use crate::make::method_table;
use crate::table::MethodTable;
use hv_plan::{Node, Tree};
use hv_text::Memory;
use hv_world::{Method, World};
use std::alloc::Global;
use std::marker::Model;

/// A world made ready for the search for candidates: what its methods alone say is found out once,
/// for all nodes of all trees.
#[derive(Drop)]
pub struct Matcher<'w> {
    world: &'w World<'w>,
    // The tables of the initial network and of the methods.
    top: MethodTable<'w>,
    methods: Vec<MethodTable<'w>>,
}

impl<'w> Model for Matcher<'w> {
    ghost use Rattle.std.specs.Coded.{codes};
    ghost use Rattle.hv_world.specs.Worlds.{World};
    ghost use Rattle.hv_world.specs.WorldViews.{world_view};
    ghost use Rattle.hv_world.specs.Codes.{formula_code, effects_code};
    ghost use Rattle.hv_match.specs.inside.Ranges.{AreTablesOf};

    ghost Value = { World };

    ghost coded = { Prim.hlevel (codes, formula_code, effects_code) };

    ghost view = { λ s. world_view s.world.now };

    ghost invariant = { λ s. AreTablesOf (world_view s.world.now) s.top s.methods.items };
}

// The tables of methods.
fn tables<'w>(
    alloc: Global,
    world: &'w World<'_>,
    methods: &'w [Method<'_>],
) -> Result<Vec<MethodTable<'w>>, Memory>
    ensures { IfOk result (λ v. AreTables (world_view world.now) methods.now v.items) }
{
    let mut tables = Vec::new(alloc);
    for method in methods {
        let table = method_table(alloc, world, method)?;
        tables.push(table)?;
    }
    Ok(tables)
}

// The table of a number, where there is one.
fn table_at<'a, 'w>(tables: &'a [MethodTable<'w>], number: usize) -> Option<&'a MethodTable<'w>>
    ensures { option_map (λ t. t.now) result ≡ slice_get tables.now number }
{
    tables.get(number)
}

impl<'w> Matcher<'w> {
    /// Makes a world ready.
    pub fn new(alloc: Global, world: &'w World<'w>) -> Result<Matcher<'w>, Memory>
        ensures { IfOk result (λ m. m ≡ world_view world.now) }
    {
        let top = method_table(alloc, world, world.top())?;
        let methods = tables(alloc, world, world.methods())?;
        Ok(Matcher {
            world,
            top,
            methods,
        })
    }

    // The table of the method of a node, where the world has the method.
    fn node_table(&self, node: &Node<'_>) -> Option<&MethodTable<'w>>
        ensures { HasTable self.now (node_view node.now) result }
    {
        match node.method() {
            None => Some(&self.top),
            Some(method) => table_at(&self.methods, method.0),
        }
    }

    /// The node of a number of a tree of this world, and the table of its method. It is inlined, so
    /// that what is not asked of the node is not looked up.
    #[inline(always)]
    pub(crate) fn node_and_table<'a>(
        &'a self,
        tree: &'a Tree,
        node: u32,
    ) -> (Node<'a>, &'a MethodTable<'w>)
        requires tree { IsTreeIn self.now (tree_view tree.now) }
        requires node { node < length (tree_view tree.now).nodes }
        ensures node { slice_get (tree_view tree.now).nodes node ≡ Some (node_view result.0) }
        ensures table { IsTableAt self.now (node_view result.0) result.1.now }
    {
        match tree.node(node) {
            Some(node) => match self.node_table(&node) {
                Some(table) => (node, table),
                None => unreachable!(),
            },
            None => unreachable!(),
        }
    }
}
