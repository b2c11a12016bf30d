//! How the subtasks of methods are laid out.
ghost use Rattle.std.specs.Prelude.{◌≡◌, ◌<◌, length, map, option_map, slice_get, IfOk};
ghost use Rattle.std.specs.Rc.{rc_value};
ghost use Rattle.hv_world.specs.MethodViews.{method_view};
ghost use Rattle.hv_world.specs.WorldViews.{world_view};
ghost use Rattle.hv_plan.specs.BuiltTrees.{tree_view};
ghost use Rattle.hv_plan.specs.PlanTrees.{IsTreeIn};
ghost use Rattle.hv_order.specs.inside.Sequencings.{AreDirects, IsSequencing, IsSequencingOf, AreSequencings, AreSequencingsOf, IsSequencingAt};

use crate::memory::Memory;
use crate::node_methods::node_of;
use hv_plan::Tree;
use hv_text::Lists;
use hv_world::{Method, Order, World};
use std::alloc::Global;
use std::rc::Rc;

/// The subtasks of a method in an order that is allowed, and those directly before each.
#[derive(Drop)]
pub struct Sequencing {
    pub order: Vec<usize>,
    pub direct: Lists<usize>,
}

/// The sequencings of the methods of a world, by their numbers, and of its initial network. All
/// candidates of the nodes with one method share its sequencing.
#[derive(Drop)]
pub struct Sequencings {
    pub methods: Vec<Rc<Sequencing>>,
    pub top: Rc<Sequencing>,
}

// For each subtask the list of those directly before it.
fn directs(alloc: Global, order: &Order, count: usize) -> Result<Lists<usize>, Memory>
    requires { count ≡ order.now.len }
    ensures { IfOk result (AreDirects order.now) }
{
    let mut lists = Lists::with_capacity(alloc, count)?;
    for subtask in 0..count {
        lists.push(order.directly_before(subtask))?;
    }
    Ok(lists)
}

/// The sequencing that an order allows.
pub fn make_sequencing(alloc: Global, order: &Order) -> Result<Sequencing, Memory>
    ensures { IfOk result (IsSequencing order.now) }
{
    let arrangement = order.arrangement();
    Ok(Sequencing {
        order: Vec::from_slice(alloc, arrangement)?,
        direct: directs(alloc, order, arrangement.len())?,
    })
}

/// The sequencing of a method, to be shared.
pub fn shared(alloc: Global, method: &Method<'_>) -> Result<Rc<Sequencing>, Memory>
    ensures { IfOk result (λ s. IsSequencingOf (method_view method.now) s.value) }
{
    let made = make_sequencing(alloc, method.network().order())?;
    Ok(Rc::new(alloc, made)?)
}

// The sequencings of methods.
fn all_shared(alloc: Global, methods: &[Method<'_>]) -> Result<Vec<Rc<Sequencing>>, Memory>
    ensures { IfOk result (λ v. AreSequencings methods.now (map rc_value v.items)) }
{
    let mut made = Vec::with_capacity(alloc, methods.len())?;
    for method in methods {
        made.push(shared(alloc, method)?)?;
    }
    Ok(made)
}

/// The sequencings of the methods of a world.
pub fn make_sequencings(alloc: Global, world: &World<'_>) -> Result<Sequencings, Memory>
    ensures { IfOk result (AreSequencingsOf (world_view world.now)) }
{
    Ok(Sequencings {
        methods: all_shared(alloc, world.methods())?,
        top: shared(alloc, world.top())?,
    })
}

// The sequencing of a number, where there is one.
fn shared_at(shared: &[Rc<Sequencing>], number: usize) -> Option<&Rc<Sequencing>>
    ensures { option_map (λ s. s.now) result ≡ slice_get shared.now number }
{
    shared.get(number)
}

/// The sequencing of the method of the node of a number, in a tree of this world.
pub(crate) fn sequencing_of<'a>(
    _world: &World<'_>,
    sequencings: &'a Sequencings,
    tree: &Tree,
    number: u32,
) -> &'a Rc<Sequencing>
    requires tree { IsTreeIn (world_view _world.now) (tree_view tree.now) }
    requires number { number < length (tree_view tree.now).nodes }
    requires sequencings { AreSequencingsOf (world_view _world.now) sequencings.now }
    ensures { IsSequencingAt (world_view _world.now) (tree_view tree.now) number
        result.now.value }
{
    match node_of(tree, number).method() {
        None => &sequencings.top,
        Some(method) => match shared_at(&sequencings.methods, method.0) {
            Some(sequencing) => sequencing,
            None => unreachable!(),
        },
    }
}
