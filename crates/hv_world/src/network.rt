//! Networks.

ghost use Rattle.std.specs.Prelude.{◌≡◌, map, IfOk};
ghost use Rattle.hv_world.specs.Alike as alike;
ghost use Rattle.hv_world.specs.Views.{subtask_view, constraint_view};
ghost use Rattle.hv_world.specs.inside.Kept.{AreClasses};

use crate::alike::Classes;
use crate::formula::{Constraint, Subtask};
use crate::id::{ObjectId, TaskName};
use crate::order::Order;
use hv_text::Memory;
use std::alloc::Global;

/// A network: its subtasks, their order, and its constraints.
#[derive(Drop)]
pub struct Network {
    subtasks: Vec<Subtask>,
    order: Order,
    constraints: Vec<Constraint>,
    classes: Classes,
    ghost classed: { AreClasses (map subtask_view subtasks.items) classes },
}

impl Network {
    ghost use Rattle.hv_world.specs.Worlds.{network};
    ghost use Rattle.hv_world.specs.NetworkViews.{network_view};
    ghost use Rattle.hv_world.specs.Bindings.{object_number};
    ghost use Rattle.hv_world.specs.Views.{name_view};

    /// From its parts.
    pub(crate) fn new(
        alloc: Global,
        subtasks: Vec<Subtask>,
        order: Order,
        constraints: Vec<Constraint>,
    ) -> Result<Network, Memory>
        ensures { IfOk result
            (λ n. network_view n
            ≡ network (map subtask_view subtasks.items) order
            (map constraint_view constraints.items)) }
    {
        let classes = Classes::new(alloc, &subtasks)?;
        Ok(Network {
            subtasks,
            order,
            constraints,
            classes,
        })
    }

    /// The subtasks, as written.
    pub fn subtasks(&self) -> &[Subtask]
        ensures { map subtask_view result.now ≡ (network_view self.now).subtasks }
    {
        &self.subtasks
    }

    /// Their order.
    pub fn order(&self) -> &Order
        ensures { result.now ≡ (network_view self.now).order }
    {
        &self.order
    }

    /// The constraints, as written.
    pub fn constraints(&self) -> &[Constraint]
        ensures { map constraint_view result.now ≡ (network_view self.now).constraints }
    {
        &self.constraints
    }

    /// The sizes of the classes of alike subtasks, in the order in which a class is first seen.
    pub fn class_sizes(&self) -> &[usize]
        ensures { result.now ≡ alike.class_sizes (network_view self.now).subtasks }
    {
        self.classes.sizes()
    }

    /// The number of the class of the subtask of a number, if there is such a subtask.
    pub fn class_at(&self, subtask: usize) -> Option<usize>
        ensures { result ≡ alike.class_at (network_view self.now).subtasks subtask }
    {
        self.classes.of(subtask)
    }

    /// The number of the class of what has this name and these objects, if some subtask is of that
    /// class. Err only for want of memory.
    pub fn class_for(
        &self,
        alloc: Global,
        name: TaskName,
        objects: &[ObjectId],
    ) -> Result<Option<usize>, Memory>
        ensures { IfOk result (λ r. r ≡ alike.class_of (network_view self.now).subtasks
            (alike.with_objects (name_view name) (map object_number objects.now))) }
    {
        self.classes.find(alloc, name, objects)
    }
}
