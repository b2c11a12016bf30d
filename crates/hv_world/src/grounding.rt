//! Actions with objects for their parameters.

ghost use Rattle.std.specs.Prelude.{◌≡◌, ◌<◌, ◌++◌, ◌∷◌, [], Some, length, map, option_map, slice_get, IfOk, OnOk, OnErr};

use crate::id::{ActionId, ObjectId};
use hv_text::{Lists, Memory};
use std::alloc::Global;

/// An action with the objects of its parameters, which it borrows.
#[derive(Clone, Copy)]
pub struct GroundAction<'a> {
    pub(crate) action: ActionId,
    pub(crate) objects: &'a [ObjectId],
}

impl<'a> GroundAction<'a> {
    ghost use Rattle.hv_world.specs.Bindings.{object_number, ground_action_view};

    /// The action.
    pub fn action(&self) -> ActionId
        ensures { result.0 ≡ (ground_action_view self.now).action }
    {
        self.action
    }

    /// The objects of its parameters.
    pub fn objects(&self) -> &'a [ObjectId]
        ensures { map object_number result.now ≡ (ground_action_view self.now).objects }
    {
        self.objects
    }
}

/// Actions with the objects of their parameters, one after another. The objects of all of them
/// stand in one list.
#[derive(Drop)]
pub struct GroundActions {
    actions: Vec<ActionId>,
    objects: Lists<ObjectId>,
    ghost as_many: { length objects ≡ length actions.items },
}

impl GroundActions {
    ghost use Rattle.hv_world.specs.Bindings.{object_number, ground_action, ground_action_view, ground_actions_view};

    /// No actions, and room for so many.
    ///
    /// # Errors
    ///
    /// `Memory` where the room was refused.
    pub fn with_capacity(alloc: Global, actions: usize) -> Result<GroundActions, Memory>
        ensures { IfOk result (λ g. ground_actions_view g ≡ []) }
    {
        Ok(GroundActions {
            actions: Vec::with_capacity(alloc, actions)?,
            objects: Lists::with_capacity(alloc, actions)?,
        })
    }

    /// How many actions there are.
    pub fn len(&self) -> usize
        ensures { result ≡ length (ground_actions_view self.now) }
    {
        self.actions.len()
    }

    /// The action of a place.
    pub fn at(&self, place: usize) -> GroundAction<'_>
        requires { place < length (ground_actions_view self.now) }
        ensures { slice_get (ground_actions_view self.now) place
            ≡ Some (ground_action_view result) }
    {
        GroundAction {
            action: self.actions[place],
            objects: self.objects.at(place),
        }
    }

    /// The action of a place, where there is one.
    pub fn get(&self, place: usize) -> Option<GroundAction<'_>>
        ensures { option_map ground_action_view result
            ≡ slice_get (ground_actions_view self.now) place }
    {
        if place < self.len() {
            Some(self.at(place))
        } else {
            None
        }
    }

    /// Puts an action with its objects behind the others. They stay as they were where
    /// that is refused.
    ///
    /// # Errors
    ///
    /// `Memory` where a growth was refused, or where all together would have 2^32 objects.
    pub fn push(&mut self, action: ActionId, objects: &[ObjectId]) -> Result<(), Memory>
        ensures pushed { OnOk result
            (ground_actions_view self.new ≡ ground_actions_view self.old
            ++ ground_action action.0 (map object_number objects.now) ∷ []) }
        ensures same { OnErr result (ground_actions_view self.new ≡ ground_actions_view self.old) }
    {
        self.actions.push(action)?;
        match self.objects.push(objects) {
            Ok(()) => Ok(()),
            Err(refused) => {
                let _ = self.actions.pop();
                Err(refused)
            }
        }
    }
}
