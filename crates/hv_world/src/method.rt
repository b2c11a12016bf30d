//! Methods.

ghost use Rattle.std.specs.Prelude.{◌≡◌, map, length, option_map, IfOk};
ghost use Rattle.hv_text.specs.Names.{text_of};
ghost use Rattle.hv_world.specs.Alike as alike;
ghost use Rattle.hv_world.specs.Worlds.{terms_of};
ghost use Rattle.hv_world.specs.Views.{type_number, term_view, subtask_view, formula_view};
ghost use Rattle.hv_world.specs.NetworkViews.{network_view};

use crate::alike::free_parameters;
use crate::formula::{Formula, Subtask, Term};
use crate::id::TypeId;
use crate::network::Network;
use hv_text::{Memory, Name};
use std::alloc::Global;

/// A method: where its precondition holds, its network may stand for its task. The initial network
/// is a method with neither name nor task, whose precondition is always true.
#[derive(Drop)]
pub struct Method<'s> {
    name: Option<Name<'s>>,
    parameters: Vec<TypeId>,
    task: Option<Subtask>,
    precondition: Formula,
    network: Network,
    free_parameters: Vec<usize>,
    ghost free: { free_parameters.items
        ≡ alike.free_parameters (length parameters.items) (terms_of (option_map subtask_view task))
        (network_view network).subtasks },
}

// The terms of a task, where there is one.
fn terms_of(task: &Option<Subtask>) -> &[Term]
    ensures { map term_view result.now ≡ terms_of (option_map subtask_view task.now) }
{
    match task {
        Some(task) => &task.terms,
        None => &[],
    }
}

impl<'s> Method<'s> {
    ghost use Rattle.hv_world.specs.Worlds.{method};
    ghost use Rattle.hv_world.specs.MethodViews.{method_view};

    /// From its parts.
    pub(crate) fn new(
        alloc: Global,
        name: Option<Name<'s>>,
        parameters: Vec<TypeId>,
        task: Option<Subtask>,
        precondition: Formula,
        network: Network,
    ) -> Result<Method<'s>, Memory>
        ensures { IfOk result
            (λ m. method_view m
            ≡ method (option_map text_of name.entry) (map type_number parameters.items)
            (option_map subtask_view task) (formula_view precondition) (network_view network)) }
    {
        let free_parameters = free_parameters(
            alloc,
            parameters.len(),
            terms_of(&task),
            network.subtasks(),
        )?;
        Ok(Method {
            name,
            parameters,
            task,
            precondition,
            network,
            free_parameters,
        })
    }

    /// Its name; the initial network has none.
    pub fn name(&self) -> Option<Name<'s>>
        ensures { option_map text_of result ≡ (method_view self.now).name }
    {
        self.name
    }

    /// The types of its parameters, as written.
    pub fn parameters(&self) -> &[TypeId]
        ensures { map type_number result.now ≡ (method_view self.now).parameters }
    {
        &self.parameters
    }

    /// The task that it is for; the initial network is for none.
    pub fn task(&self) -> Option<&Subtask>
        ensures { option_map (λ x. subtask_view x.now) result ≡ (method_view self.now).task }
    {
        self.task.as_ref()
    }

    /// When it may be used.
    pub fn precondition(&self) -> &Formula
        ensures { formula_view result.now ≡ (method_view self.now).precondition }
    {
        &self.precondition
    }

    /// Its network.
    pub fn network(&self) -> &Network
        ensures { network_view result.now ≡ (method_view self.now).network }
    {
        &self.network
    }

    /// The numbers of those of its parameters that are arguments neither of its task nor of a
    /// subtask, ascending.
    pub fn free_parameters(&self) -> &[usize]
        ensures { let m = method_view self.now in result.now
            ≡ alike.free_parameters (length m.parameters) (terms_of m.task) m.network.subtasks }
    {
        &self.free_parameters
    }
}
