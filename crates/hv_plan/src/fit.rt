//! What the lines of a plan say, with numbers for names.

pub(crate) mod all;
pub(crate) mod lines;

ghost use Rattle.std.specs.Prelude.{◌≡◌, ◌↔◌, map, length, IfOk, IsTrue, MatchOption, MatchResult, option_map, slice_get};
ghost use Rattle.hv_text.specs.Names.{text_of};
ghost use Rattle.hv_world.specs.Bindings.{object_number};
ghost use Rattle.hv_world.specs.MethodViews.{method_view};
ghost use Rattle.hv_world.specs.Names.{place_in};
ghost use Rattle.hv_world.specs.Views.{name_view, type_number};
ghost use Rattle.hv_world.specs.WorldViews.{world_view};
ghost use Rattle.hv_plan.specs.Fits.{parameters_of, IsForTask};
ghost use Rattle.hv_world.specs.Groundings.{AreOf};
ghost use Rattle.hv_plan.specs.inside.FitViews.{decomposed_view, grounded_view, IsDecomposed};
ghost use Rattle.hv_plan.specs.Forms.{every};
ghost use Rattle.hv_plan.specs.inside.LineFaults.{action_entry, line_entry, AreArguments, IsArgumentFault, IsLineFault, IsObjectFault, IsSmallest};
ghost use Rattle.hv_plan.specs.LineViews.{action_view, decomposition_view};
ghost use Rattle.hv_plan.specs.PlanTrees.{IsActionOf};

use crate::cause::CauseKind;
use crate::fit::lines::Before;
use crate::plan::{ActionLine, DecompositionLine};
use hv_text::{Memory, Name};
use hv_world::{
    ActionId, GroundAction, Method, MethodId, ObjectId, TaskId, TaskName, TypeId, World,
};

/// Why nothing is found of a line.
#[derive(Clone, Copy)]
pub(crate) enum LineFault {
    /// The line is at fault by itself, and this is the cause of the smallest number.
    Cause(CauseKind),
    /// A growth of memory was refused.
    Memory,
}

impl From<Memory> for LineFault {
    ghost use Rattle.std.specs.Prelude.{◌≡◌};
    ghost use Rattle.hv_plan.specs.declared.fit.LineFault.TheVariants as faults;

    ghost from_gives = { λ _ e. e ≡ faults.Memory };

    fn from(_refused: Memory) -> LineFault {
        LineFault::Memory
    }
}

/// What a decomposition line says: its task with the objects, and the method.
#[derive(Drop)]
pub(crate) struct Decomposed {
    pub(crate) task: TaskId,
    pub(crate) objects: Vec<ObjectId>,
    pub(crate) method: MethodId,
}

/// What an action line says: its action with the objects.
#[derive(Drop)]
pub(crate) struct Grounded {
    pub(crate) action: ActionId,
    pub(crate) objects: Vec<ObjectId>,
}

// The objects of names, in a list that had others; None where one of the names is no object. Each
// name is compared before all with the object declared behind the one that `others`, the objects of
// the line before, have there.
fn objects_named<'s>(
    room: Vec<ObjectId>,
    world: &World<'s>,
    others: &[ObjectId],
    names: &[Name<'s>],
) -> Result<Option<Vec<ObjectId>>, Memory>
    ensures { IfOk result (λ o. option_map (λ os. map object_number os.items) o
        ≡ every (place_in (world_view world.now).objects) (map text_of names.now)) }
{
    let mut objects = room;
    objects.clear();
    for name in names {
        let other = others.get(objects.len()).copied();
        let Some(object) = world.object_behind(other, *name) else {
            return Ok(None);
        };
        objects.push(object)?;
    }
    Ok(Some(objects))
}

// The types of the parameters of a task or an action.
fn parameters_of<'a, 's>(world: &'a World<'s>, name: TaskName) -> &'a [TypeId]
    ensures { map type_number result.now ≡ parameters_of (world_view world.now) (name_view name) }
{
    match name {
        TaskName::Compound(task) => match world.task(task) {
            Some(task) => task.parameters(),
            None => &[],
        },
        TaskName::Primitive(action) => match world.action(action) {
            Some(action) => action.parameters(),
            None => &[],
        },
    }
}

// What keeps objects from being as the parameters of a task or an action.
fn objects_fault(world: &World<'_>, name: TaskName, objects: &[ObjectId]) -> Option<CauseKind>
    ensures { MatchOption result (AreOf (world_view world.now).typing
        (map object_number objects.now) (parameters_of (world_view world.now) (name_view name)))
        (IsObjectFault (world_view world.now) (name_view name) (map object_number objects.now)) }
{
    let types = parameters_of(world, name);
    if objects.len() != types.len() {
        return Some(CauseKind::ArgumentCount);
    }
    if !world.are_of(objects, types) {
        return Some(CauseKind::ArgumentType);
    }
    None
}

// The objects of the arguments of a task or an action, or what keeps them from being as
// its parameters.
fn fit_arguments<'s>(
    room: Vec<ObjectId>,
    world: &World<'s>,
    others: &[ObjectId],
    name: TaskName,
    arguments: &[Name<'s>],
) -> Result<Vec<ObjectId>, LineFault>
    ensures { MatchResult result
        (λ os. AreArguments (world_view world.now) (name_view name)
        (map text_of arguments.now) (map object_number os.items))
        (IsLineFault (IsArgumentFault (world_view world.now) (name_view name)
        (map text_of arguments.now))) }
{
    let Some(objects) = objects_named(room, world, others, arguments)? else {
        return Err(LineFault::Cause(CauseKind::UnknownObject));
    };
    match objects_fault(world, name, &objects) {
        Some(kind) => Err(LineFault::Cause(kind)),
        None => Ok(objects),
    }
}

// The number and the objects of an action, where there is one.
fn parts_of<'a>(action: Option<GroundAction<'a>>) -> (Option<ActionId>, &'a [ObjectId]) {
    match action {
        Some(action) => (Some(action.action()), action.objects()),
        None => (None, &[]),
    }
}

/// The action of an action line, with the objects in a list that had others; `other` is the action
/// of the line before.
///
/// # Errors
///
/// The cause of the smallest number for which the line is at fault by itself; `Memory` where a
/// growth was refused.
pub(crate) fn fit_action<'s>(
    room: Vec<ObjectId>,
    world: &World<'s>,
    other: Option<GroundAction<'_>>,
    line: ActionLine<'_, 's>,
) -> Result<Grounded, LineFault>
    ensures { MatchResult result
        (λ g. IsActionOf (world_view world.now) (action_view line.entry) (grounded_view g))
        (IsLineFault (IsSmallest (world_view world.now) (action_entry (action_view line.entry)))) }
{
    let (before, others) = parts_of(other);
    let Some(name) = world.task_behind(before, line.name) else {
        return Err(LineFault::Cause(CauseKind::UnknownTask));
    };
    let objects = fit_arguments(room, world, others, name, line.arguments)?;
    match name {
        TaskName::Primitive(action) => Ok(Grounded { action, objects }),
        TaskName::Compound(_) => Err(LineFault::Cause(CauseKind::NotPrimitive)),
    }
}

// Whether a method is for a task.
fn is_for_task(method: &Method<'_>, task: TaskId) -> bool
    ensures { IsTrue result ↔ IsForTask (method_view method.now).task task.0 }
{
    match method.task() {
        Some(subtask) => match subtask.name {
            TaskName::Compound(of) => of.0 == task.0,
            TaskName::Primitive(_) => false,
        },
        None => false,
    }
}

// Whether the method of a number is for a task.
fn is_for(world: &World<'_>, method: MethodId, task: TaskId) -> bool
    ensures { IsTrue result ↔ MatchOption (slice_get (world_view world.now).methods method.0) ⊥
        (λ m. IsForTask m.task task.0) }
{
    match world.method(method) {
        Some(method) => is_for_task(method, task),
        None => false,
    }
}

/// What a decomposition line says, with the objects in a list that had others; `before` is what
/// lines before it say.
///
/// # Errors
///
/// The cause of the smallest number for which the line is at fault by itself; `Memory` where a
/// growth was refused.
pub(crate) fn fit_line<'s>(
    room: Vec<ObjectId>,
    world: &World<'s>,
    before: Before<'_>,
    line: DecompositionLine<'_, 's>,
) -> Result<Decomposed, LineFault>
    ensures { MatchResult result
        (λ x. IsDecomposed (world_view world.now) (decomposition_view line.entry)
        (decomposed_view x))
        (IsLineFault (IsSmallest (world_view world.now)
        (line_entry (decomposition_view line.entry)))) }
{
    let Some(name) = world.task_like(before.task, line.name) else {
        return Err(LineFault::Cause(CauseKind::UnknownTask));
    };
    let Some(method) = world.method_like(before.method, line.method) else {
        return Err(LineFault::Cause(CauseKind::UnknownMethod));
    };
    let objects = fit_arguments(room, world, before.objects, name, line.arguments)?;
    match name {
        TaskName::Compound(task) => {
            if is_for(world, method, task) {
                Ok(Decomposed {
                    task,
                    objects,
                    method,
                })
            } else {
                Err(LineFault::Cause(CauseKind::OtherTask))
            }
        }
        TaskName::Primitive(_) => Err(LineFault::Cause(CauseKind::NotAbstract)),
    }
}
