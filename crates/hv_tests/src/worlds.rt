//! Worlds, plans and trees of texts, and the numbers of names.

ghost use Rattle.std.specs.Prelude.{IfSome};
ghost use Rattle.hv_world.specs.WorldViews.{world_view};
ghost use Rattle.hv_plan.specs.BuiltTrees.{tree_view};
ghost use Rattle.hv_plan.specs.PlanTrees.{IsTreeIn};

use hv_plan::{PlanText, Tree, read_plan};
use hv_reading::{read_domain, read_problem};
use hv_text::Name;
use hv_world::{ObjectId, TypeId, World};
use std::alloc::Global;

/// The world of a domain and a problem, where their texts have no fault. It is boxed, so that each
/// function that owns it proves a short end.
pub(crate) fn world_of<'s>(
    alloc: Global,
    domain: &'s [u8],
    problem: &'s [u8],
) -> Option<Box<World<'s>>> {
    let domain = read_domain(alloc, domain).ok()?;
    let problem = read_problem(alloc, problem).ok()?;
    let world = World::build(alloc, &domain, &problem).ok()?;
    Box::new(alloc, world).ok()
}

/// The object of a name.
pub(crate) fn object<'s>(world: &World<'s>, name: &'s [u8]) -> Option<ObjectId> {
    world.object_named(Name::new(name)?)
}

/// The type of a name.
pub(crate) fn type_of<'s>(world: &World<'s>, name: &'s [u8]) -> Option<TypeId> {
    world.type_named(Name::new(name)?)
}

/// The plan of a text, where it has no fault.
pub(crate) fn plan_of<'s>(alloc: Global, text: &'s [u8]) -> Option<PlanText<'s>> {
    read_plan(alloc, text).ok()
}

/// The tree of a plan in a world.
pub(crate) fn tree_of<'p, 's>(
    alloc: Global,
    world: &World<'s>,
    plan: &'p PlanText<'s>,
) -> Option<Tree>
    ensures { IfSome result (λ t. IsTreeIn (world_view world.now) (tree_view t)) }
{
    match Tree::build(alloc, world, plan) {
        Ok(tree) => Some(tree),
        Err(_) => None,
    }
}
