//! The tree of a plan is built.

ghost use Rattle.std.specs.Prelude.{◌≡◌, ◌+◌, ◌<◌, ℕ, List, [], ◌∷◌, Some, map, length, get_or, slice_get, IfOk, IfErr, OnOk};
ghost use Rattle.hv_world.specs.MethodViews.{method_view};
ghost use Rattle.hv_world.specs.Values.{TaskName};
ghost use Rattle.hv_world.specs.Worlds as value;
ghost use Rattle.hv_world.specs.WorldViews.{world_view};
ghost use Rattle.hv_plan.specs.Causes.{IsTreeFault};
ghost use Rattle.hv_plan.specs.inside.ChildFaults.{AreNumbered, AreSizes, ChildFaultIn, IsMethodCause, IsSaid, said_name};
ghost use Rattle.hv_plan.specs.Fits.{FitWorld, names_of};
ghost use Rattle.hv_plan.specs.inside.FitViews.{decomposed_lines, IsDecomposed};
ghost use Rattle.hv_world.specs.Bindings.{ground_actions_view};
ghost use Rattle.std.specs.List.{AllZip};
ghost use Rattle.hv_plan.specs.Forms.{every};
ghost use Rattle.hv_plan.specs.inside.LineFaults.{IsEarliest};
ghost use Rattle.hv_plan.specs.LineViews.{plan_view};
ghost use Rattle.hv_plan.specs.PlanTrees.{IsActionOf, IsTreeIn, IsTreeOf};
ghost use Rattle.hv_plan.specs.Shapes.{FormTree, line_parent, parents};
ghost use Rattle.hv_plan.specs.inside.ShapeViews.{shape_view, IsShape};
ghost use Rattle.hv_plan.specs.BuiltTrees.{tree_view};
ghost use Rattle.hv_plan.specs.TreeViews.{child_view};
ghost use Rattle.hv_plan.specs.Values.{Decomposition};

use crate::cause::{Cause, TreeFault, earlier};
use crate::fit::all::{Fits, fit};
use crate::origin::{action_origins, line_origins};
use crate::plan::PlanText;
use crate::shape::{Shape, shape_of};
use crate::subtasks::Tally;
use crate::subtasks::names::{Said, Sizes};
use crate::tree::{Child, Tree};
use hv_text::Memory;
use hv_world::{Method, MethodId, World};
use std::alloc::Global;

// What the children of all lines are checked by: the method of a line, and what names its children.
#[derive(Clone, Copy)]
struct Methods<'a, 's> {
    world: &'a World<'s>,
    sizes: Sizes,
    said: Said<'a>,
}

impl Methods<'_, '_> {
    // The cause for which the children of a line are not as the subtasks of a method.
    fn method_cause(
        &self,
        tally: &mut Tally,
        line: u32,
        method: &Method<'_>,
        children: &[Child],
    ) -> Result<Option<Cause>, Memory>
        requires size { length tally.old.counts.items
            ≡ self.now.sizes.tasks + self.now.sizes.actions }
        requires empty { (n : ℕ) → get_or tally.old.counts.items n 0 ≡ 0 }
        requires known { AreNumbered self.now.sizes.tasks self.now.sizes.actions
            (said_name self.now.said) (map child_view children.now) }
        ensures size { length tally.new.counts.items ≡ length tally.old.counts.items }
        ensures empty { OnOk result ((n : ℕ) → get_or tally.new.counts.items n 0 ≡ 0) }
        ensures cause { IfOk result
            (λ o. (ns : List TaskName) → every (said_name self.now.said)
            (map child_view children.now) ≡ Some ns
            → IsMethodCause ns (names_of (method_view method.now).network.subtasks) line o) }
    {
        if !self.said.put_names(&mut tally.names, children)? {
            return Ok(None);
        }
        match tally.names_fault(self.sizes, method.network().subtasks())? {
            Some(kind) => Ok(Some(Cause { kind, line })),
            None => Ok(None),
        }
    }

    // The cause for which the children of a decomposition line are not as the subtasks
    // of its method.
    fn line_cause(
        &self,
        tally: &mut Tally,
        line: u32,
        method: MethodId,
        children: &[Child],
    ) -> Result<Option<Cause>, Memory>
        requires size { length tally.old.counts.items
            ≡ self.now.sizes.tasks + self.now.sizes.actions }
        requires empty { (n : ℕ) → get_or tally.old.counts.items n 0 ≡ 0 }
        requires known { AreNumbered self.now.sizes.tasks self.now.sizes.actions
            (said_name self.now.said) (map child_view children.now) }
        ensures size { length tally.new.counts.items ≡ length tally.old.counts.items }
        ensures empty { OnOk result ((n : ℕ) → get_or tally.new.counts.items n 0 ≡ 0) }
        ensures cause { IfOk result
            (λ o. (m : value.Method) (ns : List TaskName)
            → slice_get (world_view self.now.world.now).methods method.0 ≡ Some m
            → every (said_name self.now.said) (map child_view children.now) ≡ Some ns
            → IsMethodCause ns (names_of m.network.subtasks) line o) }
    {
        match self.world.method(method) {
            Some(method) => self.method_cause(tally, line, method, children),
            None => Ok(None),
        }
    }

    // The cause for which the children of the decomposition line at a place are not as the subtasks
    // of its method.
    fn place_cause(
        &self,
        tally: &mut Tally,
        plan: &PlanText<'_>,
        shape: &Shape,
        place: usize,
    ) -> Result<Option<Cause>, Memory>
        requires place { place < length (plan_view plan.now).decompositions }
        requires form { FormTree (plan_view plan.now) }
        requires shape { IsShape (plan_view plan.now) (shape_view shape.now) }
        requires said { IsSaid (world_view self.now.world.now) (plan_view plan.now)
            (shape_view shape.now) self.now.said }
        requires sizes { AreSizes (world_view self.now.world.now) self.now.sizes.tasks
            self.now.sizes.actions }
        requires size { length tally.old.counts.items
            ≡ self.now.sizes.tasks + self.now.sizes.actions }
        requires empty { (n : ℕ) → get_or tally.old.counts.items n 0 ≡ 0 }
        ensures size { length tally.new.counts.items ≡ length tally.old.counts.items }
        ensures empty { OnOk result ((n : ℕ) → get_or tally.new.counts.items n 0 ≡ 0) }
        ensures cause { IfOk result
            (λ o. (d : Decomposition) → slice_get (plan_view plan.now).decompositions place ≡ Some d
            → IsEarliest (ChildFaultIn (world_view self.now.world.now) (plan_view plan.now)
            (line_parent d ∷ [])) o) }
    {
        let line = plan.decompositions.at(place).line;
        let Some(said) = self.said.lines.get(place) else {
            return Ok(None);
        };
        let children = shape.children.at(shape.numbers[place] as usize);
        self.line_cause(tally, line, said.method, children)
    }

    // The cause that is reported of those for which the children of a decomposition line are not as
    // the subtasks of its method.
    fn lines_cause(
        &self,
        tally: &mut Tally,
        plan: &PlanText<'_>,
        shape: &Shape,
    ) -> Result<Option<Cause>, Memory>
        requires form { FormTree (plan_view plan.now) }
        requires shape { IsShape (plan_view plan.now) (shape_view shape.now) }
        requires said { IsSaid (world_view self.now.world.now) (plan_view plan.now)
            (shape_view shape.now) self.now.said }
        requires sizes { AreSizes (world_view self.now.world.now) self.now.sizes.tasks
            self.now.sizes.actions }
        requires size { length tally.old.counts.items
            ≡ self.now.sizes.tasks + self.now.sizes.actions }
        requires empty { (n : ℕ) → get_or tally.old.counts.items n 0 ≡ 0 }
        ensures { IfOk result (λ o. IsEarliest
            (ChildFaultIn (world_view self.now.world.now) (plan_view plan.now)
            (map line_parent (plan_view plan.now).decompositions)) o) }
    {
        let mut cause = None;
        for place in 0..plan.decompositions.len() {
            let found = self.place_cause(tally, plan, shape, place)?;
            cause = earlier(cause, found);
        }
        Ok(cause)
    }
}

// The cause that is reported of those for which the children of a line are not as the subtasks of
// its method, where there are so many tasks and actions.
fn children_cause(
    alloc: Global,
    methods: &Methods<'_, '_>,
    plan: &PlanText<'_>,
    shape: &Shape,
) -> Result<Option<Cause>, Memory>
    requires form { FormTree (plan_view plan.now) }
    requires shape { IsShape (plan_view plan.now) (shape_view shape.now) }
    requires said { IsSaid (world_view methods.now.world.now) (plan_view plan.now)
        (shape_view shape.now) methods.now.said }
    requires sizes { AreSizes (world_view methods.now.world.now) methods.now.sizes.tasks
        methods.now.sizes.actions }
    ensures { IfOk result (λ o. IsEarliest
        (ChildFaultIn (world_view methods.now.world.now) (plan_view plan.now)
        (parents (plan_view plan.now))) o) }
{
    let mut tally = Tally::new(alloc, methods.sizes)?;
    let children = shape.children.at(shape.root as usize);
    let top = methods.world.top();
    let root = methods.method_cause(&mut tally, plan.root_line, top, children)?;
    let lines = methods.lines_cause(&mut tally, plan, shape)?;
    Ok(earlier(root, lines))
}

// Whether the children of each line are as the subtasks of its method.
fn check_children<'s>(
    alloc: Global,
    world: &World<'s>,
    plan: &PlanText<'s>,
    shape: &Shape,
    fits: &Fits,
) -> Result<(), TreeFault>
    requires form { FormTree (plan_view plan.now) }
    requires shape { IsShape (plan_view plan.now) (shape_view shape.now) }
    requires actions { AllZip (IsActionOf (world_view world.now)) (plan_view plan.now).actions
        (ground_actions_view fits.now.actions) }
    requires lines { AllZip (IsDecomposed (world_view world.now))
        (plan_view plan.now).decompositions (decomposed_lines fits.now.lines) }
    ensures ok { OnOk result (FitWorld (world_view world.now) (plan_view plan.now)) }
    ensures err { IfErr result (IsTreeFault (world_view world.now) (plan_view plan.now)) }
{
    let Some(sizes) = Sizes::of(world) else {
        return Err(TreeFault::Memory);
    };
    let said = Said {
        actions: &fits.actions,
        lines: &fits.lines,
        places: &shape.lines,
    };
    let methods = Methods { world, sizes, said };
    match children_cause(alloc, &methods, plan, shape)? {
        Some(cause) => Err(TreeFault::Cause(cause)),
        None => Ok(()),
    }
}

// The tree of a plan of this shape.
fn build_shaped<'s>(
    alloc: Global,
    world: &World<'s>,
    plan: &PlanText<'s>,
    shape: Shape,
) -> Result<Tree, TreeFault>
    requires form { FormTree (plan_view plan.now) }
    requires shape { IsShape (plan_view plan.now) (shape_view shape) }
    ensures ok { IfOk result (λ t. FitWorld (world_view world.now) (plan_view plan.now)
        × IsTreeOf (world_view world.now) (plan_view plan.now) (tree_view t)) }
    ensures err { IfErr result (IsTreeFault (world_view world.now) (plan_view plan.now)) }
{
    let fits = fit(alloc, world, plan)?;
    check_children(alloc, world, plan, &shape, &fits)?;
    let Fits {
        actions,
        lines: said,
    } = fits;
    Ok(Tree {
        action_origins: action_origins(alloc, &plan.actions)?,
        line_origins: line_origins(alloc, &plan.decompositions)?,
        root_line: plan.root_line,
        actions,
        said,
        shape,
    })
}

impl Tree {
    /// The tree that the lines of a plan form.
    ///
    /// # Errors
    ///
    /// The cause of the smallest number that a line qualifies for, at the first such line; or want
    /// of memory, where a growth was refused.
    pub fn build<'s>(
        alloc: Global,
        world: &World<'s>,
        plan: &PlanText<'s>,
    ) -> Result<Tree, TreeFault>
        ensures ok { IfOk result (λ t. FormTree (plan_view plan.now)
            × FitWorld (world_view world.now) (plan_view plan.now)
            × IsTreeOf (world_view world.now) (plan_view plan.now) (tree_view t)) }
        ensures tree { IfOk result (λ t. IsTreeIn (world_view world.now) (tree_view t)) }
        ensures err { IfErr result (IsTreeFault (world_view world.now) (plan_view plan.now)) }
    {
        let shape = shape_of(alloc, plan)?;
        build_shaped(alloc, world, plan, shape)
    }
}
