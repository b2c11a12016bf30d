//! One action of a plan, and what it changes.

ghost use Rattle.std.specs.Prelude.{◌≡◌, true, false, IfOk};
ghost use Rattle.hv_world.specs.Bindings.{ground_action_view};
ghost use Rattle.hv_world.specs.WorldViews.{world_view};
ghost use Rattle.hv_state.specs.Changes.{TrueAfter};
ghost use Rattle.hv_state.specs.Plans.{IsApplicableIn};
ghost use Rattle.hv_state.specs.inside.Histories.{index_of, truth_of, kept};
ghost use Rattle.hv_state.specs.inside.Notes.{IsReady, IsSet, IsPassed};

use crate::atom::AtomView;
use crate::changes::{Changes, Moment};
use crate::evaluate::evaluate;
use crate::history::Change;
use crate::made::{Take, take_made};
use crate::state::State;
use hv_text::Memory;
use hv_world::{Binding, GroundAction, World};

// Atoms change so.
#[derive(Clone, Copy)]
struct Note<'a, S: State> {
    first: &'a S,
    change: Change,
}

impl<S: State> Take for Note<'_, S> {
    type Into = Changes;

    ghost takes = { λ n g old new. IsSet (S.atoms n.first.now) (λ h. g ≡ h)
        (index_of n.change) (truth_of n.change) old new };

    #[inline(always)]
    fn take(&self, changes: &mut Changes, atom: &AtomView<'_>) -> Result<(), Memory> {
        changes.set(self.first, self.change, atom)
    }
}

/// Does an action where it is applicable, notes what it changes from an index on, and says whether
/// it was. What is true before it is what the changes so far tell.
///
/// # Errors
///
/// `Memory` where a growth was refused, or the index does not fit into 31 bits: changes at so many
/// indices are not kept.
pub(crate) fn pass<S: State>(
    world: &World<'_>,
    step: &GroundAction<'_>,
    first: &S,
    changes: &mut Changes,
    from: usize,
) -> Result<bool, Memory>
    ensures done { IfOk result (λ ran. ran ≡ true →
        IsReady (world_view world.now) (ground_action_view step.now) from changes.old →
        IsPassed (world_view world.now) (ground_action_view step.now) (S.atoms first.now) from
        changes.old changes.new) }
    ensures stopped { IfOk result (λ ran. ran ≡ false →
        IsApplicableIn (world_view world.now)
        (TrueAfter (S.atoms first.now) (kept changes.old) from)
        (ground_action_view step.now) → ⊥) }
{
    let Some(action) = world.action(step.action()) else {
        return Ok(false);
    };
    let objects = Binding::Given(step.objects());
    let before = Moment {
        first,
        changes: &*changes,
        index: from,
    };
    if !evaluate(world, &before, action.precondition(), &objects) {
        return Ok(false);
    }
    let gone = Note {
        first,
        change: Change::new(from, false)?,
    };
    let come = Note {
        first,
        change: Change::new(from, true)?,
    };
    take_made(world, &gone, changes, action.effect(), false, &objects)?;
    take_made(world, &come, changes, action.effect(), true, &objects)?;
    Ok(true)
}
