//! The atoms that the actions of a plan touch.

ghost use Rattle.std.specs.Prelude.{◌≡◌, ◌<◌, ℕ, length, slice_get, IsTrue, IfOk};
ghost use Rattle.hv_world.specs.Bindings.{ground_action_view, ground_actions_view};
ghost use Rattle.hv_world.specs.WorldViews.{world_view};
ghost use Rattle.hv_state.specs.inside.Rows.{rows_in, HaveJoined, AreRowsOf, Ascend};
ghost use Rattle.hv_state.specs.inside.Notes.{TouchedBy, TouchedIn, HaveNextJoined};

use crate::guesses::{Guesses, hash_of_action};
use crate::made::push_made;
use crate::rows::{Row, merge_distinct};
use hv_text::Memory;
use hv_world::{Binding, GroundAction, GroundActions, World};
use std::alloc::Global;

// Puts the rows of what an action deletes and adds behind others.
fn push_touched(
    rows: &mut Vec<Row>,
    world: &World<'_>,
    step: &GroundAction<'_>,
) -> Result<(), Memory>
    ensures { IfOk result (λ _. HaveJoined rows.old.items
        (TouchedBy (world_view world.now) (ground_action_view step.now)) rows.new.items) }
{
    let Some(action) = world.action(step.action()) else {
        return Ok(());
    };
    let objects = Binding::Given(step.objects());
    push_made(world, rows, action.effect(), false, &objects)?;
    push_made(world, rows, action.effect(), true, &objects)?;
    Ok(())
}

// Whether two actions are one, with the same objects.
fn is_same(one: &GroundAction<'_>, other: &GroundAction<'_>) -> bool
    ensures { IsTrue result → ground_action_view one.now ≡ ground_action_view other.now }
{
    one.action() == other.action() && one.objects() == other.objects()
}

// Whether the action of a place stands before it too, at one of these places.
fn is_repeated(actions: &GroundActions, earlier: &[u32], place: usize) -> bool
    requires { place < length (ground_actions_view actions.now) }
    ensures { IsTrue result → (j : ℕ) × (j < place)
        × (slice_get (ground_actions_view actions.now) j
        ≡ slice_get (ground_actions_view actions.now) place) }
{
    let step = actions.at(place);
    for guess in earlier {
        let before = (*guess as usize).wrapping_sub(1);
        if before < place && is_same(&actions.at(before), &step) {
            return true;
        }
    }
    false
}

// Puts the rows of what the action of a place deletes and adds behind those of the actions before
// it, unless it is found to be one of them.
fn push_new(
    rows: &mut Vec<Row>,
    guesses: &mut Guesses,
    world: &World<'_>,
    actions: &GroundActions,
    place: usize,
) -> Result<(), Memory>
    requires { place < length (ground_actions_view actions.now) }
    ensures { IfOk result (λ _. HaveNextJoined (world_view world.now)
        (ground_actions_view actions.now) place rows.old.items rows.new.items) }
{
    let step = actions.at(place);
    let hash = hash_of_action(&step);
    if is_repeated(actions, guesses.of(hash), place) {
        return Ok(());
    }
    if let Ok(number) = u32::try_from(place) {
        guesses.note(hash, number.saturating_add(1));
    }
    push_touched(rows, world, &step)
}

/// The rows of all atoms that some of these actions deletes or adds, in order and each once. What
/// is kept on the way is at most twice as long, with what one action touches, and takes as much
/// room again while it is put in order. An action that is done again is mostly passed over.
pub(crate) fn touched(
    alloc: Global,
    world: &World<'_>,
    actions: &GroundActions,
) -> Result<Vec<Row>, Memory>
    ensures ascend { IfOk result (λ rows. Ascend (rows_in rows.items)) }
    ensures exact { IfOk result (λ rows. AreRowsOf
        (TouchedIn (world_view world.now) (ground_actions_view actions.now)) rows.items) }
{
    let mut rows = Vec::new(alloc);
    let mut guesses = Guesses::with_room(alloc, actions.len())?;
    let mut distinct = 0;
    for number in 0..actions.len() {
        push_new(&mut rows, &mut guesses, world, actions, number)?;
        if rows.len() / 2 > distinct {
            merge_distinct(&mut rows)?;
            distinct = rows.len();
        }
    }
    merge_distinct(&mut rows)?;
    Ok(rows)
}
