//! A walk from the root line down.

ghost use Rattle.std.specs.Prelude.{◌≡◌, ℕ, ◌<◌, ◌∷◌, [], length, Contains, IfOk, OnOk};
ghost use Rattle.hv_plan.specs.inside.Shaping.{kids, IsMeeting, Grows, IsWalk};

use hv_text::{Lists, Memory};
use std::alloc::Global;

/// The places that a walk has met, in its order, and for each place whether it was met.
#[derive(Drop)]
pub(super) struct Walk {
    pub(super) met: Vec<u32>,
    pub(super) is_met: Vec<bool>,
}

// Meets a place; each place is met once.
fn meet(walk: &mut Walk, place: u32) -> Result<(), Memory>
    requires within { place < length walk.old.is_met.items }
    requires walk { IsMeeting walk.old.met.items walk.old.is_met.items }
    ensures walk { OnOk result (IsMeeting walk.new.met.items walk.new.is_met.items) }
    ensures count { OnOk result (length walk.new.is_met.items ≡ length walk.old.is_met.items) }
    ensures grows { OnOk result (Grows walk.old.met.items (place ∷ []) walk.new.met.items) }
{
    if !walk.is_met[place as usize] {
        walk.met.push(place)?;
        walk.is_met[place as usize] = true;
    }
    Ok(())
}

// Meets places.
fn meet_all(walk: &mut Walk, places: &[u32]) -> Result<(), Memory>
    requires within { (c : ℕ) → Contains places.now c → c < length walk.old.is_met.items }
    requires walk { IsMeeting walk.old.met.items walk.old.is_met.items }
    ensures walk { OnOk result (IsMeeting walk.new.met.items walk.new.is_met.items) }
    ensures count { OnOk result (length walk.new.is_met.items ≡ length walk.old.is_met.items) }
    ensures grows { OnOk result (Grows walk.old.met.items places.now walk.new.met.items) }
{
    for place in places {
        meet(walk, *place)?;
    }
    Ok(())
}

/// The places of the children of a place: an action line has none.
fn kids(lists: &Lists<u32>, actions: usize, place: u32) -> &[u32]
    ensures { result.now ≡ kids lists.now actions place }
{
    match (place as usize).checked_sub(actions) {
        Some(line) => lists.at(line),
        None => &[],
    }
}

/// The walk from the children of the root line to all that stands below them, among so many places.
pub(super) fn walk_from(
    alloc: Global,
    actions: usize,
    count: usize,
    root: &[u32],
    lists: &Lists<u32>,
) -> Result<Walk, Memory>
    requires root { (c : ℕ) → Contains root.now c → c < count }
    requires lists { (v c : ℕ) → Contains (kids lists.now actions v) c → c < count }
    ensures walk { IfOk result (λ w. IsWalk root.now (kids lists.now actions) w.met.items
        w.is_met.items) }
    ensures count { IfOk result (λ w. length w.is_met.items ≡ count) }
{
    let mut walk = Walk {
        met: Vec::with_capacity(alloc, count)?,
        is_met: vec![in alloc; false; count]?,
    };
    meet_all(&mut walk, root)?;
    let mut at = 0;
    'met: while at < walk.met.len() {
        let place = walk.met[at];
        meet_all(&mut walk, kids(lists, actions, place))?;
        at += 1;
    }
    Ok(walk)
}
