//! When the truth of a formula may change next.

ghost use Rattle.std.specs.Prelude.{◌≡◌, ◌<◌};
ghost use Rattle.std.specs.Prelude.{false};
ghost use Rattle.hv_state.specs.inside.Parts.{SpokenOf, SpokenOfBySome, SpokenOfForSome};
ghost use Rattle.hv_state.specs.inside.Parts.{IsStill, AreStill};
ghost use Rattle.hv_state.specs.inside.Histories.{IsNext};

use crate::atom::AtomView;
use crate::changes::Changes;
use crate::history::least;
use crate::lacks::lacks_next;
use hv_world::{Binding, Formula, TypeId, World};

// Whether an action may touch an atom that a formula speaks of: one of a predicate in it. No object
// is looked at.
#[cycle(may_change)]
fn may_change(changes: &Changes, formula: &Formula) -> bool
    ensures { result ≡ false → IsStill changes.now formula.now }
{
    match formula {
        Formula::Holds(atom) => changes.has_some_of(atom.predicate),
        Formula::And(parts) => one_may_change(changes, parts),
        Formula::Or(parts) => one_may_change(changes, parts),
        Formula::Not(part) => may_change(changes, part),
        Formula::Imply(premise, conclusion) => {
            may_change(changes, premise) || may_change(changes, conclusion)
        }
        Formula::Forall(_, part) => may_change(changes, part),
        Formula::Exists(_, part) => may_change(changes, part),
        Formula::Equal(_, _) => false,
    }
}

// The same of several formulas.
#[cycle(may_change)]
fn one_may_change(changes: &Changes, parts: &[Formula]) -> bool
    ensures { result ≡ false → AreStill changes.now parts.now }
{
    for part in parts {
        if may_change(changes, part) {
            return true;
        }
    }
    false
}

/// The first index after `k` at which an atom changes that a formula speaks of, or else the end. No
/// more is asked once that is the next index.
#[cycle(next_change)]
pub(crate) fn next_change(
    world: &World<'_>,
    changes: &Changes,
    k: usize,
    end: usize,
    formula: &Formula,
    binding: &Binding<'_>,
) -> usize
    requires { k < end }
    ensures { IsNext changes.now k end (SpokenOf world.now formula.now binding.now) result }
{
    match formula {
        Formula::Holds(atom) => changes.next(
            &AtomView::resolved(atom, &*binding, &mut [0; 3]),
            k,
            end,
        ),
        Formula::And(parts) => next_of_parts(world, changes, k, end, parts, binding),
        Formula::Or(parts) => next_of_parts(world, changes, k, end, parts, binding),
        Formula::Not(part) => next_change(world, changes, k, end, part, binding),
        Formula::Imply(premise, conclusion) => least(
            next_change(world, changes, k, end, premise, binding),
            next_change(world, changes, k, end, conclusion, binding),
        ),
        Formula::Forall(of, part) => next_of_choices(world, changes, k, end, part, of, binding),
        Formula::Exists(of, part) => next_of_choices(world, changes, k, end, part, of, binding),
        Formula::Equal(_, _) => end,
    }
}

// The same of several formulas.
#[cycle(next_change)]
fn next_of_parts(
    world: &World<'_>,
    changes: &Changes,
    k: usize,
    end: usize,
    parts: &[Formula],
    binding: &Binding<'_>,
) -> usize
    requires { k < end }
    ensures { IsNext changes.now k end (SpokenOfBySome world.now parts.now binding.now) result }
{
    let mut until = end;
    for part in parts {
        if until == k + 1 {
            return until;
        }
        until = least(until, next_change(world, changes, k, end, part, binding));
    }
    until
}

// The same of a formula for all objects of these types that the next variables may have. They
// are gone through only where an atom of the formula may change: truth may be told by the
// first of many.
#[cycle(next_change)]
fn next_of_choices(
    world: &World<'_>,
    changes: &Changes,
    k: usize,
    end: usize,
    formula: &Formula,
    of: &[TypeId],
    binding: &Binding<'_>,
) -> usize
    requires { k < end }
    ensures { IsNext changes.now k end
        (SpokenOfForSome world.now formula.now of.now binding.now) result }
{
    if may_change(changes, formula) {
        next_of_some(world, changes, k, end, formula, of, binding)
    } else {
        end
    }
}

// The same, by all choices of such objects; of a variable that the formula does not speak of, one
// object serves for all.
#[cycle(next_change)]
fn next_of_some(
    world: &World<'_>,
    changes: &Changes,
    k: usize,
    end: usize,
    formula: &Formula,
    of: &[TypeId],
    binding: &Binding<'_>,
) -> usize
    requires { k < end }
    ensures { IsNext changes.now k end
        (SpokenOfForSome world.now formula.now of.now binding.now) result }
{
    match of {
        [] => next_change(world, changes, k, end, formula, binding),
        [first, others @ ..] => {
            let is_left_out = lacks_next(formula, binding);
            let mut until = end;
            for object in world.objects_of(*first) {
                if until == k + 1 {
                    return until;
                }
                let inner = Binding::With(&*binding, *object);
                until = least(
                    until,
                    next_of_some(world, changes, k, end, formula, others, &inner),
                );
                if is_left_out {
                    return until;
                }
            }
            until
        }
    }
}
