//! The atoms that effects make true, or false.

ghost use Rattle.std.specs.Prelude.{◌≡◌, ◌∷◌, [], IfOk};
ghost use Rattle.hv_world.specs.Bindings.{GroundAtom};
ghost use Rattle.hv_state.specs.Atoms.{atom_read};
ghost use Rattle.hv_state.specs.Atoms.{row_of};
ghost use Rattle.hv_state.specs.inside.Rows.{HaveCome, HaveJoined};
ghost use Rattle.hv_state.specs.inside.Parts.{MadeBy, MadeBySome, MadeForSome};
ghost use Rattle.hv_state.specs.inside.Takings.{HaveBeenTaken};

use crate::atom::AtomView;
use crate::lacks::effects_lack_next;
use crate::makes::one_makes;
use crate::rows::{Row, row_of};
use hv_text::Memory;
use hv_world::{Binding, Effect, TypeId, World};

/// A way to take atoms, one after another, into what holds them.
pub(crate) trait Take {
    type Into;

    ghost takes: { Self → GroundAtom → Self.Into → Self.Into → Type 0 };

    /// Takes an atom.
    fn take(&self, into: &mut Self::Into, atom: &AtomView<'_>) -> Result<(), Memory>
        ensures { IfOk result (λ _. takes self.now (atom_read atom.now) into.old into.new) };
}

/// The row of each atom is put behind others.
#[derive(Clone, Copy)]
struct AsRow;

impl Take for AsRow {
    type Into = Vec<Row>;

    ghost takes = { λ _ g old new. HaveCome old.items (row_of g ∷ []) new.items };

    fn take(&self, rows: &mut Vec<Row>, atom: &AtomView<'_>) -> Result<(), Memory> {
        let row = row_of(*rows.allocator(), atom)?;
        rows.push(row)?;
        Ok(())
    }
}

// Takes the atoms that an effect makes true, or false.
#[cycle(made)]
fn take_made_by<T: Take>(
    world: &World<'_>,
    way: &T,
    into: &mut T::Into,
    effect: &Effect,
    is_true: bool,
    binding: &Binding<'_>,
) -> Result<(), Memory>
    ensures { IfOk result (λ _. HaveBeenTaken (T.takes way.now)
        (MadeBy world.now is_true effect.now binding.now) into.old into.new) }
{
    match effect {
        Effect::Becomes(becomes, atom) => {
            if *becomes == is_true {
                way.take(into, &AtomView::resolved(atom, &*binding, &mut [0; 3]))
            } else {
                Ok(())
            }
        }
        Effect::Forall(of, effects) => {
            if one_makes(effects, is_true) {
                take_made_for_each(world, way, into, effects, of, is_true, binding)
            } else {
                Ok(())
            }
        }
    }
}

/// Takes the atoms that effects make true, or false: those that an effect makes so for each object
/// of its variables, too. Where nothing can be made so, no object is looked at. It takes no memory
/// of its own but a frame of the stack for each effect and each variable.
#[cycle(made)]
pub(crate) fn take_made<T: Take>(
    world: &World<'_>,
    way: &T,
    into: &mut T::Into,
    effects: &[Effect],
    is_true: bool,
    binding: &Binding<'_>,
) -> Result<(), Memory>
    ensures { IfOk result (λ _. HaveBeenTaken (T.takes way.now)
        (MadeBySome world.now is_true effects.now binding.now) into.old into.new) }
{
    for effect in effects {
        take_made_by(world, way, into, effect, is_true, binding)?;
    }
    Ok(())
}

// The same of effects for all objects of these types that the next variables may have; of a
// variable that they do not speak of, one object serves for all.
#[cycle(made)]
fn take_made_for_each<T: Take>(
    world: &World<'_>,
    way: &T,
    into: &mut T::Into,
    effects: &[Effect],
    of: &[TypeId],
    is_true: bool,
    binding: &Binding<'_>,
) -> Result<(), Memory>
    ensures { IfOk result (λ _. HaveBeenTaken (T.takes way.now)
        (MadeForSome world.now is_true effects.now of.now binding.now) into.old into.new) }
{
    match of {
        [] => take_made(world, way, into, effects, is_true, binding),
        [first, others @ ..] => {
            let is_left_out = effects_lack_next(effects, binding);
            for object in world.objects_of(*first) {
                let inner = Binding::With(&*binding, *object);
                take_made_for_each(world, way, into, effects, others, is_true, &inner)?;
                if is_left_out {
                    return Ok(());
                }
            }
            Ok(())
        }
    }
}

/// Puts the rows of the atoms that effects make true, or false, behind others. One may stand there
/// more than once, as where two effects make its atom so.
pub(crate) fn push_made(
    world: &World<'_>,
    rows: &mut Vec<Row>,
    effects: &[Effect],
    is_true: bool,
    binding: &Binding<'_>,
) -> Result<(), Memory>
    ensures { IfOk result (λ _. HaveJoined rows.old.items
        (MadeBySome world.now is_true effects.now binding.now) rows.new.items) }
{
    take_made(world, &AsRow, rows, effects, is_true, binding)
}
