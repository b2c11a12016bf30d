//! Atoms without variables, as actions delete and add them.

ghost use Rattle.std.specs.Prelude.{◌≡◌, ◌++◌, ◌∷◌, [], map, IfOk, OnOk, OnErr};
ghost use Rattle.std.specs.List.{Contains};
ghost use Rattle.hv_world.specs.Values.{effects_of};
ghost use Rattle.hv_world.specs.Views.{effect_view};
ghost use Rattle.hv_world.specs.WorldViews.{world_view};
ghost use Rattle.hv_world.specs.Bindings.{objects_in, ground_actions_view};
ghost use Rattle.hv_world.specs.Effects.{SomeMakes};
ghost use Rattle.hv_state.specs.Atoms.{Same, atom_read};
ghost use Rattle.hv_state.specs.Atoms.{row_of};
ghost use Rattle.hv_state.specs.inside.Rows.{rows_in, Ascend, AreRowsOfAtoms};
ghost use Rattle.hv_state.specs.inside.Notes.{TouchedIn};

use crate::atom::AtomView;
use crate::made::push_made;
use crate::rows::{Row, row_of};
use crate::touched::touched;
use hv_text::Memory;
use hv_world::{Binding, Effect, GroundActions, World};
use std::alloc::Global;
use std::marker::Model;

/// Atoms without variables, in a list.
#[derive(Drop)]
pub struct GroundAtoms {
    rows: Vec<Row>,
}

impl Model for GroundAtoms {
    ghost use Rattle.std.specs.Prelude.{◌≡◌, List, map};
    ghost use Rattle.hv_world.specs.Bindings.{GroundAtom};
    ghost use Rattle.hv_state.specs.Atoms.{row_of};
    ghost use Rattle.hv_state.specs.inside.Rows.{atom_of, rows_in};

    ghost Value = { List GroundAtom };

    ghost view = { λ a. map atom_of (rows_in a.rows.items) };

    ghost invariant = { λ a.
        rows_in a.rows.items ≡ map row_of (map atom_of (rows_in a.rows.items)) };
}

impl GroundAtoms {
    /// No atoms.
    pub fn new(alloc: Global) -> GroundAtoms
        ensures { result ≡ [] }
    {
        GroundAtoms {
            rows: Vec::new(alloc),
        }
    }

    /// The atoms that effects make true, or false, with the objects of a binding: also those that
    /// an effect makes so for some objects of its variables. One may stand there more than once.
    ///
    /// # Errors
    ///
    /// `Memory` where a growth was refused.
    pub fn made(
        alloc: Global,
        world: &World<'_>,
        effects: &[Effect],
        is_true: bool,
        binding: &Binding<'_>,
    ) -> Result<GroundAtoms, Memory>
        ensures { IfOk result (λ a. Same (Contains a)
            (SomeMakes (world_view world.now).typing is_true (objects_in binding.now)
            (effects_of (map effect_view effects.now)))) }
    {
        let mut rows = Vec::new(alloc);
        push_made(world, &mut rows, effects, is_true, binding)?;
        Ok(GroundAtoms { rows })
    }

    /// The atoms that some of these actions deletes or adds, in order and each once.
    ///
    /// # Errors
    ///
    /// `Memory` where a growth was refused.
    pub(crate) fn touched(
        alloc: Global,
        world: &World<'_>,
        actions: &GroundActions,
    ) -> Result<GroundAtoms, Memory>
        ensures ascend { IfOk result (λ a. Ascend (map row_of a)) }
        ensures exact { IfOk result (λ a. AreRowsOfAtoms
            (TouchedIn (world_view world.now) (ground_actions_view actions.now)) (map row_of a)) }
    {
        let rows = touched(alloc, world, actions)?;
        Ok(GroundAtoms { rows })
    }

    /// Puts an atom behind the others.
    ///
    /// # Errors
    ///
    /// `Memory` where a growth was refused; the atoms are the same then as before.
    pub fn push(&mut self, atom: &AtomView<'_>) -> Result<(), Memory>
        ensures ok { OnOk result (self.new ≡ self.old ++ atom_read atom.now ∷ []) }
        ensures err { OnErr result (self.new ≡ self.old) }
    {
        let row = row_of(*self.rows.allocator(), atom)?;
        self.rows.push(row)?;
        Ok(())
    }

    /// The rows of the atoms, given away.
    pub(crate) fn into_rows(self) -> Vec<Row>
        ensures { rows_in result.items ≡ map row_of self }
    {
        self.rows
    }

    /// The rows of the atoms.
    pub(crate) fn rows(&self) -> &[Row]
        ensures { rows_in result.now ≡ map row_of self.now }
    {
        &self.rows
    }
}
