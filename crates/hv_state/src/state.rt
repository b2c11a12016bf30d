//! States: sets of atoms without variables.

ghost use Rattle.std.specs.Prelude.{◌↔◌, IsTrue, IfOk, OnOk, OnErr};
ghost use Rattle.std.specs.List.{Contains};
ghost use Rattle.hv_world.specs.Bindings.{GroundAtom};
ghost use Rattle.hv_world.specs.WorldViews.{world_view};
ghost use Rattle.hv_state.specs.Atoms.{Same, After, IsPassedOver, atom_read};
ghost use Rattle.hv_state.specs.Plans.{Start};

use crate::atom::AtomView;
use crate::ground::GroundAtoms;
use hv_text::Memory;
use hv_world::World;
use std::alloc::Global;

/// A set of atoms without variables: those that are true.
pub trait State: Sized + Drop {
    ghost atoms: { Self → GroundAtom → Type 0 };

    /// The state that a world begins with.
    ///
    /// # Errors
    ///
    /// `Memory` where a growth was refused.
    fn initial(alloc: Global, world: &World<'_>) -> Result<Self, Memory>
        ensures { IfOk result (λ s. Same (atoms s) (Start (world_view world.now))) };

    /// The state that a world begins with, made for actions that make these atoms false or true.
    ///
    /// # Errors
    ///
    /// `Memory` where a growth was refused.
    fn initial_for(alloc: Global, world: &World<'_>, _touched: &GroundAtoms) -> Result<Self, Memory>
        ensures { IfOk result (λ s. Same (atoms s) (Start (world_view world.now))) }
    {
        Self::initial(alloc, world)
    }

    /// Another state with the same atoms.
    ///
    /// # Errors
    ///
    /// `Memory` where a growth was refused.
    fn copy(&self, alloc: Global) -> Result<Self, Memory>
        ensures { IfOk result (λ s. Same (atoms s) (atoms self.now)) };

    /// Whether an atom is true.
    fn holds(&self, atom: &AtomView<'_>) -> bool
        ensures { IsTrue result ↔ atoms self.now (atom_read atom.now) };

    /// The first number, from that of an atom's last object on, with which in its place the atom
    /// may be true; it may be told too low.
    fn next_possible(&self, atom: &AtomView<'_>) -> usize
        ensures { IsPassedOver (atoms self.now) (atom_read atom.now) result };

    /// Makes atoms false, and then others true.
    ///
    /// # Errors
    ///
    /// `Memory` where a growth was refused; the same atoms are true then as before.
    fn apply(&mut self, deletes: &GroundAtoms, adds: &GroundAtoms) -> Result<(), Memory>
        ensures ok { OnOk result (Same (atoms self.new)
            (After (atoms self.old) (Contains deletes.now) (Contains adds.now))) }
        ensures err { OnErr result (Same (atoms self.new) (atoms self.old)) };
}
