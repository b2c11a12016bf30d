//! The atoms that a formula needs.

ghost use Rattle.std.specs.Prelude.{◌≡◌, ◌++◌, map, IfOk, OnOk};
ghost use Rattle.hv_world.specs.Values.{formulas_of};
ghost use Rattle.hv_world.specs.Views.{atom_view, formula_view};
ghost use Rattle.hv_state.specs.Needed.{needed, needed_alone, of_parts};

use hv_text::Memory;
use hv_world::{Atom, Formula};
use std::alloc::Global;

// Puts an atom behind others, if the formula is one.
fn push_atom<'a>(atoms: &mut Vec<&'a Atom>, formula: &'a Formula) -> Result<(), Memory>
    ensures { OnOk result (map (λ a. atom_view a.now) atoms.new.items
        ≡ map (λ a. atom_view a.now) atoms.old.items ++ needed_alone (formula_view formula.now)) }
{
    if let Formula::Holds(atom) = formula {
        atoms.push(atom)?;
    }
    Ok(())
}

// The atoms among the parts of a conjunction.
fn among_parts<'a>(alloc: Global, parts: &'a [Formula]) -> Result<Vec<&'a Atom>, Memory>
    ensures { IfOk result (λ v. map (λ a. atom_view a.now) v.items
        ≡ of_parts needed_alone (formulas_of (map formula_view parts.now))) }
{
    let mut atoms = Vec::new(alloc);
    for part in parts {
        push_atom(&mut atoms, part)?;
    }
    Ok(atoms)
}

/// The atoms without which a formula is not true, as far as its form shows: itself, or the atoms
/// among the parts of a conjunction.
///
/// # Errors
///
/// `Memory` where a growth was refused.
pub fn needed_atoms<'a>(alloc: Global, formula: &'a Formula) -> Result<Vec<&'a Atom>, Memory>
    ensures { IfOk result (λ v. map (λ a. atom_view a.now) v.items
        ≡ needed (formula_view formula.now)) }
{
    if let Formula::And(parts) = formula {
        return among_parts(alloc, parts);
    }
    let mut atoms = Vec::new(alloc);
    push_atom(&mut atoms, formula)?;
    Ok(atoms)
}
