//! Whether the atoms that a precondition needs may be true at all.

ghost use Rattle.std.specs.Prelude.{◌≡◌, Some, length, map, option_map, true, false};
ghost use Rattle.hv_world.specs.Bindings.{object_of};
ghost use Rattle.hv_world.specs.Views.{atom_view, term_view};
ghost use Rattle.hv_state.specs.Ever.{ever_rows};
ghost use Rattle.hv_match.specs.Possible as possible;
ghost use Rattle.hv_match.specs.inside.Puzzles.{AreKnown, CannotBeTrue};
ghost use Rattle.hv_match.specs.inside.Search.{NothingBegins};

use crate::puzzle::{Puzzle, value};
use hv_state::{AtomView, EverTrue};
use hv_world::{Atom, Term};

/// Atoms with more terms are not asked for.
pub(crate) const MOST_TERMS: usize = 3;

// Writes down the objects of terms under those of the parameters.
fn write_values(into: &mut [usize], values: &[usize], terms: &[Term])
    requires { length into.old ≡ length terms.now }
    ensures { into.new ≡ map (object_of values.now) (map term_view terms.now) }
{
    for number in 0..into.len() {
        into[number] = value(values, terms[number]);
    }
}

// Whether an atom may be true at some time, with these objects of the parameters.
fn is_possible(ever: EverTrue<'_>, values: &[usize], atom: &Atom) -> bool
    ensures { result
        ≡ possible.is_possible (Some (ever_rows ever.entry)) values.now (atom_view atom.now) }
{
    let count = atom.terms.len();
    if count > MOST_TERMS {
        return true;
    }
    let mut numbers = [0; MOST_TERMS];
    let into = &mut numbers[..count];
    write_values(into, values, &atom.terms);
    ever.has(&AtomView::of_numbers(atom.predicate, into))
}

// Whether all these atoms may be.
fn all_possible(ever: EverTrue<'_>, values: &[usize], atoms: &[&Atom]) -> bool
    ensures { result ≡ possible.are_possible (Some (ever_rows ever.entry)) values.now
        (map (λ a. atom_view a.now) atoms.now) }
{
    for atom in atoms {
        if !is_possible(ever, values, atom) {
            return false;
        }
    }
    true
}

/// Whether the atoms may be true at some time, with these objects of the parameters; so they are
/// where it does not count when they are.
pub(crate) fn are_possible(ever: Option<EverTrue<'_>>, values: &[usize], atoms: &[&Atom]) -> bool
    ensures { result ≡ possible.are_possible (option_map ever_rows ever.entry) values.now
        (map (λ a. atom_view a.now) atoms.now) }
{
    match ever {
        None => true,
        Some(ever) => all_possible(ever, values, atoms),
    }
}

impl Puzzle<'_> {
    ghost use Rattle.hv_match.specs.inside.PuzzleViews.{puzzle_view, search_of};

    /// Writes down what the task and the choices made say of terms, if they say it of all.
    pub(crate) fn write_known(&self, chosen: &[usize], into: &mut [usize], terms: &[Term]) -> bool
        requires { length into.old ≡ length terms.now }
        ensures { result ≡ true
            → AreKnown (puzzle_view self.now) chosen.now (map term_view terms.now) into.new }
    {
        for number in 0..into.len() {
            match self.known(chosen, terms[number]) {
                Some(object) => into[number] = object,
                None => return false,
            }
        }
        true
    }

    // Whether an atom is true at no time, whatever is chosen further.
    fn is_impossible(&self, ever: EverTrue<'_>, chosen: &[usize], atom: &Atom) -> bool
        requires { (puzzle_view self.now).ever ≡ Some (ever_rows ever) }
        ensures { result ≡ true
            → CannotBeTrue (puzzle_view self.now) chosen.now (atom_view atom.now) }
    {
        let count = atom.terms.len();
        if count > MOST_TERMS {
            return false;
        }
        let mut numbers = [0; MOST_TERMS];
        let into = &mut numbers[..count];
        if !self.write_known(chosen, into, &atom.terms) {
            return false;
        }
        !ever.has(&AtomView::of_numbers(atom.predicate, into))
    }

    // Whether one of the atoms of these numbers is true at no time.
    fn lacks_one(&self, ever: EverTrue<'_>, chosen: &[usize], numbers: &[usize]) -> bool
        requires { (puzzle_view self.now).ever ≡ Some (ever_rows ever) }
        ensures { result ≡ true → NothingBegins (search_of self.now) chosen.now }
    {
        let atoms = &self.table.needed;
        for number in numbers {
            if *number < atoms.len() && self.is_impossible(ever, chosen, atoms[*number]) {
                return true;
            }
        }
        false
    }

    /// Whether one of the needed atoms that are decided by so many choices is true at no time.
    pub(crate) fn lacks_atom(&self, chosen: &[usize]) -> bool
        ensures { result ≡ true → NothingBegins (search_of self.now) chosen.now }
    {
        match (self.ever, self.table.needed_by.get(chosen.len())) {
            (Some(ever), Some(numbers)) => self.lacks_one(ever, chosen, numbers),
            _ => false,
        }
    }
}
