//! Objects of a parameter that need not be tried: an atom that the precondition needs is never true
//! with them.

ghost use Rattle.std.specs.Prelude.{◌≡◌, ◌<◌, ◌+◌, length, Some};
ghost use Rattle.hv_world.specs.Views.{atom_view};
ghost use Rattle.hv_state.specs.Ever.{ever_rows};
ghost use Rattle.hv_match.specs.inside.Puzzles as puzzles;
ghost use Rattle.hv_match.specs.inside.Puzzles.{NeverWith, NothingWith};

use crate::possible::MOST_TERMS;
use crate::puzzle::Puzzle;
use hv_state::{AtomView, EverTrue};
use hv_world::{Atom, Term};

impl Puzzle<'_> {
    ghost use Rattle.hv_match.specs.inside.PuzzleViews.{puzzle_view, search_of};

    // The first object from another on with which, for a parameter, an atom may be true at some
    // time; it is told where the parameter is the last term of the atom, and the others are known.
    fn next_object(
        &self,
        ever: EverTrue<'_>,
        chosen: &[usize],
        parameter: usize,
        atom: &Atom,
        from: usize,
    ) -> usize
        requires { (puzzle_view self.now).ever ≡ Some (ever_rows ever) }
        ensures { NeverWith (puzzle_view self.now) chosen.now parameter from result
            (atom_view atom.now) }
    {
        let Some((Term::Variable(last), before)) = atom.terms.split_last() else {
            return from;
        };
        let count = before.len();
        if *last != parameter || count >= MOST_TERMS {
            return from;
        }
        let mut numbers = [from; MOST_TERMS];
        if !self.write_known(chosen, &mut numbers[..count], before) {
            return from;
        }
        ever.next_possible(&AtomView::of_numbers(atom.predicate, &numbers[..=count]))
    }

    /// The number of an object of a parameter up to which, from another on, all need not be tried:
    /// an atom that is needed, and decided by the parameter, is never true with them.
    pub(crate) fn skip_objects(
        &self,
        ever: EverTrue<'_>,
        chosen: &[usize],
        parameter: usize,
        number: usize,
    ) -> usize
        requires ever { (puzzle_view self.now).ever ≡ Some (ever_rows ever) }
        requires level { length self.now.table.now.subtasks.now + parameter ≡ length chosen.now }
        requires low { parameter < length self.now.table.now.ranges.items }
        ensures { NothingWith (search_of self.now) chosen.now
            (puzzles.range_of (puzzle_view self.now) parameter) number result }
    {
        let range = self.table.ranges[parameter];
        let objects = range.objects();
        let Some(decided) = self.table.needed_by.get(chosen.len() + 1) else {
            return number;
        };
        if objects.len() <= number {
            return number;
        }
        let atoms = &self.table.needed;
        for decided_number in decided {
            if *decided_number < atoms.len() {
                let atom = atoms[*decided_number];
                let until = self.next_object(ever, chosen, parameter, atom, objects[number].0);
                let upto = range.count_below(number, until);
                if upto > number {
                    return upto;
                }
            }
        }
        number
    }
}
