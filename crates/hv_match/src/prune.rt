//! What shows that nothing that is wanted begins with some choices.

ghost use Rattle.std.specs.Prelude.{◌≡◌, ◌<◌, ◌+◌, [], length, map, true, false, IfSome};
ghost use Rattle.hv_world.specs.Views.{term_view, constraint_view};
ghost use Rattle.hv_match.specs.inside.Search.{NothingBegins};
ghost use Rattle.hv_match.specs.inside.Puzzles.{CannotHold, IsChosen, IsKnown, IsValue};

use crate::child_rows::class_size;
use crate::puzzle::{Puzzle, agree, is_in};
use hv_world::{Constraint, Term, classes_are_counted};

// Where the subtasks are fewer, the search is as fast as a look at each of them; where they are
// more, such a look may take as long as the search.
const LEAST_LOOKED_AT: usize = 4;

const MOST_LOOKED_AT: usize = 64;

impl Puzzle<'_> {
    ghost use Rattle.hv_match.specs.inside.PuzzleViews.{puzzle_view, search_of};

    // The object chosen for a parameter.
    fn chosen_object(&self, chosen: &[usize], parameter: usize) -> Option<usize>
        ensures { IfSome result (IsChosen (puzzle_view self.now) chosen.now parameter) }
    {
        let level = self.table.subtasks.len().saturating_add(parameter);
        chosen.get(level).copied()
    }

    // What the task and the choices made say of a parameter.
    fn parameter(&self, chosen: &[usize], parameter: usize) -> Option<usize>
        ensures { IfSome result (IsValue (puzzle_view self.now) chosen.now parameter) }
    {
        match self.bound(chosen, parameter) {
            Some(object) => Some(object),
            None => self.chosen_object(chosen, parameter),
        }
    }

    /// What the task and the choices made say of a term.
    pub(crate) fn known(&self, chosen: &[usize], term: Term) -> Option<usize>
        ensures { IfSome result (IsKnown (puzzle_view self.now) chosen.now (term_view term)) }
    {
        match term {
            Term::Object(object) => Some(object.0),
            Term::Variable(parameter) => self.parameter(chosen, parameter),
        }
    }

    // Whether a constraint is broken, whatever is chosen further.
    fn breaks(&self, chosen: &[usize], constraint: Constraint) -> bool
        ensures { result ≡ true
            → CannotHold (puzzle_view self.now) chosen.now (constraint_view constraint) }
    {
        match (
            self.known(chosen, constraint.left),
            self.known(chosen, constraint.right),
        ) {
            (Some(left), Some(right)) => !agree(left, right, constraint.is_equal),
            _ => false,
        }
    }

    /// Whether one of the constraints that are decided by so many choices is broken, or an atom
    /// that they decide is needed and never true.
    pub(crate) fn is_broken(&self, chosen: &[usize]) -> bool
        ensures { result ≡ true → NothingBegins (search_of self.now) chosen.now }
    {
        self.breaks_some(chosen) || self.lacks_atom(chosen)
    }

    // Whether one of the constraints that are decided by so many choices is broken.
    fn breaks_some(&self, chosen: &[usize]) -> bool
        ensures { result ≡ true → NothingBegins (search_of self.now) chosen.now }
    {
        match self.table.decided.get(chosen.len()) {
            Some(numbers) => self.breaks_one(chosen, numbers),
            None => false,
        }
    }

    // Whether one of the constraints of these numbers is broken.
    fn breaks_one(&self, chosen: &[usize], numbers: &[usize]) -> bool
        ensures { result ≡ true → NothingBegins (search_of self.now) chosen.now }
    {
        let constraints = self.table.constraints;
        for number in numbers {
            if *number < constraints.len() && self.breaks(chosen, constraints[*number]) {
                return true;
            }
        }
        false
    }

    // Whether a parameter is bound to an object that is not of its type.
    fn is_bound_outside(&self, chosen: &[usize], parameter: usize) -> bool
        ensures { result ≡ true → NothingBegins (search_of self.now) chosen.now }
    {
        if parameter >= self.table.ranges.len() {
            return false;
        }
        let range = self.table.ranges[parameter];
        match self.bound(chosen, parameter) {
            Some(object) => !is_in(object, range),
            None => false,
        }
    }

    // Whether a parameter has its object from a subtask, or from the task.
    fn is_bound_by(&self, parameter: usize, subtask: Option<usize>) -> bool {
        match self.table.sources.get(parameter) {
            Some(Some(source)) => source.subtask == subtask,
            _ => false,
        }
    }

    // Whether a parameter is bound to an object that it cannot have.
    fn is_misbound(&self, chosen: &[usize], parameter: usize) -> bool
        ensures { result ≡ true → NothingBegins (search_of self.now) chosen.now }
    {
        self.is_bound_outside(chosen, parameter) || self.is_foretold_otherwise(chosen, parameter)
    }

    // Whether one of the parameters that have their objects from these terms, those of a subtask or
    // of the task, is bound to an object that it cannot have: by its type, or by what another
    // subtask tells of it.
    fn is_outside(&self, chosen: &[usize], subtask: Option<usize>, terms: &[Term]) -> bool
        ensures { result ≡ true → NothingBegins (search_of self.now) chosen.now }
    {
        for term in terms {
            if let Term::Variable(parameter) = *term
                && self.is_bound_by(parameter, subtask)
                && self.is_misbound(chosen, parameter)
            {
                return true;
            }
        }
        false
    }

    // Whether some parameter has no object that it may have.
    fn lacks_objects(&self) -> bool
        ensures { result ≡ true → NothingBegins (search_of self.now) [] }
    {
        let mut at = 0;
        while at < self.table.ranges.len() {
            let range = self.table.ranges[at].objects();
            if range.is_empty() {
                return true;
            }
            at += 1;
        }
        false
    }

    // Whether the subtasks of the class of one are more than the children that are tried for it.
    fn is_scarce(&self, subtask: usize) -> bool
        requires { subtask < length self.now.table.now.subtasks.now }
        ensures { result ≡ true → NothingBegins (search_of self.now) [] }
    {
        classes_are_counted();
        self.places.row(subtask).len() < class_size(self.table.network, subtask)
    }

    // Whether no child may do a subtask, by what the task says.
    fn lacks_child(&self, subtask: usize) -> bool
        requires { subtask < length self.now.table.now.subtasks.now }
        ensures { result ≡ true → NothingBegins (search_of self.now) [] }
    {
        let row = self.places.row(subtask);
        let wanted = &self.table.subtasks[subtask];
        for place in row {
            if self.may_do(&[], *place, wanted) {
                return false;
            }
        }
        true
    }

    // Whether some alike subtasks are more than the children that are tried for them.
    fn is_any_scarce(&self) -> bool
        ensures { result ≡ true → NothingBegins (search_of self.now) [] }
    {
        for subtask in 0..self.table.subtasks.len() {
            if self.is_scarce(subtask) {
                return true;
            }
        }
        false
    }

    // Whether for some subtask there is no child that may do it, by what the task says. It is asked
    // where the choices are many, and the subtasks are not.
    fn lacks_children(&self) -> bool
        ensures { result ≡ true → NothingBegins (search_of self.now) [] }
    {
        let subtasks = self.table.subtasks.len();
        if subtasks < LEAST_LOOKED_AT || subtasks > MOST_LOOKED_AT {
            return false;
        }
        for subtask in 0..subtasks {
            if self.lacks_child(subtask) {
                return true;
            }
        }
        false
    }

    // Whether the node's task is not the method's, an object of it is not of its parameter's type,
    // or its objects break a constraint.
    fn is_misgiven(&self) -> bool
        ensures { result ≡ true → NothingBegins (search_of self.now) [] }
    {
        if !self.may_all_be(&[], self.table.task, self.objects) {
            return true;
        }
        self.is_outside(&[], None, self.table.task) || self.is_broken(&[])
    }

    /// Whether the children are not as many as the subtasks.
    pub(crate) fn is_uneven(&self) -> bool
        ensures { result ≡ true → NothingBegins (search_of self.now) [] }
    {
        let subtasks = self.table.subtasks.len();
        subtasks != self.children.len()
    }

    // Whether there is no object for a parameter, or no child for a subtask.
    fn lacks_something(&self) -> bool
        ensures { result ≡ true → NothingBegins (search_of self.now) [] }
    {
        if self.lacks_objects() {
            return true;
        }
        self.is_any_scarce() || self.lacks_children()
    }

    /// Whether it shows before the search that nothing is wanted: by the number of the children, by
    /// the task, by a type without objects, or by subtasks that are more than the children that may
    /// do them.
    pub(crate) fn is_hopeless(&self) -> bool
        ensures { result ≡ true → NothingBegins (search_of self.now) [] }
    {
        if self.is_uneven() {
            return true;
        }
        self.is_misgiven() || self.lacks_something()
    }

    /// Says no only where nothing that is wanted begins with these children.
    pub(crate) fn is_child_hopeful(&self, chosen: &[usize], last: usize) -> bool
        requires size { length chosen.now ≡ last + 1 }
        requires low { last < length self.now.table.now.subtasks.now }
        ensures { result ≡ false → NothingBegins (search_of self.now) chosen.now }
    {
        let subtask = &self.table.subtasks[last];
        if !self.may_do(chosen, chosen[last], subtask) {
            return false;
        }
        if self.is_outside(chosen, Some(last), &subtask.terms) {
            return false;
        }
        !self.is_broken(chosen)
    }
}
