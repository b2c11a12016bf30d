//! Choices that are forced: those with which every match of a puzzle begins. Where each subtask has
//! a name that one child alone has, and the task and the children say all objects, as in most nodes
//! of most plans, there is one match at most, and nothing need be searched.

ghost use Rattle.std.specs.Prelude.{◌≡◌, ◌<◌, length, true, IfSome};
ghost use Rattle.hv_world.specs.Views.{name_view};
ghost use Rattle.hv_match.specs.inside.Forced.{IsAlone, IsForced, AreForced};
ghost use Rattle.hv_match.specs.inside.Puzzles as puzzles;
ghost use Rattle.hv_match.specs.inside.Tables.{has_name};

use crate::puzzle::{Puzzle, same_name};
use hv_world::TaskName;

/// Of a node with more choices, subtasks and parameters together, it is not asked whether they are
/// forced, since the name of each subtask is compared with those of all children.
pub(crate) const MOST_CHOICES: usize = 16;

impl Puzzle<'_> {
    ghost use Rattle.hv_match.specs.inside.PuzzleViews.{puzzle_view};

    // Whether the child at a place does what has a name.
    fn is_named(&self, place: usize, name: TaskName) -> bool
        ensures { result ≡ has_name (name_view name)
            (puzzles.child_at (puzzle_view self.now).children place) }
    {
        match self.child(place) {
            None => false,
            Some(work) => same_name(work.name, name),
        }
    }

    // The place of the one child that does what has a name.
    fn child_alone(&self, name: TaskName) -> Option<usize>
        ensures { IfSome result (IsAlone (puzzle_view self.now).children (name_view name)) }
    {
        let mut found = None;
        for place in 0..self.children.len() {
            if self.is_named(place, name) {
                if found.is_some() {
                    return None;
                }
                found = Some(place);
            }
        }
        found
    }

    // The choice with which every match goes on that begins with others, where that shows.
    fn forced_choice(&self, chosen: &[usize]) -> Option<usize>
        requires { length chosen.now < puzzles.levels (puzzle_view self.now) }
        ensures { IfSome result (IsForced (puzzle_view self.now) chosen.now) }
    {
        match chosen.len().checked_sub(self.table.subtasks.len()) {
            None => self.child_alone(self.table.subtasks[chosen.len()].name),
            Some(parameter) => self.bound(chosen, parameter),
        }
    }

    /// Writes down the choices of the only match that there may be. Says no where that
    /// does not show.
    pub(crate) fn force(&self, chosen: &mut [usize]) -> bool
        requires { length chosen.old ≡ puzzles.levels (puzzle_view self.now) }
        ensures size { length chosen.new ≡ length chosen.old }
        ensures forced { result ≡ true → AreForced (puzzle_view self.now) chosen.new }
    {
        for level in 0..chosen.len() {
            match self.forced_choice(&chosen[..level]) {
                None => return false,
                Some(choice) => chosen[level] = choice,
            }
        }
        true
    }

    /// Whether a whole choice is a match.
    pub(crate) fn is_match(&self, chosen: &[usize]) -> bool
        requires { length chosen.now ≡ puzzles.levels (puzzle_view self.now) }
        ensures { result ≡ puzzles.is_good (puzzle_view self.now) chosen.now }
    {
        let subtasks = self.table.subtasks.len();
        subtasks == self.children.len()
            && is_once(&chosen[..subtasks])
            && self.suits(&chosen[..subtasks], &chosen[subtasks..])
    }
}

// Whether a number stands in a list.
fn stands_in(numbers: &[usize], number: usize) -> bool
    ensures { result ≡ puzzles.has number numbers.now }
{
    for other in numbers {
        if *other == number {
            return true;
        }
    }
    false
}

// Whether no number stands twice in a list.
fn is_once(numbers: &[usize]) -> bool
    ensures { result ≡ puzzles.is_once numbers.now }
{
    for place in 0..numbers.len() {
        if stands_in(&numbers[place + 1..], numbers[place]) {
            return false;
        }
    }
    true
}
