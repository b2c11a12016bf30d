//! Action lines.

ghost use Rattle.std.specs.Prelude.{◌≡◌, ◌<◌, ◌^◌, ◌==◌, ◌++◌, ◌∷◌, [], Some, map, length, option_map, slice_get, IfOk, OnOk};
ghost use Rattle.hv_text.specs.Names.{text_of};
ghost use Rattle.hv_plan.specs.LineViews.{action_view, actions_view, AreTidyActions};
ghost use Rattle.hv_plan.specs.LinesLeft.{actions_left};

use hv_text::{Lists, Memory, Name};
use std::alloc::Global;

/// A line that says: the node of this id is this action with these arguments.
#[derive(Clone, Copy)]
pub struct ActionLine<'p, 's> {
    pub(crate) id: u64,
    pub(crate) name: Name<'s>,
    pub(crate) arguments: &'p [Name<'s>],
    pub(crate) line: u32,
}

// An action line without its arguments.
#[derive(Clone, Copy)]
struct ActionHead<'s> {
    id: u64,
    name: Name<'s>,
    line: u32,
}

/// Action lines. The arguments of all of them stand one after another.
#[derive(Drop)]
pub struct ActionLines<'s> {
    heads: Vec<ActionHead<'s>>,
    arguments: Lists<Name<'s>>,
}

/// The action lines that are left, in their order.
#[derive(Clone, Copy)]
pub struct ActionLinesIter<'p, 's> {
    lines: &'p ActionLines<'s>,
    next: usize,
}

impl<'p, 's> Iterator for ActionLinesIter<'p, 's> {
    ghost use Rattle.std.specs.Iterator.{YieldsFirstBy, item_count};

    type Item = ActionLine<'p, 's>;

    ghost next_gives = { YieldsFirstBy action_view actions_left };

    ghost remaining = { item_count actions_left };

    fn next(&mut self) -> Option<ActionLine<'p, 's>> {
        if self.next >= self.lines.len() {
            return None;
        }
        let line = self.lines.at(self.next);
        self.next += 1;
        Some(line)
    }
}

impl<'p, 's> ActionLine<'p, 's> {
    /// Its id.
    pub fn id(&self) -> u64
        ensures { result ≡ (action_view self.now).id }
    {
        self.id
    }

    /// The name of its action.
    pub fn name(&self) -> Name<'s>
        ensures { text_of result ≡ (action_view self.now).name }
    {
        self.name
    }

    /// The names of its arguments, as written.
    pub fn arguments(&self) -> &'p [Name<'s>]
        ensures { map text_of result.now ≡ (action_view self.now).arguments }
    {
        self.arguments
    }

    /// The number of its line in the text.
    pub fn line(&self) -> u32
        ensures { result ≡ (action_view self.now).line }
    {
        self.line
    }
}

impl<'s> ActionLines<'s> {
    /// No lines.
    ///
    /// # Errors
    ///
    /// `Memory` where a growth was refused.
    pub(crate) fn new(alloc: Global) -> Result<ActionLines<'s>, Memory>
        ensures none { IfOk result (λ ls. actions_view ls ≡ []) }
        ensures tidy { IfOk result AreTidyActions }
    {
        Ok(ActionLines {
            heads: Vec::new(alloc),
            arguments: Lists::with_capacity(alloc, 0)?,
        })
    }

    /// How many lines there are.
    pub fn len(&self) -> usize
        ensures count { result ≡ length (actions_view self.now) }
        ensures short { result < 2 ^ 63 }
    {
        self.heads.len()
    }

    /// Whether there are no lines.
    pub fn is_empty(&self) -> bool
        ensures { result ≡ (length (actions_view self.now) == 0) }
    {
        self.len() == 0
    }

    /// The lines, one after another.
    pub fn iter(&self) -> ActionLinesIter<'_, 's>
        ensures { actions_left result ≡ actions_view self.now }
    {
        ActionLinesIter {
            lines: self,
            next: 0,
        }
    }

    /// The line at a place; None where there is none.
    pub fn get(&self, place: usize) -> Option<ActionLine<'_, 's>>
        ensures { option_map action_view result ≡ slice_get (actions_view self.now) place }
    {
        if place < self.len() {
            Some(self.at(place))
        } else {
            None
        }
    }

    /// The line at a place.
    pub(crate) fn at(&self, place: usize) -> ActionLine<'_, 's>
        requires { place < length (actions_view self.now) }
        ensures { slice_get (actions_view self.now) place ≡ Some (action_view result) }
    {
        let head = self.heads[place];
        ActionLine {
            id: head.id,
            name: head.name,
            arguments: self.arguments.at(place),
            line: head.line,
        }
    }

    /// Puts a line behind the others.
    ///
    /// # Errors
    ///
    /// `Memory` where a growth was refused, or where all lines together would have 2^32 arguments.
    pub(crate) fn push(&mut self, line: ActionLine<'_, 's>) -> Result<(), Memory>
        requires { AreTidyActions self.old }
        ensures lines { OnOk result
            (actions_view self.new ≡ actions_view self.old ++ action_view line.entry ∷ []) }
        ensures tidy { OnOk result (AreTidyActions self.new) }
    {
        self.arguments.push(line.arguments)?;
        self.heads.push(ActionHead {
            id: line.id,
            name: line.name,
            line: line.line,
        })?;
        Ok(())
    }
}
