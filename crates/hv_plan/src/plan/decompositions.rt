//! Decomposition lines.

ghost use Rattle.std.specs.Prelude.{◌≡◌, ◌<◌, ◌^◌, ◌==◌, ◌++◌, ◌∷◌, [], Some, map, length, sum_by, option_map, slice_get, IfOk, OnOk};
ghost use Rattle.hv_text.specs.Names.{text_of};
ghost use Rattle.hv_plan.specs.LineViews.{decomposition_view, decompositions_view, AreTidy};
ghost use Rattle.hv_plan.specs.LinesLeft.{decompositions_left};

use hv_text::{Lists, Memory, Name};
use std::alloc::Global;

/// A line that says: the node of this id is this task with these arguments, and this method
/// decomposes it into the nodes of these ids.
#[derive(Clone, Copy)]
pub struct DecompositionLine<'p, 's> {
    pub(crate) id: u64,
    pub(crate) name: Name<'s>,
    pub(crate) arguments: &'p [Name<'s>],
    pub(crate) method: Name<'s>,
    pub(crate) children: &'p [u64],
    pub(crate) line: u32,
}

// A decomposition line without its arguments and its children.
#[derive(Clone, Copy)]
struct DecompositionHead<'s> {
    id: u64,
    name: Name<'s>,
    method: Name<'s>,
    line: u32,
}

/// Decomposition lines. The arguments of all of them stand one after another, and so do
/// their children.
#[derive(Drop)]
pub struct DecompositionLines<'s> {
    heads: Vec<DecompositionHead<'s>>,
    arguments: Lists<Name<'s>>,
    children: Lists<u64>,
}

/// The decomposition lines that are left, in their order.
#[derive(Clone, Copy)]
pub struct DecompositionLinesIter<'p, 's> {
    lines: &'p DecompositionLines<'s>,
    next: usize,
}

impl<'p, 's> Iterator for DecompositionLinesIter<'p, 's> {
    ghost use Rattle.std.specs.Iterator.{YieldsFirstBy, item_count};

    type Item = DecompositionLine<'p, 's>;

    ghost next_gives = { YieldsFirstBy decomposition_view decompositions_left };

    ghost remaining = { item_count decompositions_left };

    fn next(&mut self) -> Option<DecompositionLine<'p, 's>> {
        if self.next >= self.lines.len() {
            return None;
        }
        let line = self.lines.at(self.next);
        self.next += 1;
        Some(line)
    }
}

impl<'p, 's> DecompositionLine<'p, 's> {
    /// Its id.
    pub fn id(&self) -> u64
        ensures { result ≡ (decomposition_view self.now).id }
    {
        self.id
    }

    /// The name of its task.
    pub fn name(&self) -> Name<'s>
        ensures { text_of result ≡ (decomposition_view self.now).name }
    {
        self.name
    }

    /// The names of its task's arguments, as written.
    pub fn arguments(&self) -> &'p [Name<'s>]
        ensures { map text_of result.now ≡ (decomposition_view self.now).arguments }
    {
        self.arguments
    }

    /// The name of its method.
    pub fn method(&self) -> Name<'s>
        ensures { text_of result ≡ (decomposition_view self.now).method }
    {
        self.method
    }

    /// The ids of its children, as written.
    pub fn children(&self) -> &'p [u64]
        ensures { result.now ≡ (decomposition_view self.now).children }
    {
        self.children
    }

    /// The number of its line in the text.
    pub fn line(&self) -> u32
        ensures { result ≡ (decomposition_view self.now).line }
    {
        self.line
    }
}

impl<'s> DecompositionLines<'s> {
    /// No lines.
    ///
    /// # Errors
    ///
    /// `Memory` where a growth was refused.
    pub(crate) fn new(alloc: Global) -> Result<DecompositionLines<'s>, Memory>
        ensures none { IfOk result (λ ls. decompositions_view ls ≡ []) }
        ensures tidy { IfOk result AreTidy }
    {
        Ok(DecompositionLines {
            heads: Vec::new(alloc),
            arguments: Lists::with_capacity(alloc, 0)?,
            children: Lists::with_capacity(alloc, 0)?,
        })
    }

    /// How many lines there are.
    pub fn len(&self) -> usize
        ensures count { result ≡ length (decompositions_view self.now) }
        ensures short { result < 2 ^ 63 }
    {
        self.heads.len()
    }

    /// Whether there are no lines.
    pub fn is_empty(&self) -> bool
        ensures { result ≡ (length (decompositions_view self.now) == 0) }
    {
        self.len() == 0
    }

    /// How many children all lines have together.
    pub(crate) fn child_count(&self) -> usize
        ensures { result ≡ sum_by length self.now.children }
    {
        self.children.item_count()
    }

    /// The lines, one after another.
    pub fn iter(&self) -> DecompositionLinesIter<'_, 's>
        ensures { decompositions_left result ≡ decompositions_view self.now }
    {
        DecompositionLinesIter {
            lines: self,
            next: 0,
        }
    }

    /// The line at a place; None where there is none.
    pub fn get(&self, place: usize) -> Option<DecompositionLine<'_, 's>>
        ensures { option_map decomposition_view result
            ≡ slice_get (decompositions_view self.now) place }
    {
        if place < self.len() {
            Some(self.at(place))
        } else {
            None
        }
    }

    /// The line at a place.
    pub(crate) fn at(&self, place: usize) -> DecompositionLine<'_, 's>
        requires { place < length (decompositions_view self.now) }
        ensures { slice_get (decompositions_view self.now) place
            ≡ Some (decomposition_view result) }
    {
        let head = self.heads[place];
        DecompositionLine {
            id: head.id,
            name: head.name,
            arguments: self.arguments.at(place),
            method: head.method,
            children: self.children.at(place),
            line: head.line,
        }
    }

    /// Puts a line behind the others.
    ///
    /// # Errors
    ///
    /// `Memory` where a growth was refused, or where all lines together would have 2^32 arguments
    /// or children.
    pub(crate) fn push(&mut self, line: DecompositionLine<'_, 's>) -> Result<(), Memory>
        requires { AreTidy self.old }
        ensures lines { OnOk result
            (decompositions_view self.new ≡ decompositions_view self.old ++ decomposition_view
            line.entry ∷ []) }
        ensures tidy { OnOk result (AreTidy self.new) }
    {
        self.arguments.push(line.arguments)?;
        self.children.push(line.children)?;
        self.heads.push(DecompositionHead {
            id: line.id,
            name: line.name,
            method: line.method,
            line: line.line,
        })?;
        Ok(())
    }
}
