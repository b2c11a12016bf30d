//! What decomposition lines say, one after another.

ghost use Rattle.std.specs.Prelude.{◌≡◌, ◌<◌, ◌++◌, ◌∷◌, [], Some, length, option_map, slice_get, IfOk, OnOk};
ghost use Rattle.hv_plan.specs.inside.FitViews.{decomposed_view, decomposed_line, decomposed_lines, AreTidy};

use super::Decomposed;
use hv_text::{Lists, Memory};
use hv_world::{MethodId, ObjectId, TaskId};
use std::alloc::Global;

/// What a decomposition line says: its task with the objects, and the method.
#[derive(Clone, Copy)]
pub(crate) struct DecomposedLine<'a> {
    pub(crate) task: TaskId,
    pub(crate) objects: &'a [ObjectId],
    pub(crate) method: MethodId,
}

/// What lines say, with which the names of another are compared before all.
#[derive(Clone, Copy)]
pub(crate) struct Before<'a> {
    pub(crate) objects: &'a [ObjectId],
    pub(crate) task: Option<TaskId>,
    pub(crate) method: Option<MethodId>,
}

// What a decomposition line says, without the objects.
#[derive(Clone, Copy)]
struct DecomposedHead {
    task: TaskId,
    method: MethodId,
}

/// What decomposition lines say. The objects of all of them stand one after another.
#[derive(Drop)]
pub(crate) struct DecomposedLines {
    heads: Vec<DecomposedHead>,
    objects: Lists<ObjectId>,
}

impl DecomposedLines {
    /// Of no lines, and room for so many.
    ///
    /// # Errors
    ///
    /// `Memory` where a growth was refused.
    pub(crate) fn with_capacity(alloc: Global, lines: usize) -> Result<DecomposedLines, Memory>
        ensures none { IfOk result (λ ls. decomposed_lines ls ≡ []) }
        ensures tidy { IfOk result AreTidy }
    {
        Ok(DecomposedLines {
            heads: Vec::with_capacity(alloc, lines)?,
            objects: Lists::with_capacity(alloc, lines)?,
        })
    }

    /// What the line of a place says; None where there is none.
    pub(crate) fn get(&self, place: usize) -> Option<DecomposedLine<'_>>
        ensures { option_map decomposed_line result ≡ slice_get (decomposed_lines self.now) place }
    {
        if place < self.heads.len() {
            Some(self.at(place))
        } else {
            None
        }
    }

    // What the line of a place says.
    fn at(&self, place: usize) -> DecomposedLine<'_>
        requires { place < length self.now.heads.items }
        ensures { slice_get (decomposed_lines self.now) place ≡ Some (decomposed_line result) }
    {
        let head = self.heads[place];
        DecomposedLine {
            task: head.task,
            objects: self.objects.at(place),
            method: head.method,
        }
    }

    /// What the names of the line behind these are compared with before all: the objects are those
    /// of the last line. The task and the method are those of the last but one, as two kinds of
    /// lines often come in turn.
    pub(crate) fn before(&self) -> Before<'_> {
        let objects = match self.get(self.heads.len().wrapping_sub(1)) {
            Some(line) => line.objects,
            None => &[],
        };
        match self.heads.get(self.heads.len().wrapping_sub(2)) {
            Some(head) => Before {
                objects,
                task: Some(head.task),
                method: Some(head.method),
            },
            None => Before {
                objects,
                task: None,
                method: None,
            },
        }
    }

    /// Puts what a line says behind the others.
    ///
    /// # Errors
    ///
    /// `Memory` where a growth was refused, or where all lines together would have 2^32 objects.
    pub(crate) fn push(&mut self, line: &Decomposed) -> Result<(), Memory>
        requires { AreTidy self.old }
        ensures lines { OnOk result
            (decomposed_lines self.new ≡ decomposed_lines self.old ++ decomposed_view line.now
            ∷ []) }
        ensures tidy { OnOk result (AreTidy self.new) }
    {
        self.objects.push(&line.objects)?;
        self.heads.push(DecomposedHead {
            task: line.task,
            method: line.method,
        })?;
        Ok(())
    }
}
