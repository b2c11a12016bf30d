//! What a line of a plan says.

ghost use Rattle.hv_text.specs.declared.fault.TheConstants.{MOST_BYTES};
ghost use Rattle.std.specs.Prelude.{◌≡◌, ◌≤◌, ℕ, None, Some, length, map, MatchOption};
ghost use Rattle.std.specs.Option.{option_map};
ghost use Rattle.hv_text.specs.Words.{piece_of};
ghost use Rattle.hv_text.specs.Names.{text_of};
ghost use Rattle.hv_plan.specs.Forms.{said, listed, form_of, node_of, action_of, decomposition_of, root_of, every, id_of, id_at, is_arrow, task_of, method_of, parts_of};
ghost use Rattle.hv_plan.specs.inside.Views.{Reads, form_view, line_view, task_view, ids_view, decomposition_said};

use crate::fault::PlanFault;
use crate::id::{Id, read_id};
use crate::ids::{Ids, read_ids};
use crate::lines::Line;
use crate::plan::{ActionLine, DecompositionLine};
use crate::task::{TaskText, name_at, read_task};
use hv_text::{Name, TextKind, Word, fill_words};
use std::alloc::Global;

/// Room for the parts of one line. It is filled anew for each, so that none takes
/// memory of its own.
#[derive(Drop)]
pub(crate) struct Room<'s> {
    words: Vec<Word<'s>>,
    arguments: Vec<Name<'s>>,
    ids: Vec<u64>,
}

impl<'s> Room<'s> {
    /// Room that has nothing in it.
    pub(crate) fn new(alloc: Global) -> Room<'s> {
        Room {
            words: Vec::new(alloc),
            arguments: Vec::new(alloc),
            ids: Vec::new(alloc),
        }
    }
}

/// What a line says: nothing, an action, a decomposition, or the ids of the root with the
/// line's number.
#[derive(Clone, Copy)]
pub(crate) enum LineText<'b, 's> {
    Blank,
    Action(ActionLine<'b, 's>),
    Decomposition(DecompositionLine<'b, 's>),
    Root(&'b [u64], u32),
}

/// What a line says. The fault is `BadByte`, else `BadLine` where the line is of no form, else
/// `IdTooLarge`; it is `Memory` where a growth was refused.
pub(crate) fn read_line<'b, 's>(
    room: &'b mut Room<'s>,
    line: Line<'s>,
) -> Result<LineText<'b, 's>, PlanFault>
    requires { length line.bytes.now ≤ MOST_BYTES }
    ensures { Reads form_view result (said (line_view line.entry)) }
{
    let Room {
        words,
        arguments,
        ids,
    } = room;
    match fill_words(words, line.bytes) {
        Ok(()) => read_form(line.number, words, arguments, ids),
        Err(fault) => match fault.kind {
            TextKind::BadByte => Err(PlanFault::BadByte(line.number)),
            _ => Err(PlanFault::Memory),
        },
    }
}

// What line `number` says, of these words.
fn read_form<'b, 's>(
    number: u32,
    words: &[Word<'s>],
    arguments: &'b mut Vec<Name<'s>>,
    ids: &'b mut Vec<u64>,
) -> Result<LineText<'b, 's>, PlanFault>
    ensures { Reads form_view result (listed number (form_of number (map piece_of words.now))) }
{
    let Some((first, others)) = words.split_first() else {
        return Ok(LineText::Blank);
    };
    let Word::Name(name, _) = *first else {
        return Err(PlanFault::BadLine(number));
    };
    if name.is(b"root") {
        read_root(number, others, ids)
    } else {
        read_node(number, name, others, arguments, ids)
    }
}

// The root line of these ids.
fn read_root<'b, 's>(
    number: u32,
    words: &[Word<'s>],
    ids: &'b mut Vec<u64>,
) -> Result<LineText<'b, 's>, PlanFault>
    ensures { Reads form_view result
        (listed number (option_map (root_of number) (every id_at (map piece_of words.now)))) }
{
    match read_ids(words, ids)? {
        Ids::Fit(ids) => Ok(LineText::Root(ids, number)),
        Ids::TooLarge => Err(PlanFault::IdTooLarge(number)),
        Ids::NoIds => Err(PlanFault::BadLine(number)),
    }
}

// The action line or the decomposition line that begins with an id.
fn read_node<'b, 's>(
    number: u32,
    id: Name<'s>,
    words: &[Word<'s>],
    arguments: &'b mut Vec<Name<'s>>,
    ids: &'b mut Vec<u64>,
) -> Result<LineText<'b, 's>, PlanFault>
    ensures { Reads form_view result
        (listed number (node_of number (id_of (text_of id.entry)) (map piece_of words.now)
        (parts_of (map piece_of words.now)))) }
{
    match parts(words) {
        None => read_action(number, id, words, arguments),
        Some((before, after)) => read_decomposition(number, id, before, after, arguments, ids),
    }
}

// What stands before the first arrow, and what stands behind it; None where no arrow stands among
// the words.
fn parts<'a, 's>(words: &'a [Word<'s>]) -> Option<(&'a [Word<'s>], &'a [Word<'s>])>
    ensures { MatchOption result (parts_of (map piece_of words.now) ≡ None)
        (λ h. parts_of (map piece_of words.now)
        ≡ Some (record { before = map piece_of h.0.now; after = map piece_of h.1.now })) }
{
    for i in 0..words.len() {
        if is_arrow(words[i]) {
            return Some((&words[..i], &words[i + 1..]));
        }
    }
    None
}

// Whether a word is the arrow.
fn is_arrow(word: Word<'_>) -> bool
    ensures { result ≡ is_arrow (piece_of word.entry) }
{
    match word {
        Word::Name(name, _) => name.is(b"->"),
        Word::Left(_) | Word::Right(_) => false,
    }
}

// The action line of an id and a task.
fn read_action<'b, 's>(
    number: u32,
    id: Name<'s>,
    task: &[Word<'s>],
    arguments: &'b mut Vec<Name<'s>>,
) -> Result<LineText<'b, 's>, PlanFault>
    ensures { Reads form_view result
        (listed number (action_of number (id_of (text_of id.entry))
        (task_of (map piece_of task.now)))) }
{
    let Some(TaskText { name, arguments }) = read_task(task, arguments)? else {
        return Err(PlanFault::BadLine(number));
    };
    match read_id(id) {
        Id::Fits(id) => Ok(LineText::Action(ActionLine {
            id,
            name,
            arguments,
            line: number,
        })),
        Id::TooLarge => Err(PlanFault::IdTooLarge(number)),
        Id::NoId => Err(PlanFault::BadLine(number)),
    }
}

// The decomposition line of an id, a task and what stands behind the arrow.
fn read_decomposition<'b, 's>(
    number: u32,
    id: Name<'s>,
    task: &[Word<'s>],
    after: &[Word<'s>],
    arguments: &'b mut Vec<Name<'s>>,
    ids: &'b mut Vec<u64>,
) -> Result<LineText<'b, 's>, PlanFault>
    ensures { Reads form_view result
        (listed number (decomposition_of number (id_of (text_of id.entry))
        (task_of (map piece_of task.now)) (method_of (map piece_of after.now)))) }
{
    let Some(task) = read_task(task, arguments)? else {
        return Err(PlanFault::BadLine(number));
    };
    let Some((first, others)) = after.split_first() else {
        return Err(PlanFault::BadLine(number));
    };
    let Some(method) = name_at(*first) else {
        return Err(PlanFault::BadLine(number));
    };
    decomposition(number, read_id(id), task, method, read_ids(others, ids)?)
}

// The decomposition line of these parts.
fn decomposition<'b, 's>(
    number: u32,
    id: Id,
    task: TaskText<'b, 's>,
    method: Name<'s>,
    children: Ids<'b>,
) -> Result<LineText<'b, 's>, PlanFault>
    ensures { Reads form_view result
        (decomposition_said number id (task_view task.entry) (text_of method.entry)
        (ids_view children.entry)) }
{
    match id {
        Id::NoId => Err(PlanFault::BadLine(number)),
        Id::TooLarge => match children {
            Ids::NoIds => Err(PlanFault::BadLine(number)),
            Ids::Fit(_) | Ids::TooLarge => Err(PlanFault::IdTooLarge(number)),
        },
        Id::Fits(id) => match children {
            Ids::NoIds => Err(PlanFault::BadLine(number)),
            Ids::TooLarge => Err(PlanFault::IdTooLarge(number)),
            Ids::Fit(children) => Ok(LineText::Decomposition(DecompositionLine {
                id,
                name: task.name,
                arguments: task.arguments,
                method,
                children,
                line: number,
            })),
        },
    }
}
