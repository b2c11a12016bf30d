//! Tasks: a name and its arguments, in parentheses or not.

ghost use Rattle.std.specs.Prelude.{◌≡◌, map, IfOk};
ghost use Rattle.std.specs.Option.{option_map};
ghost use Rattle.hv_text.specs.Words.{piece_of};
ghost use Rattle.hv_text.specs.Names.{text_of};
ghost use Rattle.hv_plan.specs.Forms.{every, name_at, bare, inside, task_of};
ghost use Rattle.hv_plan.specs.inside.Views.{task_view};

use hv_text::{Memory, Name, Word};

/// A task: its name and its arguments.
#[derive(Clone, Copy)]
pub(crate) struct TaskText<'b, 's> {
    pub(crate) name: Name<'s>,
    pub(crate) arguments: &'b [Name<'s>],
}

/// The task that words are; None where they are none. Its arguments are put in place of the names
/// that a list has.
///
/// # Errors
///
/// Where a growth of memory was refused.
pub(crate) fn read_task<'b, 's>(
    words: &[Word<'s>],
    names: &'b mut Vec<Name<'s>>,
) -> Result<Option<TaskText<'b, 's>>, Memory>
    ensures { IfOk result (λ t. option_map task_view t ≡ task_of (map piece_of words.now)) }
{
    let Some(words) = bare(words) else {
        return Ok(None);
    };
    let Some((first, others)) = words.split_first() else {
        return Ok(None);
    };
    let Some(name) = name_at(*first) else {
        return Ok(None);
    };
    let Some(arguments) = read_names(others, names)? else {
        return Ok(None);
    };
    Ok(Some(TaskText { name, arguments }))
}

// The words of a task without the parentheses around it.
fn bare<'a, 's>(task: &'a [Word<'s>]) -> Option<&'a [Word<'s>]>
    ensures { option_map (λ ws. map piece_of ws.now) result ≡ bare (map piece_of task.now) }
{
    let Some((first, others)) = task.split_first() else {
        return Some(task);
    };
    let Word::Left(_) = *first else {
        return Some(task);
    };
    inside(others)
}

// What stands before a parenthesis that comes last.
fn inside<'a, 's>(words: &'a [Word<'s>]) -> Option<&'a [Word<'s>]>
    ensures { option_map (λ ws. map piece_of ws.now) result ≡ inside (map piece_of words.now) }
{
    let Some((last, others)) = words.split_last() else {
        return None;
    };
    match *last {
        Word::Right(_) => Some(others),
        Word::Left(_) => None,
        Word::Name(_, _) => None,
    }
}

/// A word other than the arrow; None for the arrow and for parentheses.
pub(crate) fn name_at<'s>(word: Word<'s>) -> Option<Name<'s>>
    ensures { option_map text_of result ≡ name_at (piece_of word.entry) }
{
    match word {
        Word::Name(name, _) => { if name.is(b"->") { None } else { Some(name) } }
        Word::Left(_) | Word::Right(_) => None,
    }
}

// The names that words are, where each is one.
fn read_names<'b, 's>(
    words: &[Word<'s>],
    names: &'b mut Vec<Name<'s>>,
) -> Result<Option<&'b [Name<'s>]>, Memory>
    ensures { IfOk result (λ names. option_map (λ ns. map text_of ns.now) names
        ≡ every name_at (map piece_of words.now)) }
{
    names.clear();
    for word in words {
        let Some(name) = name_at(*word) else {
            return Ok(None);
        };
        names.push(name)?;
    }
    Ok(Some(names))
}
