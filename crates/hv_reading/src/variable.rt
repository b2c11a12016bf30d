//! Variables and their types.

ghost use Rattle.std.specs.Prelude.{◌≡◌, ◌++◌, map, OnOk, IfErr, []};
ghost use Rattle.hv_text.specs.Trees.{tree, trees};
ghost use Rattle.hv_reading.specs.declared.word.Sort.TheVariants as sorts;
ghost use Rattle.hv_reading.specs.inside.Reading.{Gives, every};
ghost use Rattle.hv_reading.specs.inside.Words.{sorted_word_of};
ghost use Rattle.hv_reading.specs.TypedLists.{with_type};
ghost use Rattle.hv_reading.specs.inside.TypedLists.{some_names, either_among, type_of};
ghost use Rattle.hv_reading.specs.inside.TypedLists.{typed_variables_of};
ghost use Rattle.hv_syntax.specs.Views.{word_view, variable_view};

use crate::refusal::Refusal;
use crate::word::{Sort, is_sort, is_the_word, read_word};
use hv_syntax::{Placed, VariableText};
use hv_text::Sexp;
use std::alloc::Global;
use std::rc::Rc;

// Names, one after another.
fn read_names<'s>(alloc: Global, es: &[Sexp<'s>]) -> Result<Vec<Placed<'s>>, Refusal>
    ensures { Gives (λ v. map word_view v.items) result
        (every (sorted_word_of sorts.Name) (trees es.now)) }
{
    let mut names = Vec::with_capacity(alloc, es.len())?;
    for e in es {
        names.push(read_word(Sort::Name, e)?)?;
    }
    Ok(names)
}

// One or more names.
fn read_some_names<'s>(alloc: Global, es: &[Sexp<'s>]) -> Result<Vec<Placed<'s>>, Refusal>
    ensures { Gives (λ v. map word_view v.items) result (some_names (trees es.now)) }
{
    match es {
        [] => Err(Refusal::NoSpelling),
        [_, ..] => read_names(alloc, es),
    }
}

// The names behind `either`.
fn read_either<'s>(alloc: Global, es: &[Sexp<'s>]) -> Result<Vec<Placed<'s>>, Refusal>
    ensures { Gives (λ v. map word_view v.items) result (either_among (trees es.now)) }
{
    match es {
        [] => Err(Refusal::NoSpelling),
        [head, names @ ..] => {
            if !is_the_word(head, b"either") {
                return Err(Refusal::NoSpelling);
            }
            read_some_names(alloc, names)
        }
    }
}

// The type of variables: a name, or names behind `either`.
fn read_type<'s>(alloc: Global, e: &Sexp<'s>) -> Result<Vec<Placed<'s>>, Refusal>
    ensures { Gives (λ v. map word_view v.items) result (type_of (tree e.now)) }
{
    match e {
        Sexp::Word(..) => {
            let mut one = Vec::with_capacity(alloc, 1)?;
            one.push(read_word(Sort::Name, e)?)?;
            Ok(one)
        }
        Sexp::List(members, _) => read_either(alloc, members),
    }
}

// Gives the type of these names to the variables that wait for one.
fn give_type<'s>(
    found: &mut Vec<VariableText<'s>>,
    waiting: &[Placed<'s>],
    types: Vec<Placed<'s>>,
) -> Result<(), Refusal>
    ensures ok { OnOk result (map variable_view found.new.items ≡ map variable_view found.old.items
        ++ with_type (map word_view types.entry.items) (map word_view waiting.now)) }
    ensures err { IfErr result (λ e. e ≡ Refusal.Memory) }
{
    let types = Rc::new(*found.allocator(), types)?;
    for name in waiting {
        found.push(VariableText::new(*name, types.clone()?))?;
    }
    Ok(())
}

// How many words of variables stand among expressions, which is what a list of them has room for.
fn variable_count(es: &[Sexp<'_>]) -> usize {
    let mut count = 0usize;
    for e in es {
        if let Sexp::Word(name, _) = e {
            if is_sort(*name, Sort::Variable) {
                count = count.saturating_add(1);
            }
        }
    }
    count
}

// The variables of a typed list, in a list that has nothing else.
fn fill_typed_variables<'s>(
    alloc: Global,
    room: Vec<VariableText<'s>>,
    es: &[Sexp<'s>],
) -> Result<Vec<VariableText<'s>>, Refusal>
    requires { room.items ≡ [] }
    ensures { Gives (λ v. map variable_view v.items) result (typed_variables_of (trees es.now)) }
{
    let mut found = room;
    let mut waiting = Vec::new(alloc);
    let mut wanted = false;
    for e in es {
        if wanted {
            give_type(&mut found, &waiting, read_type(alloc, e)?)?;
            waiting.clear();
            wanted = false;
        } else {
            let Sexp::Word(name, span) = e else {
                return Err(Refusal::NoSpelling);
            };
            if name.is(b"-") {
                if waiting.is_empty() {
                    return Err(Refusal::NoSpelling);
                }
                wanted = true;
            } else {
                if !is_sort(*name, Sort::Variable) {
                    return Err(Refusal::NoSpelling);
                }
                waiting.push(Placed::new(*name, *span))?;
            }
        }
    }
    if wanted {
        return Err(Refusal::NoSpelling);
    }
    give_type(&mut found, &waiting, Vec::new(alloc))?;
    Ok(found)
}

/// Reads a typed list of variables: a type holds for all variables since the type before it.
///
/// # Errors
///
/// `NoSpelling` where the expressions are none, and `Memory`.
pub(crate) fn read_typed_variables<'s>(
    alloc: Global,
    es: &[Sexp<'s>],
) -> Result<Vec<VariableText<'s>>, Refusal>
    ensures { Gives (λ v. map variable_view v.items) result (typed_variables_of (trees es.now)) }
{
    let room = Vec::with_capacity(alloc, variable_count(es))?;
    fill_typed_variables(alloc, room, es)
}
