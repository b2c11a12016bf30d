//! Typed lists of names.

ghost use Rattle.std.specs.Prelude.{◌≡◌, ◌++◌, map, OnOk, IfErr};
ghost use Rattle.hv_text.specs.Trees.{Trees, trees, word, none, more};
ghost use Rattle.hv_reading.specs.TypedLists.{with_type};
ghost use Rattle.hv_reading.specs.inside.Reading.{Gives, Fails};
ghost use Rattle.hv_reading.specs.inside.TypedLists.{typed_list_of};
ghost use Rattle.hv_reading.specs.inside.Typings.{typed_behind};
ghost use Rattle.hv_syntax.specs.Views.{typed_view, type_view, word_view};

mod stream;

use crate::refusal::Refusal;
use crate::word::{Sort, is_sort};
use hv_syntax::{Placed, TypeText, TypedText};
use hv_text::Sexp;
use std::alloc::Global;
pub(crate) use stream::read_typed_list_at;

/// A typed list as far as it is read: the names that have their type, those that wait for one, and
/// whether it stands next.
#[derive(Drop)]
pub(crate) struct Typing<'s> {
    found: Vec<TypedText<'s>>,
    waiting: Vec<Placed<'s>>,
    wanted: bool,
}

// Gives this type to the names that wait for one.
fn give_type<'s>(
    found: &mut Vec<TypedText<'s>>,
    waiting: &[Placed<'s>],
    of: TypeText<'s>,
) -> Result<(), Refusal>
    ensures ok { OnOk result (map typed_view found.new.items ≡ map typed_view found.old.items
        ++ with_type (type_view of.entry) (map word_view waiting.now)) }
    ensures err { IfErr result (λ e. e ≡ Refusal.Memory) }
{
    found.reserve(waiting.len())?;
    for name in waiting {
        found.push(TypedText::new(*name, of))?;
    }
    Ok(())
}

impl<'s> Typing<'s> {
    // A list of which nothing is read.
    fn new(alloc: Global) -> Typing<'s>
        ensures { (ts : Trees) → typed_behind result ts ≡ typed_list_of ts }
    {
        Typing {
            found: Vec::new(alloc),
            waiting: Vec::new(alloc),
            wanted: false,
        }
    }

    // Reads one more word.
    fn take(&mut self, next: Placed<'s>) -> Result<(), Refusal>
        ensures ok { OnOk result ((ts : Trees) → typed_behind self.old
            (more (word (word_view next.entry).text (word_view next.entry).place) ts)
            ≡ typed_behind self.new ts) }
        ensures err { IfErr result (λ e. (ts : Trees) → Fails e (typed_behind self.old
            (more (word (word_view next.entry).text (word_view next.entry).place) ts))) }
    {
        if self.wanted {
            if !is_sort(next.name(), Sort::Name) {
                return Err(Refusal::NoSpelling);
            }
            give_type(&mut self.found, &self.waiting, TypeText::Named(next))?;
            self.waiting.clear();
            self.wanted = false;
        } else if next.name().is(b"-") {
            if self.waiting.is_empty() {
                return Err(Refusal::NoSpelling);
            }
            self.wanted = true;
        } else {
            if !is_sort(next.name(), Sort::Name) {
                return Err(Refusal::NoSpelling);
            }
            self.waiting.push(next)?;
        }
        Ok(())
    }

    // The names with their types, at the end of the list.
    fn finish(self) -> Result<Vec<TypedText<'s>>, Refusal>
        ensures { Gives (λ v. map typed_view v.items) result (typed_behind self.entry none) }
    {
        let Typing {
            mut found,
            waiting,
            wanted,
        } = self;
        if wanted {
            return Err(Refusal::NoSpelling);
        }
        give_type(&mut found, &waiting, TypeText::Object)?;
        Ok(found)
    }
}

/// Reads a typed list of names: a type holds for all names since the type before it.
///
/// # Errors
///
/// `NoSpelling` where the expressions are none, and `Memory`.
pub(crate) fn read_typed_list<'s>(
    alloc: Global,
    es: &[Sexp<'s>],
) -> Result<Vec<TypedText<'s>>, Refusal>
    ensures { Gives (λ v. map typed_view v.items) result (typed_list_of (trees es.now)) }
{
    let mut typing = Typing::new(alloc);
    for e in es {
        let Sexp::Word(name, span) = e else {
            return Err(Refusal::NoSpelling);
        };
        typing.take(Placed::new(*name, *span))?;
    }
    typing.finish()
}
