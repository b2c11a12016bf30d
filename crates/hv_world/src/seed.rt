//! What tables of names, and of subtasks, are hashed from.

ghost use Rattle.std.specs.Prelude.{◌≡◌, map, fold};
ghost use Rattle.std.specs.List.{flat_map};
ghost use Rattle.std.specs.Hash.DefaultHasher as sip;
ghost use Rattle.hv_text.specs.Names.{text_of};
ghost use Rattle.hv_text.specs.Seeds.{start_of};
ghost use Rattle.hv_syntax.specs.Views.{word_view, typed_view, variable_view};
ghost use Rattle.hv_world.specs.Names.{names};
ghost use Rattle.hv_world.specs.Known.{variables};
ghost use Rattle.hv_world.specs.Views.{term_view, subtask_view};
ghost use Rattle.hv_world.specs.inside.Seeds.{with_taken_in, written_names, term_writes, subtask_writes};
ghost use Rattle.hv_world.specs.inside.Tables.{names_in};

use crate::formula::{Subtask, Term};
use hv_syntax::{Placed, TypeText, TypedText, VariableText};
use hv_text::{Name, Seeded};

/// A start with these words taken in.
pub(crate) fn with_words(start: Seeded, words: &[Placed<'_>]) -> Seeded
    ensures { start_of result ≡ with_taken_in (start_of start) (names (map word_view words.now)) }
{
    let mut seed = start;
    for word in words {
        seed.take_in(&word.name());
    }
    seed
}

/// A start with the names of a typed list and their types taken in.
pub(crate) fn with_typed(start: Seeded, list: &[TypedText<'_>]) -> Seeded
    ensures { start_of result
        ≡ with_taken_in (start_of start) (flat_map written_names (map typed_view list.now)) }
{
    let mut seed = start;
    for typed in list {
        seed.take_in(&typed.name().name());
        if let TypeText::Named(word) = typed.of() {
            seed.take_in(&word.name());
        }
    }
    seed
}

/// A start with the names of a typed list taken in.
pub(crate) fn with_listed(start: Seeded, list: &[TypedText<'_>]) -> Seeded
    ensures { start_of result
        ≡ with_taken_in (start_of start) (variables (map typed_view list.now)) }
{
    let mut seed = start;
    for typed in list {
        seed.take_in(&typed.name().name());
    }
    seed
}

/// A start with the names of variables taken in.
pub(crate) fn with_variables(start: Seeded, list: &[VariableText<'_>]) -> Seeded
    ensures { start_of result
        ≡ with_taken_in (start_of start) (variables (map variable_view list.now)) }
{
    let mut seed = start;
    for variable in list {
        seed.take_in(&variable.name().name());
    }
    seed
}

/// A start with the names of lists taken in.
pub(crate) fn with_lists(start: Seeded, lists: &[Vec<Name<'_>>]) -> Seeded
    ensures { start_of result ≡ with_taken_in (start_of start) (flat_map names_in lists.now) }
{
    let mut seed = start;
    for list in lists {
        seed = with_names(seed, list);
    }
    seed
}

// A start with names taken in.
fn with_names(start: Seeded, names: &[Name<'_>]) -> Seeded
    ensures { start_of result ≡ with_taken_in (start_of start) (map text_of names.now) }
{
    let mut seed = start;
    for name in names {
        seed.take_in(name);
    }
    seed
}

// A start with the objects among terms taken in.
fn with_terms(start: Seeded, terms: &[Term]) -> Seeded
    ensures { start_of result
        ≡ fold sip.write (start_of start) (flat_map term_writes (map term_view terms.now)) }
{
    let mut seed = start;
    for term in terms {
        if let Term::Object(object) = term {
            seed.take_in(&object.0);
        }
    }
    seed
}

/// The hasher of a table whose keys are names and objects of these subtasks: its start has taken in
/// all of them.
pub(crate) fn seed_of_subtasks(subtasks: &[Subtask]) -> Seeded
    ensures { start_of result
        ≡ fold sip.write sip.initial (flat_map subtask_writes (map subtask_view subtasks.now)) }
{
    let mut seed = Seeded::new();
    for subtask in subtasks {
        seed.take_in(&subtask.name);
        seed = with_terms(seed, &subtask.terms);
    }
    seed
}
