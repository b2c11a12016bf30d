//! Names by first sight.

ghost use Rattle.std.specs.Prelude.{◌≡◌, ◌∷◌, ◌++◌, map, codes, IfOk, OnOk};
ghost use Rattle.std.specs.List.{flat_map};
ghost use Rattle.indexmap.specs.IndexSet.{hasher_of};
ghost use Rattle.hv_text.specs.Seeds.{start_of};
ghost use Rattle.hv_text.specs.Names.{text_of};
ghost use Rattle.hv_syntax.specs.Values.{type_name};
ghost use Rattle.hv_syntax.specs.Views.{type_view, typed_view};
ghost use Rattle.hv_world.specs.Names.{with_names, by_sight};
ghost use Rattle.hv_world.specs.Known.{both_types, variables};
ghost use Rattle.hv_world.specs.inside.Seeds.{start_from, with_taken_in, written_names};

use crate::seed::{with_listed, with_typed};
use hv_syntax::{TypeText, TypedText};
use hv_text::{Memory, Name, Seeded};
use indexmap::IndexSet;
use std::alloc::Global;

// The name of the type that is above all.
fn object<'s>() -> Name<'s>
    ensures { text_of result ≡ codes "object" }
{
    match Name::new(b"object") {
        Some(name) => name,
        None => unreachable!(),
    }
}

// The name of a type, which is `object` where none is written.
fn type_name<'s>(of: TypeText<'s>) -> Name<'s>
    ensures { text_of result ≡ type_name (type_view of.entry) }
{
    match of {
        TypeText::Object => object(),
        TypeText::Named(word) => word.name(),
    }
}

// Adds declared types, each with its parent.
fn add_types<'s>(
    names: &mut IndexSet<Name<'s>, Seeded>,
    list: &[TypedText<'s>],
) -> Result<(), Memory>
    ensures seed { hasher_of names.new ≡ hasher_of names.old }
    ensures keys { OnOk result
        (map text_of names.new.keys
        ≡ with_names (map text_of names.old.keys) (flat_map both_types (map typed_view list.now))) }
{
    for typed in list {
        let word = typed.name();
        names.insert(word.name())?;
        names.insert(type_name(typed.of()))?;
    }
    Ok(())
}

// Adds the names of a typed list.
fn add_names<'s>(
    names: &mut IndexSet<Name<'s>, Seeded>,
    list: &[TypedText<'s>],
) -> Result<(), Memory>
    ensures seed { hasher_of names.new ≡ hasher_of names.old }
    ensures keys { OnOk result
        (map text_of names.new.keys
        ≡ with_names (map text_of names.old.keys) (variables (map typed_view list.now))) }
{
    for typed in list {
        let word = typed.name();
        names.insert(word.name())?;
    }
    Ok(())
}

/// The types by first sight: `object`, and each declared type and its parent.
pub(crate) fn type_names<'s>(
    alloc: Global,
    list: &[TypedText<'s>],
) -> Result<IndexSet<Name<'s>, Seeded>, Memory>
    ensures seed { IfOk result
        (λ t. start_of (hasher_of t)
        ≡ start_from (flat_map written_names (map typed_view list.now))) }
    ensures keys { IfOk result
        (λ t. map text_of t.keys
        ≡ by_sight (codes "object" ∷ flat_map both_types (map typed_view list.now))) }
{
    let mut names = IndexSet::with_hasher(alloc, with_typed(Seeded::new(), list));
    names.insert(object())?;
    add_types(&mut names, list)?;
    Ok(names)
}

/// The constants and objects by first sight.
pub(crate) fn object_names<'s>(
    alloc: Global,
    constants: &[TypedText<'s>],
    objects: &[TypedText<'s>],
) -> Result<IndexSet<Name<'s>, Seeded>, Memory>
    ensures seed { IfOk result
        (λ t. start_of (hasher_of t)
        ≡ with_taken_in (start_from (variables (map typed_view constants.now)))
        (variables (map typed_view objects.now))) }
    ensures keys { IfOk result
        (λ t. map text_of t.keys
        ≡ by_sight (variables (map typed_view constants.now ++ map typed_view objects.now))) }
{
    let seed = with_listed(with_listed(Seeded::new(), constants), objects);
    let most = constants.len().saturating_add(objects.len());
    let mut names = IndexSet::with_capacity_and_hasher(alloc, most, seed)?;
    add_names(&mut names, constants)?;
    add_names(&mut names, objects)?;
    Ok(names)
}
