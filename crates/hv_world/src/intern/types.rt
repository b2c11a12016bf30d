//! The types of names and variables over numbers.

ghost use Rattle.std.specs.Prelude.{◌≡◌, map, codes, IfOk};
ghost use Rattle.hv_syntax.specs.Views.{word_view, typed_view, variable_view};
ghost use Rattle.hv_world.specs.Eithers.{either_place};
ghost use Rattle.hv_world.specs.Faults.{least};
ghost use Rattle.hv_world.specs.Known.{variables};
ghost use Rattle.hv_world.specs.Names.{names, number_in, place_in};
ghost use Rattle.hv_world.specs.StaticRules.{type_word_faults, types_faults, variable_types_faults, variable_faults};
ghost use Rattle.hv_world.specs.Views.{type_number};
ghost use Rattle.hv_world.specs.Worlds.{type_of, either_number, variable_type, types_of};
ghost use Rattle.hv_world.specs.inside.Tables.{known_by, places_by};

use crate::checked::Checked;
use crate::fault::{Side, StaticFault, StaticKind, earlier, fault_if};
use crate::id::TypeId;
use crate::names::{Names, repeated_parameter, repeated_variable};
use crate::tables::Tables;
use crate::tables::gather::names_of;
use hv_syntax::{Placed, TypeText, TypedText, VariableText};
use hv_text::{Memory, Name};
use std::alloc::Global;

// The number of the type `object`.
fn object_type(tables: &Tables<'_>) -> usize
    ensures { result ≡ number_in (known_by tables.now).types (codes "object") }
{
    match Name::new(b"object") {
        Some(name) => tables.type_number(None, name),
        None => unreachable!(),
    }
}

/// The number of the type of a name. Another type is looked at before all.
pub(crate) fn type_of<'s>(
    tables: &Tables<'s>,
    other: Option<TypeId>,
    typed: TypedText<'s>,
) -> TypeId
    ensures { type_number result ≡ type_of (known_by tables.now) (typed_view typed.entry) }
{
    match typed.of() {
        TypeText::Object => TypeId(object_type(tables)),
        TypeText::Named(word) => TypeId(tables.type_number(other, word.name())),
    }
}

// The number of the type that several names make; of `object` where they make none.
fn either_of<'s>(alloc: Global, tables: &Tables<'s>, words: &[Placed<'s>]) -> Result<TypeId, Memory>
    ensures { IfOk result
        (λ t. type_number t
        ≡ either_number (known_by tables.now)
        (either_place (known_by tables.now).eithers (names (map word_view words.now)))) }
{
    let list = names_of(alloc, words)?;
    match tables.either_place(&list) {
        Some(place) => Ok(TypeId(tables.number_past(place)?)),
        None => Ok(TypeId(0)),
    }
}

/// The type that a word names, and the fault of one that is not declared. Another type is looked at
/// before all.
pub(crate) fn checked_type_word<'s>(
    tables: &Tables<'s>,
    side: Side,
    other: Option<TypeId>,
    word: Placed<'s>,
) -> Checked<TypeId>
    ensures value { type_number result.value
        ≡ number_in (known_by tables.now).types (word_view word.entry).text }
    ensures fault { result.fault
        ≡ least (type_word_faults (known_by tables.now) side (word_view word.entry)) }
{
    let found = tables.type_like(other, word.name());
    let is_known = found.is_some();
    let number = match found {
        Some(number) => number,
        None => tables.types.names.len(),
    };
    Checked {
        value: TypeId(number),
        fault: fault_if(!is_known, StaticKind::UnknownType, side, word),
    }
}

// The first fault among the names of a type.
fn types_fault<'s>(tables: &Tables<'s>, side: Side, words: &[Placed<'s>]) -> Option<StaticFault>
    ensures { result ≡ least (types_faults (known_by tables.now) side (map word_view words.now)) }
{
    let mut found = None;
    for word in words {
        let checked = checked_type_word(tables, side, None, *word);
        found = earlier(found, checked.fault);
    }
    found
}

// The type of a variable, and the first fault of its names. Another type is looked at before all.
fn checked_type<'s>(
    alloc: Global,
    tables: &Tables<'s>,
    side: Side,
    other: Option<TypeId>,
    variable: &VariableText<'s>,
) -> Result<Checked<TypeId>, Memory>
    ensures value { IfOk result
        (λ c. type_number c.value
        ≡ variable_type (known_by tables.now) (variable_view variable.now)) }
    ensures fault { IfOk result
        (λ c. c.fault
        ≡ least (types_faults (known_by tables.now) side (variable_view variable.now).of)) }
{
    match variable.types() {
        [] => Ok(Checked {
            value: TypeId(0),
            fault: None,
        }),
        [word] => Ok(checked_type_word(tables, side, other, *word)),
        words => Ok(Checked {
            value: either_of(alloc, tables, words)?,
            fault: types_fault(tables, side, words),
        }),
    }
}

// The types of variables, and the first fault of their names.
fn checked_types<'s>(
    alloc: Global,
    tables: &Tables<'s>,
    side: Side,
    list: &[VariableText<'s>],
) -> Result<Checked<Vec<TypeId>>, Memory>
    ensures value { IfOk result
        (λ c. map type_number c.value.items
        ≡ types_of (known_by tables.now) (map variable_view list.now)) }
    ensures fault { IfOk result
        (λ c. c.fault
        ≡ least (variable_types_faults (known_by tables.now) side (map variable_view list.now))) }
{
    let mut types = Checked::with_capacity(alloc, list.len())?;
    for variable in list {
        let other = types.value.last().copied();
        types.push(checked_type(alloc, tables, side, other, variable)?)?;
    }
    Ok(types)
}

/// The types of the variables of a quantifier or an effect, and the first fault of these.
///
/// # Errors
///
/// `Memory` where a growth was refused.
pub(crate) fn checked_variables<'s>(
    alloc: Global,
    tables: &Tables<'s>,
    side: Side,
    list: &[VariableText<'s>],
) -> Result<Checked<Vec<TypeId>>, Memory>
    ensures value { IfOk result
        (λ c. map type_number c.value.items
        ≡ types_of (known_by tables.now) (map variable_view list.now)) }
    ensures fault { IfOk result
        (λ c. c.fault
        ≡ least (variable_faults (known_by tables.now) side (map variable_view list.now))) }
{
    let types = checked_types(alloc, tables, side, list)?;
    let repeated = repeated_variable(list, StaticKind::DuplicateVariable, side);
    Ok(Checked {
        value: types.value,
        fault: earlier(types.fault, repeated),
    })
}

/// The types of parameters, of whose names this is the table, and the first fault of these.
///
/// # Errors
///
/// `Memory` where a growth was refused.
pub(crate) fn checked_parameters<'s>(
    alloc: Global,
    tables: &Tables<'s>,
    names: &Names<'s>,
    side: Side,
    list: &[VariableText<'s>],
) -> Result<Checked<Vec<TypeId>>, Memory>
    requires { places_by names.now ≡ place_in (variables (map variable_view list.now)) }
    ensures value { IfOk result
        (λ c. map type_number c.value.items
        ≡ types_of (known_by tables.now) (map variable_view list.now)) }
    ensures fault { IfOk result
        (λ c. c.fault
        ≡ least (variable_faults (known_by tables.now) side (map variable_view list.now))) }
{
    let types = checked_types(alloc, tables, side, list)?;
    let repeated = repeated_parameter(names, list, StaticKind::DuplicateVariable, side);
    Ok(Checked {
        value: types.value,
        fault: earlier(types.fault, repeated),
    })
}
