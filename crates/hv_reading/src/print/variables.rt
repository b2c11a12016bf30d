//! Typed lists of variables.

ghost use Rattle.std.specs.Prelude.{◌≡◌, ◌++◌, ◌∷◌, [], map, OnOk};
ghost use Rattle.hv_reading.specs.Canonical.{text, joined, spaced, type_expression};
ghost use Rattle.hv_reading.specs.Canonical.{variable_members};
ghost use Rattle.hv_syntax.specs.Views.{word_view, variable_view};

use crate::print::terms::{put_word, put_words};
use hv_syntax::{Placed, VariableText};
use hv_text::Memory;

// Puts the type of these names.
fn put_type(out: &mut Vec<u8>, types: &[Placed<'_>]) -> Result<(), Memory>
    ensures { OnOk result (out.new.items ≡ out.old.items
        ++ text (type_expression (map word_view types.now))) }
{
    match types {
        [] => {
            out.extend_from_slice(b"object")?;
            Ok(())
        }
        [one] => put_word(out, *one),
        [_, _, ..] => {
            out.extend_from_slice(b"(either")?;
            put_words(out, types)?;
            out.push(b')')?;
            Ok(())
        }
    }
}

// Puts a variable, a dash and its type.
fn put_variable(out: &mut Vec<u8>, variable: &VariableText<'_>) -> Result<(), Memory>
    ensures { OnOk result (out.new.items ≡ out.old.items
        ++ ((variable_view variable.now).name.text ++ (32 ∷ 45 ∷ 32 ∷ [])
        ++ text (type_expression (variable_view variable.now).of))) }
{
    put_word(out, variable.name())?;
    out.extend_from_slice(b" - ")?;
    put_type(out, variable.types())
}

/// Puts variables, each with its own type, and a space before each.
///
/// # Errors
///
/// `Memory` where a growth was refused.
pub(crate) fn put_spaced_variables(
    out: &mut Vec<u8>,
    variables: &[VariableText<'_>],
) -> Result<(), Memory>
    ensures { OnOk result (out.new.items ≡ out.old.items
        ++ spaced (variable_members (map variable_view variables.now))) }
{
    for variable in variables {
        out.push(b' ')?;
        put_variable(out, variable)?;
    }
    Ok(())
}

/// Puts variables, each with its own type.
///
/// # Errors
///
/// `Memory` where a growth was refused.
pub(crate) fn put_variables(out: &mut Vec<u8>, variables: &[VariableText<'_>]) -> Result<(), Memory>
    ensures { OnOk result (out.new.items ≡ out.old.items
        ++ joined (variable_members (map variable_view variables.now))) }
{
    match variables {
        [] => Ok(()),
        [first, others @ ..] => {
            put_variable(out, first)?;
            put_spaced_variables(out, others)
        }
    }
}
