//! Effects.

ghost use Rattle.std.specs.Prelude.{◌≡◌, ◌++◌, map, OnOk};
ghost use Rattle.hv_syntax.specs.Values.{effect, for_each};
ghost use Rattle.hv_reading.specs.Canonical.{text, spaced, conjunction, conjunction_or_one};
ghost use Rattle.hv_reading.specs.Canonical.{item_expression, item_expressions, effect_expression};
ghost use Rattle.hv_syntax.specs.Views.{variable_view, item_view, effect_view};

use crate::print::formulas::put_literal;
use crate::print::variables::put_variables;
use hv_syntax::{EffectText, ItemText, VariableText};
use hv_text::Memory;

// Puts an item.
#[cycle(items)]
fn put_item(out: &mut Vec<u8>, item: &ItemText<'_>) -> Result<(), Memory>
    ensures { OnOk result (out.new.items ≡ out.old.items
        ++ text (item_expression (item_view item.now))) }
{
    match item {
        ItemText::Literal(literal) => put_literal(out, literal.lend()),
        ItemText::Forall(variables, items) => put_forall(out, variables, items),
    }
}

#[cycle(items)]
fn put_forall(
    out: &mut Vec<u8>,
    variables: &[VariableText<'_>],
    items: &[ItemText<'_>],
) -> Result<(), Memory>
    ensures { OnOk result (out.new.items ≡ out.old.items
        ++ text (item_expression (for_each (map variable_view variables.now)
        (effect (map item_view items.now))))) }
{
    out.extend_from_slice(b"(forall (")?;
    put_variables(out, variables)?;
    out.extend_from_slice(b") ")?;
    put_conjunction_or_one(out, items)?;
    out.push(b')')?;
    Ok(())
}

// Puts items as `()` where there are none, one of them alone, and else behind `and`.
#[cycle(items)]
fn put_conjunction_or_one(out: &mut Vec<u8>, items: &[ItemText<'_>]) -> Result<(), Memory>
    ensures { OnOk result (out.new.items ≡ out.old.items
        ++ text (conjunction_or_one (item_expressions (effect (map item_view items.now))))) }
{
    match items {
        [] => {
            out.extend_from_slice(b"()")?;
            Ok(())
        }
        [one] => put_item(out, one),
        [_, _, ..] => {
            out.extend_from_slice(b"(and")?;
            put_items(out, items)?;
            out.push(b')')?;
            Ok(())
        }
    }
}

// Puts items, a space before each.
#[cycle(items)]
fn put_items(out: &mut Vec<u8>, items: &[ItemText<'_>]) -> Result<(), Memory>
    ensures { OnOk result (out.new.items ≡ out.old.items
        ++ spaced (item_expressions (effect (map item_view items.now)))) }
{
    for item in items {
        out.push(b' ')?;
        put_item(out, item)?;
    }
    Ok(())
}

// Puts items as `()` where there are none, and else behind `and`.
fn put_conjunction(out: &mut Vec<u8>, items: &[ItemText<'_>]) -> Result<(), Memory>
    ensures { OnOk result (out.new.items ≡ out.old.items
        ++ text (conjunction (item_expressions (effect (map item_view items.now))))) }
{
    match items {
        [] => {
            out.extend_from_slice(b"()")?;
            Ok(())
        }
        [_, ..] => {
            out.extend_from_slice(b"(and")?;
            put_items(out, items)?;
            out.push(b')')?;
            Ok(())
        }
    }
}

/// Puts an effect.
///
/// # Errors
///
/// `Memory` where a growth was refused.
pub(crate) fn put_effect(out: &mut Vec<u8>, effect: &EffectText<'_>) -> Result<(), Memory>
    ensures { OnOk result (out.new.items ≡ out.old.items
        ++ text (effect_expression (effect_view effect.now))) }
{
    match effect.items() {
        [ItemText::Forall(..), ..] => put_conjunction_or_one(out, effect.items()),
        _ => put_conjunction(out, effect.items()),
    }
}
