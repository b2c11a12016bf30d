//! Effects over numbers, each with its first fault.

ghost use Rattle.std.specs.Prelude.{◌≡◌, ◌++◌, map, IfOk};
ghost use Rattle.hv_syntax.specs.Values.{effect};
ghost use Rattle.hv_syntax.specs.Views.{variable_view, item_view};
ghost use Rattle.hv_world.specs.Faults.{least};
ghost use Rattle.hv_world.specs.Known.{variables};
ghost use Rattle.hv_world.specs.Scopes.{inside};
ghost use Rattle.hv_world.specs.StaticRules.{variable_faults, item_faults, effect_faults};
ghost use Rattle.hv_world.specs.Values.{effects_of};
ghost use Rattle.hv_world.specs.Views.{type_number, effect_view};
ghost use Rattle.hv_world.specs.Worlds.{types_of, effect_in, effects_in};
ghost use Rattle.hv_world.specs.inside.Tables.{known_by, scope_view};

use crate::checked::Checked;
use crate::effect::Effect;
use crate::fault::{Side, earlier};
use crate::id::TypeId;
use crate::intern::terms::checked_atom;
use crate::intern::types::checked_variables;
use crate::scope::Scope;
use crate::tables::Tables;
use hv_syntax::{ItemText, VariableText};
use hv_text::Memory;
use std::alloc::Global;

// An effect, and its first fault.
#[cycle(effects)]
fn checked_effect<'s>(
    alloc: Global,
    tables: &Tables<'s>,
    scope: &Scope<'_, 's>,
    side: Side,
    item: &ItemText<'s>,
) -> Result<Checked<Effect>, Memory>
    ensures value { IfOk result
        (λ c. effect_view c.value
        ≡ effect_in (known_by tables.now) (scope_view scope.now) (item_view item.now)) }
    ensures fault { IfOk result
        (λ c. c.fault
        ≡ least (item_faults (known_by tables.now) side (scope_view scope.now)
        (item_view item.now))) }
{
    match item {
        ItemText::Literal(literal) => {
            let literal = literal.lend();
            let atom = checked_atom(alloc, tables, scope, side, None, literal.atom())?;
            let effect = Effect::Becomes(literal.is_positive(), atom.value);
            Ok(Checked::new(effect, atom.fault))
        }
        ItemText::Forall(variables, items) => {
            let bound = checked_quantified(alloc, tables, scope, side, variables, items)?;
            let (types, effects) = bound.value;
            Ok(Checked::new(Effect::Forall(types, effects), bound.fault))
        }
    }
}

// The types of the variables of an effect and the effects behind them, and their first fault.
#[cycle(effects)]
fn checked_quantified<'s>(
    alloc: Global,
    tables: &Tables<'s>,
    scope: &Scope<'_, 's>,
    side: Side,
    list: &[VariableText<'s>],
    items: &[ItemText<'s>],
) -> Result<Checked<(Vec<TypeId>, Vec<Effect>)>, Memory>
    ensures types { IfOk result
        (λ c. map type_number c.value.0.items
        ≡ types_of (known_by tables.now) (map variable_view list.now)) }
    ensures effects { IfOk result
        (λ c. effects_of (map effect_view c.value.1.items)
        ≡ effects_in (known_by tables.now)
        (inside (scope_view scope.now) (variables (map variable_view list.now)))
        (effect (map item_view items.now))) }
    ensures fault { IfOk result
        (λ c. c.fault
        ≡ least (variable_faults (known_by tables.now) side (map variable_view list.now)
        ++ effect_faults (known_by tables.now) side
        (inside (scope_view scope.now) (variables (map variable_view list.now)))
        (effect (map item_view items.now)))) }
{
    let inner = Scope::Inside(&*scope, list);
    let types = checked_variables(alloc, tables, side, list)?;
    let effects = checked_effects(alloc, tables, &inner, side, items)?;
    let fault = earlier(types.fault, effects.fault);
    Ok(Checked::new((types.value, effects.value), fault))
}

/// Effects, and their first fault.
///
/// # Errors
///
/// `Memory` where a growth was refused.
#[cycle(effects)]
pub(crate) fn checked_effects<'s>(
    alloc: Global,
    tables: &Tables<'s>,
    scope: &Scope<'_, 's>,
    side: Side,
    items: &[ItemText<'s>],
) -> Result<Checked<Vec<Effect>>, Memory>
    ensures value { IfOk result
        (λ c. effects_of (map effect_view c.value.items)
        ≡ effects_in (known_by tables.now) (scope_view scope.now)
        (effect (map item_view items.now))) }
    ensures fault { IfOk result
        (λ c. c.fault
        ≡ least (effect_faults (known_by tables.now) side (scope_view scope.now)
        (effect (map item_view items.now)))) }
{
    let mut numbered = Checked::with_capacity(alloc, items.len())?;
    for item in items {
        numbered.push(checked_effect(alloc, tables, scope, side, item)?)?;
    }
    Ok(numbered)
}
