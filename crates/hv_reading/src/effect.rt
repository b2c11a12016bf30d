//! Effects.

ghost use Rattle.std.specs.Prelude.{◌≡◌, [], ◌∷◌, map, option_map, IfOk, IfErr};
ghost use Rattle.hv_text.specs.Trees.{tree, trees};
ghost use Rattle.hv_reading.specs.inside.Reading.{Gives, every};
ghost use Rattle.hv_syntax.specs.Values.{no_items, effect};
ghost use Rattle.hv_reading.specs.inside.Formulas.{quantified};
ghost use Rattle.hv_reading.specs.inside.Effects.{item_for_all, item_of, effect_of, each_effect};
ghost use Rattle.hv_syntax.specs.Views.{variable_view, item_view, effect_view};

use crate::formula::read_variables;
use crate::literal::read_literal;
use crate::refusal::Refusal;
use crate::word::{Head, head_of};
use hv_syntax::{EffectText, ItemText};
use hv_text::Sexp;
use std::alloc::Global;

// One item alone.
fn single<'s>(alloc: Global, item: ItemText<'s>) -> Result<Vec<ItemText<'s>>, Refusal>
    ensures ok { IfOk result (λ v. map item_view v.items ≡ item_view item.entry ∷ []) }
    ensures err { IfErr result (λ e. e ≡ Refusal.Memory) }
{
    let mut items = Vec::with_capacity(alloc, 1)?;
    items.push(item)?;
    Ok(items)
}

// The items of an effect: none in `()`, those behind `and`, or one alone.
#[cycle(effect)]
fn read_effect_items<'s>(alloc: Global, e: &Sexp<'s>) -> Result<Vec<ItemText<'s>>, Refusal>
    ensures { Gives (λ v. effect (map item_view v.items)) result (effect_of (tree e.now)) }
{
    let Sexp::List(members, _) = e else {
        return Err(Refusal::NoSpelling);
    };
    match members.as_slice() {
        [] => Ok(Vec::new(alloc)),
        [head, others @ ..] => {
            let Sexp::Word(name, _) = head else {
                return Err(Refusal::NoSpelling);
            };
            match head_of(*name) {
                Head::And => read_items(alloc, others),
                Head::Forall => single(alloc, read_forall(alloc, others)?),
                _ => single(alloc, ItemText::Literal(read_literal(alloc, e)?)),
            }
        }
    }
}

// The members behind `forall`: its variables, and an effect.
#[cycle(effect)]
fn read_forall<'s>(alloc: Global, others: &[Sexp<'s>]) -> Result<ItemText<'s>, Refusal>
    ensures { Gives item_view result
        (option_map item_for_all (quantified (trees others.now) (each_effect (trees others.now)))) }
{
    if others.len() != 2 {
        return Err(Refusal::NoSpelling);
    }
    let variables = read_variables(alloc, &others[0])?;
    let items = read_effect_items(alloc, &others[1])?;
    Ok(ItemText::Forall(variables, items))
}

// A literal, or an effect behind `forall`.
#[cycle(effect)]
fn read_item<'s>(alloc: Global, e: &Sexp<'s>) -> Result<ItemText<'s>, Refusal>
    ensures { Gives item_view result (item_of (tree e.now)) }
{
    let Sexp::List(members, _) = e else {
        return Err(Refusal::NoSpelling);
    };
    match members.as_slice() {
        [] => Err(Refusal::NoSpelling),
        [head, others @ ..] => {
            let Sexp::Word(name, _) = head else {
                return Err(Refusal::NoSpelling);
            };
            match head_of(*name) {
                Head::Forall => read_forall(alloc, others),
                _ => Ok(ItemText::Literal(read_literal(alloc, e)?)),
            }
        }
    }
}

#[cycle(effect)]
fn read_items<'s>(alloc: Global, es: &[Sexp<'s>]) -> Result<Vec<ItemText<'s>>, Refusal>
    ensures { Gives (λ v. map item_view v.items) result (every item_of (trees es.now)) }
{
    let mut items = Vec::with_capacity(alloc, es.len())?;
    for e in es {
        items.push(read_item(alloc, e)?)?;
    }
    Ok(items)
}

/// Reads an effect: `()`, an item, or items behind `and`.
///
/// # Errors
///
/// `NoSpelling` where the expression is no effect, and `Memory`.
pub(crate) fn read_effect<'s>(alloc: Global, e: &Sexp<'s>) -> Result<EffectText<'s>, Refusal>
    ensures { Gives effect_view result (effect_of (tree e.now)) }
{
    let items = read_effect_items(alloc, e)?;
    Ok(EffectText::new(items))
}
