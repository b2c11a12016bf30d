//! The names of declarations, as written.

ghost use Rattle.std.specs.Prelude.{◌≡◌, length, map, IfOk};
ghost use Rattle.hv_syntax.specs.Views.{word_view};
ghost use Rattle.hv_syntax.specs.DeclarationViews.{predicate_view, method_view};
ghost use Rattle.hv_world.specs.Known.{predicate_words, declared_words};
ghost use Rattle.hv_world.specs.StaticRules.{method_words};
ghost use Rattle.hv_world.specs.inside.Tables.{declaration_view};

use crate::tables::Declared;
use hv_syntax::{MethodText, Placed, PredicateText};
use hv_text::Memory;
use std::alloc::Global;

/// The names of predicates.
pub(crate) fn predicate_words<'s>(
    alloc: Global,
    predicates: &[PredicateText<'s>],
) -> Result<Vec<Placed<'s>>, Memory>
    ensures { IfOk result
        (λ v. map word_view v.items ≡ predicate_words (map predicate_view predicates.now)) }
{
    let mut words = Vec::new(alloc);
    for predicate in predicates {
        words.push(predicate.name())?;
    }
    Ok(words)
}

/// How many terms each predicate takes.
pub(crate) fn arities(alloc: Global, predicates: &[PredicateText<'_>]) -> Result<Vec<usize>, Memory>
    ensures { IfOk result
        (λ v. v.items ≡ map (λ p. length p.parameters) (map predicate_view predicates.now)) }
{
    let mut counts = Vec::new(alloc);
    for predicate in predicates {
        counts.push(predicate.parameters().len())?;
    }
    Ok(counts)
}

/// The names of methods.
pub(crate) fn method_words<'s>(
    alloc: Global,
    methods: &[MethodText<'s>],
) -> Result<Vec<Placed<'s>>, Memory>
    ensures { IfOk result
        (λ v. map word_view v.items ≡ method_words (map method_view methods.now)) }
{
    let mut words = Vec::new(alloc);
    for method in methods {
        words.push(method.name())?;
    }
    Ok(words)
}

/// The names of tasks and actions.
pub(crate) fn declared_words<'s>(
    alloc: Global,
    list: &[Declared<'s>],
) -> Result<Vec<Placed<'s>>, Memory>
    ensures { IfOk result
        (λ v. map word_view v.items ≡ declared_words (map declaration_view list.now)) }
{
    let mut words = Vec::new(alloc);
    for declared in list {
        words.push(declared.name)?;
    }
    Ok(words)
}
