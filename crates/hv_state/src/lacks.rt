//! Whether a formula, or an effect, speaks of the variable that is bound next.

ghost use Rattle.std.specs.Prelude.{IsTrue, All, length, map};
ghost use Rattle.hv_world.specs.Bindings.{objects_in};
ghost use Rattle.hv_world.specs.Values.{formulas_of, effects_of};
ghost use Rattle.hv_world.specs.Views.{term_view, formula_view, effect_view};
ghost use Rattle.hv_state.specs.inside.Lacks.{IsOther, Lacks, LackAll, EffectLacks, EffectsLack};

use hv_world::{Binding, Effect, Formula, ObjectId, Term};

// Whether a term is not the variable that is bound next.
fn is_other(term: Term, binding: &Binding<'_>) -> bool
    ensures { IsTrue result → IsOther (length (objects_in binding.now)) (term_view term) }
{
    let Term::Variable(number) = term else {
        return true;
    };
    let more = Binding::With(&*binding, ObjectId(0));
    binding.object(number).is_some() || more.object(number).is_none()
}

// Whether none of these terms is.
fn are_other(terms: &[Term], binding: &Binding<'_>) -> bool
    ensures { IsTrue result
        → All (IsOther (length (objects_in binding.now))) (map term_view terms.now) }
{
    for term in terms {
        if !is_other(*term, binding) {
            return false;
        }
    }
    true
}

/// Whether a formula says nothing of the variable that is bound next, so that one object serves for
/// all that this variable may have.
#[cycle(lacks_next)]
pub(crate) fn lacks_next(formula: &Formula, binding: &Binding<'_>) -> bool
    ensures { IsTrue result
        → Lacks (length (objects_in binding.now)) (formula_view formula.now) }
{
    match formula {
        Formula::Holds(atom) => are_other(&atom.terms, binding),
        Formula::And(parts) => all_lack_next(parts, binding),
        Formula::Or(parts) => all_lack_next(parts, binding),
        Formula::Not(part) => lacks_next(part, binding),
        Formula::Imply(premise, conclusion) => {
            lacks_next(premise, binding) && lacks_next(conclusion, binding)
        }
        Formula::Forall(_, part) => lacks_next(part, binding),
        Formula::Exists(_, part) => lacks_next(part, binding),
        Formula::Equal(left, right) => is_other(*left, binding) && is_other(*right, binding),
    }
}

// The same of several formulas.
#[cycle(lacks_next)]
fn all_lack_next(parts: &[Formula], binding: &Binding<'_>) -> bool
    ensures { IsTrue result
        → LackAll (length (objects_in binding.now)) (formulas_of (map formula_view parts.now)) }
{
    for part in parts {
        if !lacks_next(part, binding) {
            return false;
        }
    }
    true
}

// The same of an effect.
#[cycle(effects_lack_next)]
fn effect_lacks_next(effect: &Effect, binding: &Binding<'_>) -> bool
    ensures { IsTrue result
        → EffectLacks (length (objects_in binding.now)) (effect_view effect.now) }
{
    match effect {
        Effect::Becomes(_, atom) => are_other(&atom.terms, binding),
        Effect::Forall(_, effects) => effects_lack_next(effects, binding),
    }
}

/// The same of several effects.
#[cycle(effects_lack_next)]
pub(crate) fn effects_lack_next(effects: &[Effect], binding: &Binding<'_>) -> bool
    ensures { IsTrue result
        → EffectsLack (length (objects_in binding.now)) (effects_of (map effect_view effects.now)) }
{
    for effect in effects {
        if !effect_lacks_next(effect, binding) {
            return false;
        }
    }
    true
}
