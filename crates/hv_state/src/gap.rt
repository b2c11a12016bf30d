//! Objects that need not be tried: an atom that a formula needs is false with them.

ghost use Rattle.std.specs.Prelude.{◌≡◌, ◌≤◌, ◌<◌, IsTrue, IfSome, All, option_map};
ghost use Rattle.hv_world.specs.Bindings.{objects_in};
ghost use Rattle.hv_world.specs.Views.{term_view, atom_view, formula_view};
ghost use Rattle.hv_state.specs.Needed.{needed, needed_alone};
ghost use Rattle.hv_state.specs.inside.Gaps.{denied, denied_alone, IsBound, IsNext, EndsIn};
ghost use Rattle.hv_state.specs.inside.Gaps.{IsGuide, IsGap};

use crate::atom::AtomView;
use crate::facts::Facts;
use hv_world::{Atom, Binding, Formula, ObjectId, Term};

// Whether a term stands for an object by what is bound.
fn is_bound(term: Term, binding: &Binding<'_>) -> bool
    ensures { IsTrue result → IsBound (objects_in binding.now) (term_view term) }
{
    match term {
        Term::Object(_) => true,
        Term::Variable(number) => binding.object(number).is_some(),
    }
}

// Whether these terms do.
fn are_bound(terms: &[Term], binding: &Binding<'_>) -> bool
    ensures { IsTrue result
        → All (λ t. IsBound (objects_in binding.now) (term_view t)) terms.now }
{
    for term in terms {
        if !is_bound(*term, binding) {
            return false;
        }
    }
    true
}

// Whether a term is the variable that is bound next.
fn is_next(term: Term, binding: &Binding<'_>) -> bool
    ensures { IsTrue result → IsNext (objects_in binding.now) (term_view term) }
{
    let Term::Variable(number) = term else {
        return false;
    };
    let more = Binding::With(&*binding, ObjectId(0));
    binding.object(number).is_none() && more.object(number).is_some()
}

// Whether the variable that is bound next is the last term of an atom, and no other of its terms is
// a variable without an object.
fn ends_in_next(atom: &Atom, binding: &Binding<'_>) -> bool
    ensures { IsTrue result → EndsIn (objects_in binding.now) (atom_view atom.now) }
{
    match atom.terms.split_last() {
        Some((last, before)) => is_next(*last, binding) && are_bound(before, binding),
        None => false,
    }
}

// The atom, if a formula is one and ends so.
fn guide_alone<'a>(formula: &'a Formula, binding: &Binding<'_>) -> Option<&'a Atom>
    ensures { IfSome result (λ a. IsGuide (objects_in binding.now)
        (needed_alone (formula_view formula.now)) (atom_view a.now)) }
{
    match formula {
        Formula::Holds(atom) if ends_in_next(atom, binding) => Some(atom),
        _ => None,
    }
}

/// An atom without which a formula is not true, and whose last term is the variable that
/// is bound next.
pub(crate) fn guide_to_truth<'a>(formula: &'a Formula, binding: &Binding<'_>) -> Option<&'a Atom>
    ensures { IfSome result (λ a. IsGuide (objects_in binding.now)
        (needed (formula_view formula.now)) (atom_view a.now)) }
{
    let Formula::And(parts) = formula else {
        return guide_alone(formula, binding);
    };
    for part in parts {
        if let Some(atom) = guide_alone(part, binding) {
            return Some(atom);
        }
    }
    None
}

// The same of a formula that is true without it, if it is a negation.
fn guide_of_negation<'a>(formula: &'a Formula, binding: &Binding<'_>) -> Option<&'a Atom>
    ensures { IfSome result (λ a. IsGuide (objects_in binding.now)
        (denied_alone (formula_view formula.now)) (atom_view a.now)) }
{
    match formula {
        Formula::Not(part) => guide_to_truth(part, binding),
        _ => None,
    }
}

/// An atom without which a formula is true, and whose last term is the variable that is bound next.
pub(crate) fn guide_to_failure<'a>(formula: &'a Formula, binding: &Binding<'_>) -> Option<&'a Atom>
    ensures { IfSome result (λ a. IsGuide (objects_in binding.now)
        (denied (formula_view formula.now)) (atom_view a.now)) }
{
    match formula {
        Formula::Imply(premise, _) => return guide_to_truth(premise, binding),
        Formula::Or(parts) => {
            for part in parts {
                if let Some(atom) = guide_of_negation(part, binding) {
                    return Some(atom);
                }
            }
        }
        _ => return guide_of_negation(formula, binding),
    }
    None
}

// Where so many objects are passed over, or more, a look for the next of them is worth its time.
const FEW: usize = 4;

/// Objects that need not be tried, those from one number on up to before another, and how
/// often in vain they were looked for: where nothing is passed over, the next look waits for
/// twice as many objects.
#[derive(Clone, Copy)]
pub(crate) struct Gap {
    pub(crate) from: usize,
    pub(crate) until: usize,
    wait: usize,
    patience: usize,
}

impl Gap {
    /// No object.
    pub(crate) fn none() -> Gap
        ensures { result.until ≡ 0 }
    {
        Gap {
            from: 0,
            until: 0,
            wait: 0,
            patience: 0,
        }
    }

    /// Whether an object is one of them.
    pub(crate) fn has(self, object: ObjectId) -> bool
        ensures { IsTrue result → (self.from ≤ object.0) × (object.0 < self.until) }
    {
        self.from <= object.0 && object.0 < self.until
    }

    // Those from this number on up to before that one.
    fn between(self, from: usize, until: usize) -> Gap
        ensures from { result.from ≡ from }
        ensures until { result.until ≡ until }
    {
        let patience = if until.saturating_sub(from) > FEW {
            0
        } else {
            self.patience.saturating_mul(2).saturating_add(1)
        };
        Gap {
            from,
            until,
            wait: patience,
            patience,
        }
    }

    /// Those behind an object with which a guide is false, where it is time to look for them.
    pub(crate) fn behind<F: Facts>(
        self,
        facts: &F,
        guide: Option<&Atom>,
        binding: &Binding<'_>,
        object: ObjectId,
    ) -> Gap
        requires { IfSome guide (λ a. EndsIn (objects_in binding.now) (atom_view a.now)) }
        ensures { IsGap (F.facts facts.now) (objects_in binding.now)
            (option_map (λ a. atom_view a.now) guide.entry) result }
    {
        let Some(atom) = guide else {
            return Gap::none();
        };
        if self.wait > 0 {
            return Gap {
                from: 0,
                until: 0,
                wait: self.wait - 1,
                patience: self.patience,
            };
        }
        let inner = Binding::With(&*binding, object);
        let until = facts.next_possible(&AtomView::resolved(atom, &inner, &mut [0; 3]));
        self.between(object.0, until)
    }
}
