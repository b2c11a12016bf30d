//! Lists: their members, and lists that stand as `()`, as one member, or behind `and`.

ghost use Rattle.std.specs.Prelude.{◌≡◌, option_map};
ghost use Rattle.hv_text.specs.Trees.{tree, trees};
ghost use Rattle.hv_reading.specs.inside.Reading.{only, two};
ghost use Rattle.hv_reading.specs.Lists.{conjuncts};
ghost use Rattle.hv_reading.specs.inside.Lists.{negated};

use crate::word::{Head, head_of};
use hv_text::Sexp;

/// The one member of a list.
pub(crate) fn only<'a, 's>(es: &'a [Sexp<'s>]) -> Option<&'a Sexp<'s>>
    ensures { option_map (λ e. tree e.now) result ≡ only (trees es.now) }
{
    match es {
        [] => None,
        [one, others @ ..] => match others {
            [] => Some(one),
            [_, ..] => None,
        },
    }
}

/// The two members of a list.
pub(crate) fn two<'a, 's>(es: &'a [Sexp<'s>]) -> Option<(&'a Sexp<'s>, &'a Sexp<'s>)>
    ensures { option_map (λ p. (tree p.0.now, tree p.1.now)) result ≡ two (trees es.now) }
{
    match es {
        [] => None,
        [one, others @ ..] => {
            let other = only(others)?;
            Some((one, other))
        }
    }
}

/// The members of a list that stands as `()` or behind `and`.
pub(crate) fn conjuncts<'a, 's>(e: &'a Sexp<'s>) -> Option<&'a [Sexp<'s>]>
    ensures { option_map (λ es. trees es.now) result ≡ conjuncts (tree e.now) }
{
    let Sexp::List(members, _) = e else {
        return None;
    };
    match members.as_slice() {
        [] => Some(members.as_slice()),
        [head, others @ ..] => {
            let Sexp::Word(name, _) = head else {
                return None;
            };
            match head_of(*name) {
                Head::And => Some(others),
                _ => None,
            }
        }
    }
}

/// What `not` stands before, where a list of two members begins with it.
pub(crate) fn negated<'a, 's>(e: &'a Sexp<'s>) -> Option<&'a Sexp<'s>>
    ensures { option_map (λ e. tree e.now) result ≡ negated (tree e.now) }
{
    let Sexp::List(members, _) = e else {
        return None;
    };
    match members.as_slice() {
        [] => None,
        [head, others @ ..] => {
            let Sexp::Word(name, _) = head else {
                return None;
            };
            match head_of(*name) {
                Head::Not => only(others),
                _ => None,
            }
        }
    }
}
