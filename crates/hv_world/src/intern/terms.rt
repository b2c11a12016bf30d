//! Terms and atoms over numbers, each with its first fault.

ghost use Rattle.std.specs.Prelude.{◌≡◌, ◌++◌, not, length, map, IfOk};
ghost use Rattle.hv_syntax.specs.Views.{word_view, term_view as said_term, lent_atom_view as said_atom};
ghost use Rattle.hv_world.specs.Faults.{least, fault_if};
ghost use Rattle.hv_world.specs.Names.{is_among, number_in, number_or};
ghost use Rattle.hv_world.specs.Scopes.{size, variable_in, is_bound};
ghost use Rattle.hv_world.specs.StaticRules.{head_faults, term_faults, terms_faults, atom_faults, signature_arity};
ghost use Rattle.hv_world.specs.Values.{object, variable};
ghost use Rattle.hv_world.specs.Views.{term_view, atom_view};
ghost use Rattle.hv_world.specs.Worlds.{term_in, terms_in, atom_in, number_of};
ghost use Rattle.hv_world.specs.declared.fault.StaticKind.TheVariants as kinds;
ghost use Rattle.hv_world.specs.inside.Tables.{known_by, scope_view};

use crate::checked::Checked;
use crate::fault::{Side, StaticFault, StaticKind, earlier, fault_if};
use crate::formula::{Atom, Term};
use crate::id::{ObjectId, PredicateId};
use crate::scope::Scope;
use crate::tables::Tables;
use hv_syntax::{LentAtom, Placed, TermText};
use hv_text::Memory;
use smallvec::SmallVec;
use std::alloc::Global;

/// The object that a word names, by its number, and the fault of one that is none. Where another
/// object stood in its place, the one declared behind that is looked at before all.
#[inline(always)]
pub(crate) fn checked_object<'s>(
    tables: &Tables<'s>,
    side: Side,
    before: Option<usize>,
    word: Placed<'s>,
) -> Checked<usize>
    ensures value { result.value
        ≡ number_in (known_by tables.now).objects (word_view word.entry).text }
    ensures fault { result.fault
        ≡ fault_if (not (is_among (known_by tables.now).objects (word_view word.entry).text))
        kinds.UnknownObject side (word_view word.entry) }
{
    let found = tables.object_behind(before, word.name());
    let is_known = found.is_some();
    let number = match found {
        Some(number) => number,
        None => tables.objects.len(),
    };
    Checked {
        value: number,
        fault: fault_if(!is_known, StaticKind::UnknownObject, side, word),
    }
}

// The same, as a term.
#[inline(always)]
fn checked_constant<'s>(
    tables: &Tables<'s>,
    side: Side,
    other: Option<Term>,
    word: Placed<'s>,
) -> Checked<Term>
    ensures value { term_view result.value
        ≡ object (number_in (known_by tables.now).objects (word_view word.entry).text) }
    ensures fault { result.fault
        ≡ fault_if (not (is_among (known_by tables.now).objects (word_view word.entry).text))
        kinds.UnknownObject side (word_view word.entry) }
{
    let before = match other {
        Some(Term::Object(object)) => Some(object.0),
        _ => None,
    };
    let checked = checked_object(tables, side, before, word);
    Checked {
        value: Term::Object(ObjectId(checked.value)),
        fault: checked.fault,
    }
}

// The variable that a word names, and the fault of one that is not in scope. Where another variable
// stood in its place, the one declared behind that is looked at before all.
fn checked_variable<'s>(
    scope: &Scope<'_, 's>,
    side: Side,
    other: Option<Term>,
    word: Placed<'s>,
) -> Result<Checked<Term>, Memory>
    ensures value { IfOk result
        (λ c. term_view c.value
        ≡ variable (number_or (size (scope_view scope.now))
        (variable_in (scope_view scope.now) (word_view word.entry).text))) }
    ensures fault { IfOk result
        (λ c. c.fault
        ≡ fault_if (not (is_bound (scope_view scope.now) (word_view word.entry).text))
        kinds.UnboundVariable side (word_view word.entry)) }
{
    let before = match other {
        Some(Term::Variable(variable)) => Some(variable),
        _ => None,
    };
    let found = scope.place_behind(before, word.name())?;
    let is_bound = found.is_some();
    let number = scope.number_of(found)?;
    Ok(Checked {
        value: Term::Variable(number),
        fault: fault_if(!is_bound, StaticKind::UnboundVariable, side, word),
    })
}

// A term and its fault.
#[inline(always)]
fn checked_term<'s>(
    tables: &Tables<'s>,
    scope: &Scope<'_, 's>,
    side: Side,
    other: Option<Term>,
    term: TermText<'s>,
) -> Result<Checked<Term>, Memory>
    ensures value { IfOk result
        (λ c. term_view c.value
        ≡ term_in (known_by tables.now) (scope_view scope.now) (said_term term.entry)) }
    ensures fault { IfOk result
        (λ c. c.fault
        ≡ least (term_faults (known_by tables.now) side (scope_view scope.now)
        (said_term term.entry))) }
{
    match term {
        TermText::Constant(word) => Ok(checked_constant(tables, side, other, word)),
        TermText::Variable(word) => checked_variable(scope, side, other, word),
    }
}

/// Two terms that are compared, and their first fault.
///
/// # Errors
///
/// `Memory` where no number can say how many variables are in scope.
pub(crate) fn checked_equality<'s>(
    tables: &Tables<'s>,
    scope: &Scope<'_, 's>,
    side: Side,
    left: TermText<'s>,
    right: TermText<'s>,
) -> Result<Checked<(Term, Term)>, Memory>
    ensures left { IfOk result
        (λ c. term_view c.value.0
        ≡ term_in (known_by tables.now) (scope_view scope.now) (said_term left.entry)) }
    ensures right { IfOk result
        (λ c. term_view c.value.1
        ≡ term_in (known_by tables.now) (scope_view scope.now) (said_term right.entry)) }
    ensures fault { IfOk result
        (λ c. c.fault
        ≡ least (term_faults (known_by tables.now) side (scope_view scope.now)
        (said_term left.entry)
        ++ term_faults (known_by tables.now) side (scope_view scope.now)
        (said_term right.entry))) }
{
    let left = checked_term(tables, scope, side, None, left)?;
    let right = checked_term(tables, scope, side, None, right)?;
    Ok(Checked {
        value: (left.value, right.value),
        fault: earlier(left.fault, right.fault),
    })
}

// Terms and their first fault. `others` are the terms of what stands before, if there is something:
// each name is compared before all with the one declared behind that of the term there.
fn checked_terms<'s>(
    alloc: Global,
    tables: &Tables<'s>,
    scope: &Scope<'_, 's>,
    side: Side,
    others: &[Term],
    terms: &[TermText<'s>],
) -> Result<Checked<SmallVec<Term, 2>>, Memory>
    ensures value { IfOk result
        (λ c. map term_view c.value.items
        ≡ terms_in (known_by tables.now) (scope_view scope.now) (map said_term terms.now)) }
    ensures fault { IfOk result
        (λ c. c.fault
        ≡ least (terms_faults (known_by tables.now) side (scope_view scope.now)
        (map said_term terms.now))) }
{
    let mut numbered = SmallVec::with_capacity(alloc, terms.len())?;
    let mut found = None;
    for term in terms {
        let other = others.get(numbered.len()).copied();
        let checked = checked_term(tables, scope, side, other, *term)?;
        found = earlier(found, checked.fault);
        numbered.push(checked.value)?;
    }
    Ok(Checked {
        value: numbered,
        fault: found,
    })
}

/// What is known of a name that has terms: how many it takes, where it is declared, and what its
/// fault is where it is not.
#[derive(Clone, Copy)]
pub(crate) struct Head {
    pub(crate) arity: Option<usize>,
    pub(crate) unknown: StaticKind,
}

/// The fault of a name with so many terms.
#[inline(always)]
pub(crate) fn head_fault(
    head: Head,
    side: Side,
    word: Placed<'_>,
    count: usize,
) -> Option<StaticFault>
    ensures { result ≡ least (head_faults head.unknown side (word_view word.entry) head.arity
        count) }
{
    match head.arity {
        None => fault_if(true, head.unknown, side, word),
        Some(arity) => {
            let is_met = arity == count;
            fault_if(!is_met, StaticKind::Arity, side, word)
        }
    }
}

/// The terms of a name, and the first fault of both; `others` are the terms of what stands before,
/// if there is something.
///
/// # Errors
///
/// `Memory` where a growth was refused.
pub(crate) fn checked_application<'s>(
    alloc: Global,
    tables: &Tables<'s>,
    scope: &Scope<'_, 's>,
    side: Side,
    head: Head,
    others: &[Term],
    atom: LentAtom<'_, 's>,
) -> Result<Checked<SmallVec<Term, 2>>, Memory>
    ensures value { IfOk result
        (λ c. map term_view c.value.items
        ≡ terms_in (known_by tables.now) (scope_view scope.now) (said_atom atom.entry).terms) }
    ensures fault { IfOk result
        (λ c. c.fault
        ≡ least (head_faults head.unknown side (said_atom atom.entry).symbol head.arity
        (length (said_atom atom.entry).terms)
        ++ terms_faults (known_by tables.now) side (scope_view scope.now)
        (said_atom atom.entry).terms)) }
{
    let fault = head_fault(head, side, atom.symbol(), atom.terms().len());
    let terms = checked_terms(alloc, tables, scope, side, others, atom.terms())?;
    Ok(Checked {
        value: terms.value,
        fault: earlier(fault, terms.fault),
    })
}

// The predicate and the terms of an atom, if there is one.
fn parts_of(other: Option<&Atom>) -> (Option<PredicateId>, &[Term]) {
    match other {
        Some(atom) => (Some(atom.predicate), atom.terms.as_slice()),
        None => (None, &[]),
    }
}

/// The predicate that a word names, and what is known of it. Where another stood in its place, that
/// one is looked at before all.
pub(crate) fn predicate_of<'s>(
    tables: &Tables<'s>,
    guess: Option<PredicateId>,
    word: Placed<'s>,
) -> (PredicateId, Head)
    ensures predicate { result.0.0 ≡ number_of ((known_by tables.now).predicate
        (word_view word.entry).text) }
    ensures arity { result.1.arity ≡ signature_arity ((known_by tables.now).predicate
        (word_view word.entry).text) }
    ensures unknown { result.1.unknown ≡ kinds.UnknownPredicate }
{
    let (predicate, arity) = match tables.predicate(guess, word.name()) {
        Some(signature) => (signature.predicate, Some(signature.arity)),
        None => (PredicateId(0), None),
    };
    let head = Head {
        arity,
        unknown: StaticKind::UnknownPredicate,
    };
    (predicate, head)
}

/// An atom and its first fault. Its names are compared before all with those of another, or with
/// what is declared behind these.
///
/// # Errors
///
/// `Memory` where a growth was refused.
pub(crate) fn checked_atom<'s>(
    alloc: Global,
    tables: &Tables<'s>,
    scope: &Scope<'_, 's>,
    side: Side,
    other: Option<&Atom>,
    atom: LentAtom<'_, 's>,
) -> Result<Checked<Atom>, Memory>
    ensures value { IfOk result
        (λ c. atom_view c.value
        ≡ atom_in (known_by tables.now) (scope_view scope.now) (said_atom atom.entry)) }
    ensures fault { IfOk result
        (λ c. c.fault
        ≡ least (atom_faults (known_by tables.now) side (scope_view scope.now)
        (said_atom atom.entry))) }
{
    let (guess, others) = parts_of(other);
    let (predicate, head) = predicate_of(tables, guess, atom.symbol());
    let terms = checked_application(alloc, tables, scope, side, head, others, atom)?;
    Ok(Checked {
        value: Atom {
            predicate,
            terms: terms.value,
        },
        fault: terms.fault,
    })
}
