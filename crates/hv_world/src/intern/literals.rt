//! The atoms that an initial state makes true, and its first fault.

ghost use Rattle.std.specs.Prelude.{◌≡◌, [], map, IfOk};
ghost use Rattle.hv_syntax.specs.ProblemViews.{init_view as said_init};
ghost use Rattle.hv_syntax.specs.Views.{constant_view as said_constant, ground_literal_view};
ghost use Rattle.hv_world.specs.declared.fault.Side.TheVariants as sides;
ghost use Rattle.hv_world.specs.Faults.{least};
ghost use Rattle.hv_world.specs.Scopes.{parameters};
ghost use Rattle.hv_world.specs.StaticRules.{terms_faults, atom_faults, literals_faults};
ghost use Rattle.hv_world.specs.Values.{object};
ghost use Rattle.hv_world.specs.FactViews.{atom_over, facts_view};
ghost use Rattle.hv_world.specs.Worlds.{terms_in, atom_in, added};
ghost use Rattle.hv_world.specs.inside.Tables.{known_by};

use crate::checked::Checked;
use crate::facts::{Fact, Facts, short};
use crate::fault::{Side, StaticFault, earlier};
use crate::id::PredicateId;
use crate::intern::terms::{checked_object, head_fault, predicate_of};
use crate::tables::Tables;
use hv_syntax::{GroundLiteral, InitText, Placed};
use hv_text::Memory;
use std::alloc::Global;

// Puts the numbers of the objects that names name into a room, in place of what it has, and answers
// their first fault. `others` are the objects of what stands before, if there is something: each
// name is compared before all with the one declared behind that of the object there.
fn checked_names<'s>(
    tables: &Tables<'s>,
    others: &[u32],
    names: &[Placed<'s>],
    objects: &mut Vec<u32>,
) -> Result<Option<StaticFault>, Memory>
    ensures value { IfOk result
        (λ _. map object objects.new.items
        ≡ terms_in (known_by tables.now) (parameters []) (map said_constant names.now)) }
    ensures fault { IfOk result
        (λ f. f ≡ least (terms_faults (known_by tables.now) sides.Problem (parameters [])
        (map said_constant names.now))) }
{
    objects.clear();
    let mut found = None;
    for name in names {
        let before = others.get(objects.len()).map(|other| *other as usize);
        let checked = checked_object(tables, Side::Problem, before, *name);
        found = earlier(found, checked.fault);
        objects.push(short(checked.value)?)?;
    }
    Ok(found)
}

// The predicate and the objects of a fact, if there is one.
fn numbers_of(other: Option<Fact<'_>>) -> (Option<PredicateId>, &[u32]) {
    match other {
        Some(fact) => (Some(fact.predicate()), fact.objects()),
        None => (None, &[]),
    }
}

// The atom of a literal: the number of its predicate, with those of its objects in a room, in place
// of what it has; and its first fault. Its names are compared before all with those of another
// atom, or with what is declared behind these.
fn checked_fact<'s>(
    tables: &Tables<'s>,
    other: Option<Fact<'_>>,
    literal: GroundLiteral<'_, 's>,
    objects: &mut Vec<u32>,
) -> Result<Checked<u32>, Memory>
    ensures value { IfOk result
        (λ c. atom_over (c.value, objects.new.items) ≡ atom_in (known_by tables.now)
        (parameters []) (ground_literal_view literal.entry).atom) }
    ensures fault { IfOk result
        (λ c. c.fault
        ≡ least (atom_faults (known_by tables.now) sides.Problem (parameters [])
        (ground_literal_view literal.entry).atom)) }
{
    let (guess, others) = numbers_of(other);
    let (predicate, head) = predicate_of(tables, guess, literal.symbol());
    let first = head_fault(head, Side::Problem, literal.symbol(), literal.names().len());
    let second = checked_names(tables, others, literal.names(), objects)?;
    Ok(Checked {
        value: short(predicate.0)?,
        fault: earlier(first, second),
    })
}

/// The atoms of those literals that are no negations, and the first fault of all.
///
/// # Errors
///
/// `Memory` where a growth was refused, or a number needs more than four bytes.
pub(crate) fn checked_init<'s>(
    alloc: Global,
    tables: &Tables<'s>,
    init: &InitText<'s>,
) -> Result<Checked<Facts>, Memory>
    ensures value { IfOk result
        (λ c. facts_view c.value
        ≡ added (known_by tables.now) (parameters []) (said_init init.now)) }
    ensures fault { IfOk result
        (λ c. c.fault
        ≡ least (literals_faults (known_by tables.now) sides.Problem (parameters [])
        (said_init init.now))) }
{
    let mut facts = Facts::new(alloc)?;
    let mut found = None;
    let mut literals = init.literals();
    let mut names = Vec::new(alloc);
    let mut objects = Vec::new(alloc);
    'all: while let Some(literal) = literals.next_in(&mut names)? {
        let checked = checked_fact(tables, facts.last(), literal, &mut objects)?;
        found = earlier(found, checked.fault);
        if literal.is_positive() {
            facts.push(checked.value, &objects)?;
        }
    }
    Ok(Checked {
        value: facts,
        fault: found,
    })
}
