//! Fields: pairs of a keyword and an expression.

ghost use Rattle.std.specs.Prelude.{◌≡◌, option_map};
ghost use Rattle.hv_text.specs.Names.{text_of};
ghost use Rattle.hv_text.specs.Trees.{tree, trees};
ghost use Rattle.hv_reading.specs.Fields.{slot_of, same_slot, is_in, field, is_field_list};

use hv_text::{Name, Sexp};

/// Which field a keyword names.
#[derive(Clone, Copy)]
pub enum Slot {
    Parameters,
    Task,
    Precondition,
    Effect,
    /// Subtasks in no order of their own.
    Subtasks,
    /// Subtasks in the order in which they are written.
    OrderedSubtasks,
    Ordering,
    Constraints,
    Other,
}

fn slot_of(name: Name<'_>) -> Slot
    ensures { result ≡ slot_of (text_of name.entry) }
{
    if name.is(b":parameters") {
        return Slot::Parameters;
    }
    if name.is(b":task") {
        return Slot::Task;
    }
    if name.is(b":precondition") {
        return Slot::Precondition;
    }
    if name.is(b":effect") {
        return Slot::Effect;
    }
    if name.is(b":subtasks") || name.is(b":tasks") {
        return Slot::Subtasks;
    }
    if name.is(b":ordered-subtasks") || name.is(b":ordered-tasks") {
        return Slot::OrderedSubtasks;
    }
    if name.is(b":ordering") || name.is(b":order") {
        return Slot::Ordering;
    }
    if name.is(b":constraints") {
        return Slot::Constraints;
    }
    Slot::Other
}

// Whether a keyword names this slot: the few words of one are compared, and not those of all.
fn is_named(name: Name<'_>, slot: Slot) -> bool
    ensures { result ≡ same_slot (slot_of (text_of name.entry)) slot }
{
    match slot {
        Slot::Parameters => name.is(b":parameters"),
        Slot::Task => name.is(b":task"),
        Slot::Precondition => name.is(b":precondition"),
        Slot::Effect => name.is(b":effect"),
        Slot::Subtasks => name.is(b":subtasks") || name.is(b":tasks"),
        Slot::OrderedSubtasks => name.is(b":ordered-subtasks") || name.is(b":ordered-tasks"),
        Slot::Ordering => name.is(b":ordering") || name.is(b":order"),
        Slot::Constraints => name.is(b":constraints"),
        Slot::Other => false,
    }
}

fn same_slot(a: Slot, b: Slot) -> bool
    ensures { result ≡ same_slot a b }
{
    match (a, b) {
        (Slot::Parameters, Slot::Parameters)
        | (Slot::Task, Slot::Task)
        | (Slot::Precondition, Slot::Precondition)
        | (Slot::Effect, Slot::Effect)
        | (Slot::Subtasks, Slot::Subtasks)
        | (Slot::OrderedSubtasks, Slot::OrderedSubtasks)
        | (Slot::Ordering, Slot::Ordering)
        | (Slot::Constraints, Slot::Constraints) => true,
        _ => false,
    }
}

fn is_in(slots: &[Slot], slot: Slot) -> bool
    ensures { result ≡ is_in slots.now slot }
{
    for other in slots {
        if same_slot(*other, slot) {
            return true;
        }
    }
    false
}

/// The expression of the first field of this slot.
pub(crate) fn field<'a, 's>(slot: Slot, es: &'a [Sexp<'s>]) -> Option<&'a Sexp<'s>>
    ensures { option_map (λ e. tree e.now) result ≡ field slot (trees es.now) }
{
    let mut rest = es;
    'fields: while let [key, value, others @ ..] = rest {
        let Sexp::Word(name, _) = key else {
            return None;
        };
        if is_named(*name, slot) {
            return Some(value);
        }
        rest = others;
    }
    None
}

/// Whether these are fields of these slots, each at most once.
pub(crate) fn is_field_list(slots: &[Slot], es: &[Sexp<'_>]) -> bool
    ensures { result ≡ is_field_list slots.now (trees es.now) }
{
    let mut rest = es;
    'fields: while let [key, _value, others @ ..] = rest {
        let Sexp::Word(name, _) = key else {
            return false;
        };
        let slot = slot_of(*name);
        if !is_in(slots, slot) {
            return false;
        }
        if field(slot, others).is_some() {
            return false;
        }
        rest = others;
    }
    rest.is_empty()
}
