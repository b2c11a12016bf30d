//! Faults of typed lists.

ghost use Rattle.std.specs.Prelude.{◌≡◌, map};
ghost use Rattle.hv_syntax.specs.Views.{type_view, typed_view};
ghost use Rattle.hv_world.specs.Faults.{least};
ghost use Rattle.hv_world.specs.StaticRules.{type_faults, typed_faults};
ghost use Rattle.hv_world.specs.inside.Tables.{known_by};

use crate::checked::Checked;
use crate::fault::{Side, StaticFault, earlier};
use crate::id::TypeId;
use crate::intern::types::checked_type_word;
use crate::tables::Tables;
use hv_syntax::{TypeText, TypedText};

// The fault of the type of a name, and the type where it is written. Another type is looked at
// before all.
fn checked_type<'s>(
    tables: &Tables<'s>,
    side: Side,
    other: Option<TypeId>,
    of: TypeText<'s>,
) -> Checked<Option<TypeId>>
    ensures { result.fault ≡ least (type_faults (known_by tables.now) side (type_view of.entry)) }
{
    match of {
        TypeText::Object => Checked::new(None, None),
        TypeText::Named(word) => {
            let checked = checked_type_word(tables, side, other, word);
            Checked::new(Some(checked.value), checked.fault)
        }
    }
}

/// The first fault among the types of a typed list of names.
pub(crate) fn typed_fault<'s>(
    tables: &Tables<'s>,
    side: Side,
    list: &[TypedText<'s>],
) -> Option<StaticFault>
    ensures { result ≡ least (typed_faults (known_by tables.now) side (map typed_view list.now)) }
{
    let mut found = None;
    let mut last = None;
    for typed in list {
        let checked = checked_type(tables, side, last, typed.of());
        found = earlier(found, checked.fault);
        last = checked.value;
    }
    found
}
