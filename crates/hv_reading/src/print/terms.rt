//! Words, terms, atoms, and typed lists of names.

ghost use Rattle.std.specs.Prelude.{◌≡◌, ◌++◌, ◌∷◌, [], map, OnOk};
ghost use Rattle.hv_text.specs.Names.{text_of};
ghost use Rattle.hv_syntax.specs.Values.{type_name};
ghost use Rattle.hv_reading.specs.Canonical.{text, spaced, each, word_expression, term_expression};
ghost use Rattle.hv_reading.specs.Canonical.{atom_expression, typed_members};
ghost use Rattle.hv_syntax.specs.Views.{word_view, term_view, lent_atom_view, type_view};
ghost use Rattle.hv_syntax.specs.Views.{typed_view};

use hv_syntax::{LentAtom, Placed, TermText, TypeText, TypedText};
use hv_text::{Memory, Name};

// Puts a name in lower case.
fn put_name(out: &mut Vec<u8>, name: Name<'_>) -> Result<(), Memory>
    ensures { OnOk result (out.new.items ≡ out.old.items ++ text_of name.entry) }
{
    for b in name.written() {
        out.push(b.to_ascii_lowercase())?;
    }
    Ok(())
}

/// Puts a word in lower case.
///
/// # Errors
///
/// `Memory` where a growth was refused.
pub(crate) fn put_word(out: &mut Vec<u8>, word: Placed<'_>) -> Result<(), Memory>
    ensures { OnOk result (out.new.items ≡ out.old.items ++ (word_view word.entry).text) }
{
    put_name(out, word.name())
}

/// Puts words, a space before each.
///
/// # Errors
///
/// `Memory` where a growth was refused.
pub(crate) fn put_words(out: &mut Vec<u8>, words: &[Placed<'_>]) -> Result<(), Memory>
    ensures { OnOk result (out.new.items ≡ out.old.items
        ++ spaced (each word_expression (map word_view words.now))) }
{
    for word in words {
        out.push(b' ')?;
        put_word(out, *word)?;
    }
    Ok(())
}

/// Puts a term.
///
/// # Errors
///
/// `Memory` where a growth was refused.
pub(crate) fn put_term(out: &mut Vec<u8>, term: TermText<'_>) -> Result<(), Memory>
    ensures { OnOk result (out.new.items ≡ out.old.items
        ++ text (term_expression (term_view term.entry))) }
{
    match term {
        TermText::Constant(word) => put_word(out, word),
        TermText::Variable(word) => put_word(out, word),
    }
}

// Puts terms, a space before each.
fn put_terms(out: &mut Vec<u8>, terms: &[TermText<'_>]) -> Result<(), Memory>
    ensures { OnOk result (out.new.items ≡ out.old.items
        ++ spaced (each term_expression (map term_view terms.now))) }
{
    for term in terms {
        out.push(b' ')?;
        put_term(out, *term)?;
    }
    Ok(())
}

/// Puts an atom, or a task.
///
/// # Errors
///
/// `Memory` where a growth was refused.
pub(crate) fn put_atom(out: &mut Vec<u8>, atom: LentAtom<'_, '_>) -> Result<(), Memory>
    ensures { OnOk result (out.new.items ≡ out.old.items
        ++ text (atom_expression (lent_atom_view atom.entry))) }
{
    out.push(b'(')?;
    put_word(out, atom.symbol())?;
    put_terms(out, atom.terms())?;
    out.push(b')')?;
    Ok(())
}

// Puts the name of a type.
fn put_type(out: &mut Vec<u8>, of: TypeText<'_>) -> Result<(), Memory>
    ensures { OnOk result (out.new.items ≡ out.old.items ++ type_name (type_view of.entry)) }
{
    match of {
        TypeText::Object => {
            out.extend_from_slice(b"object")?;
            Ok(())
        }
        TypeText::Named(word) => put_word(out, word),
    }
}

/// Puts a name, a dash and its type.
///
/// # Errors
///
/// `Memory` where a growth was refused.
pub(crate) fn put_one_typed(out: &mut Vec<u8>, one: TypedText<'_>) -> Result<(), Memory>
    ensures { OnOk result (out.new.items ≡ out.old.items
        ++ ((typed_view one.entry).name.text ++ (32 ∷ 45 ∷ 32 ∷ [])
        ++ type_name (typed_view one.entry).of)) }
{
    put_word(out, one.name())?;
    out.extend_from_slice(b" - ")?;
    put_type(out, one.of())
}

/// Puts a typed list of names, each with its own type, and a space before each.
///
/// # Errors
///
/// `Memory` where a growth was refused.
pub(crate) fn put_spaced_typed(out: &mut Vec<u8>, list: &[TypedText<'_>]) -> Result<(), Memory>
    ensures { OnOk result (out.new.items ≡ out.old.items
        ++ spaced (typed_members (map typed_view list.now))) }
{
    for one in list {
        out.push(b' ')?;
        put_one_typed(out, *one)?;
    }
    Ok(())
}
