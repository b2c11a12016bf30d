//! Forms of the language that are not supported: conditional effects, numbers,
//! preferences and more.

ghost use Rattle.std.specs.Prelude.{◌≡◌, option_map};
ghost use Rattle.hv_text.specs.Names.{text_of};
ghost use Rattle.hv_text.specs.Trees.{tree, trees};
ghost use Rattle.hv_reading.specs.Unsupported.{heads_form, is_headed_form, holds_form, is_form_list};
ghost use Rattle.hv_reading.specs.Unsupported.{first, after_effect, holds_at, has_unsupported};

use crate::word::is_the_word;
use hv_text::{Name, Sexp};

/// A kind of form that may be unsupported.
#[derive(Clone, Copy)]
pub enum Form {
    /// Unsupported wherever it stands.
    Anywhere,
    /// Quantified by `forall`, in an effect that is not written as one.
    Quantified,
}

// Whether a list that this word heads is of this kind.
fn heads_form(form: Form, name: Name<'_>) -> bool
    ensures { result ≡ heads_form form (text_of name.entry) }
{
    match form {
        Form::Quantified => name.is(b"forall"),
        Form::Anywhere => {
            name.is(b"when")
                || name.is(b"either")
                || name.is(b"increase")
                || name.is(b"decrease")
                || name.is(b"assign")
                || name.is(b"scale-up")
                || name.is(b"scale-down")
                || name.is(b"preference")
                || name.is(b"sortof")
        }
    }
}

// Whether the list of these members is of this kind.
fn is_headed_form(form: Form, es: &[Sexp<'_>]) -> bool
    ensures { result ≡ is_headed_form form (trees es.now) }
{
    match es {
        [] => false,
        [head, ..] => match head {
            Sexp::Word(name, _) => heads_form(form, *name),
            Sexp::List(..) => false,
        },
    }
}

// Whether an expression is a list of this kind, or holds one.
#[cycle(forms)]
fn holds_form(form: Form, e: &Sexp<'_>) -> bool
    ensures { result ≡ holds_form form (tree e.now) }
{
    let Sexp::List(members, _) = e else {
        return false;
    };
    is_headed_form(form, members) || is_form_list(form, members)
}

// Whether one of these is a list of this kind, or holds one.
#[cycle(forms)]
fn is_form_list(form: Form, es: &[Sexp<'_>]) -> bool
    ensures { result ≡ is_form_list form (trees es.now) }
{
    for e in es {
        if holds_form(form, e) {
            return true;
        }
    }
    false
}

fn first<'a, 's>(es: &'a [Sexp<'s>]) -> Option<&'a Sexp<'s>>
    ensures { option_map (λ e. tree e.now) result ≡ first (trees es.now) }
{
    match es {
        [] => None,
        [e, ..] => Some(e),
    }
}

// The member after the first word `:effect`.
fn after_effect<'a, 's>(es: &'a [Sexp<'s>]) -> Option<&'a Sexp<'s>>
    ensures { option_map (λ e. tree e.now) result ≡ after_effect (trees es.now) }
{
    let mut rest = es;
    'members: while let [member, others @ ..] = rest {
        if is_the_word(member, b":effect") {
            return first(others);
        }
        rest = others;
    }
    None
}

fn holds_at(form: Form, e: Option<&Sexp<'_>>) -> bool
    ensures { result ≡ holds_at form (option_map (λ e. tree e.now) e.entry) }
{
    match e {
        None => false,
        Some(e) => holds_form(form, e),
    }
}

/// Whether a section with this head and these members behind it holds an unsupported form.
pub(crate) fn has_unsupported(head: Name<'_>, es: &[Sexp<'_>]) -> bool
    ensures { result ≡ has_unsupported (text_of head.entry) (trees es.now) }
{
    is_form_list(Form::Anywhere, es)
        || (head.is(b":action") && holds_at(Form::Quantified, after_effect(es)))
}
