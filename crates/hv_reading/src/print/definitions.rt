//! Domains and problems, a section on each line.

ghost use Rattle.std.specs.Prelude.{◌≡◌, ◌++◌, ◌∷◌, [], map, option_map, OnOk, codes};
ghost use Rattle.hv_text.specs.Trees.{none, more};
ghost use Rattle.hv_reading.specs.Canonical.{form, each, word_expression, typed_members};
ghost use Rattle.hv_reading.specs.Canonical.{literal_expression};
ghost use Rattle.hv_reading.specs.CanonicalSections.{predicate_expression, unless_empty};
ghost use Rattle.hv_reading.specs.CanonicalSections.{htn_section, goal_section, lines};
ghost use Rattle.hv_reading.specs.CanonicalSections.{canonical_domain, canonical_problem};
ghost use Rattle.hv_syntax.specs.Views.{word_view, typed_view, formula_view};
ghost use Rattle.hv_syntax.specs.DeclarationViews.{predicate_view};
ghost use Rattle.hv_syntax.specs.DomainViews.{domain_view};
ghost use Rattle.hv_syntax.specs.ProblemViews.{htn_view, problem_view, init_view};

use crate::print::declarations::{put_actions, put_htn, put_methods, put_predicates, put_tasks};
use crate::print::formulas::{put_formula, put_literals};
use crate::print::terms::{put_one_typed, put_spaced_typed, put_word, put_words};
use hv_syntax::{
    DomainText, FormulaText, HtnText, InitText, Placed, PredicateText, ProblemText, TypedText,
};
use hv_text::Memory;

// Puts the section of requirements on a line, where there are any.
fn put_requirements(out: &mut Vec<u8>, requirements: &[Placed<'_>]) -> Result<(), Memory>
    ensures { OnOk result (out.new.items ≡ out.old.items
        ++ lines (unless_empty (codes ":requirements")
        (each word_expression (map word_view requirements.now)))) }
{
    match requirements {
        [] => Ok(()),
        [_, ..] => {
            out.extend_from_slice(b"(:requirements")?;
            put_words(out, requirements)?;
            out.extend_from_slice(b")\n")?;
            Ok(())
        }
    }
}

// Puts the section of a typed list on a line, where the list has members.
fn put_typed_section(
    out: &mut Vec<u8>,
    keyword: &[u8],
    list: &[TypedText<'_>],
) -> Result<(), Memory>
    ensures { OnOk result (out.new.items ≡ out.old.items
        ++ lines (unless_empty keyword.now (typed_members (map typed_view list.now)))) }
{
    match list {
        [] => Ok(()),
        [first, others @ ..] => {
            out.push(b'(')?;
            out.extend_from_slice(keyword)?;
            out.push(b' ')?;
            put_one_typed(out, *first)?;
            put_spaced_typed(out, others)?;
            out.extend_from_slice(b")\n")?;
            Ok(())
        }
    }
}

// Puts the section of predicates on a line, where there are any.
fn put_predicate_section(out: &mut Vec<u8>, predicates: &[PredicateText<'_>]) -> Result<(), Memory>
    ensures { OnOk result (out.new.items ≡ out.old.items
        ++ lines (unless_empty (codes ":predicates")
        (each predicate_expression (map predicate_view predicates.now)))) }
{
    match predicates {
        [] => Ok(()),
        [_, ..] => {
            out.extend_from_slice(b"(:predicates")?;
            put_predicates(out, predicates)?;
            out.extend_from_slice(b")\n")?;
            Ok(())
        }
    }
}

// Puts the section of the domain's name on a line.
fn put_domain_name(out: &mut Vec<u8>, name: Placed<'_>) -> Result<(), Memory>
    ensures { OnOk result (out.new.items ≡ out.old.items
        ++ lines (form (codes ":domain") (more (word_expression (word_view name.entry)) none)
        ∷ [])) }
{
    out.extend_from_slice(b"(:domain ")?;
    put_word(out, name)?;
    out.extend_from_slice(b")\n")?;
    Ok(())
}

// Puts the section of the initial network on a line.
fn put_htn_section(out: &mut Vec<u8>, htn: &HtnText<'_>) -> Result<(), Memory>
    ensures { OnOk result (out.new.items ≡ out.old.items
        ++ lines (htn_section (htn_view htn.now) ∷ [])) }
{
    put_htn(out, htn)?;
    out.push(b'\n')?;
    Ok(())
}

// Puts the section of the initial state on a line.
fn put_init(out: &mut Vec<u8>, init: &InitText<'_>) -> Result<(), Memory>
    ensures { OnOk result (out.new.items ≡ out.old.items
        ++ lines (form (codes ":init") (each literal_expression (init_view init.now))
        ∷ [])) }
{
    out.extend_from_slice(b"(:init")?;
    put_literals(out, init)?;
    out.extend_from_slice(b")\n")?;
    Ok(())
}

// Puts the section of the goal on a line, where there is one.
fn put_goal(out: &mut Vec<u8>, goal: Option<&FormulaText<'_>>) -> Result<(), Memory>
    ensures { OnOk result (out.new.items ≡ out.old.items
        ++ lines (goal_section (option_map (λ g. formula_view g.now) goal.entry))) }
{
    match goal {
        None => Ok(()),
        Some(formula) => {
            out.extend_from_slice(b"(:goal ")?;
            put_formula(out, formula)?;
            out.extend_from_slice(b")\n")?;
            Ok(())
        }
    }
}

/// Puts a domain.
///
/// # Errors
///
/// `Memory` where a growth was refused.
pub(crate) fn put_domain(out: &mut Vec<u8>, domain: &DomainText<'_>) -> Result<(), Memory>
    ensures { OnOk result (out.new.items ≡ out.old.items
        ++ canonical_domain (domain_view domain.now)) }
{
    out.extend_from_slice(b"(define (domain ")?;
    put_word(out, domain.name())?;
    out.extend_from_slice(b")\n")?;
    put_requirements(out, domain.requirements())?;
    put_typed_section(out, b":types", domain.types())?;
    put_typed_section(out, b":constants", domain.constants())?;
    put_predicate_section(out, domain.predicates())?;
    put_tasks(out, domain.tasks())?;
    put_methods(out, domain.methods())?;
    put_actions(out, domain.actions())?;
    out.extend_from_slice(b")\n")?;
    Ok(())
}

/// Puts a problem.
///
/// # Errors
///
/// `Memory` where a growth was refused.
pub(crate) fn put_problem(out: &mut Vec<u8>, problem: &ProblemText<'_>) -> Result<(), Memory>
    ensures { OnOk result (out.new.items ≡ out.old.items
        ++ canonical_problem (problem_view problem.now)) }
{
    out.extend_from_slice(b"(define (problem ")?;
    put_word(out, problem.name())?;
    out.extend_from_slice(b")\n")?;
    put_domain_name(out, problem.domain())?;
    put_requirements(out, problem.requirements())?;
    put_typed_section(out, b":objects", problem.objects())?;
    put_htn_section(out, problem.htn())?;
    put_init(out, problem.init())?;
    put_goal(out, problem.goal())?;
    out.extend_from_slice(b")\n")?;
    Ok(())
}
