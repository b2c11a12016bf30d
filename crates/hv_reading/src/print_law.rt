//! What is printed is read back. These functions do nothing: their contracts are the laws.

ghost use Rattle.std.specs.Prelude.{◌≡◌, ◌≤◌, ℕ, List, Some, Ok, length, map};
ghost use Rattle.hv_text.specs.Trees.{Tree, Trees, none, more};
ghost use Rattle.hv_text.specs.Words.{pieces};
ghost use Rattle.hv_text.specs.Sexps.{spelled, AreExpressions};
ghost use Rattle.hv_text.specs.Shapes.{bare_piece, bare_trees, IsTidy};
ghost use Rattle.hv_text.specs.declared.fault.TheConstants.{MOST_BYTES};
ghost use Rattle.hv_syntax.specs.Values.{Formula, Effect, Domain, Problem};
ghost use Rattle.hv_reading.specs.inside.Formulas.{formula_of};
ghost use Rattle.hv_reading.specs.inside.Effects.{effect_of};
ghost use Rattle.hv_reading.specs.inside.Domains.{domain_of};
ghost use Rattle.hv_reading.specs.inside.Problems.{problem_of};
ghost use Rattle.hv_reading.specs.Texts.{IsDomainText, IsProblemText};
ghost use Rattle.hv_reading.specs.CanonicalSections.{domain_expression, problem_expression};
ghost use Rattle.hv_reading.specs.CanonicalSections.{canonical_domain, canonical_problem};
ghost use Rattle.hv_reading.specs.Canonical.{text, formula_expression, effect_expression};
ghost use Rattle.hv_reading.specs.Bare.{bare_formula, bare_effect, bare_domain, bare_problem};
ghost use Rattle.hv_reading.specs.ReadBack.{IsReadBack};

use hv_text::{a_text_has_one_reading, expressions_are_tidy, texts_have_what_they_spell};

/// The canonical expression of a formula that is read from some expression is read as that formula,
/// places aside.
pub fn formulas_are_read_again()
    ensures { (e : Tree) (f : Formula) → formula_of e ≡ Some f → formula_of (formula_expression f)
        ≡ Some (bare_formula f) }
{}

/// The canonical expression of an effect that is read from some expression is read as that effect,
/// places aside.
pub fn effects_are_read_again()
    ensures { (e : Tree) (f : Effect) → effect_of e ≡ Some f → effect_of (effect_expression f)
        ≡ Some (bare_effect f) }
{}

/// The canonical expression of a domain that is read from some text's expressions is read as that
/// domain, places aside.
pub fn domains_are_read_again()
    ensures { (ts : Trees) (d : Domain) → domain_of ts ≡ Ok d →
        domain_of (more (domain_expression d) none) ≡ Ok (bare_domain d) }
{}

/// The canonical expression of a problem that is read from some text's expressions is read as that
/// problem, places aside.
pub fn problems_are_read_again()
    ensures { (ts : Trees) (p : Problem) → problem_of ts ≡ Ok p →
        problem_of (more (problem_expression p) none) ≡ Ok (bare_problem p) }
{}

/// Where some expressions are read as a domain, those that differ from them in places alone are
/// read as the same domain, places aside.
pub fn domains_are_read_wherever_they_stand()
    ensures { (us vs : Trees) (d : Domain) → bare_trees us ≡ bare_trees vs → domain_of vs ≡ Ok d →
        (e : Domain) × (domain_of us ≡ Ok e) × (bare_domain e ≡ bare_domain d) }
{}

/// Where some expressions are read as a problem, those that differ from them in places alone are
/// read as the same problem, places aside.
pub fn problems_are_read_wherever_they_stand()
    ensures { (us vs : Trees) (p : Problem) → bare_trees us ≡ bare_trees vs → problem_of vs ≡ Ok p →
        (q : Problem) × (problem_of us ≡ Ok q) × (bare_problem q ≡ bare_problem p) }
{}

/// Domains that are the same, places aside, have the same canonical text.
pub fn domains_are_printed_alike()
    ensures { (d e : Domain) → bare_domain d ≡ bare_domain e → canonical_domain d
        ≡ canonical_domain e }
{}

/// Problems that are the same, places aside, have the same canonical text.
pub fn problems_are_printed_alike()
    ensures { (p q : Problem) → bare_problem p ≡ bare_problem q → canonical_problem p
        ≡ canonical_problem q }
{}

/// What stands in the text of an expression is what the expression spells, places aside.
pub fn texts_have_the_words_of_their_expressions()
    ensures { (e : Tree) → IsTidy e → map bare_piece (pieces (text e))
        ≡ map bare_piece (spelled e) }
{}

/// Where a text says a domain, the canonical text of that domain has its canonical expression
/// alone, places aside, if it is within the limit of texts. Its parentheses are never too many:
/// formulas nest as deep as in that text, all else at most five.
pub fn domain_texts_have_their_expression()
    ensures { (text : List ℕ) (d : Domain) → IsDomainText text d →
        length (canonical_domain d) ≤ MOST_BYTES → (ts : Trees)
        × AreExpressions (canonical_domain d) ts
        × (bare_trees ts ≡ bare_trees (more (domain_expression d) none)) }
{
    expressions_are_tidy();
    texts_have_what_they_spell();
}

/// Where a text says a problem, the canonical text of that problem has its canonical expression
/// alone, places aside, if it is within the limit of texts. Its parentheses are never too many:
/// formulas nest as deep as in that text, all else at most five.
pub fn problem_texts_have_their_expression()
    ensures { (text : List ℕ) (p : Problem) → IsProblemText text p →
        length (canonical_problem p) ≤ MOST_BYTES → (ts : Trees)
        × AreExpressions (canonical_problem p) ts
        × (bare_trees ts ≡ bare_trees (more (problem_expression p) none)) }
{
    expressions_are_tidy();
    texts_have_what_they_spell();
}

/// Where a text says a domain, the canonical text of that domain says it too, places aside, if it
/// is within the limit of texts; and it says no other.
pub fn domain_texts_are_read_back()
    ensures some { (text : List ℕ) (d : Domain) → IsDomainText text d →
        IsReadBack IsDomainText bare_domain (canonical_domain d) d }
    ensures only { (text : List ℕ) (d e : Domain) → IsDomainText text d →
        IsDomainText (canonical_domain d) e → bare_domain e ≡ bare_domain d }
{
    expressions_are_tidy();
    texts_have_what_they_spell();
    a_text_has_one_reading();
}

/// Where a text says a domain, what the canonical text of that domain says is printed again as the
/// same bytes.
pub fn domain_texts_are_printed_again()
    ensures { (text : List ℕ) (d e : Domain) → IsDomainText text d →
        IsDomainText (canonical_domain d) e → canonical_domain e ≡ canonical_domain d }
{
    expressions_are_tidy();
    texts_have_what_they_spell();
    a_text_has_one_reading();
}

/// Where a text says a problem, the canonical text of that problem says it too, places aside, if it
/// is within the limit of texts; and it says no other.
pub fn problem_texts_are_read_back()
    ensures some { (text : List ℕ) (p : Problem) → IsProblemText text p →
        IsReadBack IsProblemText bare_problem (canonical_problem p) p }
    ensures only { (text : List ℕ) (p q : Problem) → IsProblemText text p →
        IsProblemText (canonical_problem p) q → bare_problem q ≡ bare_problem p }
{
    expressions_are_tidy();
    texts_have_what_they_spell();
    a_text_has_one_reading();
}

/// Where a text says a problem, what the canonical text of that problem says is printed again as
/// the same bytes.
pub fn problem_texts_are_printed_again()
    ensures { (text : List ℕ) (p q : Problem) → IsProblemText text p →
        IsProblemText (canonical_problem p) q → canonical_problem q ≡ canonical_problem p }
{
    expressions_are_tidy();
    texts_have_what_they_spell();
    a_text_has_one_reading();
}
