//! What holds of every answer. A function only cites the laws that it stands on: its contract is
//! the law.

ghost use Rattle.hv_judge.specs.Answers.{OneVerdictLaw, OneAnswerLaw, VerdictOfAnswerLaw};
ghost use Rattle.hv_judge.specs.Answers.{SolvesLaw, FailsLaw};
ghost use Rattle.hv_judge.specs.Answers.{CertifiedLaw, ExplainedLaw, OneRecheckLaw, ExplainedAgainLaw};
ghost use Rattle.hv_judge.specs.Answers.{ValuesOrRejectionLaw, NeverBothLaw};
ghost use Rattle.hv_judge.specs.Answers.{OneSpellingLaw, OneRejectionLaw};

use hv_certificate::certificates_are_their_texts;
use hv_match::counts_are_one;
use hv_order::certified_plans::certified_plans_are_solved;
use hv_plan::{a_plan_has_one_tree, a_plan_or_a_fault, a_tree_or_a_cause};
use hv_reading::{a_domain_or_a_fault, a_problem_or_a_fault, a_text_says_one_thing};
use hv_world::a_world_or_a_fault;

/// Three texts and a limit have one verdict: the same text is rejected, for the same fault at the
/// same place, or the same is said of the plan, with the same cause and line. Whatever the judge
/// may answer for them, its verdict is this one. Only the certificate of a plan that solves its
/// problem is left open: several may be right.
pub fn one_answer()
    ensures verdict { OneVerdictLaw }
    ensures answer { OneAnswerLaw }
    ensures of_answer { VerdictOfAnswerLaw }
{
    a_text_says_one_thing();
    a_domain_or_a_fault();
    a_problem_or_a_fault();
    a_world_or_a_fault();
    a_plan_or_a_fault();
    a_plan_has_one_tree();
    a_tree_or_a_cause();
    counts_are_one();
    certified_plans_are_solved();
}

/// A plan that is said to solve its problem is a solution of it, and one that is said to
/// fail is none, whatever the cause: the three texts spell a domain, a problem and a plan of
/// which that holds.
pub fn a_solution_or_none()
    ensures solves { SolvesLaw }
    ensures fails { FailsLaw }
{
    a_plan_has_one_tree();
    a_tree_or_a_cause();
    counts_are_one();
    certified_plans_are_solved();
}

/// A plan for which a certificate is said to be right is a solution. What is written of a plan that
/// solves its problem, with its certificate, is the text of that certificate.
pub fn a_certificate_of_a_solution()
    ensures certified { CertifiedLaw }
    ensures explained { ExplainedLaw }
{
    a_plan_has_one_tree();
    a_tree_or_a_cause();
    counts_are_one();
    certified_plans_are_solved();
}

/// Any three texts spell a domain, a problem and a plan that are judged, or one of them is
/// rejected, and never both: what they spell is one domain, one problem and one plan, and a
/// rejection is of one text for one fault.
pub fn values_or_a_rejection()
    ensures some { ValuesOrRejectionLaw }
    ensures never_both { NeverBothLaw }
    ensures one_values { OneSpellingLaw }
    ensures one_fault { OneRejectionLaw }
{
    a_text_says_one_thing();
    a_domain_or_a_fault();
    a_problem_or_a_fault();
    a_world_or_a_fault();
    a_plan_or_a_fault();
}

/// Four texts have one answer, whether the certificate is right: what it says of a plan hangs on
/// its text alone. The text that is written of a plan that solves its problem, with its
/// certificate, is answered with a yes.
pub fn one_recheck()
    ensures one { OneRecheckLaw }
    ensures explained { ExplainedAgainLaw }
{
    certificates_are_their_texts();
    values_or_a_rejection();
}
