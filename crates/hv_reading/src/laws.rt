//! What holds of the grammar. These functions do nothing: their contracts are the laws.

ghost use Rattle.std.specs.Prelude.{◌≡◌, ◌↔◌, ◌⊎◌, ℕ, true, List, Option, Some, Ok, Err};
ghost use Rattle.hv_text.specs.Bytes.{lower};
ghost use Rattle.hv_text.specs.Sexps.{AreExpressions};
ghost use Rattle.hv_text.specs.Trees.{Tree, Trees};
ghost use Rattle.hv_syntax.specs.Values.{Term, Atom, Typed, Variable, Formula, Literal, Effect};
ghost use Rattle.hv_syntax.specs.Values.{Subtask, Pair, Constraint, Domain, Problem};
ghost use Rattle.hv_reading.specs.inside.Terms.{term_of, atom_of};
ghost use Rattle.hv_reading.specs.inside.TypedLists.{typed_list_of, typed_variables_of};
ghost use Rattle.hv_reading.specs.inside.Formulas.{formula_of};
ghost use Rattle.hv_reading.specs.inside.Lists.{listed};
ghost use Rattle.hv_reading.specs.inside.Literals.{literal_of};
ghost use Rattle.hv_reading.specs.inside.Effects.{effect_of};
ghost use Rattle.hv_reading.specs.inside.Networks.{subtask_of, pair_of, constraint_of};
ghost use Rattle.hv_reading.specs.inside.Domains.{domain_of};
ghost use Rattle.hv_reading.specs.inside.Problems.{problem_of};
ghost use Rattle.hv_reading.specs.Tables.{IsDomain, IsProblem};
ghost use Rattle.hv_reading.specs.declared.field.Slot.{Slot};
ghost use Rattle.hv_reading.specs.Fields.{is_field_list};
ghost use Rattle.hv_reading.specs.Declarations.{is_nothing};
ghost use Rattle.hv_reading.specs.FieldPairs.{IsOfFields, AreFound, SaysNothing};
ghost use Rattle.hv_reading.specs.BySections.{IsDomainBySections, IsProblemBySections};
ghost use Rattle.hv_text.specs.declared.span.Span.{Span};
ghost use Rattle.hv_reading.specs.declared.fault.SyntaxKind.{SyntaxKind};
ghost use Rattle.hv_reading.specs.FirstFaults.{IsFaultyDomain, IsFaultyProblem};
ghost use Rattle.hv_reading.specs.Texts.{IsDomainText, IsDomainFault, IsProblemText, IsProblemFault};
ghost use Rattle.hv_reading.specs.Texts.{IsOwnFaultBy, SaysSome, HasFaultBy};
ghost use Rattle.hv_reading.specs.Spellings.{SpellsTerm, SpellsAtom, SpellsTyped};
ghost use Rattle.hv_reading.specs.Spellings.{SpellsTypedVariables, SpellsFormula, SpellsLiteral};
ghost use Rattle.hv_reading.specs.Spellings.{SpellsEffect, SpellsList, SpellsSubtask, SpellsPair};
ghost use Rattle.hv_reading.specs.Spellings.{SpellsConstraint};

use hv_text::{a_text_has_one_reading, expressions_or_one_fault};

/// Terms, and atoms and tasks over them, are read exactly where the table of the
/// grammar spells them.
pub fn atoms_are_spelled()
    ensures terms { (t : Tree) (x : Term) → SpellsTerm t x ↔ (term_of t ≡ Some x) }
    ensures atoms { (t : Tree) (a : Atom) → SpellsAtom t a ↔ (atom_of t ≡ Some a) }
{}

/// So are typed lists of names and of variables: the type behind a group is that of all its words.
pub fn typed_lists_are_spelled()
    ensures names { (ts : Trees) (xs : List Typed) → SpellsTyped ts xs
        ↔ (typed_list_of ts ≡ Some xs) }
    ensures variables { (ts : Trees) (xs : List Variable) → SpellsTypedVariables ts xs
        ↔ (typed_variables_of ts ≡ Some xs) }
{}

/// So are formulas.
pub fn formulas_are_spelled()
    ensures { (t : Tree) (f : Formula) → SpellsFormula t f ↔ (formula_of t ≡ Some f) }
{}

/// So are literals and effects.
pub fn effects_are_spelled()
    ensures literals { (t : Tree) (l : Literal) → SpellsLiteral t l ↔ (literal_of t ≡ Some l) }
    ensures effects { (t : Tree) (e : Effect) → SpellsEffect t e ↔ (effect_of t ≡ Some e) }
{}

/// So are the subtasks, the ordering and the constraints of a network.
pub fn networks_are_spelled()
    ensures subtasks { (t : Tree) (xs : List Subtask) → SpellsList SpellsSubtask t xs
        ↔ (listed subtask_of t ≡ Some xs) }
    ensures ordering { (t : Tree) (ps : List Pair) → SpellsList SpellsPair t ps
        ↔ (listed pair_of t ≡ Some ps) }
    ensures constraints { (t : Tree) (cs : List Constraint) → SpellsList SpellsConstraint t cs
        ↔ (listed constraint_of t ≡ Some cs) }
{}

/// So are whole domains and problems: each section as the table has it, those that may stand once
/// no more than once, and those that must stand among them.
pub fn texts_are_spelled()
    ensures domains { (es : Trees) (d : Domain) → IsDomain es d ↔ (domain_of es ≡ Ok d) }
    ensures problems { (es : Trees) (p : Problem) → IsProblem es p ↔ (problem_of es ≡ Ok p) }
{}

/// Each section stands by itself, no head that may stand once heads two of them, and a domain or a
/// problem is what its sections say: the table of whole texts, with no word of what stands before.
pub fn sections_stand_once()
    ensures domains { (es : Trees) (d : Domain) → IsDomain es d ↔ IsDomainBySections es d }
    ensures problems { (es : Trees) (p : Problem) → IsProblem es p ↔ IsProblemBySections es p }
{}

/// A list of fields is pairs of a keyword and an expression, no field twice, a field is found
/// exactly where it is one of the pairs, and it says nothing where it is absent, `()` or `(and)`.
pub fn fields_are_pairs()
    ensures lists { (a : List Slot) (ts : Trees) → (is_field_list a ts ≡ true) ↔ IsOfFields a ts }
    ensures found { (a : List Slot) (ts : Trees) → AreFound a ts }
    ensures nothing { (o : Option Tree) → (is_nothing o ≡ true) ↔ SaysNothing o }
{}

/// A text says at most one domain and at most one problem, and the expressions of a text at most
/// one of each.
pub fn a_text_says_one_thing()
    ensures domain { (es : Trees) (d e : Domain) → IsDomain es d → IsDomain es e → d ≡ e }
    ensures problem { (es : Trees) (p q : Problem) → IsProblem es p → IsProblem es q → p ≡ q }
    ensures domain_text { (text : List ℕ) (d e : Domain) → IsDomainText text d →
        IsDomainText text e → d ≡ e }
    ensures problem_text { (text : List ℕ) (p q : Problem) → IsProblemText text p →
        IsProblemText text q → p ≡ q }
{
    a_text_has_one_reading();
}

/// The fault that is reported is the one of the table: what stands around the sections, then
/// the first faulty section by its head, by its standing a second time and by its shape, then
/// a missing one.
pub fn faults_are_first()
    ensures domains { (es : Trees) (kind : SyntaxKind) (s : Span) → IsFaultyDomain es kind s
        ↔ (domain_of es ≡ Err (kind, s)) }
    ensures problems { (es : Trees) (kind : SyntaxKind) (s : Span) → IsFaultyProblem es kind s
        ↔ (problem_of es ≡ Err (kind, s)) }
{}

/// Expressions are a domain or have one fault as one, and never both; and so as a problem.
pub fn a_value_or_a_fault()
    ensures domain { (es : Trees) → ((d : Domain) × IsDomain es d)
        ⊎ ((f : SyntaxKind × Span) × IsFaultyDomain es f.0 f.1) }
    ensures no_faulty_domain { (es : Trees) (d : Domain) (kind : SyntaxKind) (s : Span) →
        IsDomain es d → IsFaultyDomain es kind s → ⊥ }
    ensures one_domain_fault { (es : Trees) (k l : SyntaxKind) (s p : Span) →
        IsFaultyDomain es k s → IsFaultyDomain es l p → (k ≡ l) × (s ≡ p) }
    ensures problem { (es : Trees) → ((p : Problem) × IsProblem es p)
        ⊎ ((f : SyntaxKind × Span) × IsFaultyProblem es f.0 f.1) }
    ensures no_faulty_problem { (es : Trees) (p : Problem) (kind : SyntaxKind) (s : Span) →
        IsProblem es p → IsFaultyProblem es kind s → ⊥ }
    ensures one_problem_fault { (es : Trees) (k l : SyntaxKind) (s p : Span) →
        IsFaultyProblem es k s → IsFaultyProblem es l p → (k ≡ l) × (s ≡ p) }
{}

/// A text says a domain or has one fault of its own as one, never both.
pub fn a_domain_or_a_fault()
    ensures some { (text : List ℕ) → SaysSome IsDomainText text ⊎ HasFaultBy IsDomainFault text }
    ensures never_both { (text : List ℕ) (d : Domain) (k : SyntaxKind) (s : Span) →
        IsDomainText text d → IsOwnFaultBy IsDomainFault text k s → ⊥ }
    ensures one { (text : List ℕ) (k l : SyntaxKind) (s p : Span) →
        IsOwnFaultBy IsDomainFault text k s → IsOwnFaultBy IsDomainFault text l p → (k ≡ l)
        × (s ≡ p) }
{
    a_text_has_one_reading();
    expressions_or_one_fault();
}

/// So is it with problems.
pub fn a_problem_or_a_fault()
    ensures some { (text : List ℕ) → SaysSome IsProblemText text ⊎ HasFaultBy IsProblemFault text }
    ensures never_both { (text : List ℕ) (p : Problem) (k : SyntaxKind) (s : Span) →
        IsProblemText text p → IsOwnFaultBy IsProblemFault text k s → ⊥ }
    ensures one { (text : List ℕ) (k l : SyntaxKind) (s p : Span) →
        IsOwnFaultBy IsProblemFault text k s → IsOwnFaultBy IsProblemFault text l p → (k ≡ l)
        × (s ≡ p) }
{
    a_text_has_one_reading();
    expressions_or_one_fault();
}

/// Letter case decides nothing: a text whose lower case is that of another has the same expressions
/// at the same places, says the same, and has the same fault.
pub fn letter_case_decides_nothing()
    ensures expressions { (text other : List ℕ) (ts : Trees) → lower text ≡ lower other →
        AreExpressions text ts → AreExpressions other ts }
    ensures domain { (text other : List ℕ) (d : Domain) → lower text ≡ lower other →
        IsDomainText text d → IsDomainText other d }
    ensures problem { (text other : List ℕ) (p : Problem) → lower text ≡ lower other →
        IsProblemText text p → IsProblemText other p }
    ensures domain_fault { (text other : List ℕ) (kind : SyntaxKind) (s : Span) → lower text
        ≡ lower other → IsDomainFault text kind s → IsDomainFault other kind s }
    ensures problem_fault { (text other : List ℕ) (kind : SyntaxKind) (s : Span) → lower text
        ≡ lower other → IsProblemFault text kind s → IsProblemFault other kind s }
{}
