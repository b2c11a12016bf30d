//! What is read of a plan is what the table of its lines spells; and its lines form a tree or have
//! a cause.

ghost use Rattle.hv_text.specs.declared.fault.TheConstants.{MOST_BYTES};
ghost use Rattle.std.specs.Prelude.{◌≡◌, ◌↔◌, ◌⊎◌, ◌<◌, ◌≤◌, ◌+◌, ℕ, List, Contains, Some, false, length, IsSome};
ghost use Rattle.hv_text.specs.Words.{Piece};
ghost use Rattle.hv_plan.specs.Values.{Decomposition, Plan};
ghost use Rattle.hv_plan.specs.Lines.{NumberedLine};
ghost use Rattle.hv_plan.specs.Forms.{Form, form_of};
ghost use Rattle.hv_plan.specs.Plans.{IsBody, fault_from};
ghost use Rattle.hv_plan.specs.Spellings.{SpellsForm, SayPlan, IsFirstFault, IsPlan, IsPlanFault};
ghost use Rattle.hv_plan.specs.Canonical.{plan_text};
ghost use Rattle.hv_plan.specs.Bare.{bare_plan};
ghost use Rattle.hv_world.specs.Bounds.{IsSound};
ghost use Rattle.hv_world.specs.Worlds.{World};
ghost use Rattle.hv_plan.specs.Shapes.{FormTree, IsInTextOrder};
ghost use Rattle.hv_plan.specs.Fits.{FitWorld};
ghost use Rattle.hv_plan.specs.Causes.{IsCause, Qualifies};
ghost use Rattle.hv_plan.specs.PlanTrees.{PlanTree, children_at, IsNodeOf, IsTreeOf, NodeIs};
ghost use Rattle.hv_plan.specs.Trees.{Task};
ghost use Rattle.hv_plan.specs.declared.cause.Cause.{Cause};
ghost use Rattle.hv_plan.specs.declared.cause.CauseKind.{CauseKind};
ghost use Rattle.hv_plan.specs.declared.fault.PlanFault.{PlanFault};
ghost use Rattle.hv_plan.specs.declared.fault.PlanFault.TheVariants as faults;

use hv_world::types_are_decided;

/// A line is read where the table spells it.
pub fn forms_are_spelled()
    ensures { (n : ℕ) (ps : List Piece) (f : Form) → SpellsForm n ps f ↔ (form_of n ps ≡ Some f) }
{}

/// Lines hold a plan where each says a form and one of them is the root; else the first that says
/// none, or is a second root, is the fault.
pub fn plans_are_spelled()
    ensures plan { (ls : List NumberedLine) (p : Plan) → SayPlan ls p ↔ IsBody ls p }
    ensures fault { (ls : List NumberedLine) (e : PlanFault)
        → IsFirstFault ls e ↔ (fault_from false ls ≡ Some e) }
{}

/// A text holds a plan or has a fault, one alone and never both, want of memory aside.
pub fn a_plan_or_a_fault()
    ensures some { (text : List ℕ) → ((p : Plan) × IsPlan text p)
        ⊎ ((f : PlanFault) × (f ≡ faults.Memory → ⊥) × IsPlanFault text f) }
    ensures one_fault { (text : List ℕ) (f g : PlanFault) → IsPlanFault text f → IsPlanFault text g
        → (f ≡ faults.Memory → ⊥) → (g ≡ faults.Memory → ⊥) → f ≡ g }
    ensures one_plan { (text : List ℕ) (p q : Plan) → IsPlan text p → IsPlan text q → p ≡ q }
    ensures faultless { (text : List ℕ) (p : Plan) (f : PlanFault) → IsPlan text p
        → IsPlanFault text f → f ≡ faults.Memory }
{}

/// The canonical text of a plan that a text holds, where it is within the size limit, holds that
/// plan, the numbers of its lines aside; and what it holds is printed alike.
pub fn plans_are_read_back()
    ensures back { (text : List ℕ) (p : Plan) → IsPlan text p → length (plan_text p) ≤ MOST_BYTES
        → (q : Plan) × IsPlan (plan_text p) q × (bare_plan q ≡ bare_plan p) }
    ensures again { (text : List ℕ) (p q : Plan) → IsPlan text p → IsPlan (plan_text p) q
        → plan_text q ≡ plan_text p }
{}

/// A plan whose lines form a tree has one tree in a world: no two differ in their nodes or in the
/// numbers of these.
pub fn a_plan_has_one_tree()
    ensures { (w : World) (p : Plan) (t u : PlanTree) → FormTree p → IsTreeOf w p t → IsTreeOf w p u
        → t ≡ u }
{}

/// Each node of a tree below that of the root line is the node of a decomposition line, so a child
/// that is a node has a task.
pub fn nodes_are_lines()
    ensures lines { (w : World) (p : Plan) (t : PlanTree) → IsTreeOf w p t → (v : ℕ)
        → v + 1 < length t.nodes → (d : Decomposition) × Contains p.decompositions d
        × NodeIs t (IsNodeOf w t d) v }
    ensures tasks { (w : World) (p : Plan) (t : PlanTree) → IsTreeOf w p t → (v u : ℕ)
        → Contains (children_at t.nodes v) (Task u) → NodeIs t (λ n. IsSome n.task) u }
{}

/// The lines of a plan form a tree that fits a world, or there is a cause; one alone, and never
/// both. A cause is one cause at one line.
pub fn a_tree_or_a_cause()
    ensures some { (w : World) (p : Plan) → IsSound w → IsInTextOrder p
        → (FormTree p × FitWorld w p) ⊎ ((c : Cause) × IsCause w p c) }
    ensures no_cause { (w : World) (p : Plan) (k : CauseKind) (l : ℕ) → FormTree p → FitWorld w p
        → Qualifies w p k l → ⊥ }
    ensures one_cause { (w : World) (p : Plan) (c d : Cause) → IsCause w p c → IsCause w p d
        → c ≡ d }
{
    types_are_decided();
}

/// A plan has no more lines than its text has bytes, so 32 bits are enough for each place in it.
pub fn plans_are_small()
    ensures { (text : List ℕ) (p : Plan) → IsPlan text p
        → length p.actions + length p.decompositions ≤ length text }
{}
