//! Laws of the definitions. These functions do nothing: their contracts are the laws.

ghost use Rattle.std.specs.Prelude.{◌≡◌, ◌<◌, ℕ, length};
ghost use Rattle.hv_world.specs.Worlds.{World, Method};
ghost use Rattle.hv_plan.specs.PlanTrees.{PlanTree, IsTreeIn};
ghost use Rattle.hv_match.specs.Candidates.{IsNode};
ghost use Rattle.hv_match.specs.Counts.{IsCount};

/// There is one count of a method.
pub fn counts_are_one()
    ensures { (w : World) (m : Method) (j k : ℕ) → IsCount w m j → IsCount w m k → j ≡ k }
{}

/// Each number below the number of nodes is that of a node with a method, in a tree of the world.
pub fn nodes_have_methods()
    ensures { (w : World) (t : PlanTree) → IsTreeIn w t → (v : ℕ) → v < length t.nodes
        → IsNode w t v }
{}
