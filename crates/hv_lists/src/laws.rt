//! What the words on lists say, a second time.

ghost use Rattle.std.specs.Prelude.{◌∷◌, ◌↔◌, [], ℕ, List, Contains};
ghost use Rattle.hv_lists.specs.Lists.{Once};

/// Each stands once in a list of none, and in a longer one exactly where the first does not stand
/// behind itself, and each of the others stands once. This function does nothing: its contract is
/// the law.
pub fn once_by_cases()
    ensures none { Once {X = ℕ} [] }
    ensures more { (x : ℕ) (xs : List ℕ) → Once (x ∷ xs) ↔ ((Contains xs x → ⊥) × Once xs) }
{}
