//! Laws of the definitions. These functions do nothing: their contracts are the laws.

ghost use Rattle.std.specs.Prelude.{◌≡◌, ◌<◌, ◌↔◌, ◌⊎◌, ◌∷◌, ◌++◌, [], ℕ, List, true, Some, map, slice_get, IsPermutation};
ghost use Rattle.std.specs.List.{All, Contains};
ghost use Rattle.hv_syntax.specs.Values.{Variable, Network, Domain, Problem};
ghost use Rattle.hv_text.specs.declared.span.Span.{Span};
ghost use Rattle.hv_world.specs.declared.fault.StaticFault.{StaticFault};
ghost use Rattle.hv_world.specs.declared.fault.StaticKind.TheVariants as kinds;
ghost use Rattle.hv_world.specs.declared.fault.Side.{Side};
ghost use Rattle.hv_lists.specs.Lists.{Once};
ghost use Rattle.hv_world.specs.Bounds.{IsBound, IsSound};
ghost use Rattle.hv_world.specs.Faults.{fault_on};
ghost use Rattle.hv_world.specs.Known.{Declaration, Known, known_in, by_place, GoByPlace};
ghost use Rattle.hv_world.specs.Eithers.{all_variables};
ghost use Rattle.hv_world.specs.Names.{place_in, number_in};
ghost use Rattle.hv_world.specs.Values.{compound, primitive};
ghost use Rattle.hv_world.specs.Worlds.{World, Task, Action, world_of, task_named, variable_type};
ghost use Rattle.hv_world.specs.Networks.{IsArrangeable, written_by};
ghost use Rattle.hv_world.specs.Types.{Typing, IsInRange, Of, IsOfOne};
ghost use Rattle.hv_world.specs.Orders.{Written, IsCyclic, Before};
ghost use Rattle.hv_world.specs.StaticRules.{label_faults, order_faults, first_fault, IsStatic, IsFirstFault};
ghost use Rattle.hv_world.specs.Cycles.{is_cyclic};

/// The test for a cycle finds the orders in which some subtask comes before itself.
pub fn cycles_are_found()
    ensures { (n : Written) → All (λ p. (p.0 < n.len) × (p.1 < n.len)) n.pairs
        → (is_cyclic n ≡ true) ↔ IsCyclic n }
{}

/// A domain and a problem have no fault that is reported where they are static, and otherwise one,
/// which is one of theirs before which none stands.
pub fn a_world_or_a_fault()
    ensures none { (d : Domain) (p : Problem) → (first_fault d p ≡ None) ↔ IsStatic d p }
    ensures first { (d : Domain) (p : Problem) (f : StaticFault) → first_fault d p ≡ Some f
        → IsFirstFault d p f }
{}

/// The numbers of a static world are those of what it has.
pub fn static_worlds_are_bound()
    ensures { (d : Domain) (p : Problem) → IsStatic d p → IsBound (world_of d p) }
{}

/// A look-up of a name that stands once finds the number of the name; and so, in a sound world, of
/// the names of tasks and actions, which are looked up together.
pub fn names_are_found()
    ensures names { (ns : List (List ℕ)) → Once ns → (k : ℕ) (n : List ℕ) → slice_get ns k ≡ Some n
        → place_in ns n ≡ Some k }
    ensures tasks { (w : World) → IsSound w → (k : ℕ) (t : Task) → slice_get w.tasks k ≡ Some t
        → task_named w t.name ≡ Some (compound k) }
    ensures actions { (w : World) → IsSound w → (k : ℕ) (a : Action)
        → slice_get w.actions k ≡ Some a → task_named w a.name ≡ Some (primitive k) }
{}

/// The tasks and actions of a domain in one list are those of the two lists, and they go by the
/// places of their sections where those of each list do.
pub fn declarations_go_by_place()
    ensures members { (ds es : List Declaration) → IsPermutation (ds ++ es) (by_place ds es) }
    ensures order { (ds es : List Declaration) → GoByPlace ds → GoByPlace es
        → GoByPlace (by_place ds es) }
{}

/// A network whose labels are sound is at fault for its order where some subtask comes before
/// itself, and only there.
pub fn cyclic_orders_are_faults()
    ensures cyclic { (k : Known) (s : Side) (place : Span) (n : Network) → label_faults k s n ≡ []
        → IsCyclic (written_by n)
        → order_faults k s place n ≡ fault_on kinds.CyclicOrdering s place ∷ [] }
    ensures acyclic { (k : Known) (s : Side) (place : Span) (n : Network) → label_faults k s n ≡ []
        → (IsCyclic (written_by n) → ⊥) → order_faults k s place n ≡ [] }
{}

/// Whether an object is of a type is decided.
pub fn types_are_decided()
    ensures { (w : Typing) → IsInRange w → (o t : ℕ) → Of w o t ⊎ (Of w o t → ⊥) }
{}

/// An object is of the type of a variable just where it is of one of the types that its names name;
/// where it has none, the type is `object`.
pub fn eithers_are_unions()
    ensures named { (d : Domain) (p : Problem) → IsStatic d p → (v : Variable)
        → Contains (all_variables d p) v → (v.of ≡ [] → ⊥) → (o : ℕ)
        → Of (world_of d p).typing o (variable_type (known_in d p) v)
        ↔ IsOfOne (world_of d p).typing o (map (λ w. number_in (known_in d p).types w.text) v.of) }
    ensures none { (k : Known) (v : Variable) → v.of ≡ [] → variable_type k v ≡ 0 }
{}

/// Whether one subtask comes before another is decided.
pub fn orders_are_decided()
    ensures { (n : Written) → IsArrangeable n → (i j : ℕ) → Before n i j ⊎ (Before n i j → ⊥) }
{}
