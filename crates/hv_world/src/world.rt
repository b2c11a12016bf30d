//! Worlds.

ghost use Rattle.std.specs.Prelude.{◌≡◌, ℕ, List, ◌↔◌, IsTrue, map, option_map, slice_get, MatchOption};
ghost use Rattle.hv_text.specs.Names.{text_of};
ghost use Rattle.hv_world.specs.Names.{place_in};
ghost use Rattle.hv_world.specs.inside.Tables.{places_by};
ghost use Rattle.hv_world.specs.Views.{type_number, name_view, formula_view};
ghost use Rattle.hv_world.specs.FactViews.{facts_view};
ghost use Rattle.hv_world.specs.Bindings.{object_number, ground_action, ground_action_view};
ghost use Rattle.hv_world.specs.Groundings.{AreOf, IsGrounding};
ghost use Rattle.hv_world.specs.MethodViews.{method_view};
ghost use Rattle.hv_world.specs.Worlds as worlds;
ghost use Rattle.hv_world.specs.Bounds.{IsSound};
ghost use Rattle.hv_world.specs.SectionViews.{task_view, action_view};
ghost use Rattle.hv_world.specs.WorldParts.{world_from};

use crate::action::Action;
use crate::facts::Facts;
use crate::formula::Formula;
use crate::grounding::GroundAction;
use crate::id::{ActionId, MethodId, ObjectId, PredicateId, TaskId, TaskName, TypeId};
use crate::method::Method;
use crate::names::{Names, place_behind, place_of};
use crate::range::Range;
use crate::task::Task;
use crate::types::Types;
use hv_text::{Hints, Name, Seeded};
use indexmap::IndexSet;

/// The world of a domain and a problem: what they say, with a number for each name.
#[derive(Drop)]
pub struct World<'s> {
    pub(crate) types: IndexSet<Name<'s>, Seeded>,
    pub(crate) objects: IndexSet<Name<'s>, Seeded>,
    // Where the name of an object may stand among them.
    pub(crate) hints: Hints,
    pub(crate) typing: Types,
    pub(crate) predicates: Vec<Name<'s>>,
    pub(crate) tasks: Vec<Task<'s>>,
    pub(crate) methods: Vec<Method<'s>>,
    pub(crate) actions: Vec<Action<'s>>,
    pub(crate) init: Facts,
    pub(crate) goal: Option<Formula>,
    pub(crate) top: Method<'s>,
    pub(crate) predicate_names: Names<'s>,
    pub(crate) task_names: Names<'s>,
    pub(crate) action_names: Names<'s>,
    pub(crate) method_names: Names<'s>,
    pub ghost sound: { IsSound
        (world_from types.keys objects.keys typing predicates.items tasks.items methods.items
        actions.items init goal top) },
    pub ghost of_predicates: { (n : List ℕ)
        → places_by predicate_names n ≡ place_in (map text_of predicates.items) n },
    pub ghost of_tasks: { (n : List ℕ)
        → places_by task_names n ≡ place_in (worlds.task_names (map task_view tasks.items)) n },
    pub ghost of_actions: { (n : List ℕ)
        → places_by action_names n
        ≡ place_in (worlds.action_names (map action_view actions.items)) n },
    pub ghost of_methods: { (n : List ℕ)
        → places_by method_names n
        ≡ place_in (worlds.method_names (map method_view methods.items)) n },
}

impl<'s> World<'s> {
    ghost use Rattle.hv_world.specs.Types.{Of, object_numbers};
    ghost use Rattle.hv_lists.specs.Lists.{Once};
    ghost use Rattle.std.specs.List.{Contains};
    ghost use Rattle.hv_world.specs.Ranges.{range_view, IsRange};
    ghost use Rattle.hv_world.specs.Worlds.{task_named, method_named};
    ghost use Rattle.hv_world.specs.WorldViews.{world_view};

    /// The objects of a type, each once, and what tells of an object whether it is one of them.
    /// None for a number that no type has.
    pub fn range_of(&self, of: TypeId) -> Range<'_>
        ensures { IsRange (world_view self.now).typing (range_view result) of.0 }
    {
        self.typing.range_of(of)
    }

    /// Whether an object is of a type. A number that there is no object or type for is of none.
    pub fn is_of(&self, object: ObjectId, of: TypeId) -> bool
        ensures { IsTrue result ↔ Of (world_view self.now).typing object.0 of.0 }
    {
        self.range_of(of).has(object.0)
    }

    /// The objects of a type, each once. None for a number that no type has.
    pub fn objects_of(&self, of: TypeId) -> &[ObjectId]
        ensures exact { (o : ℕ)
            → Contains (object_numbers result.now) o ↔ Of (world_view self.now).typing o of.0 }
        ensures once { Once (object_numbers result.now) }
    {
        self.range_of(of).objects()
    }

    /// The tasks that methods decompose, in the order of the text.
    pub fn tasks(&self) -> &[Task<'s>]
        ensures { map task_view result.now ≡ (world_view self.now).tasks }
    {
        &self.tasks
    }

    /// The methods, in the order of the text.
    pub fn methods(&self) -> &[Method<'s>]
        ensures { map method_view result.now ≡ (world_view self.now).methods }
    {
        &self.methods
    }

    /// The actions, in the order of the text.
    pub fn actions(&self) -> &[Action<'s>]
        ensures { map action_view result.now ≡ (world_view self.now).actions }
    {
        &self.actions
    }

    /// The task of a number, where there is one.
    pub fn task(&self, task: TaskId) -> Option<&Task<'s>>
        ensures { option_map (λ t. task_view t.now) result
            ≡ slice_get (world_view self.now).tasks task.0 }
    {
        self.tasks.get(task.0)
    }

    /// The method of a number, where there is one.
    pub fn method(&self, method: MethodId) -> Option<&Method<'s>>
        ensures { option_map (λ m. method_view m.now) result
            ≡ slice_get (world_view self.now).methods method.0 }
    {
        self.methods.get(method.0)
    }

    /// The action of a number, where there is one.
    pub fn action(&self, action: ActionId) -> Option<&Action<'s>>
        ensures { option_map (λ a. action_view a.now) result
            ≡ slice_get (world_view self.now).actions action.0 }
    {
        self.actions.get(action.0)
    }

    /// Whether these are as many objects as types, and each is of its type.
    pub fn are_of(&self, objects: &[ObjectId], types: &[TypeId]) -> bool
        ensures { IsTrue result
            ↔ AreOf (world_view self.now).typing (map object_number objects.now)
            (map type_number types.now) }
    {
        let mut left = types;
        for object in objects {
            match left {
                [] => return false,
                [first, others @ ..] => {
                    if !self.is_of(*object, *first) {
                        return false;
                    }
                    left = others;
                }
            }
        }
        left.is_empty()
    }

    /// An action of the world with objects for its parameters. None where the world has no action
    /// of the number, the objects are not as many as its parameters, or one is not of the type of
    /// its parameter.
    pub fn ground<'a>(&self, action: ActionId, objects: &'a [ObjectId]) -> Option<GroundAction<'a>>
        ensures { MatchOption result
            (IsGrounding (world_view self.now)
            (ground_action action.0 (map object_number objects.now)) → ⊥)
            (λ g. (ground_action_view g ≡ ground_action action.0 (map object_number objects.now))
            × IsGrounding (world_view self.now) (ground_action_view g)) }
    {
        let declared = self.action(action)?;
        if self.are_of(objects, declared.parameters()) {
            Some(GroundAction { action, objects })
        } else {
            None
        }
    }

    /// The atoms that are true at the start, as written.
    pub fn init(&self) -> &Facts
        ensures { facts_view result.now ≡ (world_view self.now).init }
    {
        &self.init
    }

    /// The goal, where there is one.
    pub fn goal(&self) -> Option<&Formula>
        ensures { option_map (λ f. formula_view f.now) result ≡ (world_view self.now).goal }
    {
        self.goal.as_ref()
    }

    /// The initial network, as a method.
    pub fn top(&self) -> &Method<'s>
        ensures { method_view result.now ≡ (world_view self.now).top }
    {
        &self.top
    }

    /// The name of a type, where one has the number.
    pub fn type_name(&self, of: TypeId) -> Option<Name<'s>>
        ensures { option_map text_of result ≡ slice_get (world_view self.now).types of.0 }
    {
        Some(*self.types.get_index(of.0)?)
    }

    /// The name of a constant or an object, where one has the number.
    pub fn object_name(&self, object: ObjectId) -> Option<Name<'s>>
        ensures { option_map text_of result ≡ slice_get (world_view self.now).objects object.0 }
    {
        Some(*self.objects.get_index(object.0)?)
    }

    /// The name of a predicate, where one has the number.
    pub fn predicate_name(&self, predicate: PredicateId) -> Option<Name<'s>>
        ensures { option_map text_of result
            ≡ slice_get (world_view self.now).predicates predicate.0 }
    {
        Some(*self.predicates.get(predicate.0)?)
    }

    /// The type of a name.
    pub fn type_named(&self, name: Name<'s>) -> Option<TypeId>
        ensures { option_map (λ t. t.0) result
            ≡ place_in (world_view self.now).types (text_of name.entry) }
    {
        match self.types.get_index_of(&name) {
            Some(place) => Some(TypeId(place)),
            None => None,
        }
    }

    /// The constant or object of a name.
    pub fn object_named(&self, name: Name<'s>) -> Option<ObjectId>
        ensures { option_map (λ o. o.0) result
            ≡ place_in (world_view self.now).objects (text_of name.entry) }
    {
        match place_of(&self.objects, &self.hints, name) {
            Some(place) => Some(ObjectId(place)),
            None => None,
        }
    }

    /// As `object_named`, where the object declared behind another is looked at before all. It
    /// costs less where names come in the order in which they are declared.
    pub fn object_behind(&self, other: Option<ObjectId>, name: Name<'s>) -> Option<ObjectId>
        ensures { option_map (λ o. o.0) result
            ≡ place_in (world_view self.now).objects (text_of name.entry) }
    {
        let before = match other {
            Some(object) => Some(object.0),
            None => None,
        };
        match place_behind(&self.objects, &self.hints, before, name) {
            Some(place) => Some(ObjectId(place)),
            None => None,
        }
    }

    /// The predicate of a name.
    pub fn predicate_named(&self, name: Name<'s>) -> Option<PredicateId>
        ensures { option_map (λ p. p.0) result
            ≡ place_in (world_view self.now).predicates (text_of name.entry) }
    {
        match self.predicate_names.place(name) {
            Some(place) => Some(PredicateId(place)),
            None => None,
        }
    }

    /// The task or the action of a name.
    pub fn task_named(&self, name: Name<'s>) -> Option<TaskName>
        ensures { option_map name_view result
            ≡ task_named (world_view self.now) (text_of name.entry) }
    {
        if let Some(place) = self.action_names.hinted(name) {
            return Some(TaskName::Primitive(ActionId(place)));
        }
        match self.task_names.place(name) {
            Some(place) => Some(TaskName::Compound(TaskId(place))),
            None => match self.action_names.place(name) {
                Some(place) => Some(TaskName::Primitive(ActionId(place))),
                None => None,
            },
        }
    }

    /// As `task_named`, where the action declared behind another and that other are looked at before
    /// all.
    pub fn task_behind(&self, other: Option<ActionId>, name: Name<'s>) -> Option<TaskName>
        ensures { option_map name_view result
            ≡ task_named (world_view self.now) (text_of name.entry) }
    {
        if let Some(other) = other
            && let Some(place) = self.action_names.near(other.0, name)
        {
            return Some(TaskName::Primitive(ActionId(place)));
        }
        self.task_named(name)
    }

    /// As `task_named`, where another task is looked at before all. It costs less where one task is
    /// named again and again.
    pub fn task_like(&self, other: Option<TaskId>, name: Name<'s>) -> Option<TaskName>
        ensures { option_map name_view result
            ≡ task_named (world_view self.now) (text_of name.entry) }
    {
        if let Some(other) = other
            && let Some(place) = self.task_names.place_at(other.0, name)
        {
            return Some(TaskName::Compound(TaskId(place)));
        }
        self.task_named(name)
    }

    /// The method of a name.
    pub fn method_named(&self, name: Name<'s>) -> Option<MethodId>
        ensures { option_map (λ m. m.0) result
            ≡ method_named (world_view self.now) (text_of name.entry) }
    {
        match self.method_names.place(name) {
            Some(place) => Some(MethodId(place)),
            None => None,
        }
    }

    /// As `method_named`, where another method is looked at before all.
    pub fn method_like(&self, other: Option<MethodId>, name: Name<'s>) -> Option<MethodId>
        ensures { option_map (λ m. m.0) result
            ≡ method_named (world_view self.now) (text_of name.entry) }
    {
        let guess = match other {
            Some(method) => Some(method.0),
            None => None,
        };
        match self.method_names.place_like(guess, name) {
            Some(place) => Some(MethodId(place)),
            None => None,
        }
    }

    /// A law of the value: each kind of name stands once, and orders are those of their subtasks.
    pub fn is_sound(&self)
        ensures { IsSound (world_view self.now) }
    {}
}
