//! Worlds are built.

ghost use Rattle.std.specs.Prelude.{ℕ, List, ◌≡◌, ◌⊎◌, Some, map, IfOk, IfErr};
ghost use Rattle.hv_text.specs.Names.{text_of};
ghost use Rattle.hv_syntax.specs.DeclarationViews.{predicate_view as said_predicate, task_view as said_task, method_view as said_method, action_view as said_action};
ghost use Rattle.hv_syntax.specs.DomainViews.{domain_view};
ghost use Rattle.hv_syntax.specs.ProblemViews.{problem_view};
ghost use Rattle.hv_world.specs.Known.{known_in, predicate_words};
ghost use Rattle.hv_world.specs.Names.{names, place_in};
ghost use Rattle.hv_world.specs.inside.Tables.{known_by, places_by};
ghost use Rattle.hv_world.specs.inside.Numbered.{IsOfDomain, IsOfProblem};
ghost use Rattle.hv_world.specs.Types.{IsInRange};
ghost use Rattle.hv_world.specs.Faults.{memory_fault};
ghost use Rattle.hv_world.specs.StaticRules.{IsStatic, first_fault};
ghost use Rattle.hv_world.specs.Bounds.{IsBound, IsSound};
ghost use Rattle.hv_world.specs.WorldViews.{world_view};
ghost use Rattle.hv_world.specs.inside.Parts.{world_of_parts};
ghost use Rattle.hv_world.specs.Worlds.{typing_by, world_by, world_of, task_names, action_names, method_names, said_task_names, said_action_names, said_method_names};

use crate::action::Action;
use crate::check::first_fault;
use crate::facts::Facts;
use crate::fault::StaticFault;
use crate::formula::Formula;
use crate::intern::lists::{add_eithers_pairs, add_object_pairs, predicate_names, type_pairs};
use crate::method::Method;
use crate::names::Names;
use crate::numbered::Numbered;
use crate::tables::Tables;
use crate::tables::words::predicate_words;
use crate::task::Task;
use crate::types::Types;
use crate::world::World;
use hv_syntax::{ActionText, DomainText, MethodText, PredicateText, ProblemText, TaskText};
use hv_text::{Memory, Name};
use std::alloc::Global;

// Which objects are of which type.
fn typing_in<'s>(
    alloc: Global,
    tables: &Tables<'s>,
    domain: &DomainText<'s>,
    problem: &ProblemText<'s>,
) -> Result<Types, Memory>
    requires { IsInRange
        (typing_by (known_by tables.now) (domain_view domain.now) (problem_view problem.now)) }
    ensures { IfOk result
        (λ w. w ≡ typing_by (known_by tables.now) (domain_view domain.now)
        (problem_view problem.now)) }
{
    let types = tables.type_count()?;
    let mut parents = type_pairs(alloc, tables, domain.types())?;
    add_eithers_pairs(tables, &mut parents)?;
    let mut declared = Vec::with_capacity(alloc, tables.objects.len())?;
    add_object_pairs(tables, &mut declared, domain.constants())?;
    add_object_pairs(tables, &mut declared, problem.objects())?;
    Types::new(alloc, types, tables.objects.len(), parents, declared)
}

// The places of the names of tasks.
fn task_names<'s>(alloc: Global, tasks: &[TaskText<'s>]) -> Result<Names<'s>, Memory>
    ensures { IfOk result
        (λ t. places_by t ≡ place_in (said_task_names (map said_task tasks.now))) }
{
    let mut words = Vec::new(alloc);
    for task in tasks {
        words.push(task.name())?;
    }
    Names::of(alloc, &words)
}

// The places of the names of actions.
fn action_names<'s>(alloc: Global, actions: &[ActionText<'s>]) -> Result<Names<'s>, Memory>
    ensures { IfOk result
        (λ t. places_by t ≡ place_in (said_action_names (map said_action actions.now))) }
{
    let mut words = Vec::new(alloc);
    for action in actions {
        words.push(action.name())?;
    }
    Names::of(alloc, &words)
}

// The places of the names of methods.
fn method_names<'s>(alloc: Global, methods: &[MethodText<'s>]) -> Result<Names<'s>, Memory>
    ensures { IfOk result
        (λ t. places_by t ≡ place_in (said_method_names (map said_method methods.now))) }
{
    let mut words = Vec::new(alloc);
    for method in methods {
        words.push(method.name())?;
    }
    Names::of(alloc, &words)
}

// The places of the names of predicates.
fn predicate_places<'s>(
    alloc: Global,
    predicates: &[PredicateText<'s>],
) -> Result<Names<'s>, Memory>
    ensures { IfOk result
        (λ t. places_by t
        ≡ place_in (names (predicate_words (map said_predicate predicates.now)))) }
{
    let words = predicate_words(alloc, predicates)?;
    Names::of(alloc, &words)
}

// Which objects are of which type, and the names of the predicates.
#[derive(Drop)]
struct Kinds<'s> {
    typing: Types,
    predicates: Vec<Name<'s>>,
}

fn kinds_in<'s>(
    alloc: Global,
    tables: &Tables<'s>,
    domain: &DomainText<'s>,
    problem: &ProblemText<'s>,
) -> Result<Kinds<'s>, Memory>
    requires { IsInRange
        (typing_by (known_by tables.now) (domain_view domain.now) (problem_view problem.now)) }
    ensures typing { IfOk result
        (λ k. k.typing
        ≡ typing_by (known_by tables.now) (domain_view domain.now) (problem_view problem.now)) }
    ensures predicates { IfOk result
        (λ k. map text_of k.predicates.items
        ≡ map (λ q. q.name.text) (domain_view domain.now).predicates) }
{
    let typing = typing_in(alloc, tables, domain, problem)?;
    let predicates = predicate_names(alloc, domain.predicates())?;
    Ok(Kinds { typing, predicates })
}

// What a problem starts from and what it wants, by number.
#[derive(Drop)]
struct Start<'s> {
    init: Facts,
    goal: Option<Formula>,
    top: Method<'s>,
}

// What a domain and a problem say, by number.
#[derive(Drop)]
struct Parts<'s> {
    kinds: Kinds<'s>,
    tasks: Vec<Task<'s>>,
    methods: Vec<Method<'s>>,
    actions: Vec<Action<'s>>,
    start: Start<'s>,
}

fn parts_in<'s>(
    alloc: Global,
    tables: &Tables<'s>,
    domain: &DomainText<'s>,
    problem: &ProblemText<'s>,
    numbered: Numbered<'s>,
) -> Result<Parts<'s>, Memory>
    requires known { known_by tables.now
        ≡ known_in (domain_view domain.now) (problem_view problem.now) }
    requires sound { IsStatic (domain_view domain.now) (problem_view problem.now) }
    requires domain { IsOfDomain (known_by tables.now) (domain_view domain.now) numbered }
    requires problem { IsOfProblem (known_by tables.now) (problem_view problem.now) numbered }
    ensures { IfOk result
        (λ p. world_of_parts tables.now p
        ≡ world_by (known_by tables.now) (domain_view domain.now) (problem_view problem.now)) }
{
    let kinds = kinds_in(alloc, tables, domain, problem)?;
    let Numbered {
        tasks,
        methods,
        actions,
        top,
        init,
        goal,
    } = numbered;
    let value = top.value;
    let Some(top) = value else { unreachable!() };
    let start = Start {
        init: init.value,
        goal: goal.value,
        top,
    };
    Ok(Parts {
        kinds,
        tasks: tasks.value,
        methods: methods.value,
        actions: actions.value,
        start,
    })
}

// Where the names of the predicates, tasks, actions and methods of a domain stand.
#[derive(Drop)]
struct Places<'s> {
    predicates: Names<'s>,
    tasks: Names<'s>,
    actions: Names<'s>,
    methods: Names<'s>,
}

fn places_of<'s>(alloc: Global, domain: &DomainText<'s>) -> Result<Places<'s>, Memory>
    ensures predicates { IfOk result
        (λ p. places_by p.predicates
        ≡ place_in (names (predicate_words (domain_view domain.now).predicates))) }
    ensures tasks { IfOk result
        (λ p. places_by p.tasks ≡ place_in (said_task_names (domain_view domain.now).tasks)) }
    ensures actions { IfOk result
        (λ p. places_by p.actions ≡ place_in (said_action_names (domain_view domain.now).actions)) }
    ensures methods { IfOk result
        (λ p. places_by p.methods ≡ place_in (said_method_names (domain_view domain.now).methods)) }
{
    let predicates = predicate_places(alloc, domain.predicates())?;
    let tasks = task_names(alloc, domain.tasks())?;
    let actions = action_names(alloc, domain.actions())?;
    let methods = method_names(alloc, domain.methods())?;
    Ok(Places {
        predicates,
        tasks,
        actions,
        methods,
    })
}

impl<'s> World<'s> {
    /// The world of a domain and a problem.
    ///
    /// # Errors
    ///
    /// The first static fault of the domain; where it has none, the first of the problem. Or want
    /// of memory, where a growth was refused.
    pub fn build(
        alloc: Global,
        domain: &DomainText<'s>,
        problem: &ProblemText<'s>,
    ) -> Result<World<'s>, StaticFault>
        ensures world { IfOk result
            (λ w. world_view w ≡ world_of (domain_view domain.now) (problem_view problem.now)) }
        ensures sound { IfOk result
            (λ _. IsStatic (domain_view domain.now) (problem_view problem.now)) }
        ensures bound { IfOk result (λ w. IsBound (world_view w)) }
        ensures err { IfErr result
            (λ f. (f ≡ memory_fault)
            ⊎ (first_fault (domain_view domain.now) (problem_view problem.now) ≡ Some f)) }
    {
        // Both are large, and are handed on below.
        let tables = Box::new(alloc, Tables::of(alloc, domain, problem)?)?;
        let numbered = Box::new(alloc, Numbered::of(alloc, &tables, domain, problem)?)?;
        match first_fault(alloc, &tables, domain, problem, &numbered)? {
            Some(fault) => Err(fault),
            None => {
                let tables = Box::into_inner(tables);
                let numbered = Box::into_inner(numbered);
                Ok(World::of_tables(alloc, tables, domain, problem, numbered)?)
            }
        }
    }

    /// The world of a domain and a problem that have no static fault, by the tables of their names
    /// and what was checked as it got its numbers.
    ///
    /// # Errors
    ///
    /// `Memory` where a growth was refused.
    pub(crate) fn of_tables(
        alloc: Global,
        tables: Tables<'s>,
        domain: &DomainText<'s>,
        problem: &ProblemText<'s>,
        numbered: Numbered<'s>,
    ) -> Result<World<'s>, Memory>
        requires known { known_by tables
            ≡ known_in (domain_view domain.now) (problem_view problem.now) }
        requires sound { IsStatic (domain_view domain.now) (problem_view problem.now) }
        requires domain { IsOfDomain (known_by tables) (domain_view domain.now) numbered }
        requires problem { IsOfProblem (known_by tables) (problem_view problem.now) numbered }
        ensures { IfOk result
            (λ w. world_view w ≡ world_of (domain_view domain.now) (problem_view problem.now)) }
    {
        let parts = parts_in(alloc, &tables, domain, problem, numbered)?;
        let places = places_of(alloc, domain)?;
        Ok(World::of_parts(tables, parts, places))
    }

    // The world of its parts.
    fn of_parts(tables: Tables<'s>, parts: Parts<'s>, places: Places<'s>) -> World<'s>
        requires sound { IsSound (world_of_parts tables parts) }
        requires predicates { (n : List ℕ)
            → places_by places.predicates n ≡ place_in (world_of_parts tables parts).predicates n }
        requires tasks { (n : List ℕ)
            → places_by places.tasks n
            ≡ place_in (task_names (world_of_parts tables parts).tasks) n }
        requires actions { (n : List ℕ)
            → places_by places.actions n
            ≡ place_in (action_names (world_of_parts tables parts).actions) n }
        requires methods { (n : List ℕ)
            → places_by places.methods n
            ≡ place_in (method_names (world_of_parts tables parts).methods) n }
        ensures { world_view result ≡ world_of_parts tables.entry parts.entry }
    {
        let types = tables.types;
        World {
            types: types.names,
            objects: tables.objects,
            hints: tables.hints,
            typing: parts.kinds.typing,
            predicates: parts.kinds.predicates,
            tasks: parts.tasks,
            methods: parts.methods,
            actions: parts.actions,
            init: parts.start.init,
            goal: parts.start.goal,
            top: parts.start.top,
            predicate_names: places.predicates,
            task_names: places.tasks,
            action_names: places.actions,
            method_names: places.methods,
        }
    }
}
