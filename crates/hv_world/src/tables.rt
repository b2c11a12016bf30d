//! What a domain and a problem declare.

ghost use Rattle.std.specs.Prelude.{◌≡◌, ◌+◌, length, map, option_map, IfOk};
ghost use Rattle.std.specs.Option.{is_some};
ghost use Rattle.hv_text.specs.Names.{text_of};
ghost use Rattle.hv_syntax.specs.DeclarationViews.{predicate_view};
ghost use Rattle.hv_syntax.specs.DomainViews.{domain_view};
ghost use Rattle.hv_syntax.specs.ProblemViews.{problem_view};
ghost use Rattle.hv_world.specs.Names.{names, place_in, is_among, number_in};
ghost use Rattle.hv_world.specs.Eithers.{either_types, either_place};
ghost use Rattle.hv_world.specs.Known.{type_names, known_in, predicate_words, declared_words, declarations};
ghost use Rattle.hv_world.specs.inside.Tables.{known_by, names_in, places_by, signature_view, declaration_view, HavePlaces, HaveParameters};

mod eithers;
pub(crate) mod gather;
pub(crate) mod sections;
mod sight;
pub(crate) mod words;

use crate::id::{PredicateId, TaskName, TypeId};
use crate::names::{Names, hints_of, place_behind, place_like};
use crate::tables::eithers::either_types;
use crate::tables::sections::declarations;
use crate::tables::sight::{object_names, type_names};
use crate::tables::words::{arities, declared_words, predicate_words};
use hv_syntax::{DomainText, Placed, PredicateText, ProblemText};
use hv_text::{Hints, Memory, Name, Seeded};
use indexmap::IndexSet;
use std::alloc::Global;

/// A predicate as it is declared: its number, and how many terms it takes.
#[derive(Clone, Copy)]
pub(crate) struct Signature {
    pub predicate: PredicateId,
    pub arity: usize,
}

/// A task or an action as it is declared: what it is, how many terms it takes, its name, and where
/// its section starts.
#[derive(Clone, Copy)]
pub(crate) struct Declared<'s> {
    pub what: TaskName,
    pub arity: usize,
    pub name: Placed<'s>,
    pub start: u32,
}

/// The types: those with a name, and behind them those that several names make.
#[derive(Drop)]
pub(crate) struct TypeTable<'s> {
    pub names: IndexSet<Name<'s>, Seeded>,
    // Where the name of a type may stand among them.
    pub hints: Hints,
    pub eithers: IndexSet<Vec<Name<'s>>, Seeded>,
}

/// The predicates: where the name of each stands first, and how many terms each takes.
#[derive(Drop)]
pub(crate) struct PredicateTable<'s> {
    pub places: Names<'s>,
    pub arities: Vec<usize>,
}

/// The tasks and actions in the order of the text, and where the name of each stands first.
#[derive(Drop)]
pub(crate) struct TaskTable<'s> {
    pub places: Names<'s>,
    pub list: Vec<Declared<'s>>,
    /// How many of them are tasks that methods decompose: these mostly stand before the actions.
    pub compounds: usize,
}

/// What names are declared; of several declarations of a name the first counts.
#[derive(Drop)]
pub(crate) struct Tables<'s> {
    pub types: TypeTable<'s>,
    pub objects: IndexSet<Name<'s>, Seeded>,
    // Where the name of an object may stand among them.
    pub hints: Hints,
    pub predicates: PredicateTable<'s>,
    pub tasks: TaskTable<'s>,
    /// The parameters of the initial network: where the name of each stands first.
    pub parameters: Names<'s>,
}

// The table of types.
fn type_table<'s>(
    alloc: Global,
    domain: &DomainText<'s>,
    problem: &ProblemText<'s>,
) -> Result<TypeTable<'s>, Memory>
    ensures names { IfOk result
        (λ t. map text_of t.names.keys ≡ type_names (domain_view domain.now)) }
    ensures eithers { IfOk result
        (λ t. map names_in t.eithers.keys
        ≡ either_types (domain_view domain.now) (problem_view problem.now)) }
{
    let names = type_names(alloc, domain.types())?;
    let hints = hints_of(alloc, &names)?;
    let eithers = either_types(alloc, domain, problem)?;
    Ok(TypeTable {
        names,
        hints,
        eithers,
    })
}

// The table of predicates.
fn predicate_table<'s>(
    alloc: Global,
    predicates: &[PredicateText<'s>],
) -> Result<PredicateTable<'s>, Memory>
    ensures places { IfOk result
        (λ t. places_by t.places
        ≡ place_in (names (predicate_words (map predicate_view predicates.now)))) }
    ensures arities { IfOk result
        (λ t. t.arities.items
        ≡ map (λ q. length q.parameters) (map predicate_view predicates.now)) }
{
    let words = predicate_words(alloc, predicates)?;
    let places = Names::of(alloc, &words)?;
    let arities = arities(alloc, predicates)?;
    Ok(PredicateTable { places, arities })
}

// The table of tasks and actions.
fn task_table<'s>(alloc: Global, domain: &DomainText<'s>) -> Result<TaskTable<'s>, Memory>
    ensures places { IfOk result
        (λ t. places_by t.places
        ≡ place_in (names (declared_words (declarations (domain_view domain.now))))) }
    ensures list { IfOk result
        (λ t. map declaration_view t.list.items ≡ declarations (domain_view domain.now)) }
{
    let list = declarations(alloc, domain)?;
    let words = declared_words(alloc, &list)?;
    let places = Names::of(alloc, &words)?;
    let compounds = domain.tasks().len();
    Ok(TaskTable {
        places,
        list,
        compounds,
    })
}

impl<'s> Tables<'s> {
    /// What a domain and a problem declare.
    ///
    /// # Errors
    ///
    /// `Memory` where a growth was refused.
    pub(crate) fn of(
        alloc: Global,
        domain: &DomainText<'s>,
        problem: &ProblemText<'s>,
    ) -> Result<Tables<'s>, Memory>
        ensures known { IfOk result
            (λ t. known_by t ≡ known_in (domain_view domain.now) (problem_view problem.now)) }
        ensures places { IfOk result (HavePlaces (domain_view domain.now)) }
        ensures parameters { IfOk result (HaveParameters (problem_view problem.now).htn) }
    {
        let types = type_table(alloc, domain, problem)?;
        let objects = object_names(alloc, domain.constants(), problem.objects())?;
        let hints = hints_of(alloc, &objects)?;
        let predicates = predicate_table(alloc, domain.predicates())?;
        let tasks = task_table(alloc, domain)?;
        let parameters = Names::of_variables(alloc, problem.htn().parameters())?;
        Ok(Tables {
            types,
            objects,
            hints,
            predicates,
            tasks,
            parameters,
        })
    }

    /// The number of a type, where it is declared. Another is looked at before all.
    pub(crate) fn type_like(&self, other: Option<TypeId>, name: Name<'s>) -> Option<usize>
        ensures place { result ≡ place_in (known_by self.now).types (text_of name.entry) }
        ensures known { is_some result ≡ is_among (known_by self.now).types (text_of name.entry) }
    {
        let guess = match other {
            Some(of) => Some(of.0),
            None => None,
        };
        place_like(&self.types.names, &self.types.hints, guess, name)
    }

    /// The number of a type with a name; of one that is not declared, the number behind the last
    /// of them. Another is looked at before all.
    pub(crate) fn type_number(&self, other: Option<TypeId>, name: Name<'s>) -> usize
        ensures { result ≡ number_in (known_by self.now).types (text_of name.entry) }
    {
        match self.type_like(other, name) {
            Some(number) => number,
            None => self.types.names.len(),
        }
    }

    /// The place of the type that these names make; none where they make no type of their own.
    pub(crate) fn either_place(&self, list: &Vec<Name<'s>>) -> Option<usize>
        ensures { result ≡ either_place (known_by self.now).eithers (names_in list.now) }
    {
        self.types.eithers.get_index_of(list)
    }

    /// How many types there are.
    ///
    /// # Errors
    ///
    /// `Memory` where no number can say it: their names fill all memory.
    pub(crate) fn type_count(&self) -> Result<usize, Memory>
        ensures { IfOk result
            (λ n. n ≡ length (known_by self.now).types + length (known_by self.now).eithers) }
    {
        self.number_past(self.types.eithers.len())
    }

    /// The number so far past the types with a name.
    ///
    /// # Errors
    ///
    /// `Memory` where it is no `usize`: the names of types fill all memory.
    pub(crate) fn number_past(&self, place: usize) -> Result<usize, Memory>
        ensures { IfOk result (λ n. n ≡ length (known_by self.now).types + place) }
    {
        match self.types.names.len().checked_add(place) {
            Some(number) => Ok(number),
            None => Err(Memory),
        }
    }

    /// The number of a constant or an object, where it is declared. The one declared behind another
    /// is looked at before all.
    pub(crate) fn object_behind(&self, other: Option<usize>, name: Name<'s>) -> Option<usize>
        ensures place { result ≡ place_in (known_by self.now).objects (text_of name.entry) }
        ensures known { is_some result ≡ is_among (known_by self.now).objects (text_of name.entry) }
    {
        place_behind(&self.objects, &self.hints, other, name)
    }

    /// The number of a constant or an object; of one that is not declared, the number behind the
    /// last. The one declared behind another is looked at before all.
    pub(crate) fn object_number(&self, other: Option<usize>, name: Name<'s>) -> usize
        ensures { result ≡ number_in (known_by self.now).objects (text_of name.entry) }
    {
        match self.object_behind(other, name) {
            Some(number) => number,
            None => self.objects.len(),
        }
    }

    /// A predicate, as it is declared first. Another is looked at before all.
    pub(crate) fn predicate(&self, other: Option<PredicateId>, name: Name<'s>) -> Option<Signature>
        ensures { option_map signature_view result
            ≡ (known_by self.now).predicate (text_of name.entry) }
    {
        let guess = match other {
            Some(predicate) => Some(predicate.0),
            None => None,
        };
        let place = self.predicates.places.place_like(guess, name)?;
        let arity = self.predicates.arities.get(place)?;
        Some(Signature {
            predicate: PredicateId(place),
            arity: *arity,
        })
    }

    // Where a task or an action is declared, if all tasks are before all actions.
    fn likely_place(&self, name: TaskName) -> usize {
        match name {
            TaskName::Compound(task) => task.0,
            TaskName::Primitive(action) => self.tasks.compounds.saturating_add(action.0),
        }
    }

    /// A task or an action, as it is declared first. The one declared behind another is looked at
    /// before all.
    pub(crate) fn task(&self, other: Option<TaskName>, name: Name<'s>) -> Option<Declared<'s>>
        ensures { option_map declaration_view result
            ≡ (known_by self.now).task (text_of name.entry) }
    {
        let before = match other {
            Some(other) => Some(self.likely_place(other)),
            None => None,
        };
        let place = self.tasks.places.place_behind(before, name)?;
        let declared = self.tasks.list.get(place)?;
        Some(*declared)
    }
}
