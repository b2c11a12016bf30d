//! Domains, and their sections.

ghost use Rattle.std.specs.Prelude.{◌≡◌, map, OnOk};
ghost use Rattle.hv_syntax.specs.Domains.{add_section, no_domain};
ghost use Rattle.hv_syntax.specs.Views.{word_view, typed_view};
ghost use Rattle.hv_syntax.specs.DeclarationViews.{predicate_view, task_view, method_view};
ghost use Rattle.hv_syntax.specs.DeclarationViews.{action_view};
ghost use Rattle.hv_syntax.specs.DomainViews.{domain_section_view, domain_view};

use crate::action::ActionText;
use crate::method::MethodText;
use crate::predicate::PredicateText;
use crate::task::TaskText;
use crate::typed::TypedText;
use crate::word::Placed;
use hv_text::Memory;
use std::alloc::Global;

/// A domain, as its text says it.
#[derive(Drop)]
pub struct DomainText<'s> {
    name: Placed<'s>,
    requirements: Vec<Placed<'s>>,
    types: Vec<TypedText<'s>>,
    constants: Vec<TypedText<'s>>,
    predicates: Vec<PredicateText<'s>>,
    tasks: Vec<TaskText<'s>>,
    methods: Vec<MethodText<'s>>,
    actions: Vec<ActionText<'s>>,
}

impl<'s> DomainText<'s> {
    /// The domain of this name that has no sections.
    pub fn named(alloc: Global, name: Placed<'s>) -> DomainText<'s>
        ensures { domain_view result ≡ no_domain (word_view name.entry) }
    {
        DomainText {
            name,
            requirements: Vec::new(alloc),
            types: Vec::new(alloc),
            constants: Vec::new(alloc),
            predicates: Vec::new(alloc),
            tasks: Vec::new(alloc),
            methods: Vec::new(alloc),
            actions: Vec::new(alloc),
        }
    }

    /// Adds what one more section says.
    ///
    /// # Errors
    ///
    /// `Memory` where a growth was refused.
    pub fn add(&mut self, section: DomainSection<'s>) -> Result<(), Memory>
        ensures { OnOk result (domain_view self.new
            ≡ add_section (domain_view self.old) (domain_section_view section.entry)) }
    {
        match section {
            DomainSection::Requirements(requirements) => self.requirements = requirements,
            DomainSection::Types(types) => self.types = types,
            DomainSection::Constants(constants) => self.constants = constants,
            DomainSection::Predicates(predicates) => self.predicates = predicates,
            DomainSection::Task(task) => self.tasks.push(task)?,
            DomainSection::Method(method) => self.methods.push(method)?,
            DomainSection::Action(action) => self.actions.push(action)?,
        }
        Ok(())
    }

    /// Its name.
    pub fn name(&self) -> Placed<'s>
        ensures { word_view result ≡ (domain_view self.now).name }
    {
        self.name
    }

    /// The keywords of `:requirements`, as written.
    pub fn requirements(&self) -> &[Placed<'s>]
        ensures { map word_view result.now ≡ (domain_view self.now).requirements }
    {
        &self.requirements
    }

    /// The types, each with its parent, as written.
    pub fn types(&self) -> &[TypedText<'s>]
        ensures { map typed_view result.now ≡ (domain_view self.now).types }
    {
        &self.types
    }

    /// The constants, each with its type, as written.
    pub fn constants(&self) -> &[TypedText<'s>]
        ensures { map typed_view result.now ≡ (domain_view self.now).constants }
    {
        &self.constants
    }

    /// The predicates, as written.
    pub fn predicates(&self) -> &[PredicateText<'s>]
        ensures { map predicate_view result.now ≡ (domain_view self.now).predicates }
    {
        &self.predicates
    }

    /// The tasks, in the order of the text.
    pub fn tasks(&self) -> &[TaskText<'s>]
        ensures { map task_view result.now ≡ (domain_view self.now).tasks }
    {
        &self.tasks
    }

    /// The methods, in the order of the text.
    pub fn methods(&self) -> &[MethodText<'s>]
        ensures { map method_view result.now ≡ (domain_view self.now).methods }
    {
        &self.methods
    }

    /// The actions, in the order of the text.
    pub fn actions(&self) -> &[ActionText<'s>]
        ensures { map action_view result.now ≡ (domain_view self.now).actions }
    {
        &self.actions
    }
}

/// What a section of a domain says.
#[derive(Drop)]
pub enum DomainSection<'s> {
    Requirements(Vec<Placed<'s>>),
    Types(Vec<TypedText<'s>>),
    Constants(Vec<TypedText<'s>>),
    Predicates(Vec<PredicateText<'s>>),
    Task(TaskText<'s>),
    Method(MethodText<'s>),
    Action(ActionText<'s>),
}
