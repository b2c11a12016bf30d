//! Problems, and their sections.

ghost use Rattle.std.specs.Prelude.{◌≡◌, map, option_map};
ghost use Rattle.hv_syntax.specs.Values.{htn};
ghost use Rattle.hv_syntax.specs.Problems.{add_part, assembled, no_parts};
ghost use Rattle.hv_syntax.specs.Views.{word_view, typed_view, variable_view, formula_view};
ghost use Rattle.hv_syntax.specs.NetworkViews.{network_view};
ghost use Rattle.hv_syntax.specs.ProblemViews.{htn_view, init_view, problem_section_view, parts_view};
ghost use Rattle.hv_syntax.specs.ProblemViews.{problem_view};

use crate::formula::FormulaText;
use crate::init::InitText;
use crate::network::NetworkText;
use crate::typed::TypedText;
use crate::variable::VariableText;
use crate::word::Placed;
use hv_text::Span;
use std::alloc::Global;

/// The initial task network of a problem.
#[derive(Drop)]
pub struct HtnText<'s> {
    parameters: Vec<VariableText<'s>>,
    network: NetworkText<'s>,
    span: Span,
}

impl<'s> HtnText<'s> {
    /// The initial network of these parts, with the place of its section.
    pub fn new(
        parameters: Vec<VariableText<'s>>,
        network: NetworkText<'s>,
        span: Span,
    ) -> HtnText<'s>
        ensures { htn_view result ≡ htn span (map variable_view parameters.entry.items)
            (network_view network.entry) }
    {
        HtnText {
            parameters,
            network,
            span,
        }
    }

    /// Its parameters, as written.
    pub fn parameters(&self) -> &[VariableText<'s>]
        ensures { map variable_view result.now ≡ (htn_view self.now).parameters }
    {
        &self.parameters
    }

    /// Its network.
    pub fn network(&self) -> &NetworkText<'s>
        ensures { network_view result.now ≡ (htn_view self.now).network }
    {
        &self.network
    }

    /// The place of its section.
    pub fn span(&self) -> Span
        ensures { result ≡ (htn_view self.now).place }
    {
        self.span
    }
}

/// A problem, as its text says it.
#[derive(Drop)]
pub struct ProblemText<'s> {
    name: Placed<'s>,
    domain: Placed<'s>,
    requirements: Vec<Placed<'s>>,
    objects: Vec<TypedText<'s>>,
    htn: HtnText<'s>,
    init: InitText<'s>,
    goal: Option<FormulaText<'s>>,
}

impl<'s> ProblemText<'s> {
    /// Its name.
    pub fn name(&self) -> Placed<'s>
        ensures { word_view result ≡ (problem_view self.now).name }
    {
        self.name
    }

    /// The name of its domain.
    pub fn domain(&self) -> Placed<'s>
        ensures { word_view result ≡ (problem_view self.now).domain }
    {
        self.domain
    }

    /// The keywords of `:requirements`, as written.
    pub fn requirements(&self) -> &[Placed<'s>]
        ensures { map word_view result.now ≡ (problem_view self.now).requirements }
    {
        &self.requirements
    }

    /// The objects, each with its type, as written.
    pub fn objects(&self) -> &[TypedText<'s>]
        ensures { map typed_view result.now ≡ (problem_view self.now).objects }
    {
        &self.objects
    }

    /// The initial task network.
    pub fn htn(&self) -> &HtnText<'s>
        ensures { htn_view result.now ≡ (problem_view self.now).htn }
    {
        &self.htn
    }

    /// The literals of the initial state, as written.
    pub fn init(&self) -> &InitText<'s>
        ensures { init_view result.now ≡ (problem_view self.now).init }
    {
        &self.init
    }

    /// The goal, if one is written.
    pub fn goal(&self) -> Option<&FormulaText<'s>>
        ensures { option_map (λ g. formula_view g.now) result ≡ (problem_view self.now).goal }
    {
        self.goal.as_ref()
    }
}

/// What a section of a problem says.
#[derive(Drop)]
pub enum ProblemSection<'s> {
    Domain(Placed<'s>),
    Requirements(Vec<Placed<'s>>),
    Objects(Vec<TypedText<'s>>),
    Htn(HtnText<'s>),
    Init(InitText<'s>),
    Goal(FormulaText<'s>),
}

/// What the sections of a problem have said so far.
#[derive(Drop)]
pub struct ProblemParts<'s> {
    domain: Option<Placed<'s>>,
    requirements: Vec<Placed<'s>>,
    objects: Vec<TypedText<'s>>,
    htn: Option<HtnText<'s>>,
    init: Option<InitText<'s>>,
    goal: Option<FormulaText<'s>>,
}

impl<'s> ProblemParts<'s> {
    /// What no section has said yet.
    pub fn none(alloc: Global) -> ProblemParts<'s>
        ensures { parts_view result ≡ no_parts }
    {
        ProblemParts {
            domain: None,
            requirements: Vec::new(alloc),
            objects: Vec::new(alloc),
            htn: None,
            init: None,
            goal: None,
        }
    }

    /// Adds what one more section says.
    pub fn add(&mut self, section: ProblemSection<'s>)
        ensures { parts_view self.new ≡ add_part (parts_view self.old)
            (problem_section_view section.entry) }
    {
        match section {
            ProblemSection::Domain(domain) => self.domain = Some(domain),
            ProblemSection::Requirements(requirements) => self.requirements = requirements,
            ProblemSection::Objects(objects) => self.objects = objects,
            ProblemSection::Htn(htn) => self.htn = Some(htn),
            ProblemSection::Init(init) => self.init = Some(init),
            ProblemSection::Goal(goal) => self.goal = Some(goal),
        }
    }

    /// The problem of this name and these parts, where those that it must have are among them.
    pub fn assembled(self, name: Placed<'s>) -> Option<ProblemText<'s>>
        ensures { option_map problem_view result
            ≡ assembled (word_view name.entry) (parts_view self.entry) }
    {
        Some(ProblemText {
            name,
            domain: self.domain?,
            requirements: self.requirements,
            objects: self.objects,
            htn: self.htn?,
            init: self.init?,
            goal: self.goal,
        })
    }
}
