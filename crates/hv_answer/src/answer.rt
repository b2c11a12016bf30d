//! Verdicts: what the judge says of a domain, a problem and a plan.

ghost use Rattle.std.specs.Prelude.{◌≡◌};
ghost use Rattle.hv_answer.specs.Kinds.{fault_number, fault_name, cause_number, cause_name, which_name, kind_of, verdict_of};
ghost use Rattle.hv_answer.specs.Places.{cause_at, cause_nowhere};

use hv_certificate::Certificate;
use hv_plan::CauseKind as TreeKind;

/// Which text: one of the three that are judged, or a certificate.
#[derive(Clone, Copy, Debug, PartialEq, Eq)]
pub enum Which {
    Domain,
    Problem,
    Plan,
    Certificate,
}

impl Which {
    /// The text's name in an answer.
    pub fn name(self) -> &'static str
        ensures { result.now ≡ which_name self }
    {
        match self {
            Which::Domain => "domain",
            Which::Problem => "problem",
            Which::Plan => "plan",
            Which::Certificate => "certificate",
        }
    }
}

/// What is wrong with a text that is rejected. Each kind has a number and a name, under which users
/// find it.
#[derive(Clone, Copy, Debug, PartialEq, Eq)]
pub enum FaultKind {
    /// A byte outside comments that no word holds and that is no white space.
    BadByte,
    /// A `(` that is still open at the end of the text.
    Unclosed,
    /// A `)` where none is open.
    Unopened,
    /// A `(` where 256 are open.
    TooDeep,
    /// More than 268,435,456 bytes.
    TooLong,
    /// The text is not one list that begins with `define` and its name.
    NotDefine,
    /// A member that is no section of such a text.
    UnknownSection,
    /// A second section of a kind that may stand once.
    RepeatedSection,
    /// A problem without a section that it must have.
    MissingSection,
    /// A section of no form of the language.
    BadShape,
    /// A section of a form that is left out of the language.
    Unsupported,
    /// A type that is not declared.
    UnknownType,
    /// A name that is no constant and no object.
    UnknownObject,
    /// A predicate that is not declared.
    UnknownPredicate,
    /// A head that is no task (and, for a subtask, no action).
    UnknownTask,
    /// A variable that nothing binds.
    UnboundVariable,
    /// Another number of arguments than declared.
    Arity,
    /// A second predicate, method, or task or action of one name.
    DuplicateName,
    /// A variable twice in one list.
    DuplicateVariable,
    /// A label twice in one network.
    DuplicateLabel,
    /// An ordering of a label that its network lacks.
    UnknownLabel,
    /// An ordering in which a subtask stands before itself.
    CyclicOrdering,
    /// No line `==>`.
    NoStart,
    /// No line `<==` after the first `==>`.
    NoEnd,
    /// A line of no form of a plan.
    BadLine,
    /// An id past 18,446,744,073,709,551,615.
    IdTooLarge,
    /// No `root` line.
    NoRoot,
    /// A second `root` line.
    RepeatedRoot,
    /// A line of a certificate that is not of its form.
    BadCertificate,
}

impl FaultKind {
    /// The number under which the fault is reported.
    pub fn number(self) -> u32
        ensures { result ≡ fault_number self }
    {
        match self {
            FaultKind::BadByte => 1,
            FaultKind::Unclosed => 2,
            FaultKind::Unopened => 3,
            FaultKind::TooDeep => 4,
            FaultKind::TooLong => 5,
            FaultKind::NotDefine => 10,
            FaultKind::UnknownSection => 11,
            FaultKind::RepeatedSection => 12,
            FaultKind::MissingSection => 13,
            FaultKind::BadShape => 14,
            FaultKind::Unsupported => 15,
            FaultKind::UnknownType => 20,
            FaultKind::UnknownObject => 21,
            FaultKind::UnknownPredicate => 22,
            FaultKind::UnknownTask => 23,
            FaultKind::UnboundVariable => 24,
            FaultKind::Arity => 25,
            FaultKind::DuplicateName => 26,
            FaultKind::DuplicateVariable => 27,
            FaultKind::DuplicateLabel => 28,
            FaultKind::UnknownLabel => 29,
            FaultKind::CyclicOrdering => 30,
            FaultKind::NoStart => 40,
            FaultKind::NoEnd => 41,
            FaultKind::BadLine => 42,
            FaultKind::IdTooLarge => 43,
            FaultKind::NoRoot => 44,
            FaultKind::RepeatedRoot => 45,
            FaultKind::BadCertificate => 70,
        }
    }

    /// The name under which the fault is reported.
    pub fn name(self) -> &'static str
        ensures { result.now ≡ fault_name self }
    {
        match self {
            FaultKind::BadByte => "BadByte",
            FaultKind::Unclosed => "Unclosed",
            FaultKind::Unopened => "Unopened",
            FaultKind::TooDeep => "TooDeep",
            FaultKind::TooLong => "TooLong",
            FaultKind::NotDefine => "NotDefine",
            FaultKind::UnknownSection => "UnknownSection",
            FaultKind::RepeatedSection => "RepeatedSection",
            FaultKind::MissingSection => "MissingSection",
            FaultKind::BadShape => "BadShape",
            FaultKind::Unsupported => "Unsupported",
            FaultKind::UnknownType => "UnknownType",
            FaultKind::UnknownObject => "UnknownObject",
            FaultKind::UnknownPredicate => "UnknownPredicate",
            FaultKind::UnknownTask => "UnknownTask",
            FaultKind::UnboundVariable => "UnboundVariable",
            FaultKind::Arity => "Arity",
            FaultKind::DuplicateName => "DuplicateName",
            FaultKind::DuplicateVariable => "DuplicateVariable",
            FaultKind::DuplicateLabel => "DuplicateLabel",
            FaultKind::UnknownLabel => "UnknownLabel",
            FaultKind::CyclicOrdering => "CyclicOrdering",
            FaultKind::NoStart => "NoStart",
            FaultKind::NoEnd => "NoEnd",
            FaultKind::BadLine => "BadLine",
            FaultKind::IdTooLarge => "IdTooLarge",
            FaultKind::NoRoot => "NoRoot",
            FaultKind::RepeatedRoot => "RepeatedRoot",
            FaultKind::BadCertificate => "BadCertificate",
        }
    }
}

/// Where in a text a fault stands.
#[derive(Clone, Copy, Debug, PartialEq, Eq)]
pub enum Place {
    /// The fault has no place.
    Nowhere,
    /// A line, counted from 1.
    Line(u32),
    /// A line and a column in bytes, both counted from 1.
    At { line: u32, column: u32 },
}

/// What is wrong with a rejected text, and where.
#[derive(Clone, Copy, Debug, PartialEq, Eq)]
pub struct Fault {
    pub kind: FaultKind,
    pub place: Place,
}

impl Fault {
    /// The fault of a text of more than 268,435,456 bytes, which has no place.
    pub fn too_long() -> Fault
        ensures { result ≡ record { kind = FaultKind.TooLong; place = Place.Nowhere } }
    {
        Fault {
            kind: FaultKind::TooLong,
            place: Place::Nowhere,
        }
    }
}

/// Why a plan fails. Each kind has a number and a name, under which users find it.
#[derive(Clone, Copy, Debug, PartialEq, Eq)]
pub enum CauseKind {
    /// Its lines form no tree that fits the world.
    Tree(TreeKind),
    /// An action's precondition is false before it.
    Inapplicable,
    /// The goal is false at the end.
    GoalFalse,
    /// No matching and no objects fit a node.
    NoBinding,
    /// No choice gives an order that the plan keeps.
    OrderBroken,
    /// No choice has a place for every precondition of a method.
    PreconditionUnplaced,
}

impl CauseKind {
    /// The number under which the cause is reported.
    pub fn number(self) -> u32
        ensures { result ≡ cause_number self }
    {
        match self {
            CauseKind::Tree(kind) => kind.number(),
            CauseKind::Inapplicable => 64,
            CauseKind::GoalFalse => 65,
            CauseKind::NoBinding => 66,
            CauseKind::OrderBroken => 67,
            CauseKind::PreconditionUnplaced => 68,
        }
    }

    /// The name under which the cause is reported.
    pub fn name(self) -> &'static str
        ensures { result.now ≡ cause_name self }
    {
        match self {
            CauseKind::Tree(kind) => kind.name(),
            CauseKind::Inapplicable => "Inapplicable",
            CauseKind::GoalFalse => "GoalFalse",
            CauseKind::NoBinding => "NoBinding",
            CauseKind::OrderBroken => "OrderBroken",
            CauseKind::PreconditionUnplaced => "PreconditionUnplaced",
        }
    }
}

/// Why a plan fails, and the line of the plan that is at fault, counted from 1, where one is.
#[derive(Clone, Copy, Debug, PartialEq, Eq)]
pub struct Cause {
    pub kind: CauseKind,
    pub line: Option<u32>,
}

impl Cause {
    /// A cause at a line.
    pub fn at(kind: CauseKind, line: u32) -> Cause
        ensures { result ≡ cause_at kind line }
    {
        Cause {
            kind,
            line: Some(line),
        }
    }

    /// A cause that no line is named for.
    pub fn nowhere(kind: CauseKind) -> Cause
        ensures { result ≡ cause_nowhere kind }
    {
        Cause { kind, line: None }
    }
}

/// What is said of a plan, without a certificate.
#[derive(Clone, Copy, Debug, PartialEq, Eq)]
pub enum Verdict {
    /// The plan solves the problem.
    Solves,
    /// The plan does not solve the problem, for this cause.
    Fails(Cause),
    /// The node on this line, counted from 1, has more choices than the limit.
    Undecided(u32),
    /// One of the texts is not judged.
    Rejected(Which, Fault),
}

/// What kind of verdict was given.
#[derive(Clone, Copy, Debug, PartialEq, Eq)]
pub enum Kind {
    Solves,
    Fails,
    Undecided,
    Rejected,
}

impl Verdict {
    /// The kind of the verdict.
    pub fn kind(self) -> Kind
        ensures { result ≡ kind_of self }
    {
        match self {
            Verdict::Solves => Kind::Solves,
            Verdict::Fails(_) => Kind::Fails,
            Verdict::Undecided(_) => Kind::Undecided,
            Verdict::Rejected(_, _) => Kind::Rejected,
        }
    }
}

/// A verdict, with the certificate of a plan that solves its problem.
#[derive(Drop)]
pub enum Answer<'s> {
    /// The plan solves the problem, for these choices.
    Solves(Certificate<'s>),
    /// The plan does not solve the problem, for this cause.
    Fails(Cause),
    /// The node on this line, counted from 1, has more choices than the limit.
    Undecided(u32),
    /// One of the texts is not judged.
    Rejected(Which, Fault),
}

impl Answer<'_> {
    /// The verdict, without the certificate.
    pub fn verdict(&self) -> Verdict
        ensures { result ≡ verdict_of self.now }
    {
        match self {
            Answer::Solves(_) => Verdict::Solves,
            Answer::Fails(cause) => Verdict::Fails(*cause),
            Answer::Undecided(line) => Verdict::Undecided(*line),
            Answer::Rejected(which, fault) => Verdict::Rejected(*which, *fault),
        }
    }

    /// The kind of the verdict.
    pub fn kind(&self) -> Kind
        ensures { result ≡ kind_of (verdict_of self.now) }
    {
        self.verdict().kind()
    }
}
