//! The check of a certificate that is given.

ghost use Rattle.std.specs.Prelude.{◌≡◌, ◌<◌, ◌+◌, None, false, length, option_map, IfOk, IfErr};
ghost use Rattle.hv_world.specs.WorldViews.{world_view};
ghost use Rattle.hv_plan.specs.LineViews.{plan_view};
ghost use Rattle.hv_match.specs.Candidates.{Tells};
ghost use Rattle.hv_order.specs.Settings.{HasNoPrecondition};
ghost use Rattle.hv_judge.specs.Checked.{Checked, IsCheckFault, CountsFormulas, TellsLine, count_of};
ghost use Rattle.hv_judge.specs.Solutions.{SolvesBy};

use crate::judgement::{first_too_long, read_world};
use crate::not_solved::NotSolved;
use crate::rejection::reported_cert;
use crate::verdict::tree_of;
use hv_answer::{Fault, Which};
use hv_certificate::{CertFault, Certificate};
use hv_match::counts_are_one;
use hv_order::certified_plans::certified_plans_are_solved;
use hv_order::check::certifies;
use hv_plan::{
    PlanFault, PlanText, TreeFault, a_plan_has_one_tree, a_tree_or_a_cause, plans_are_small,
    read_plan,
};
use hv_state::{BitState, Stop, Trace};
use hv_text::Memory;
use hv_world::World;
use std::alloc::Global;

/// What the check of a certificate found.
#[derive(Clone, Copy, Debug, PartialEq, Eq)]
pub struct Recheck {
    /// Whether the plan solves the problem by the certificate.
    pub certified: bool,
    /// How many formulas were evaluated: the preconditions of actions and of the methods of
    /// decomposition lines, and the goal.
    pub evaluated: u64,
}

/// What the check of a certificate found, with the line that tells it.
#[derive(Clone, Copy, Debug, PartialEq, Eq)]
pub struct Examined {
    /// Whether the plan solves the problem by the certificate, and how many formulas tell that.
    pub recheck: Recheck,
    /// Where it does not, a line of the certificate's text that does not fit, counted from 1. None
    /// where the plan by itself solves the problem by no certificate: its lines form no tree, an
    /// action is not applicable, or the goal is not true behind the last.
    pub misfit: Option<u64>,
}

impl Examined {
    // No certificate helps the plan; so many formulas told that.
    fn no_plan(evaluated: u64) -> Examined
        ensures certified { result.recheck.certified ≡ false }
        ensures evaluated { result.recheck.evaluated ≡ evaluated }
        ensures misfit { result.misfit ≡ None }
    {
        Examined {
            recheck: Recheck {
                certified: false,
                evaluated,
            },
            misfit: None,
        }
    }
}

// The line of a certificate's text for a place in the order of nodes: the first line is `solves`.
fn text_line(place: Option<u32>) -> Option<u64>
    ensures { result ≡ option_map (λ p. p + 2) place }
{
    match place {
        Some(place) => Some(u64::from(place) + 2),
        None => None,
    }
}

/// Why it is not said whether a certificate is right.
#[derive(Clone, Copy, Debug, PartialEq, Eq)]
pub enum CheckFault {
    /// One of the texts is rejected.
    Rejected(Which, Fault),
    /// A growth of memory was refused.
    Memory,
}

impl From<Memory> for CheckFault {
    ghost use Rattle.hv_judge.specs.declared.checking.CheckFault.TheVariants as faults;

    ghost from_gives = { λ _ e. e ≡ faults.Memory };

    fn from(_refused: Memory) -> CheckFault {
        CheckFault::Memory
    }
}

impl From<NotSolved> for CheckFault {
    ghost use Rattle.hv_judge.specs.inside.CheckEnds.{check_end};

    ghost from_gives = { λ f e. e ≡ check_end f };

    fn from(end: NotSolved) -> CheckFault {
        match end {
            NotSolved::Rejected(which, fault) => CheckFault::Rejected(which, fault),
            _ => CheckFault::Memory,
        }
    }
}

impl From<PlanFault> for CheckFault {
    ghost use Rattle.hv_judge.specs.inside.Ends.{plan_end};
    ghost use Rattle.hv_judge.specs.inside.CheckEnds.{check_end};

    ghost from_gives = { λ f e. e ≡ check_end (plan_end f) };

    fn from(fault: PlanFault) -> CheckFault {
        CheckFault::from(NotSolved::from(fault))
    }
}

impl From<CertFault> for CheckFault {
    ghost use Rattle.hv_judge.specs.inside.CheckEnds.{cert_end};

    ghost from_gives = { λ f e. e ≡ cert_end f };

    fn from(fault: CertFault) -> CheckFault {
        match reported_cert(fault) {
            Some(fault) => CheckFault::Rejected(Which::Certificate, fault),
            None => CheckFault::Memory,
        }
    }
}

// How many goals a world has: one, or none.
fn goal_count(world: &World<'_>) -> u64
    ensures { result ≡ count_of (world_view world.now).goal }
{
    match world.goal() {
        Some(_) => 1,
        None => 0,
    }
}

// Whether a plan solves the problem of a world by a certificate. The precondition of each action
// is evaluated, then the goal, and then those of the methods.
pub(crate) fn check_plan<'s>(
    alloc: Global,
    world: &World<'s>,
    plan: PlanText<'s>,
    certificate: &Certificate<'s>,
) -> Result<Examined, Memory>
    requires top { HasNoPrecondition (world_view world.now) }
    requires small { length (plan_view plan).actions
        + length (plan_view plan).decompositions < 4294967295 }
    ensures certified { IfOk result (λ found.
        Tells (SolvesBy (world_view world.now) (plan_view plan.entry) certificate.now)
        found.recheck.certified) }
    ensures evaluated { IfOk result (λ found.
        CountsFormulas (world_view world.now) (plan_view plan.entry) found.recheck) }
    ensures line { IfOk result (λ found.
        TellsLine (world_view world.now) (plan_view plan.entry) certificate.now
        found.recheck.certified found.misfit) }
{
    a_plan_has_one_tree();
    a_tree_or_a_cause();
    counts_are_one();
    certified_plans_are_solved();
    let tree = match tree_of(alloc, world, plan) {
        Ok(tree) => tree,
        Err(TreeFault::Cause(_)) => return Ok(Examined::no_plan(0)),
        Err(TreeFault::Memory) => return Err(Memory),
    };
    let trace = match Trace::<BitState>::run(alloc, world, tree.actions()) {
        Ok(trace) => trace,
        Err(Stop::Inapplicable(action)) => return Ok(Examined::no_plan(action as u64 + 1)),
        Err(Stop::Memory) => return Err(Memory),
    };
    let evaluated = tree.actions().len() as u64 + goal_count(world);
    if !trace.goal_holds() {
        return Ok(Examined::no_plan(evaluated));
    }
    match certifies(alloc, world, &tree, &trace, certificate) {
        Ok(found) => Ok(Examined {
            recheck: Recheck {
                certified: found.misfit.is_none(),
                evaluated: evaluated + found.evaluated,
            },
            misfit: text_line(found.misfit),
        }),
        Err(_) => Err(Memory),
    }
}

/// Checks one certificate: whether the plan solves the problem of the domain by the choices and the
/// indices that it says. Nothing is searched, and no limit plays a part. A plan whose lines form no
/// tree is solved by no certificate.
///
/// # Errors
///
/// `Rejected` where one of the texts is, as `judge` says it; `Memory` where a growth was refused.
pub fn check<'s>(
    alloc: Global,
    domain: &'s [u8],
    problem: &'s [u8],
    plan: &'s [u8],
    certificate: &Certificate<'s>,
) -> Result<bool, CheckFault>
    ensures ok { IfOk result
        (Checked domain.entry.now problem.entry.now plan.entry.now certificate.now) }
    ensures err { IfErr result (IsCheckFault domain.entry.now problem.entry.now plan.entry.now) }
{
    plans_are_small();
    if let Some(which) = first_too_long(domain, problem, plan) {
        return Err(CheckFault::Rejected(which, Fault::too_long()));
    }
    let world = read_world(alloc, domain, problem)?;
    let plan = read_plan(alloc, plan)?;
    let found = check_plan(alloc, &world, plan, certificate)?;
    Ok(found.recheck.certified)
}
