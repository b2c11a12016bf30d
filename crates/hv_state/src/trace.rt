//! The states that a plan passes.

ghost use Rattle.std.specs.Prelude.{◌≡◌, ◌≤◌, ◌<◌, ◌↔◌, ◌+◌, ℕ, length};
ghost use Rattle.std.specs.Prelude.{IsTrue, IfOk, IfErr, MatchOption};
ghost use Rattle.hv_world.specs.Views.{formula_view};
ghost use Rattle.hv_world.specs.Bindings.{objects_in};
ghost use Rattle.hv_state.specs.Plans.{Plan, plan_of, IsTrueAt, CanRun, IsStop, GoalHolds};
ghost use Rattle.hv_state.specs.Changes.{IsNextChange, AreFalse, IsFirstTrue};
ghost use Rattle.hv_state.specs.Ever.{HasAllEver, ever_rows};

use crate::bit_state::BitState;
use crate::changes::{Changes, Moment};
use crate::evaluate::evaluate;
use crate::ever::EverTrue;
use crate::ground::GroundAtoms;
use crate::next::next_change;
use crate::pass::pass;
use crate::state::State;
use hv_text::Memory;
use hv_world::{Binding, Formula, GroundActions, World};
use std::alloc::Global;
use std::marker::Model;

/// Why a plan does not run.
#[derive(Clone, Copy, Debug, PartialEq, Eq)]
pub enum Stop {
    /// The action of this number, from 0, is the first that is not applicable.
    Inapplicable(usize),
    /// Memory ran out.
    Memory,
}

impl From<Memory> for Stop {
    ghost use Rattle.hv_state.specs.declared.trace.Stop.TheVariants as stops;

    ghost from_gives = { λ _ e. e ≡ stops.Memory };

    fn from(_refused: Memory) -> Stop {
        Stop::Memory
    }
}

/// A plan that runs: what is true at its start, and each change on its way.
#[derive(Drop)]
pub struct Trace<'a, S: State> {
    world: &'a World<'a>,
    actions: &'a GroundActions,
    first: S,
    changes: Changes,
}

impl<'a, S: State> Model for Trace<'a, S> {
    ghost use Rattle.std.specs.Coded.{codes};
    ghost use Rattle.hv_world.specs.Codes.{formula_code, effects_code};
    ghost use Rattle.hv_state.specs.Plans.{Plan, plan_of};
    ghost use Rattle.hv_state.specs.inside.Notes.{IsRecorded};

    ghost Value = { Plan };

    ghost coded = { Prim.hlevel (codes, formula_code, effects_code) };

    ghost view = { λ t. plan_of t.world.now t.actions.now };

    ghost invariant = { λ t.
        IsRecorded (plan_of t.world.now t.actions.now) (S.atoms t.first) t.changes };
}

impl Trace<'_, BitState> {
    /// The atoms that are true somewhere in a stretch of the plan's states: after `from` actions,
    /// or more, but fewer than `end`.
    pub fn ever_true(&self, from: usize, end: usize) -> EverTrue<'_>
        requires some { from < end }
        requires within { from ≤ length self.now.actions }
        ensures { HasAllEver self.now from end (ever_rows result) }
    {
        EverTrue {
            first: &self.first,
            changes: &self.changes,
            from,
            end,
        }
    }
}

impl<'a, S: State> Trace<'a, S> {
    /// Runs a plan.
    ///
    /// # Errors
    ///
    /// `Inapplicable` at the first action that is not applicable, which is also one that the world
    /// does not have; and `Memory` where a growth was refused, or at an action behind 2^31 - 1
    /// others, since changes are kept with the index of 31 bits that they are at.
    pub fn run(
        alloc: Global,
        world: &'a World<'a>,
        actions: &'a GroundActions,
    ) -> Result<Trace<'a, S>, Stop>
        ensures plan { IfOk result (λ t. t ≡ plan_of world.now actions.now) }
        ensures ran { IfOk result (λ _. CanRun (plan_of world.now actions.now)) }
        ensures stop { IfErr result (IsStop (plan_of world.now actions.now)) }
    {
        let touched = GroundAtoms::touched(alloc, world, actions)?;
        let first = S::initial_for(alloc, world, &touched)?;
        let mut changes = Changes::none(alloc, touched.into_rows())?;
        for number in 0..actions.len() {
            if !pass(world, &actions.at(number), &first, &mut changes, number + 1)? {
                return Err(Stop::Inapplicable(number));
            }
        }
        Ok(Trace {
            world,
            actions,
            first,
            changes,
        })
    }

    /// Whether a formula is true after the first `k` actions.
    pub fn holds_at(&self, k: usize, formula: &Formula, binding: &Binding<'_>) -> bool
        requires { k ≤ length self.now.actions }
        ensures { IsTrue result ↔ IsTrueAt self.now k formula.now binding.now }
    {
        let moment = Moment {
            first: &self.first,
            changes: &self.changes,
            index: k,
        };
        evaluate(self.world, &moment, formula, binding)
    }

    /// The first index after `k` at which an atom changes that a formula speaks of, or one past the
    /// last. Until there the formula stays as it is after `k` actions.
    pub fn unchanged_until(&self, k: usize, formula: &Formula, binding: &Binding<'_>) -> usize
        requires { k ≤ length self.now.actions }
        ensures next { IsNextChange self.now k
            (formula_view formula.now) (objects_in binding.now) result }
        ensures same { (j : ℕ) → k ≤ j → j < result → IsTrueAt self.now j formula.now binding.now
            ↔ IsTrueAt self.now k formula.now binding.now }
    {
        next_change(
            self.world,
            &self.changes,
            k,
            self.actions.len() + 1,
            formula,
            binding,
        )
    }

    /// The first index between two, both with, at which a formula is true, and the last one up to
    /// which no atom changes then that it speaks of, so that it stays true.
    pub fn first_true(
        &self,
        from: usize,
        upto: usize,
        formula: &Formula,
        binding: &Binding<'_>,
    ) -> Option<(usize, usize)>
        requires { upto ≤ length self.now.actions }
        ensures { MatchOption result
            (AreFalse self.now (formula_view formula.now) (objects_in binding.now) from (upto + 1))
            (λ r. IsFirstTrue self.now (formula_view formula.now) (objects_in binding.now)
            from upto r.0 r.1) }
    {
        let mut at = from;
        while at <= upto {
            let until = self.unchanged_until(at, formula, binding);
            if self.holds_at(at, formula, binding) {
                return Some((at, until - 1));
            }
            at = until;
        }
        None
    }

    /// Whether the goal of the world is true after all actions. It is where there is none.
    pub fn goal_holds(&self) -> bool
        ensures { IsTrue result ↔ GoalHolds self.now }
    {
        match self.world.goal() {
            Some(formula) => self.holds_at(self.actions.len(), formula, &Binding::Given(&[])),
            None => true,
        }
    }
}
