//! What is given of the nodes of a plan.
ghost use Rattle.std.specs.Prelude.{◌≡◌, ◌<◌, ◌≤◌, ℕ, IfOk};
ghost use Rattle.hv_order.specs.inside.Arrangements.{arrangement_of};
ghost use Rattle.hv_order.specs.inside.Facts.{Facts, IsFirstTrue};
ghost use Rattle.hv_order.specs.inside.Nodes.{AreAllOf};

use crate::frame::Candidates;
use crate::memory::Memory;
use crate::told::Told;
use crate::trial::{Arranged, Stretch};
use std::alloc::Global;

/// The nodes of a plan, with their candidates, and where the preconditions of these are true.
pub trait Nodes {
    type Left: Candidates + Drop;

    // What the candidates of one node are written down in, and then those of the next. No answer
    // hangs on what stands there.
    type Room: Drop;

    ghost facts: { Self → Facts };

    // How many nodes there are.
    ghost size: { Self → ℕ };

    /// The last state of the plan.
    fn last(&self) -> u32
        ensures last { result ≡ (facts self.now).last }
        ensures small { result < 4294967295 };

    /// Candidates of a node: where it fits with any candidate from a start on, it does
    /// with one of these. They are written down in `room`, where some is at hand.
    fn candidates(
        &self,
        alloc: Global,
        room: Option<Self::Room>,
        node: usize,
        start: u32,
    ) -> Result<Self::Left, Memory>
        requires node { node < size self.now }
        requires start { start ≤ (facts self.now).last }
        ensures { IfOk result
            (λ all. AreAllOf (facts self.now) node start (Self.Left.left all)) };

    /// What candidates are written down in, where no more of them are wanted.
    fn take_back(&self, left: Self::Left) -> Self::Room;

    /// A state that a node is over no earlier than, whatever its start.
    fn earliest(&self, node: u32) -> u32
        requires node { node < size self.now }
        ensures { (s f : ℕ) → (facts self.now).fits node s f → result ≤ f };

    /// How a node's children are laid out from a start on, whatever candidate is taken, as far as
    /// that is told without one, and there are nodes among them. It is asked for to save time, and
    /// no answer hangs on it.
    fn told(&self, node: u32, start: u32) -> Option<Told>;

    /// The first index from `from` to `upto` at which a candidate's precondition is true, and one
    /// up to which it stays true.
    fn first_true(&self, candidate: &Arranged, from: u32, upto: u32) -> Option<Stretch>
        ensures { IsFirstTrue ((facts self.now).holds (arrangement_of candidate.now)) from upto
            result };
}
