//! Which atoms are true somewhere in a stretch of a plan's states.

ghost use Rattle.std.specs.Prelude.{◌≡◌, ◌<◌, true};
ghost use Rattle.hv_state.specs.Atoms.{atom_read, IsPassedOver};

use crate::atom::AtomView;
use crate::bit_state::BitState;
use crate::changes::Changes;
use crate::history::least;

/// The atoms that are true somewhere in a stretch of a plan's states: from one state on, up to
/// before another.
#[derive(Clone, Copy)]
pub struct EverTrue<'a> {
    pub(crate) first: &'a BitState,
    pub(crate) changes: &'a Changes,
    pub(crate) from: usize,
    pub(crate) end: usize,
    pub(crate) ghost some: { from < end },
}

impl EverTrue<'_> {
    ghost use Rattle.hv_state.specs.Ever.{ever_rows, is_listed};

    /// Whether an atom is true somewhere in the stretch. It is looked up, and not worked out.
    pub fn has(&self, atom: &AtomView<'_>) -> bool
        ensures { result ≡ is_listed (ever_rows self.now) (atom_read atom.now) }
    {
        self.changes
            .is_true_in(self.first, atom, self.from, self.end)
    }

    /// The first number, from that of an atom's last object on, with which in its place the atom
    /// may be true in the stretch. Nothing is worked out for it either, and it may be told too low.
    pub fn next_possible(&self, atom: &AtomView<'_>) -> usize
        ensures { IsPassedOver (λ g. is_listed (ever_rows self.now) g ≡ true)
            (atom_read atom.now) result }
    {
        let known = self.first.next_known(atom);
        if known == 0 {
            return 0;
        }
        least(known, self.changes.next_touched(atom))
    }
}
