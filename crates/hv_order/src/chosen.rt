//! What is chosen for each node: the candidate by which it stands.

ghost use Rattle.std.specs.Prelude.{IfOk};
ghost use Rattle.hv_order.specs.inside.Chosen.{DoAllStand, IsChosenOf, AreChosenBy};

use crate::certify::Chosen;
use crate::memory::Memory;
use crate::walk::Stand;
use std::alloc::Global;

/// What the candidate says by which a node stands, with the index of the precondition.
pub fn chosen_by(stand: &Stand) -> Chosen<'_>
    ensures { IsChosenOf stand.now result }
{
    Chosen {
        children: &stand.winner.children,
        objects: &stand.winner.objects,
        at: stand.at,
    }
}

/// What is chosen for each node, by its number, where all of them stand.
pub fn choose(alloc: Global, stands: &[Option<Stand>]) -> Result<Vec<Chosen<'_>>, Memory>
    requires { DoAllStand stands.now }
    ensures { IfOk result (λ chosen. AreChosenBy stands.now chosen.items) }
{
    let mut chosen = Vec::with_capacity(alloc, stands.len())?;
    for stand in stands {
        match stand {
            Some(stand) => chosen.push(chosen_by(stand))?,
            None => unreachable!(),
        }
    }
    Ok(chosen)
}
