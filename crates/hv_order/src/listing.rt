//! The candidates of a node of a plan's tree, arranged one after another.
ghost use Rattle.std.specs.Prelude.{◌≡◌, ◌<◌, length, map, option_map, IfOk};
ghost use Rattle.hv_world.specs.Bindings.{object_number};
ghost use Rattle.hv_state.specs.Ever.{ever_rows};
ghost use Rattle.hv_plan.specs.BuiltTrees.{tree_view};
ghost use Rattle.hv_plan.specs.PlanTrees.{IsTreeIn};
ghost use Rattle.hv_order.specs.inside.Arrangements.{arrangement_of};
ghost use Rattle.hv_order.specs.inside.Children as inside;
ghost use Rattle.hv_order.specs.inside.Listers.{ListsAll, arranged_with};
ghost use Rattle.hv_order.specs.inside.Sequencings.{IsSequencingAt};
ghost use Rattle.hv_order.specs.inside.Spans.{AreSpans};

use crate::frame::Candidates;
use crate::lister::Lister;
use crate::memory::Memory;
use crate::node_methods::node_of;
use crate::sequencing::Sequencing;
use crate::spans::{Spans, child_at};
use crate::trial::Arranged;
use hv_match::{CandidateRoom, Candidates as Matchings, Matcher};
use hv_plan::{Child, Tree};
use hv_state::EverTrue;
use std::alloc::Global;
use std::rc::Rc;

// The children at these places.
fn children_at(alloc: Global, children: &[Child], places: &[u32]) -> Result<Vec<Child>, Memory>
    ensures { IfOk result (λ v. v.items ≡ map (inside.child_at children.now) places.now) }
{
    let mut found = Vec::with_capacity(alloc, places.len())?;
    for place in places {
        found.push(child_at(children, *place as usize))?;
    }
    Ok(found)
}

/// All candidates of a node of a tree of the matcher's world, whose method has this sequencing,
/// with their children in order by these spans; where it is told which atoms are true in a stretch
/// of states, those whose precondition needs another are left out. They are written down in `room`.
pub(crate) fn candidates_of<'a>(
    alloc: Global,
    room: CandidateRoom<'a>,
    matcher: &'a Matcher<'_>,
    tree: &'a Tree,
    number: u32,
    sequencing: Rc<Sequencing>,
    spans: Rc<Spans>,
    ever: Option<EverTrue<'a>>,
) -> Result<Lister<'a>, Memory>
    requires tree { IsTreeIn matcher.now (tree_view tree.now) }
    requires number { number < length (tree_view tree.now).nodes }
    requires sequencing { IsSequencingAt matcher.now (tree_view tree.now) number
        sequencing.value }
    requires spans { AreSpans (tree_view tree.now) spans.value }
    ensures { IfOk result (ListsAll matcher.now (tree_view tree.now) number
        (option_map ever_rows ever.entry)) }
{
    let node = node_of(tree, number);
    Ok(Lister {
        alloc,
        node: number,
        children: node.children(),
        sequencing,
        spans,
        coming: Matchings::new(alloc, room, matcher, tree, number, ever)?,
        given: 0,
    })
}

impl Lister<'_> {
    // The candidate that is lent, with these children for its subtasks.
    fn arranged(&self, children: Vec<Child>) -> Result<Arranged, Memory>
        ensures { IfOk result (λ c. arrangement_of c ≡ arranged_with self.now children.items) }
    {
        Ok(Arranged {
            node: self.node,
            objects: Vec::from_slice(self.alloc, self.coming.objects())?,
            children,
            sequencing: self.sequencing.clone()?,
        })
    }
}

impl Candidates for Lister<'_> {
    ghost use Rattle.hv_order.specs.inside.Listers.{still_listed};

    ghost left = { still_listed };

    fn next(&mut self) -> Result<Option<Arranged>, Memory> {
        while self.coming.advance()? {
            let children = children_at(self.alloc, self.children, self.coming.children())?;
            match self.spans.stuck(&children, &self.sequencing.direct) {
                Some(last) => self.coming.pass_over(last),
                None => {
                    self.given = self.given.saturating_add(1);
                    return Ok(Some(self.arranged(children)?));
                }
            }
        }
        Ok(None)
    }

    fn is_at_first(&self) -> bool {
        self.given <= 1
    }
}
