//! What lists the candidates of a node of a plan's tree: those that are still to come.
ghost use Rattle.std.specs.Prelude.{length};
ghost use Rattle.hv_order.specs.inside.Spans.{ArePlacings};

use crate::sequencing::Sequencing;
use crate::spans::Spans;
use hv_match::Candidates as Matchings;
use hv_plan::Child;
use std::alloc::Global;
use std::rc::Rc;

/// The candidates of a node that are still to come and have their children in the order of
/// their subtasks. They share what hangs on the method alone, and where in the plan the nodes'
/// actions stand.
#[derive(Drop)]
pub struct Lister<'a> {
    pub(crate) alloc: Global,
    pub(crate) node: u32,
    pub(crate) children: &'a [Child],
    pub(crate) sequencing: Rc<Sequencing>,
    pub(crate) spans: Rc<Spans>,
    pub(crate) coming: Matchings<'a>,
    pub(crate) given: u32,
    pub(crate) ghost placings: { ArePlacings (length children.now) coming.coming },
}
