//! The nodes of a plan by number, and what stands below each.

ghost use Rattle.std.specs.Prelude.{◌≡◌, ◌+◌, ◌<◌, ◌^◌, All, length};

use crate::tree::Child;
use hv_text::Lists;

/// What stands below what in a plan. Each decomposition line has a node, with a number less than
/// that of the line that names it as a child; the last node is that of the root line.
#[derive(Drop)]
pub(crate) struct Shape {
    /// The number of the node of the root line.
    pub(crate) root: u32,
    /// The place in the list of decomposition lines of each node below that of the root line,
    /// children before parents.
    pub(crate) lines: Vec<u32>,
    /// The number of the node of each decomposition line.
    pub(crate) numbers: Vec<u32>,
    /// The children of each node by number; those of the root line come last.
    pub(crate) children: Lists<Child>,
    ghost last: { root ≡ length lines.items },
    ghost short: { root + 1 < 2 ^ 32 },
    ghost below: { All (λ v. v < root) numbers.items },
}
