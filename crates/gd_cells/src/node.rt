// A line of a tree of cells.
ghost use Rattle.std.specs.Prelude.{◌≡◌};
ghost use Rattle.gd_cells.specs.Nodes.{is_refuted};

use crate::cell::Evidence;

/// A line of a tree of cells in preorder.
#[derive(Clone, Copy, Debug, PartialEq, Eq)]
pub enum Node {
    /// The cell was halved: the lines of its lower half follow, then those of its upper half.
    Split,
    /// This evidence refutes the cell.
    Refuted(Evidence),
    /// Left undecided: nothing refutes the cell, and it lies at the level to which the tree goes.
    Left,
}

impl Node {
    /// Whether it is the line of a refuted cell.
    pub fn is_refuted(&self) -> bool
        ensures { result ≡ is_refuted self.now }
    {
        matches!(self, Node::Refuted(_))
    }
}
