// The tree of a verdict.
ghost use Rattle.std.specs.Prelude.{◌≡◌};
ghost use Rattle.gd_verdict.specs.Trees.{leaves_of};

use gd_cells::Node;

/// How many cells of a tree are refuted.
pub fn leaves(tree: &[Node]) -> usize
    ensures { result ≡ leaves_of tree.now }
{
    tree.iter().filter(|node| node.is_refuted()).count()
}
