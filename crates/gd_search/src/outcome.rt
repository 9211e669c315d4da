// How a search ends.
use gd_base::Counts;
use gd_cells::{Node, Witness};

/// How a search ends. Levels count how often cells were halved, from 0 on.
///
/// A tree has the lines of all roots, in order. The evidence of a refuted cell is the first that refutes it.
#[derive(Debug, Drop)]
pub enum Outcome {
    /// At this level the centre of a cell is the first that holds.
    Accept { witness: Witness, level: u32 },
    /// Every cell was refuted.
    Reject { tree: Vec<Node> },
    /// Neither: where the search stood when it stopped.
    StillOpen { tree: Vec<Node>, counts: Counts },
}
