// A certificate: what was found of each group of requirements, so that it can be decided anew.
use gd_base::{Counts, Name2};
use gd_cells::Node;

/// What the verdicts of a certificate are for.
#[derive(Debug, Drop)]
pub enum Head {
    /// The requirements with their written tolerances.
    Plain,
    /// One requirement, by its name, at another tolerance in units of 0.1 micrometre.
    Probe { name: Name2, tolerance: u32 },
}

/// The verdict of a group, with what shows it. Levels count how often cells were halved, from 0 on.
///
/// A tree has the lines of all roots in preorder.
#[derive(Debug, Drop)]
pub enum CertBody {
    /// A witness: a root from 1, and its numbers, ratios in 2^-30 and lengths in fine units of 2^-16.
    Accept { root: u32, at: Vec<i64> },
    /// A tree whose leaves are refuted. It has no undecided cell.
    Reject { tree: Vec<Node> },
    /// Where the search stopped, and the tree down to that level.
    StillOpen { counts: Counts, tree: Vec<Node> },
}

/// A group of a certificate, and the line, from 1, on which its text begins.
#[derive(Debug, Drop)]
pub struct CertGroup {
    pub line: u32,
    pub body: CertBody,
}

/// A certificate: its head, the budget that each group had, how many groups it tells of, and the groups.
#[derive(Debug, Drop)]
pub struct Cert {
    pub head: Head,
    pub share: u32,
    pub told: u32,
    pub groups: Vec<CertGroup>,
}
