// A cell of the grid, a witness, and what refutes a cell.

/// A cell has so many coordinates at most, and a witness so many numbers.
pub const MOST_DIMS: usize = 12;

/// A cell: a root from 1, how often it was halved, and the index of each coordinate among the boxes of its size.
/// Coordinates that the task doesn't have are 0.
#[derive(Clone, Copy, Debug, PartialEq, Eq)]
pub struct Cell {
    pub root: u32,
    pub level: u32,
    pub index: [u64; MOST_DIMS],
}

/// A place of the grid: a root from 1 and the numbers of the task, in its units: ratios in 2^-30, lengths in fine units.
/// 0 stands after the numbers that the task has.
#[derive(Clone, Copy, Debug, PartialEq, Eq)]
pub struct Witness {
    pub root: u32,
    pub at: [i64; MOST_DIMS],
}

/// What refutes a cell: a condition by its number from 1, and up to two points by their numbers from 1. 0 stands for a
/// point that isn't used.
#[derive(Clone, Copy, Debug, PartialEq, Eq)]
pub struct Evidence {
    pub condition: u32,
    pub a: u32,
    pub b: u32,
}
