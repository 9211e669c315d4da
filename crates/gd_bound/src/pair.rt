// What evidence says of points.

/// Two points by their numbers in the table, from 1. 0 stands for a point that isn't used.
#[derive(Clone, Copy, Debug, PartialEq, Eq)]
pub struct Pair {
    pub a: u32,
    pub b: u32,
}
