//! The scales of numbers on the grid. Clauses cite `specs/Scales.antt`, which has the same numbers.

/// 1 as a ratio. Ratios are in 2^-30.
pub const ONE: i64 = 1 << 30;

/// One unit of 0.1 micrometre in fine units, which are 2^-16 of a unit.
pub const FINE: i64 = 1 << 16;
