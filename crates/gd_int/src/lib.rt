//! Exact whole-number arithmetic: quotients rounded down and up, roots, and comparisons with a root.
#![tactic(auto)]

mod division;
mod roots;

pub use division::{div_ceil, div_floor};
pub use roots::{cmp_root, isqrt_ceil, isqrt_floor};
