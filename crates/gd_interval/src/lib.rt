//! Outward intervals of whole numbers: each result holds the exact result at all members of its arguments.
#![tactic(auto)]

mod arith;
mod division;
mod ends;
mod iv;
mod laws;
mod roots;

pub use arith::{add, mul, scale, square, sub};
pub use division::{narrow, quot};
pub use ends::{greatest, least, minus, times};
pub use iv::{Iv, between, point};
pub use laws::results_nest;
pub use roots::{root, root_above, root_below};
