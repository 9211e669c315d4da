//! Vectors of three whole numbers, and their exact differences and products.
#![tactic(auto)]

mod vector;

pub use vector::{V3, cross, dot, norm_sum, norm2, sub};
