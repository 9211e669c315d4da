//! What refutes a condition over a box of placements: evidence, and the first of it.
#![tactic(auto)]

mod evidence;
mod finding;
mod laws;
mod outside;
mod pair;
mod threshold;

pub use evidence::bound_at;
pub use finding::bound;
pub use laws::bounds_are_sound;
pub use pair::Pair;
