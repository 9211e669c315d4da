//! Position and orientation: which conditions a frame stands for.
#![tactic(auto)]

mod demand;
mod frame;

pub use demand::place_demand;
pub use frame::place_conditions;
