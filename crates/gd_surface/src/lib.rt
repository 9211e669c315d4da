//! Profile and runout: which conditions a frame stands for.
#![tactic(auto)]

mod demand;
mod frame;
mod row;

pub use demand::surface_demand;
pub use frame::surface_conditions;
