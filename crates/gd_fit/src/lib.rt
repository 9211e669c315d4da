//! A group of conditions as a task: is there a placement at which all of them hold?
#![tactic(auto)]

mod boxes;
mod evidence;
mod laws;
mod task;

pub use laws::fits_are_meant;
pub use task::{PlacementTask, placement_task};
