//! Cells of a grid, and what a search asks of a task.
#![tactic(auto)]

mod cell;
mod grid;
mod laws;
mod node;
mod task;
mod witness;

pub use cell::{Cell, Evidence, MOST_DIMS, Witness};
pub use grid::{root_cell, split_cell};
pub use laws::show_laws;
pub use node::Node;
pub use task::Task;
pub use witness::{witness_of, zeros_behind};
