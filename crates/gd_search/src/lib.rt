//! The search of a task by levels of cells.
#![tactic(auto)]

mod halves;
mod judge;
mod outcome;
mod row;
mod tree;

pub use judge::search;
pub use outcome::Outcome;
