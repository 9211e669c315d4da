//! The verdict of a task at a budget, and what it says of the task's assignments.
#![tactic(auto)]

mod laws;
mod tree;

pub use laws::show_verdict_means;
pub use tree::leaves;
