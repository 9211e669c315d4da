//! Decides a certificate anew, from the tasks of the same files.
#![tactic(auto)]

mod answer;
mod decide;
mod group;
mod laws;
mod rule;
mod tree;

pub use answer::CheckAnswer;
pub use decide::check;
pub use laws::show_verdict_is_right;
pub use rule::Rule;
