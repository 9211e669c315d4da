//! The verdicts of several tasks that share a budget, and the certificate of all.
#![tactic(auto)]

mod body;
mod judge;

pub use body::{body_of_outcome, verdict_of_outcome};
pub use judge::{Judgement, judge_tasks};
