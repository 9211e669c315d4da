//! A small task for tests, whose verdicts are worked by hand.
#![tactic(auto)]

mod toy;

pub use toy::{Toy, Watch};
