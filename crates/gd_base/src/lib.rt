//! Words that every crate of gdteval shares: names, numerals, faults, verdicts, statuses, limits and scales.
#![tactic(auto)]

mod fault;
pub mod limits;
mod name;
mod numeral;
pub mod scales;
mod verdict;

pub use fault::{InputFault, Memory, ReadFault};
pub use name::{Name, Name2};
pub use numeral::{is_digit, plain_number};
pub use verdict::{Counts, Reason, Status, Verdict};
