//! The texts that a run prints, and the endings that go with them.
#![tactic(auto)]

mod as_json;
mod ending;
mod group;
mod line;
mod verdicts;

pub use as_json::json_report;
pub use ending::Ending;
pub use group::{GroupVerdict, group_line, text_report};
pub use line::{Line, cannot_read_line, input_line, invalid_line, valid_line, wrong_words_line};
pub use verdicts::{accept_line, open_line, reject_line};
