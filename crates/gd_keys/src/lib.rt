//! What may stand at the keys of a frame file's tables, and the rules that a frame file keeps.
#![tactic(auto)]

mod content;
mod document;
mod key;
mod list;
mod rule;

pub use content::{again, name_in, number_in, text_in, three_in, truth_in};
pub use document::read_document;
pub use key::{needed, number_or, only_keys, optional_number, optional_three, value_at};
pub use list::{tables_in, texts_in};
pub use rule::{KeyFault, Rule};
