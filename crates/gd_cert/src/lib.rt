//! Certificates of verdicts, and their text.
#![tactic(auto)]

mod cert;
mod draft;
mod fault;
mod laws;
mod lengths;
mod line;
mod number;
mod read;
mod rule;
mod stage;
mod title;
mod word;
mod write;

pub use cert::{Cert, CertBody, CertGroup, Head};
pub use fault::{CertFault, CertReadFault};
pub use laws::texts_differ;
pub use lengths::{
    show_groups_lie_within, show_kept_lines_lie_within, show_lines_are_few,
    show_one_group_is_short, show_texts_are_short,
};
pub use read::read_cert;
pub use write::write_cert;
