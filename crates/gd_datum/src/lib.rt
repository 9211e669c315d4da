//! Datum words: which conditions a datum of a frame stands for.
#![tactic(auto)]

mod demand;
mod each;
mod groups;
mod surface;
mod word;

pub use demand::{at_least, at_most};
pub use each::{append_each, on_group};
pub use groups::groups_of;
pub use surface::nominal_surface;
pub use word::datum_conditions;
