//! The four forms of a feature as one task: flatness, straightness, circularity and cylindricity.
#![tactic(auto)]

mod form;
mod maker;
mod task;

pub use form::{FormDef, FormTask};
pub use maker::form_task;
