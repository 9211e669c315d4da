//! Directions by the cells of three faces of a cube.
#![tactic(auto)]

mod boxes;
mod forms;
mod laws;
mod places;
mod ratio;
mod shape;

pub use boxes::{centre_of, direction, face_box};
pub use forms::{dir_box, leading_axis, offset_at};
pub use laws::{faces_cover, forms_cover};
pub use places::{form_centre, form_dims, form_finest_level, form_roots, is_form_in_range};
pub use shape::{DirBox, FormShape};
