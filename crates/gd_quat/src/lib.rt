//! Rotations of a part, and where its points go.
#![tactic(auto)]

mod entries;
mod images;
mod laws;
mod matrices;
mod shape;

pub use images::{grid_box, image_box, leading_at, moved, point_box, turned};
pub use laws::{boxes_hold_and_nest, rotations_keep_shape};
pub use matrices::matrix;
pub use shape::{Assignment, MatrixBox, Ratios, RotationBox, VecBox};
