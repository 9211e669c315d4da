//! The boxes of a cell, coordinate by coordinate.
#![tactic(auto)]

mod boxes;
mod coordinate;
mod laws;
mod places;
mod turns;

pub use boxes::{coordinate_box, coordinate_middle};
pub use coordinate::{Coordinate, Ends, about};
pub use laws::cells_cover;
pub use places::{centre_of, finest_level, is_in_range};
pub use turns::{halvings_in_turn, split_in_turn};
