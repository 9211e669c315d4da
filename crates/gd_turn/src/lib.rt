//! Placements of a part by the cells of their ranges.
#![tactic(auto)]

mod boxes;
mod grid;
mod images;
mod laws;
mod places;
mod ranges;

pub use boxes::cell_box;
pub use grid::{centre_of, dims, finest_level, is_in_range, roots, split};
pub use images::cell_image;
pub use laws::placements_cover;
pub use places::placement_at;
pub use ranges::{CellBox, Ranges, TurnRange};
