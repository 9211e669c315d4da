//! The points of a part, and the file that they are read from.
#![tactic(auto)]

mod columns;
mod index;
mod number;
mod read;
mod rule;
mod table;

pub use columns::{Columns, PointList};
pub use index::PointIndex;
pub use read::read_points;
pub use rule::Rule;
pub use table::{Named, PointTable, Row};
