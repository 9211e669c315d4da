//! Flatness: points are judged over the cells of directions.
#![tactic(auto)]

mod extremes;
mod face;
mod feature;
mod flat;
mod points;
mod products;
mod spread;
mod task;

pub use feature::{FeatureTask, feature_task};
pub use points::Points;
pub use task::{FlatTask, flat_task};
