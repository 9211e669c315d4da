//! Straightness, circularity and cylindricity: forms about an axis, judged over the cells of directions and offsets.
#![tactic(auto)]

mod across;
mod axis;
mod axis_box;
mod axis_def;
mod extent;
mod forms;
mod judged;
mod laws;
mod lens;
mod line;
mod places;
mod points;
mod product;
mod ring;
mod short;
mod square;
mod task;
mod view;

pub use axis_box::AxisBox;
pub use axis_def::{AxisDef, axis_task};
pub use judged::Judged;
pub use laws::{axis_tests_are_sound, zones_are_meant};
pub use line::{is_line, is_line_refuted_at, line_evidence_in};
pub use ring::{is_ring, is_ring_refuted_at, ring_evidence_in};
pub use task::AxisTask;
