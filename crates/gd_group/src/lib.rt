//! Groups of requirements: which frames are judged together, and what each group asks as a task.
#![tactic(auto)]

mod asked;
mod forms;
mod group_task;
mod joining;
mod maker;
mod naming;
mod of_frames;
mod points;
mod ranges;
mod requirement;
mod sections;
mod task;

pub use asked::{conditions_of, offsets_of};
pub use group_task::GroupTask;
pub use joining::groups_of;
pub use maker::{GroupTasks, groups};
pub use naming::{label, name_of};
pub use of_frames::requirements;
pub use ranges::{base_of, ranges_of};
pub use requirement::{Part, Requirement};
pub use sections::sections_of;
