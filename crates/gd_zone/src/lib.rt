//! Conditions on the points of a placed part: surfaces, demands, and the test that a placement holds.
#![tactic(auto)]

mod compare;
mod condition;
mod extent;
mod holding;
mod laws;
mod lens;
mod placed;
mod shape;
mod short;
mod subject;
mod values;
mod view;

pub use compare::{
    at_narrowest, at_widest, ceil_root, floor_root, is_at_least, is_at_most, length2, square_bound,
};
pub use condition::{Condition, Demand, Surface};
pub use extent::{Extremes, extremes_of};
pub use holding::{condition_holds, holds};
pub use laws::tests_are_sound;
pub use placed::{Placed, placed_at};
pub use subject::Subject;
pub use values::value;
pub use view::View;
