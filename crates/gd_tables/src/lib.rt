//! The tables of a frame file, each by itself: what its keys state, or the first rule that it breaks.
#![tactic(auto)]

mod datum;
mod feature;
mod file;
mod frame;
mod kind;
mod listed;
mod ranges;
mod top;
mod word;

pub use datum::read_datum;
pub use feature::read_feature;
pub use file::{DatumDef, DatumRef, FeatureDef, FrameDef, FrameFile};
pub use frame::read_frame;
pub use kind::{Kind, Material, Shape, Turn};
pub use listed::Listed;
pub use ranges::Ranges;
pub use top::{Top, read_top};
