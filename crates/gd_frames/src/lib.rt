//! The frame file: what a drawing demands of the features of a part.
#![tactic(auto)]

mod combination;
mod counts;
mod groups;
mod needs;
mod read;

pub use counts::{is_joined, joins};
pub use gd_tables::{
    DatumDef, DatumRef, FeatureDef, FrameDef, FrameFile, Kind, Material, Shape, Turn,
};
pub use read::read_frames;
