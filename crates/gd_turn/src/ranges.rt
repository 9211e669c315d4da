// The ranges of placements, and a box of placements.
use gd_quat::{RotationBox, VecBox};
use gd_vec::V3;

/// How far placements turn the part (docs/FORMATS.md, "The frame file").
#[derive(Clone, Copy, Debug, PartialEq, Eq)]
pub enum TurnRange {
    /// Every rotation. There are four roots, one for each component that may lead.
    All,
    /// The first component leads, and none of the others is larger than it over 2^k, k from 0 to 20. There is one root.
    Within(u32),
}

/// The placements that are looked at: how far they turn the part; how far, in units, they shift its first point from
/// `centre` along each axis, at most 2^shift; and how many offsets of features they have, 0 to 2, each at most 2^shift
/// along each axis.
#[derive(Clone, Copy, Debug, PartialEq, Eq)]
pub struct Ranges {
    pub turn: TurnRange,
    pub shift: u32,
    pub centre: V3,
    pub offsets: u32,
}

/// A box of placements: of the components of their rotations over the leading one, in 2^-30, and of their translations
/// and both offsets, in fine units of 2^-16 unit. An offset that the ranges don't have is 0.
#[derive(Clone, Copy, Debug, PartialEq, Eq)]
pub struct CellBox {
    pub turn: RotationBox,
    pub shift: VecBox,
    pub first: VecBox,
    pub second: VecBox,
}
