// What a frame file says.
use crate::kind::{Kind, Material, Shape, Turn};
use gd_base::Name;
use gd_vec::V3;

/// A feature of the part as it should be. Lengths are in units of 0.1 micrometre.
#[derive(Clone, Copy, Debug, PartialEq, Eq)]
pub struct FeatureDef {
    /// The number of the feature in the table of points.
    pub feature: u32,
    pub shape: Shape,
    /// Normal of the plane, which points into the material, or direction of the axis: entries within 1,000, not all 0.
    /// A sphere's isn't used.
    pub direction: V3,
    /// A point of the plane or of the axis, or the centre of the sphere.
    pub point: V3,
    pub radius: Option<u32>,
    /// The diameter at maximum material.
    pub mmc: Option<u32>,
    /// The diameter at least material.
    pub lmc: Option<u32>,
}

/// A datum: a name for a feature of `FrameFile::features`.
#[derive(Debug, Drop)]
pub struct DatumDef {
    pub name: Name,
    /// The place of its feature in `FrameFile::features`.
    pub feature: u32,
    /// How far, in units, the nearest point of a contact group may be from the datum.
    pub slack: u32,
    /// The diameter of the maximum material boundary, in units.
    pub boundary: Option<u32>,
}

/// A datum word of a frame.
#[derive(Clone, Copy, Debug, PartialEq, Eq)]
pub struct DatumRef {
    /// The place of the datum in `FrameFile::datums`.
    pub datum: u32,
    /// Whether the word has `(M)`: the datum at its maximum material boundary.
    pub at_mmb: bool,
}

/// A feature control frame. Lengths are in units of 0.1 micrometre.
#[derive(Debug, Drop)]
pub struct FrameDef {
    pub name: Name,
    pub kind: Kind,
    /// The places of its features in `FrameFile::features`, none twice.
    pub features: Vec<u32>,
    pub tolerance: u32,
    pub datums: Vec<DatumRef>,
    pub material: Material,
    /// How much of a profile's zone lies on the side of the greater distances: along a plane's direction, away from an
    /// axis or a centre. `None` where half of it does.
    pub above: Option<u32>,
    /// The tolerance of the lower segment of a composite position frame.
    pub lower: Option<u32>,
    /// The datum words of the lower segment: the first ones of `datums`.
    pub lower_datums: Vec<DatumRef>,
    /// Whether the frame is judged by itself.
    pub separate: bool,
}

/// A frame file that was read.
#[derive(Debug, Drop)]
pub struct FrameFile {
    pub turn: Turn,
    /// A placement may be shifted by up to 2^shift units to each side.
    pub shift: u32,
    /// Where shifts are counted from; the first point of the table where it is absent.
    pub centre: Option<V3>,
    pub features: Vec<FeatureDef>,
    pub datums: Vec<DatumDef>,
    pub frames: Vec<FrameDef>,
}
