// What is asked of a feature's form, and the task of it.
use gd_axis::AxisTask;
use gd_dir::FormShape;
use gd_flat::FeatureTask;
use gd_vec::V3;

/// A form of a feature, or of one group of it: flatness, straightness, circularity or cylindricity (ASME Y14.5M-1994,
/// 6.4.1 to 6.4.4). `direction` is that of a circle's section, and no other shape reads it. `point` is the own point of
/// a circle or a cylinder, in units of 0.1 micrometre, and their axes lie within 2^`shift` units of it along each axis
/// of coordinates. The tolerance is in units.
#[derive(Clone, Copy, Debug)]
pub struct FormDef {
    pub shape: FormShape,
    pub feature: u32,
    pub group: Option<u32>,
    pub direction: V3,
    pub point: V3,
    pub shift: u32,
    pub tolerance: u32,
}

/// A form as a task. A witness is a root, then two ratios in 2^-30 and two offsets in fine units of 2^-16; flatness has
/// two ratios alone, and a circle two offsets alone.
#[derive(Clone, Copy)]
pub enum FormTask<'a> {
    /// Flatness.
    Flat(FeatureTask<'a>),
    /// A form about an axis.
    Axis(AxisTask<'a>),
}
