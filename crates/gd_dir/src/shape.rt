// The kinds of form, and a box of directions and offsets.
use gd_vec::V3;

/// A form that a feature is judged by.
#[derive(Clone, Copy, Debug, PartialEq, Eq)]
pub enum FormShape {
    /// Between two parallel planes (flatness, ASME Y14.5M-1994, 6.4.2).
    Flat,
    /// In a cylinder (straightness of an axis, 6.4.1).
    Line,
    /// Between two concentric circles of a section (circularity, 6.4.3).
    Circle,
    /// Between two coaxial cylinders (cylindricity, 6.4.4).
    Cylinder,
}

/// A box of directions and offsets. Each entry of a direction, in 2^-30, lies between those of `lo` and `hi`, and each
/// entry of an offset, in fine units of 2^-16, between those of `offset_lo` and `offset_hi`. `lead` is the axis, 1 to
/// 3, along which the direction leads: there all offsets are 0. A flatness has no offset, so both its corners are 0.
#[derive(Clone, Copy, Debug, PartialEq, Eq)]
pub struct DirBox {
    pub lead: u32,
    pub lo: V3,
    pub hi: V3,
    pub offset_lo: V3,
    pub offset_hi: V3,
}
