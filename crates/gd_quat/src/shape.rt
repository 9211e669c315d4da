// A placement on the grid, and boxes of rotations, matrices and vectors.
use gd_interval::Iv;
use gd_vec::V3;

/// Three components of a rotation over its leading one, in ascending order of component, in 2^-30.
/// Each is at most 2^30 in size.
#[derive(Clone, Copy, Debug, PartialEq, Eq)]
pub struct Ratios {
    pub first: i64,
    pub second: i64,
    pub third: i64,
}

/// A placement on the grid. `face` is the number of the leading component of its rotation, 0 to 3, and `ratios` are the
/// three others over it, in 2^-30. `shift` is the translation and `first` and `second` are the offsets of features, in
/// fine units of 2^-16 unit (docs/UNITS.md).
#[derive(Clone, Copy, Debug, PartialEq, Eq)]
pub struct Assignment {
    pub face: u32,
    pub ratios: Ratios,
    pub shift: V3,
    pub first: V3,
    pub second: V3,
}

/// A box of vectors: each entry lies in its interval. The unit is that of the ends.
#[derive(Clone, Copy, Debug, PartialEq, Eq)]
pub struct VecBox {
    pub x: Iv,
    pub y: Iv,
    pub z: Iv,
}

/// A box of matrices by their rows.
#[derive(Clone, Copy, Debug, PartialEq, Eq)]
pub struct MatrixBox {
    pub x: VecBox,
    pub y: VecBox,
    pub z: VecBox,
}

/// A box of rotations by their four components over the leading one, in 2^-30.
#[derive(Clone, Copy, Debug, PartialEq, Eq)]
pub struct RotationBox {
    pub q0: Iv,
    pub q1: Iv,
    pub q2: Iv,
    pub q3: Iv,
}
