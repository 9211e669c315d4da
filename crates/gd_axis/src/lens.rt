// What doesn't depend on the point, made once a box.
use crate::short::ShortVec;

/// How the values of points over a box are found.
#[derive(Clone, Copy)]
pub enum Lens {
    /// By the box's directions and offsets.
    Plain,
    /// For a circle whose box holds a single direction: by the cross products of that direction with the offsets, with the
    /// other sign, to which a point adds its own.
    Single(ShortVec),
}
