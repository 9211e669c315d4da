// Boxes in 64 bits.
ghost use Rattle.std.specs.Prelude.{◌≤ℤ◌};

/// All numbers from `lo` to `hi`.
#[derive(Clone, Copy)]
pub struct Short {
    pub lo: i64,
    pub hi: i64,
    ghost ordered: { lo ≤ℤ hi },
}

/// The intervals of three entries.
#[derive(Clone, Copy)]
pub struct ShortVec {
    pub x: Short,
    pub y: Short,
    pub z: Short,
}

/// The rows of a matrix.
#[derive(Clone, Copy)]
pub struct ShortMatrix {
    pub x: ShortVec,
    pub y: ShortVec,
    pub z: ShortVec,
}

/// The matrix, and what a turned point is moved by: the translation with the offset, less the surface's point.
#[derive(Clone, Copy)]
pub struct Lens {
    pub matrix: ShortMatrix,
    pub by: ShortVec,
}
