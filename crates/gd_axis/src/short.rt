// Intervals in 64 bits.
ghost use Rattle.std.specs.Prelude.{◌≤ℤ◌};

/// All numbers from `lo` to `hi`.
#[derive(Clone, Copy)]
pub struct Short {
    pub lo: i64,
    pub hi: i64,
    ghost ordered: { lo ≤ℤ hi },
}

/// The intervals of three entries.
#[derive(Clone, Copy)]
pub struct ShortVec {
    pub x: Short,
    pub y: Short,
    pub z: Short,
}
