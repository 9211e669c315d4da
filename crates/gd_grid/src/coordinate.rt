// A coordinate of a grid, and the ends of its boxes.
ghost use Rattle.std.specs.Prelude.{◌≡◌, ◌≤◌, ◌^◌, unsigned_abs};
ghost use Rattle.gd_grid.specs.Coordinates.{COORDINATE_SIZE, about};

/// What a coordinate of a grid runs through: from `low` on, 2^bits wide, both ends included. It has the scale of what
/// it
/// stands for: ratios are in 2^-30, and lengths in fine units of 2^-16 unit (docs/UNITS.md).
#[derive(Clone, Copy, Debug, PartialEq, Eq)]
pub struct Coordinate {
    pub low: i64,
    pub bits: u32,
}

/// The ends of a box of a coordinate, in its scale. Both belong to the box.
#[derive(Clone, Copy, Debug, PartialEq, Eq)]
pub struct Ends {
    pub lo: i64,
    pub hi: i64,
}

/// What goes from 2^bits below a centre to 2^bits above it, in the scale of the centre.
#[inline]
pub fn about(centre: i64, bits: u32) -> Coordinate
    requires centre { unsigned_abs centre ≤ 2 ^ 44 }
    requires bits { bits ≤ 44 }
    ensures { result ≡ about centre bits }
{
    Coordinate {
        low: centre - reach(bits) as i64,
        bits: bits + 1,
    }
}

// How far it goes to each side, or in all.
#[inline]
pub fn reach(bits: u32) -> u64
    requires { bits ≤ 45 }
    ensures value { result ≡ 2 ^ bits }
    ensures size { result ≤ COORDINATE_SIZE }
{
    power(bits)
}

// 2^bits.
#[inline]
pub fn power(bits: u32) -> u64
    requires { bits ≤ 45 }
    ensures { result ≡ 2 ^ bits }
{
    1 << bits
}
