// The value of a point on a surface.
ghost use Rattle.std.specs.Prelude.{◌≡◌, ◌^◌, ◌≤◌, ◌≤ℤ◌, pos, unsigned_abs};
ghost use Rattle.gd_quat.specs.Boxes.{Fits};
ghost use Rattle.gd_quat.specs.Formulas.{difference, ends, multiple, square, sum};
ghost use Rattle.gd_vec.specs.Vector.{IsWithin};
ghost use Rattle.gd_zone.specs.Boxes.{IsPlaced, placed_ends};
ghost use Rattle.gd_zone.specs.Conditions.{IsSurface};
ghost use Rattle.gd_zone.specs.Shorts.{ShortFits, ShortMatrixFits, ShortVectorFits, lens_value, moved_value};
ghost use Rattle.gd_zone.specs.Shorts.{short_ends, short_vector};
ghost use Rattle.gd_zone.specs.Values.{EnclosesValue, IsSized, across, along, squares_of, value_ends};

use crate::condition::Surface;
use crate::lens::{from_surface, lens_by};
use crate::placed::Placed;
use crate::shape::{Lens, Short, ShortVec};
use crate::short::{apart, moved, scaled, total, turned, widened};
use gd_interval::{Iv, add};
use gd_vec::V3;

/// The value of a point at every placement of a box. For a plane it is the distance times the direction's length, in
/// fine units; for an axis and a ball the squared distance times the direction's squared length, in squares of fine
/// units. `v` is the point less the part's first point, in units.
#[inline]
pub fn value(surface: &Surface, placed: &Placed, offset: u32, v: &V3) -> Iv
    requires surface { IsSurface surface.now }
    requires placed { IsPlaced placed.now }
    requires v { IsWithin (2 ^ 27) v.now }
    ensures ends { ends result ≡ value_ends surface.now (placed_ends placed.now) offset v.now }
    ensures encloses { EnclosesValue surface.now placed.now offset v.now result }
    ensures size { IsSized surface.now result }
{
    value_on(surface, placed, offset, v)
}

// The value, by its formula.
#[inline]
fn value_on(surface: &Surface, placed: &Placed, offset: u32, v: &V3) -> Iv
    requires surface { IsSurface surface.now }
    requires placed { IsPlaced placed.now }
    requires v { IsWithin (2 ^ 27) v.now }
    ensures ends { ends result ≡ value_ends surface.now (placed_ends placed.now) offset v.now }
    ensures size { IsSized surface.now result }
{
    let lens = lens_by(placed, &from_surface(surface, placed, offset));
    through(surface, &lens, v)
}

// The value of a point through a lens.
#[inline]
pub fn through(surface: &Surface, lens: &Lens, v: &V3) -> Iv
    requires surface { IsSurface surface.now }
    requires matrix { ShortMatrixFits (2 ^ 32) lens.now.matrix }
    requires by { ShortVectorFits (2 ^ 47) lens.now.by }
    requires v { IsWithin (2 ^ 27) v.now }
    ensures ends { ends result ≡ lens_value surface.now lens.now v.now }
    ensures size { IsSized surface.now result }
{
    on_surface(surface, &moved(&turned(&lens.matrix, v), &lens.by))
}

// The value of a turned and moved point.
#[inline]
fn on_surface(surface: &Surface, y: &ShortVec) -> Iv
    requires surface { IsSurface surface.now }
    requires y { ShortVectorFits (2 ^ 48) y.now }
    ensures ends { ends result ≡ moved_value surface.now (short_vector y.now) }
    ensures size { IsSized surface.now result }
{
    match surface {
        Surface::Plane { direction, .. } => wide(dotted(direction, y)),
        Surface::Axis { direction, .. } => squared(&crossed(direction, y)),
        Surface::Ball { .. } => squared_image(y),
    }
}

// A value along a direction in 128 bits.
#[inline]
fn wide(a: Short) -> Iv
    requires { ShortFits (2 ^ 60) a }
    ensures ends { ends result ≡ short_ends a }
    ensures size { Fits (2 ^ 60) result }
{
    widened(a)
}

// The sum of the products with a direction.
#[inline]
fn dotted(direction: &V3, y: &ShortVec) -> Short
    requires direction { IsWithin (2 ^ 10) direction.now }
    requires y { ShortVectorFits (2 ^ 48) y.now }
    ensures ends { short_ends result ≡ along direction.now (short_vector y.now) }
    ensures size { ShortFits (2 ^ 60) result }
{
    sum_of(
        scaled(y.x, direction.x),
        scaled(y.y, direction.y),
        scaled(y.z, direction.z),
    )
}

// The sum of three products with entries of a direction.
#[inline]
fn sum_of(a: Short, b: Short, c: Short) -> Short
    requires a { ShortFits (2 ^ 58) a }
    requires b { ShortFits (2 ^ 58) b }
    requires c { ShortFits (2 ^ 58) c }
    ensures ends { short_ends result ≡ sum (sum (short_ends a) (short_ends b)) (short_ends c) }
    ensures size { ShortFits (2 ^ 60) result }
{
    total(a, b, c)
}

// The cross product with a direction.
#[inline]
fn crossed(direction: &V3, y: &ShortVec) -> ShortVec
    requires direction { IsWithin (2 ^ 10) direction.now }
    requires y { ShortVectorFits (2 ^ 48) y.now }
    ensures ends { short_vector result ≡ across direction.now (short_vector y.now) }
    ensures size { ShortVectorFits (2 ^ 59) result }
{
    ShortVec {
        x: minor(y.z, direction.y, y.y, direction.z),
        y: minor(y.x, direction.z, y.z, direction.x),
        z: minor(y.y, direction.x, y.x, direction.y),
    }
}

// The product of one entry less that of another.
#[inline]
fn minor(a: Short, by: i64, b: Short, less: i64) -> Short
    requires a { ShortFits (2 ^ 48) a }
    requires by { unsigned_abs by ≤ 2 ^ 10 }
    requires b { ShortFits (2 ^ 48) b }
    requires less { unsigned_abs less ≤ 2 ^ 10 }
    ensures ends { short_ends result ≡ difference (multiple (short_ends a) by) (multiple (short_ends b) less) }
    ensures size { ShortFits (2 ^ 59) result }
{
    apart(scaled(a, by), scaled(b, less))
}

// The sum of the squares of an image.
#[inline]
fn squared_image(y: &ShortVec) -> Iv
    requires { ShortVectorFits (2 ^ 48) y.now }
    ensures ends { ends result ≡ squares_of (short_vector y.now) }
    ensures size { Fits (2 ^ 120) result }
    ensures not_negative { pos 0 ≤ℤ result.lo }
{
    squared(y)
}

// The sum of the squares.
#[inline]
#[tactic(auto, unfolding(crate::specs::Values::squares_of))]
fn squared(y: &ShortVec) -> Iv
    requires { ShortVectorFits (2 ^ 59) y.now }
    ensures ends { ends result ≡ squares_of (short_vector y.now) }
    ensures size { Fits (2 ^ 120) result }
    ensures not_negative { pos 0 ≤ℤ result.lo }
{
    squares_sum(square_of(y.x), square_of(y.y), square_of(y.z))
}

// The square of an entry, in 128 bits.
#[inline]
fn square_of(a: Short) -> Iv
    requires { ShortFits (2 ^ 59) a }
    ensures ends { ends result ≡ square (short_ends a) }
    ensures size { Fits (2 ^ 118) result }
    ensures not_negative { pos 0 ≤ℤ result.lo }
{
    wide_square(widened(a))
}

// The square of an interval.
#[inline]
fn wide_square(a: Iv) -> Iv
    requires { Fits (2 ^ 59) a }
    ensures ends { ends result ≡ square (ends a) }
    ensures size { Fits (2 ^ 118) result }
    ensures not_negative { pos 0 ≤ℤ result.lo }
{
    gd_interval::square(a)
}

// The sum of three squares.
#[inline]
fn squares_sum(a: Iv, b: Iv, c: Iv) -> Iv
    requires a { Fits (2 ^ 118) a }
    requires b { Fits (2 ^ 118) b }
    requires c { Fits (2 ^ 118) c }
    ensures ends { ends result ≡ sum (sum (ends a) (ends b)) (ends c) }
    ensures size { Fits (2 ^ 120) result }
    ensures not_negative { pos 0 ≤ℤ a.lo → pos 0 ≤ℤ b.lo → pos 0 ≤ℤ c.lo → pos 0 ≤ℤ result.lo }
{
    add(squares_pair(a, b), c)
}

// The sum of two squares.
#[inline]
fn squares_pair(a: Iv, b: Iv) -> Iv
    requires a { Fits (2 ^ 118) a }
    requires b { Fits (2 ^ 118) b }
    ensures ends { ends result ≡ sum (ends a) (ends b) }
    ensures size { Fits (2 ^ 119) result }
{
    add(a, b)
}
