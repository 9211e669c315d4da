// The values of points about the axes of a box of directions and offsets. They don't depend on the tolerance.
ghost use Rattle.std.specs.Prelude.{◌≡◌, ◌^◌, ◌≤◌, ℕ, ◌*ℤ◌, ◌-ℤ◌, ◌≤ℤ◌, pos, unsigned_abs};
ghost use Rattle.gd_axis.specs.Shorts.{ShortFits, ShortVectorFits, short_ends, short_vector};
ghost use Rattle.gd_axis.specs.Sizes.{ACROSS_SIZE, DIRECTION_SIZE, FROM_SIZE, LENGTH2_SIZE, POINT_SIZE, UNIT_SQUARE};
ghost use Rattle.gd_base.specs.Scales.{FINE, ONE};
ghost use Rattle.gd_dir.specs.Boxes.{IsBox, OFFSET_SIZE};
ghost use Rattle.gd_dir.specs.declared.shape.FormShape.TheVariants.{Circle};
ghost use Rattle.gd_axis.specs.AxisBoxes.{IsDistance2, IsFormBox};
ghost use Rattle.gd_axis.specs.AxisTests.{across, bits_of, direction_ends, from_offset, length2_of, less_offset};
ghost use Rattle.gd_axis.specs.AxisTests.{value_of};
ghost use Rattle.gd_quat.specs.Boxes.{Fits};
ghost use Rattle.gd_quat.specs.Formulas.{ends, multiple, narrowed};
ghost use Rattle.gd_vec.specs.Vector.{IsWithin};
ghost use Rattle.gd_zone.specs.Values.{squares_of};

use crate::across::{across_ratios, across_whole};
use crate::product::span;
use crate::short::{Short, ShortVec};
use crate::square::squared;
use gd_base::scales;
use gd_dir::{DirBox, FormShape};
use gd_interval::{Iv, narrow, scale};
use gd_vec::V3;

/// The square of a unit in squares of fine units.
const FINE_SQUARE: i128 = 1 << 32;

// The directions of a box, in the unit of its entries.
#[inline(always)]
pub fn directions(b: &DirBox) -> ShortVec
    requires { IsBox b.now }
    ensures ends { short_vector result ≡ direction_ends b.now }
    ensures small { (m : ℕ) → IsWithin m b.now.lo → IsWithin m b.now.hi → ShortVectorFits m result }
{
    ShortVec {
        x: span(b.lo.x, b.hi.x),
        y: span(b.lo.y, b.hi.y),
        z: span(b.lo.z, b.hi.z),
    }
}

// From a form's own point to a point along one axis, in fine units.
#[inline(always)]
pub fn fine_apart(own: i64, at: i64) -> i64
    requires own { unsigned_abs own ≤ POINT_SIZE }
    requires at { unsigned_abs at ≤ POINT_SIZE }
    ensures value { result ≡ pos FINE *ℤ (at -ℤ own) }
    ensures size { unsigned_abs result ≤ 2 ^ 43 }
{
    scales::FINE * (at - own)
}

// The same less an offset.
#[inline(always)]
fn less(apart: i64, offset: i64) -> i64
    requires apart { unsigned_abs apart ≤ 2 ^ 43 }
    requires offset { unsigned_abs offset ≤ OFFSET_SIZE }
    ensures value { result ≡ apart -ℤ offset }
    ensures size { unsigned_abs result ≤ FROM_SIZE }
{
    apart - offset
}

// From a form's own point to a point along one axis, less the offsets of the box, in fine units.
#[inline(always)]
fn less_offset(lo: i64, hi: i64, own: i64, at: i64) -> Short
    requires order { lo ≤ℤ hi }
    requires lo { unsigned_abs lo ≤ OFFSET_SIZE }
    requires hi { unsigned_abs hi ≤ OFFSET_SIZE }
    requires own { unsigned_abs own ≤ POINT_SIZE }
    requires at { unsigned_abs at ≤ POINT_SIZE }
    ensures ends { short_ends result ≡ less_offset lo hi own at }
    ensures size { ShortFits FROM_SIZE result }
{
    let apart = fine_apart(own, at);
    span(less(apart, hi), less(apart, lo))
}

// From a form's own point to a point less the offsets of the box, in fine units.
#[inline(always)]
fn from_offset(b: &DirBox, own: &V3, at: &V3) -> ShortVec
    requires b { IsBox b.now }
    requires own { IsWithin POINT_SIZE own.now }
    requires at { IsWithin POINT_SIZE at.now }
    ensures ends { short_vector result ≡ from_offset b.now own.now at.now }
    ensures size { ShortVectorFits FROM_SIZE result }
{
    ShortVec {
        x: less_offset(b.offset_lo.x, b.offset_hi.x, own.x, at.x),
        y: less_offset(b.offset_lo.y, b.offset_hi.y, own.y, at.y),
        z: less_offset(b.offset_lo.z, b.offset_hi.z, own.z, at.z),
    }
}

// The cross product with the directions of a box.
#[inline(always)]
fn across(shape: FormShape, n: &ShortVec, y: &ShortVec) -> ShortVec
    requires n { ShortVectorFits ONE n.now }
    requires short { shape ≡ Circle → ShortVectorFits DIRECTION_SIZE n.now }
    requires y { ShortVectorFits FROM_SIZE y.now }
    ensures ends { short_vector result ≡ across (bits_of shape) (short_vector n.now) (short_vector y.now) }
    ensures size { ShortVectorFits ACROSS_SIZE result }
{
    match shape {
        FormShape::Circle => across_whole(n, y),
        FormShape::Flat => across_ratios(n, y),
        FormShape::Line => across_ratios(n, y),
        FormShape::Cylinder => across_ratios(n, y),
    }
}

/// The squared distance of a point from the axes of a box, times the direction's squared length, in squares of fine
/// units. `own` is the form's own point, and `at` the point, both in units.
#[inline]
pub fn value(shape: FormShape, b: &DirBox, own: &V3, at: &V3) -> Iv
    requires b { IsFormBox shape b.now }
    requires own { IsWithin POINT_SIZE own.now }
    requires at { IsWithin POINT_SIZE at.now }
    ensures ends { ends result ≡ value_of shape b.now own.now at.now }
    ensures lo { IsDistance2 result.lo }
    ensures hi { IsDistance2 result.hi }
{
    squared(&across(shape, &directions(b), &from_offset(b, own, at)))
}

// The squared length of directions in 2^-30, in squares of fine units.
fn ratio_length2(n: &ShortVec) -> Iv
    requires { ShortVectorFits ONE n.now }
    ensures ends { ends result ≡ narrowed (squares_of (short_vector n.now)) 28 }
    ensures size { Fits LENGTH2_SIZE result }
    ensures not_negative { pos 0 ≤ℤ result.lo }
{
    narrow(squared(n), 28)
}

// The squared length of a direction of whole entries, in squares of fine units.
fn whole_length2(n: &ShortVec) -> Iv
    requires { ShortVectorFits DIRECTION_SIZE n.now }
    ensures ends { ends result ≡ multiple (squares_of (short_vector n.now)) (pos UNIT_SQUARE) }
    ensures size { Fits LENGTH2_SIZE result }
    ensures not_negative { pos 0 ≤ℤ result.lo }
{
    scale(squared(n), FINE_SQUARE)
}

/// The squared length of the directions of a box, in squares of fine units.
pub fn length2(shape: FormShape, b: &DirBox) -> Iv
    requires b { IsFormBox shape b.now }
    ensures ends { ends result ≡ length2_of shape b.now }
    ensures size { Fits LENGTH2_SIZE result }
    ensures not_negative { pos 0 ≤ℤ result.lo }
{
    let n = directions(b);
    match shape {
        FormShape::Circle => whole_length2(&n),
        FormShape::Flat => ratio_length2(&n),
        FormShape::Line => ratio_length2(&n),
        FormShape::Cylinder => ratio_length2(&n),
    }
}
