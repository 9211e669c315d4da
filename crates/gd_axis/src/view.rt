// The values of points through a lens: for a single direction of whole entries they are linear, but for squares.
ghost use Rattle.std.specs.Prelude.{◌≡◌, ◌^◌, ◌≤◌, ◌+ℤ◌, ◌-ℤ◌, ◌*ℤ◌, ◌≤ℤ◌, neg_ℤ, pos, unsigned_abs};
ghost use Rattle.gd_axis.specs.AxisBoxes.{IsDistance2, IsFormBox};
ghost use Rattle.gd_axis.specs.AxisTests.{across, direction_ends, from_offset, span_of, value_of};
ghost use Rattle.gd_axis.specs.Lenses.{IsLens, IsSingle, moved, offsets_off};
ghost use Rattle.gd_axis.specs.Shorts.{ShortFits, ShortVectorFits, short_ends, short_vector};
ghost use Rattle.gd_axis.specs.Sizes.{ACROSS_SIZE, DIRECTION_SIZE, POINT_SIZE};
ghost use Rattle.gd_base.specs.Scales.{FINE};
ghost use Rattle.gd_dir.specs.Boxes.{IsBox, OFFSET_SIZE};
ghost use Rattle.gd_dir.specs.declared.shape.FormShape.TheVariants as form;
ghost use Rattle.gd_quat.specs.Formulas.{ends};
ghost use Rattle.gd_vec.specs.Vector.{IsWithin};

use crate::across::{across_single, is_single};
use crate::axis::{directions, fine_apart, value};
use crate::axis_box::AxisBox;
use crate::lens::Lens;
use crate::product::{short_times, span};
use crate::short::{Short, ShortVec};
use crate::square::squared;
use gd_dir::{DirBox, FormShape};
use gd_interval::Iv;
use gd_vec::V3;

// An offset with the other sign.
#[inline]
fn off(offset: i64) -> i64
    requires { unsigned_abs offset ≤ OFFSET_SIZE }
    ensures value { result ≡ neg_ℤ offset }
    ensures size { unsigned_abs result ≤ OFFSET_SIZE }
{
    -offset
}

// The offsets along one axis with the other sign.
#[inline]
fn span_off(lo: i64, hi: i64) -> Short
    requires order { lo ≤ℤ hi }
    requires lo { unsigned_abs lo ≤ OFFSET_SIZE }
    requires hi { unsigned_abs hi ≤ OFFSET_SIZE }
    ensures ends { short_ends result ≡ span_of (neg_ℤ hi) (neg_ℤ lo) }
    ensures size { ShortFits OFFSET_SIZE result }
{
    span(off(hi), off(lo))
}

// The offsets of a box with the other sign.
#[inline]
fn all_off(b: &DirBox) -> ShortVec
    requires { IsBox b.now }
    ensures ends { short_vector result ≡ offsets_off b.now }
    ensures size { ShortVectorFits OFFSET_SIZE result }
{
    ShortVec {
        x: span_off(b.offset_lo.x, b.offset_hi.x),
        y: span_off(b.offset_lo.y, b.offset_hi.y),
        z: span_off(b.offset_lo.z, b.offset_hi.z),
    }
}

// The lens of a box of a single direction.
#[inline]
fn single_lens(b: &DirBox, n: &ShortVec) -> Lens
    requires b { IsFormBox form.Circle b.now }
    requires n { short_vector n.now ≡ direction_ends b.now }
    requires fits { ShortVectorFits DIRECTION_SIZE n.now }
    requires x_single { n.now.x.lo ≡ n.now.x.hi }
    requires y_single { n.now.y.lo ≡ n.now.y.hi }
    requires z_single { n.now.z.lo ≡ n.now.z.hi }
    ensures { IsLens form.Circle b.now result }
{
    Lens::Single(across_single(n, &all_off(b)))
}

// The lens of a circle's box.
#[inline]
fn circle_lens(b: &DirBox) -> Lens
    requires b { IsFormBox form.Circle b.now }
    ensures { IsLens form.Circle b.now result }
{
    let n = directions(b);
    if is_single(&n) {
        single_lens(b, &n)
    } else {
        Lens::Plain
    }
}

/// The lens of a box.
pub fn lens_of(over: &AxisBox<'_>) -> Lens
    ensures { IsLens over.now.shape over.now.b.now result }
{
    match over.shape {
        FormShape::Circle => circle_lens(over.b),
        FormShape::Flat => Lens::Plain,
        FormShape::Line => Lens::Plain,
        FormShape::Cylinder => Lens::Plain,
    }
}

// ---- points
// The difference of two products of numbers.
#[inline(always)]
fn exact_minor(n: i64, y: i64, m: i64, z: i64) -> i64
    requires n { unsigned_abs n ≤ DIRECTION_SIZE }
    requires y { unsigned_abs y ≤ 2 ^ 43 }
    requires m { unsigned_abs m ≤ DIRECTION_SIZE }
    requires z { unsigned_abs z ≤ 2 ^ 43 }
    ensures value { result ≡ (n *ℤ y) -ℤ (m *ℤ z) }
    ensures size { unsigned_abs result ≤ 2 ^ 54 }
{
    less(narrow_times(n, y), narrow_times(m, z))
}

// A product of two numbers.
#[inline(always)]
fn narrow_times(n: i64, y: i64) -> i64
    requires n { unsigned_abs n ≤ DIRECTION_SIZE }
    requires y { unsigned_abs y ≤ 2 ^ 43 }
    ensures value { result ≡ n *ℤ y }
    ensures size { unsigned_abs result ≤ 2 ^ 53 }
{
    short_times(n, y)
}

// The difference of two products.
#[inline(always)]
fn less(a: i64, b: i64) -> i64
    requires a { unsigned_abs a ≤ 2 ^ 53 }
    requires b { unsigned_abs b ≤ 2 ^ 53 }
    ensures value { result ≡ a -ℤ b }
    ensures size { unsigned_abs result ≤ 2 ^ 54 }
{
    a - b
}

// An end moved by a number.
#[inline(always)]
fn plus(end: i64, by: i64) -> i64
    requires end { unsigned_abs end ≤ 2 ^ 55 }
    requires by { unsigned_abs by ≤ 2 ^ 54 }
    ensures value { result ≡ end +ℤ by }
    ensures size { unsigned_abs result ≤ ACROSS_SIZE }
{
    end + by
}

// Both ends moved by a number.
#[inline(always)]
fn shifted(a: Short, by: i64) -> Short
    requires a { ShortFits (2 ^ 55) a }
    requires by { unsigned_abs by ≤ 2 ^ 54 }
    ensures lo { result.lo ≡ a.lo +ℤ by }
    ensures hi { result.hi ≡ a.hi +ℤ by }
    ensures size { ShortFits ACROSS_SIZE result }
{
    span(plus(a.lo, by), plus(a.hi, by))
}

// Both ends moved by a difference of two products.
#[inline(always)]
fn moved_ends(a: Short, n: i64, y: i64, m: i64, z: i64) -> Short
    requires a { ShortFits (2 ^ 55) a }
    requires n { unsigned_abs n ≤ DIRECTION_SIZE }
    requires y { unsigned_abs y ≤ 2 ^ 43 }
    requires m { unsigned_abs m ≤ DIRECTION_SIZE }
    requires z { unsigned_abs z ≤ 2 ^ 43 }
    ensures lo { result.lo ≡ a.lo +ℤ ((n *ℤ y) -ℤ (m *ℤ z)) }
    ensures hi { result.hi ≡ a.hi +ℤ ((n *ℤ y) -ℤ (m *ℤ z)) }
    ensures size { ShortFits ACROSS_SIZE result }
{
    shifted(a, exact_minor(n, y, m, z))
}

// The same interval, by its formula.
#[inline(always)]
fn moved(a: Short, n: i64, y: i64, m: i64, z: i64) -> Short
    requires a { ShortFits (2 ^ 55) a }
    requires n { unsigned_abs n ≤ DIRECTION_SIZE }
    requires y { unsigned_abs y ≤ 2 ^ 43 }
    requires m { unsigned_abs m ≤ DIRECTION_SIZE }
    requires z { unsigned_abs z ≤ 2 ^ 43 }
    ensures ends { short_ends result ≡ moved (short_ends a) ((n *ℤ y) -ℤ (m *ℤ z)) }
    ensures size { ShortFits ACROSS_SIZE result }
{
    moved_ends(a, n, y, m, z)
}

// The cross product of a single direction and a vector, moved.
#[inline(always)]
fn across_moved(n: &V3, moves: &ShortVec, y: &V3) -> ShortVec
    requires n { IsWithin DIRECTION_SIZE n.now }
    requires moves { ShortVectorFits (2 ^ 55) moves.now }
    requires y { IsWithin (2 ^ 43) y.now }
    ensures x { short_ends result.x ≡ moved (short_ends moves.now.x) ((n.now.y *ℤ y.now.z) -ℤ (n.now.z *ℤ y.now.y)) }
    ensures y { short_ends result.y ≡ moved (short_ends moves.now.y) ((n.now.z *ℤ y.now.x) -ℤ (n.now.x *ℤ y.now.z)) }
    ensures z { short_ends result.z ≡ moved (short_ends moves.now.z) ((n.now.x *ℤ y.now.y) -ℤ (n.now.y *ℤ y.now.x)) }
    ensures size { ShortVectorFits ACROSS_SIZE result }
{
    ShortVec {
        x: moved(moves.x, n.y, y.z, n.z, y.y),
        y: moved(moves.y, n.z, y.x, n.x, y.z),
        z: moved(moves.z, n.x, y.y, n.y, y.x),
    }
}

// From a form's own point to a point, in fine units.
#[inline(always)]
fn from_own(own: &V3, at: &V3) -> V3
    requires own { IsWithin POINT_SIZE own.now }
    requires at { IsWithin POINT_SIZE at.now }
    ensures x { result.x ≡ pos FINE *ℤ (at.now.x -ℤ own.now.x) }
    ensures y { result.y ≡ pos FINE *ℤ (at.now.y -ℤ own.now.y) }
    ensures z { result.z ≡ pos FINE *ℤ (at.now.z -ℤ own.now.z) }
    ensures size { IsWithin (2 ^ 43) result }
{
    V3 {
        x: fine_apart(own.x, at.x),
        y: fine_apart(own.y, at.y),
        z: fine_apart(own.z, at.z),
    }
}

// The cross product of a box's single direction and a point.
#[inline(always)]
fn across_offset(moves: &ShortVec, b: &DirBox, own: &V3, at: &V3) -> ShortVec
    requires b { IsFormBox form.Circle b.now }
    requires single { IsSingle b.now (short_vector moves.now) }
    requires fits { ShortVectorFits (2 ^ 55) moves.now }
    requires own { IsWithin POINT_SIZE own.now }
    requires at { IsWithin POINT_SIZE at.now }
    ensures ends { short_vector result ≡ across 0 (direction_ends b.now) (from_offset b.now own.now at.now) }
    ensures size { ShortVectorFits ACROSS_SIZE result }
{
    across_moved(&b.lo, moves, &from_own(own, at))
}

// The value of a point over a box of a single direction.
#[inline(always)]
fn single_value(moves: &ShortVec, b: &DirBox, own: &V3, at: &V3) -> Iv
    requires b { IsFormBox form.Circle b.now }
    requires single { IsSingle b.now (short_vector moves.now) }
    requires fits { ShortVectorFits (2 ^ 55) moves.now }
    requires own { IsWithin POINT_SIZE own.now }
    requires at { IsWithin POINT_SIZE at.now }
    ensures ends { ends result ≡ value_of form.Circle b.now own.now at.now }
    ensures lo { IsDistance2 result.lo }
    ensures hi { IsDistance2 result.hi }
{
    squared(&across_offset(moves, b, own, at))
}

/// The value of a point through the lens of a box.
#[inline(always)]
pub fn value_through(lens: &Lens, over: &AxisBox<'_>, at: &V3) -> Iv
    requires lens { IsLens over.now.shape over.now.b.now lens.now }
    requires at { IsWithin POINT_SIZE at.now }
    ensures ends { ends result ≡ value_of over.now.shape over.now.b.now over.now.own at.now }
    ensures lo { IsDistance2 result.lo }
    ensures hi { IsDistance2 result.hi }
{
    match lens {
        Lens::Single(moves) => single_value(moves, over.b, &over.own, at),
        Lens::Plain => value(over.shape, over.b, &over.own, at),
    }
}
