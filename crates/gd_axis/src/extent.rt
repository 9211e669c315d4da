// The extremes of the squared distances of points from the axes of a box. They don't depend on the tolerance.
ghost use Rattle.std.specs.Prelude.{◌≡◌, ◌<◌, ◌≤◌, ◌*ℤ◌, ◌≤ℤ◌, pos, get_or, int_le, length, take, unsigned_abs};
ghost use Rattle.std.specs.Int.{int_max, int_min};
ghost use Rattle.gd_axis.specs.AxisBoxes.{IsDistance, IsDistance2};
ghost use Rattle.gd_axis.specs.AxisTests.{far_ends, lower_ends, near_ends, upper_ends};
ghost use Rattle.gd_axis.specs.Lenses.{IsLens};
ghost use Rattle.gd_flat.specs.FlatTests.{greatest, least, place_of};
ghost use Rattle.gd_zone.specs.Tests.{ceil_root, floor_root};

use crate::axis::value;
use crate::axis_box::AxisBox;
use crate::judged::{Judged, number_at, point_of};
use crate::lens::Lens;
use crate::view::{lens_of, value_through};
use gd_interval::{Iv, greatest, least, root_above, root_below, times};

/// The greatest and the least of the lower ends of values, and of their upper ends, in squares of fine units.
#[derive(Clone, Copy)]
pub struct Extent {
    pub most_lo: i128,
    pub least_lo: i128,
    pub most_hi: i128,
    pub least_hi: i128,
    ghost most_lo_fits: { IsDistance2 most_lo },
    ghost least_lo_fits: { IsDistance2 least_lo },
    ghost most_hi_fits: { IsDistance2 most_hi },
    ghost least_hi_fits: { IsDistance2 least_hi },
}

// The value of a judged point by its place among them.
#[inline(always)]
pub fn value_at(over: &AxisBox<'_>, judged: &Judged<'_>, at: usize) -> Iv
    requires at { at < length judged.now.numbers.now }
    ensures lo { result.lo ≡ get_or (lower_ends over.now.shape over.now.b.now over.now.own
        judged.now.points.table.now.rows judged.now.numbers.now) at (pos 0) }
    ensures hi { result.hi ≡ get_or (upper_ends over.now.shape over.now.b.now over.now.own
        judged.now.points.table.now.rows judged.now.numbers.now) at (pos 0) }
    ensures lo_fits { IsDistance2 result.lo }
    ensures hi_fits { IsDistance2 result.hi }
{
    let point = point_of(&judged.points, number_at(judged, at));
    value(over.shape, over.b, &over.own, &point)
}

// The same through the lens of the box.
#[inline(always)]
fn value_seen(lens: &Lens, over: &AxisBox<'_>, judged: &Judged<'_>, at: usize) -> Iv
    requires lens { IsLens over.now.shape over.now.b.now lens.now }
    requires at { at < length judged.now.numbers.now }
    ensures lo { result.lo ≡ get_or (lower_ends over.now.shape over.now.b.now over.now.own
        judged.now.points.table.now.rows judged.now.numbers.now) at (pos 0) }
    ensures hi { result.hi ≡ get_or (upper_ends over.now.shape over.now.b.now over.now.own
        judged.now.points.table.now.rows judged.now.numbers.now) at (pos 0) }
    ensures lo_fits { IsDistance2 result.lo }
    ensures hi_fits { IsDistance2 result.hi }
{
    let point = point_of(&judged.points, number_at(judged, at));
    value_through(lens, over, &point)
}

// The extremes of one value.
#[inline(always)]
fn of_one(v: Iv) -> Extent
    requires lo { IsDistance2 v.lo }
    requires hi { IsDistance2 v.hi }
    ensures most_lo { result.most_lo ≡ v.lo }
    ensures least_lo { result.least_lo ≡ v.lo }
    ensures most_hi { result.most_hi ≡ v.hi }
    ensures least_hi { result.least_hi ≡ v.hi }
{
    Extent {
        most_lo: v.lo,
        least_lo: v.lo,
        most_hi: v.hi,
        least_hi: v.hi,
    }
}

// The extremes with one more value.
#[inline(always)]
fn with(so_far: Extent, v: Iv) -> Extent
    requires lo { IsDistance2 v.lo }
    requires hi { IsDistance2 v.hi }
    ensures most_lo { result.most_lo ≡ int_max so_far.most_lo v.lo }
    ensures least_lo { result.least_lo ≡ int_min so_far.least_lo v.lo }
    ensures most_hi { result.most_hi ≡ int_max so_far.most_hi v.hi }
    ensures least_hi { result.least_hi ≡ int_min so_far.least_hi v.hi }
{
    Extent {
        most_lo: greatest(so_far.most_lo, v.lo),
        least_lo: least(so_far.least_lo, v.lo),
        most_hi: greatest(so_far.most_hi, v.hi),
        least_hi: least(so_far.least_hi, v.hi),
    }
}

/// The extremes of all judged points.
pub fn extent_of(over: &AxisBox<'_>, judged: &Judged<'_>) -> Extent
    ensures most_lo { result.most_lo ≡ greatest (lower_ends over.now.shape over.now.b.now over.now.own
        judged.now.points.table.now.rows judged.now.numbers.now) }
    ensures least_lo { result.least_lo ≡ least (lower_ends over.now.shape over.now.b.now over.now.own
        judged.now.points.table.now.rows judged.now.numbers.now) }
    ensures most_hi { result.most_hi ≡ greatest (upper_ends over.now.shape over.now.b.now over.now.own
        judged.now.points.table.now.rows judged.now.numbers.now) }
    ensures least_hi { result.least_hi ≡ least (upper_ends over.now.shape over.now.b.now over.now.own
        judged.now.points.table.now.rows judged.now.numbers.now) }
{
    let lens = lens_of(over);
    let mut extent = of_one(value_seen(&lens, over, judged, 0));
    for at in 1..judged.numbers.len() {
        extent = with(extent, value_seen(&lens, over, judged, at));
    }
    extent
}

// The root, rounded down, of a squared distance.
pub fn root_down(square: i128) -> i128
    requires { IsDistance2 square }
    ensures value { result ≡ floor_root square }
    ensures size { IsDistance result }
{
    root_below(square)
}

// The root, rounded up, of a squared distance.
pub fn root_up(square: i128) -> i128
    requires { IsDistance2 square }
    ensures value { result ≡ ceil_root square }
    ensures size { IsDistance result }
{
    root_above(square)
}

// Whether the square of a distance is at most a squared distance.
#[inline(always)]
fn reaches(square: i128, distance: i128) -> bool
    requires distance { IsDistance distance }
    ensures { result ≡ int_le (distance *ℤ distance) square }
{
    times(distance, distance) <= square
}

// Whether a squared distance is at most the square of a distance.
#[inline(always)]
fn stays_within(square: i128, distance: i128) -> bool
    requires distance { IsDistance distance }
    ensures { result ≡ int_le square (distance *ℤ distance) }
{
    square <= times(distance, distance)
}

// The place of the first judged point whose least distance is the greatest.
pub fn first_far(over: &AxisBox<'_>, judged: &Judged<'_>, distance: i128) -> usize
    requires distance { distance ≡ greatest (near_ends over.now.shape over.now.b.now over.now.own
        judged.now.points.table.now.rows judged.now.numbers.now) }
    requires size { IsDistance distance }
    ensures place { result ≡ place_of distance (near_ends over.now.shape over.now.b.now over.now.own
        judged.now.points.table.now.rows judged.now.numbers.now) }
    ensures inside { result < length judged.now.numbers.now }
{
    for at in 0..judged.numbers.len() {
        if reaches(value_at(over, judged, at).lo, distance) {
            return at;
        }
    }
    0
}

// The place of the first judged point whose greatest distance is the least.
pub fn first_near(over: &AxisBox<'_>, judged: &Judged<'_>, distance: i128) -> usize
    requires distance { distance ≡ least (far_ends over.now.shape over.now.b.now over.now.own
        judged.now.points.table.now.rows judged.now.numbers.now) }
    requires size { IsDistance distance }
    ensures place { result ≡ place_of distance (far_ends over.now.shape over.now.b.now over.now.own
        judged.now.points.table.now.rows judged.now.numbers.now) }
    ensures inside { result < length judged.now.numbers.now }
{
    for at in 0..judged.numbers.len() {
        if stays_within(value_at(over, judged, at).hi, distance) {
            return at;
        }
    }
    0
}
