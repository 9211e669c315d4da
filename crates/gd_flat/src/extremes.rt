// The extreme values of the points along the directions of a box. They don't depend on the tolerance.
ghost use Rattle.std.specs.Prelude.{◌≡◌, ◌<◌, ◌≤◌, ◌≤ℤ◌, ◌*◌, false, unsigned_abs, cond, int_lt, length, take};
ghost use Rattle.std.specs.List.{All};
ghost use Rattle.std.specs.Ordering.{int_eq};
ghost use Rattle.gd_flat.specs.FlatTests.{greatest, highs, least, lows, place_of};
ghost use Rattle.gd_flat.specs.PointRows.{rows_in};
ghost use Rattle.gd_flat.specs.Sizes.{VALUE_SIZE};

use crate::face::{Face, Span, span_at};
use crate::points::{block_end, count_of};

// A value of some points, in units and 2^-30, and a place, from 0, before which no point has it.
#[derive(Clone, Copy)]
pub struct Extreme {
    pub value: i64,
    pub from: usize,
}

// Of the points of a feature, the greatest of the least values, and the least of the greatest values.
#[derive(Clone, Copy)]
pub struct Extremes {
    pub farthest: Extreme,
    pub nearest: Extreme,
    ghost lo_size: { unsigned_abs farthest.value ≤ VALUE_SIZE },
    ghost hi_size: { unsigned_abs nearest.value ≤ VALUE_SIZE },
}

// The greatest least value and the least greatest value of the points before a place, from those before an earlier one.
fn ends_to(face: &Face<'_>, before: Span, from: usize, to: usize) -> Span
    requires from { 0 < from }
    requires order { from ≤ to }
    requires to { to ≤ length (rows_in face.now.points) }
    requires lo { before.lo ≡ greatest (take from (lows face.now.directions (rows_in face.now.points))) }
    requires hi { before.hi ≡ least (take from (highs face.now.directions (rows_in face.now.points))) }
    ensures lo { result.lo ≡ greatest (take to (lows face.now.directions (rows_in face.now.points))) }
    ensures hi { result.hi ≡ least (take to (highs face.now.directions (rows_in face.now.points))) }
    ensures lo_more { before.lo ≤ℤ result.lo }
    ensures hi_less { result.hi ≤ℤ before.hi }
{
    let mut most = before.lo;
    let mut least = before.hi;
    for at in from..to {
        let span = span_at(face, at);
        most = most.max(span.lo);
        least = least.min(span.hi);
    }
    Span {
        lo: most,
        hi: least,
    }
}

// The greater of the best so far and that of a further block. On a tie the first stays.
#[inline]
fn greater(best: Extreme, value: i64, from: usize) -> Extreme
    ensures { result ≡ cond (int_lt best.value value) (record { value = value; from = from }) best }
{
    if best.value < value {
        Extreme { value, from }
    } else {
        best
    }
}

// The lesser of the best so far and that of a further block. On a tie the first stays.
#[inline]
fn lesser(best: Extreme, value: i64, from: usize) -> Extreme
    ensures { result ≡ cond (int_lt value best.value) (record { value = value; from = from }) best }
{
    if value < best.value {
        Extreme { value, from }
    } else {
        best
    }
}

// The extremes of the points along the directions of a box, and the blocks that have them first.
pub fn extremes_along(face: &Face<'_>) -> Extremes
    ensures greatest_lo { result.farthest.value ≡ greatest (lows face.now.directions (rows_in face.now.points)) }
    ensures farthest { All (λ value. int_eq result.farthest.value value ≡ false)
        (take result.farthest.from (lows face.now.directions (rows_in face.now.points))) }
    ensures least_hi { result.nearest.value ≡ least (highs face.now.directions (rows_in face.now.points)) }
    ensures nearest { All (λ value. int_eq result.nearest.value value ≡ false)
        (take result.nearest.from (highs face.now.directions (rows_in face.now.points))) }
    ensures lo_place { result.farthest.from ≤ length (rows_in face.now.points) }
    ensures hi_place { result.nearest.from ≤ length (rows_in face.now.points) }
{
    let count = count_of(&face.points);
    let here = Extreme { value: 0, from: 0 };
    let mut farthest = here;
    let mut nearest = here;
    let mut from = 1;
    while from < count {
        let to = block_end(from, count);
        let before = Span {
            lo: farthest.value,
            hi: nearest.value,
        };
        let ends = ends_to(face, before, from, to);
        farthest = greater(farthest, ends.lo, from);
        nearest = lesser(nearest, ends.hi, from);
        from = to;
    }
    Extremes { farthest, nearest }
}

// The first point that has this least value, where no point before has it.
pub fn first_low(face: &Face<'_>, far: Extreme) -> usize
    requires before { All (λ value. int_eq far.value value ≡ false)
        (take far.from (lows face.now.directions (rows_in face.now.points))) }
    requires size { unsigned_abs far.value ≤ VALUE_SIZE }
    requires from { far.from ≤ length (rows_in face.now.points) }
    ensures place { result ≡ place_of far.value (lows face.now.directions (rows_in face.now.points)) }
    ensures inside { result ≤ length (rows_in face.now.points) }
{
    let count = count_of(&face.points);
    for at in far.from..count {
        if span_at(face, at).lo == far.value {
            return at;
        }
    }
    count
}

// The first point that has this greatest value, where no point before has it.
pub fn first_high(face: &Face<'_>, near: Extreme) -> usize
    requires before { All (λ value. int_eq near.value value ≡ false)
        (take near.from (highs face.now.directions (rows_in face.now.points))) }
    requires size { unsigned_abs near.value ≤ VALUE_SIZE }
    requires from { near.from ≤ length (rows_in face.now.points) }
    ensures place { result ≡ place_of near.value (highs face.now.directions (rows_in face.now.points)) }
    ensures inside { result ≤ length (rows_in face.now.points) }
{
    let count = count_of(&face.points);
    for at in near.from..count {
        if span_at(face, at).hi == near.value {
            return at;
        }
    }
    count
}
