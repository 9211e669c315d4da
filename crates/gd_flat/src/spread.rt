// Flatness across one direction.
ghost use Rattle.std.specs.Prelude.{◌≡◌, ◌<◌, ◌≤◌, ◌*◌, ◌-ℤ◌, get_or, length, pos, take, unsigned_abs};
ghost use Rattle.std.specs.Ordering.{is_le};
ghost use Rattle.gd_base.specs.Limits.{TOLERANCE};
ghost use Rattle.gd_base.specs.Scales.{ONE};
ghost use Rattle.gd_flat.specs.FlatTests.{along, greatest, is_within, least};
ghost use Rattle.gd_flat.specs.PointRows.{rows_in};
ghost use Rattle.gd_flat.specs.Sizes.{VALUE_SIZE};
ghost use Rattle.gd_int.specs.Roots.{cmp_root_of};
ghost use Rattle.gd_vec.specs.Vector.{IsWithin, norm2_of};

use crate::face::Span;
use crate::points::{Points, block_end, count_of, place_at};
use crate::products::{short, sum, times};
use gd_int::cmp_root;
use gd_vec::{V3, norm2};

// How far the point at a place lies along a direction, in units and 2^-30.
#[inline(always)]
fn value_at(n: &V3, points: &Points<'_>, at: usize) -> i64
    requires direction { IsWithin ONE n.now }
    requires at { at < length (rows_in points.now) }
    ensures value { result ≡ get_or (along n.now (rows_in points.now)) at (pos 0) }
    ensures size { unsigned_abs result ≤ VALUE_SIZE }
{
    let point = place_at(points, at);
    sum(
        times(short(n.x), point.x),
        times(short(n.y), point.y),
        times(short(n.z), point.z),
    )
}

// The least and the greatest value of the points before a place, from those before an earlier one.
fn span_to(n: &V3, points: &Points<'_>, before: Span, from: usize, to: usize) -> Span
    requires direction { IsWithin ONE n.now }
    requires from { 0 < from }
    requires order { from ≤ to }
    requires to { to ≤ length (rows_in points.now) }
    requires lo { before.lo ≡ least (take from (along n.now (rows_in points.now))) }
    requires hi { before.hi ≡ greatest (take from (along n.now (rows_in points.now))) }
    ensures lo { result.lo ≡ least (take to (along n.now (rows_in points.now))) }
    ensures hi { result.hi ≡ greatest (take to (along n.now (rows_in points.now))) }
{
    let mut least = before.lo;
    let mut most = before.hi;
    for at in from..to {
        let value = value_at(n, points, at);
        least = least.min(value);
        most = most.max(value);
    }
    Span {
        lo: least,
        hi: most,
    }
}

// Whether values are no further apart than the tolerance, in units, along a direction.
fn is_narrow(n: &V3, span: Span, tolerance: u32) -> bool
    requires direction { IsWithin ONE n.now }
    requires tolerance { tolerance ≤ TOLERANCE }
    ensures { result ≡ is_le (cmp_root_of (span.hi -ℤ span.lo) (pos tolerance) (norm2_of n.now)) }
{
    let spread = span.hi - span.lo;
    cmp_root(i128::from(spread), i128::from(tolerance), norm2(n)).is_le()
}

/// Whether the points lie within the tolerance, in units, along a direction in 2^-30. It looks at no further block of
/// points once those before are too far apart.
pub fn lies_within(n: &V3, points: &Points<'_>, tolerance: u32) -> bool
    requires direction { IsWithin ONE n.now }
    requires tolerance { tolerance ≤ TOLERANCE }
    ensures { result ≡ is_within (rows_in points.now) tolerance n.now }
{
    let count = count_of(points);
    let first = value_at(n, points, 0);
    let mut span = Span {
        lo: first,
        hi: first,
    };
    let mut from = 1;
    while from < count {
        let to = block_end(from, count);
        span = span_to(n, points, span, from, to);
        if !is_narrow(n, span, tolerance) {
            return false;
        }
        from = to;
    }
    is_narrow(n, span, tolerance)
}
