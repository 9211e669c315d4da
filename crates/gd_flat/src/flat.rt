// What refutes a box of directions for flatness.
ghost use Rattle.std.specs.Prelude.{◌≡◌, ◌<◌, ◌≤◌, ◌^◌, ◌*◌, ◌-ℤ◌, ◌*ℤ◌, ◌≤ℤ◌, pos, false, unsigned_abs, length};
ghost use Rattle.std.specs.Prelude.{nat_le, take, ◌&&◌};
ghost use Rattle.std.specs.List.{All};
ghost use Rattle.std.specs.Ordering.{int_eq, is_gt};
ghost use Rattle.gd_base.specs.Limits.{TOLERANCE};
ghost use Rattle.gd_base.specs.Scales.{ONE};
ghost use Rattle.gd_dir.specs.Boxes.{IsBox};
ghost use Rattle.gd_flat.specs.FlatTests.{evidence_of, first_evidence, highs, is_point, is_refuted, lows};
ghost use Rattle.gd_flat.specs.FlatTests.{most_norm2, parts, place_of, square_hi};
ghost use Rattle.gd_flat.specs.PointRows.{rows_in};
ghost use Rattle.gd_flat.specs.Leading.{LeadsByOne};
ghost use Rattle.gd_flat.specs.Sizes.{VALUE_SIZE};
ghost use Rattle.gd_int.specs.Roots.{cmp_root_of};
ghost use Rattle.gd_vec.specs.Vector.{IsWithin};

use crate::extremes::{Extremes, extremes_along, first_high, first_low};
use crate::face::{Face, face_of, span_at};
use crate::points::{Points, count_of};
use gd_cells::Evidence;
use gd_dir::DirBox;
use gd_int::cmp_root;

/// The number of the one condition of flatness.
const FLATNESS: u32 = 1;

// The greater of two entries of a direction squared.
#[inline]
fn greater_square(lo: i64, hi: i64) -> i128
    requires lo { unsigned_abs lo ≤ ONE }
    requires hi { unsigned_abs hi ≤ ONE }
    ensures value { result ≡ square_hi lo hi }
    ensures not_negative { pos 0 ≤ℤ result }
    ensures size { unsigned_abs result ≤ 2 ^ 60 }
{
    square(lo).max(square(hi))
}

// The square of an entry of a direction.
#[inline]
fn square(a: i64) -> i128
    requires { unsigned_abs a ≤ ONE }
    ensures value { result ≡ a *ℤ a }
    ensures not_negative { pos 0 ≤ℤ result }
    ensures size { unsigned_abs result ≤ 2 ^ 60 }
{
    i128::from(a) * i128::from(a)
}

// The greatest squared length of the directions of a box.
fn greatest_norm2(b: &DirBox) -> i128
    requires { IsBox b.now }
    ensures value { result ≡ most_norm2 b.now }
    ensures not_negative { pos 0 ≤ℤ result }
    ensures size { unsigned_abs result ≤ 3 * 2 ^ 60 }
{
    greater_square(b.lo.x, b.hi.x) + greater_square(b.lo.y, b.hi.y) + greater_square(b.lo.z, b.hi.z)
}

// Whether two points lie further apart than the tolerance, in units, along each direction of a box.
// `lo` is the least value of the one point, `hi` the greatest of the other.
fn are_parted(b: &DirBox, lo: i64, hi: i64, tolerance: u32) -> bool
    requires directions { IsBox b.now }
    requires lo { unsigned_abs lo ≤ VALUE_SIZE }
    requires hi { unsigned_abs hi ≤ VALUE_SIZE }
    requires tolerance { tolerance ≤ TOLERANCE }
    ensures { result ≡ is_gt (cmp_root_of (lo -ℤ hi) (pos tolerance) (most_norm2 b.now)) }
{
    let apart = lo - hi;
    cmp_root(i128::from(apart), i128::from(tolerance), greatest_norm2(b)).is_gt()
}

/// The first evidence that refutes a box: the farthest point and the nearest.
pub fn first_evidence_in(b: &DirBox, points: &Points<'_>, tolerance: u32) -> Option<Evidence>
    requires directions { IsBox b.now }
    requires leads { LeadsByOne b.now }
    requires tolerance { tolerance ≤ TOLERANCE }
    ensures { result ≡ first_evidence (rows_in points.now) tolerance b.now }
{
    let face = face_of(b, points);
    let extremes = extremes_along(&face);
    if are_parted(
        b,
        extremes.farthest.value,
        extremes.nearest.value,
        tolerance,
    ) {
        Some(evidence_at(&face, extremes))
    } else {
        None
    }
}

// The evidence of the first points that have these extremes.
fn evidence_at(face: &Face<'_>, extremes: Extremes) -> Evidence
    requires farthest { All (λ value. int_eq extremes.farthest.value value ≡ false)
        (take extremes.farthest.from (lows face.now.directions (rows_in face.now.points))) }
    requires nearest { All (λ value. int_eq extremes.nearest.value value ≡ false)
        (take extremes.nearest.from (highs face.now.directions (rows_in face.now.points))) }
    requires lo_place { extremes.farthest.from ≤ length (rows_in face.now.points) }
    requires hi_place { extremes.nearest.from ≤ length (rows_in face.now.points) }
    ensures { result ≡ evidence_of
        (place_of extremes.farthest.value (lows face.now.directions (rows_in face.now.points)))
        (place_of extremes.nearest.value (highs face.now.directions (rows_in face.now.points))) }
{
    let far = first_low(face, extremes.farthest);
    let near = first_high(face, extremes.nearest);
    Evidence {
        condition: FLATNESS,
        a: far as u32 + 1,
        b: near as u32 + 1,
    }
}

// Whether this is the number of a point, from 1.
#[inline]
fn names_a_point(number: u32, points: &Points<'_>) -> bool
    ensures { result ≡ is_point (rows_in points.now) number }
{
    1 <= number && number as usize <= count_of(points)
}

// Whether the points at two places, from 0, part a box.
fn places_part(b: &DirBox, points: &Points<'_>, tolerance: u32, far: usize, near: usize) -> bool
    requires directions { IsBox b.now }
    requires leads { LeadsByOne b.now }
    requires tolerance { tolerance ≤ TOLERANCE }
    requires far { far < length (rows_in points.now) }
    requires near { near < length (rows_in points.now) }
    ensures { result ≡ parts (rows_in points.now) tolerance b.now far near }
{
    let face = face_of(b, points);
    are_parted(
        b,
        span_at(&face, far).lo,
        span_at(&face, near).hi,
        tolerance,
    )
}

/// Whether this evidence refutes a box.
pub fn is_refuted_at(b: &DirBox, points: &Points<'_>, tolerance: u32, evidence: &Evidence) -> bool
    requires directions { IsBox b.now }
    requires leads { LeadsByOne b.now }
    requires tolerance { tolerance ≤ TOLERANCE }
    ensures { result ≡ is_refuted (rows_in points.now) tolerance b.now evidence.now }
{
    evidence.condition == FLATNESS
        && names_a_point(evidence.a, points)
        && names_a_point(evidence.b, points)
        && places_part(
            b,
            points,
            tolerance,
            evidence.a as usize - 1,
            evidence.b as usize - 1,
        )
}
