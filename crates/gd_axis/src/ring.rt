// Circularity and cylindricity over a box of axes (ASME Y14.5M-1994, 6.4.3 and 6.4.4).
ghost use Rattle.std.specs.Prelude.{◌≡◌, ◌<◌, ◌≤◌, ◌*◌, ◌-ℤ◌, ◌≤ℤ◌, pos, unsigned_abs, length};
ghost use Rattle.std.specs.Ordering.{is_gt, is_le};
ghost use Rattle.gd_axis.specs.Sizes.{LENGTH2_SIZE};
ghost use Rattle.gd_base.specs.Limits.{TOLERANCE};
ghost use Rattle.gd_axis.specs.AxisBoxes.{IsDistance};
ghost use Rattle.gd_axis.specs.AxisTests.{far_ends, farthest_point, near_ends, nearest_point, ring_evidence};
ghost use Rattle.gd_axis.specs.AxisTests.{ring_holds, ring_parts, ring_refuted};
ghost use Rattle.gd_flat.specs.FlatTests.{evidence_of, greatest, least};
ghost use Rattle.gd_int.specs.Roots.{cmp_root_of};

use crate::axis::{length2, value};
use crate::axis_box::AxisBox;
use crate::extent::{extent_of, first_far, first_near, root_down, root_up};
use crate::judged::{Judged, is_judged, number_at, point_of};
use gd_cells::Evidence;
use gd_int::cmp_root;
use gd_interval::minus;
use std::cmp::Ordering;

/// The number of the one condition of a form.
const FORM: u32 = 1;

// Two distances, times the direction's length, less each other, against the tolerance times the length.
fn compared(from: i128, to: i128, tolerance: u32, length2: i128) -> Ordering
    requires from { IsDistance from }
    requires to { IsDistance to }
    requires tolerance { tolerance ≤ TOLERANCE }
    requires sign { pos 0 ≤ℤ length2 }
    requires length2 { unsigned_abs length2 ≤ LENGTH2_SIZE }
    ensures { result ≡ cmp_root_of (from -ℤ to) (pos tolerance) length2 }
{
    cmp_root(minus(from, to), i128::from(tolerance), length2)
}

/// The first evidence that refutes a box: the farthest point and the nearest.
pub fn ring_evidence_in(over: &AxisBox<'_>, judged: &Judged<'_>, tolerance: u32) -> Option<Evidence>
    requires tolerance { tolerance ≤ TOLERANCE }
    ensures { result ≡ ring_evidence over.now.shape judged.now.points.table.now.rows judged.now.numbers.now
        tolerance over.now.b.now over.now.own }
{
    let extent = extent_of(over, judged);
    let far = root_down(extent.most_lo);
    let near = root_up(extent.least_hi);
    if compared(far, near, tolerance, length2(over.shape, over.b).hi).is_gt() {
        Some(evidence_at(over, judged, far, near))
    } else {
        None
    }
}

// The evidence of the first points that have these distances.
fn evidence_at(over: &AxisBox<'_>, judged: &Judged<'_>, far: i128, near: i128) -> Evidence
    requires far { far ≡ greatest (near_ends over.now.shape over.now.b.now over.now.own
        judged.now.points.table.now.rows judged.now.numbers.now) }
    requires near { near ≡ least (far_ends over.now.shape over.now.b.now over.now.own
        judged.now.points.table.now.rows judged.now.numbers.now) }
    requires far_size { IsDistance far }
    requires near_size { IsDistance near }
    ensures { result ≡ evidence_of (farthest_point over.now.shape judged.now.points.table.now.rows
        judged.now.numbers.now over.now.b.now over.now.own) (nearest_point over.now.shape
        judged.now.points.table.now.rows judged.now.numbers.now over.now.b.now over.now.own) }
{
    let far = number_at(judged, first_far(over, judged, far));
    let near = number_at(judged, first_near(over, judged, near));
    Evidence {
        condition: FORM,
        a: far as u32 + 1,
        b: near as u32 + 1,
    }
}

// Whether the points at two places of the table, from 0, part a box.
fn places_part(
    over: &AxisBox<'_>,
    judged: &Judged<'_>,
    tolerance: u32,
    far: usize,
    near: usize,
) -> bool
    requires tolerance { tolerance ≤ TOLERANCE }
    requires far { far < length judged.now.points.table.now.rows }
    requires near { near < length judged.now.points.table.now.rows }
    ensures { result ≡ ring_parts over.now.shape judged.now.points.table.now.rows tolerance over.now.b.now
        over.now.own far near }
{
    let least = root_down(
        value(
            over.shape,
            over.b,
            &over.own,
            &point_of(&judged.points, far),
        )
        .lo,
    );
    let most = root_up(
        value(
            over.shape,
            over.b,
            &over.own,
            &point_of(&judged.points, near),
        )
        .hi,
    );
    compared(least, most, tolerance, length2(over.shape, over.b).hi).is_gt()
}

/// Whether this evidence refutes a box.
pub fn is_ring_refuted_at(
    over: &AxisBox<'_>,
    judged: &Judged<'_>,
    tolerance: u32,
    evidence: &Evidence,
) -> bool
    requires tolerance { tolerance ≤ TOLERANCE }
    ensures { result ≡ ring_refuted over.now.shape judged.now.points.table.now.rows judged.now.numbers.now
        tolerance over.now.b.now over.now.own evidence.now }
{
    evidence.condition == FORM
        && is_judged(judged, evidence.a)
        && is_judged(judged, evidence.b)
        && places_part(
            over,
            judged,
            tolerance,
            evidence.a as usize - 1,
            evidence.b as usize - 1,
        )
}

/// Whether the greatest distance less the least is at most the tolerance, at each axis of the box.
pub fn is_ring(over: &AxisBox<'_>, judged: &Judged<'_>, tolerance: u32) -> bool
    requires tolerance { tolerance ≤ TOLERANCE }
    ensures { result ≡ ring_holds over.now.shape judged.now.points.table.now.rows judged.now.numbers.now
        tolerance over.now.b.now over.now.own }
{
    let extent = extent_of(over, judged);
    let far = root_up(extent.most_hi);
    let near = root_down(extent.least_lo);
    compared(far, near, tolerance, length2(over.shape, over.b).lo).is_le()
}
