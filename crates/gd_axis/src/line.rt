// Straightness of a derived median line over a box of axes (ASME Y14.5M-1994, 6.4.1).
ghost use Rattle.std.specs.Prelude.{◌≡◌, ◌<◌, ◌≤◌, ◌*◌, ◌^◌, ◌≤ℤ◌, ◌*ℤ◌, false, get_or, int_le, int_lt, length, pos};
ghost use Rattle.std.specs.Prelude.{take, true, unsigned_abs};
ghost use Rattle.std.specs.List.{All};
ghost use Rattle.gd_axis.specs.Sizes.{LENGTH2_SIZE};
ghost use Rattle.gd_base.specs.Limits.{TOLERANCE};
ghost use Rattle.gd_axis.specs.AxisBoxes.{IsDistance2};
ghost use Rattle.gd_axis.specs.AxisTests.{length2_of, line_evidence, line_holds, line_refuted, point_evidence};
ghost use Rattle.gd_axis.specs.AxisTests.{square_times, value_at};

use crate::axis::{length2, value};
use crate::axis_box::AxisBox;
use crate::extent::value_at;
use crate::judged::{Judged, is_judged, number_at, point_of};
use gd_cells::Evidence;
use gd_interval::times;

/// The number of the one condition of a form.
const FORM: u32 = 1;

// The square of the tolerance times a squared length.
fn square_times(tolerance: u32, length2: i128) -> i128
    requires tolerance { tolerance ≤ TOLERANCE }
    requires length2 { unsigned_abs length2 ≤ LENGTH2_SIZE }
    ensures value { result ≡ square_times tolerance length2 }
    ensures size { unsigned_abs result ≤ 2 ^ 102 }
{
    let tolerance = i128::from(tolerance);
    times(times(tolerance, tolerance), length2)
}

// Whether twice a distance, by its square, is more than the tolerance.
#[inline(always)]
fn is_more(square: i128, most: i128) -> bool
    requires square { IsDistance2 square }
    ensures { result ≡ int_lt most (pos 4 *ℤ square) }
{
    most < times(4, square)
}

/// The evidence of one point by its place in the table, from 0.
fn evidence_at(at: usize) -> Evidence
    requires { at < 2 ^ 31 }
    ensures { result ≡ point_evidence at }
{
    Evidence {
        condition: FORM,
        a: at as u32 + 1,
        b: 0,
    }
}

/// The first evidence that refutes a box: the first point that lies outside at each axis.
pub fn line_evidence_in(over: &AxisBox<'_>, judged: &Judged<'_>, tolerance: u32) -> Option<Evidence>
    requires tolerance { tolerance ≤ TOLERANCE }
    ensures { result ≡ line_evidence over.now.shape judged.now.points.table.now.rows judged.now.numbers.now
        tolerance over.now.b.now over.now.own }
{
    let most = square_times(tolerance, length2(over.shape, over.b).hi);
    for at in 0..judged.numbers.len() {
        if is_more(value_at(over, judged, at).lo, most) {
            return Some(evidence_at(number_at(judged, at)));
        }
    }
    None
}

// Whether the point at a place of the table, from 0, lies outside at each axis of a box.
fn place_is_outside(over: &AxisBox<'_>, judged: &Judged<'_>, tolerance: u32, at: usize) -> bool
    requires tolerance { tolerance ≤ TOLERANCE }
    requires at { at < length judged.now.points.table.now.rows }
    ensures { result ≡ int_lt (square_times tolerance (length2_of over.now.shape over.now.b.now).hi) (pos 4 *ℤ
        (value_at over.now.shape over.now.b.now over.now.own judged.now.points.table.now.rows at).lo) }
{
    let most = square_times(tolerance, length2(over.shape, over.b).hi);
    is_more(
        value(over.shape, over.b, &over.own, &point_of(&judged.points, at)).lo,
        most,
    )
}

/// Whether this evidence refutes a box.
pub fn is_line_refuted_at(
    over: &AxisBox<'_>,
    judged: &Judged<'_>,
    tolerance: u32,
    evidence: &Evidence,
) -> bool
    requires tolerance { tolerance ≤ TOLERANCE }
    ensures { result ≡ line_refuted over.now.shape judged.now.points.table.now.rows judged.now.numbers.now
        tolerance over.now.b.now over.now.own evidence.now }
{
    evidence.condition == FORM
        && is_judged(judged, evidence.a)
        && evidence.b == 0
        && place_is_outside(over, judged, tolerance, evidence.a as usize - 1)
}

/// Whether twice the distance of each point is at most the tolerance, at each axis of the box.
pub fn is_line(over: &AxisBox<'_>, judged: &Judged<'_>, tolerance: u32) -> bool
    requires tolerance { tolerance ≤ TOLERANCE }
    ensures { result ≡ line_holds over.now.shape judged.now.points.table.now.rows judged.now.numbers.now
        tolerance over.now.b.now over.now.own }
{
    let most = square_times(tolerance, length2(over.shape, over.b).lo);
    for at in 0..judged.numbers.len() {
        if is_more(value_at(over, judged, at).hi, most) {
            return false;
        }
    }
    true
}
