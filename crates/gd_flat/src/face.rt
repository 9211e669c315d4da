// A box of directions beside the coordinates of the points, in the order of the axis on which the box leads.
ghost use Rattle.std.specs.Prelude.{◌≡◌, ◌<◌, ◌≤◌, ◌≤ℤ◌, ◌*◌, ◌-ℤ◌, ◌*ℤ◌, pos, unsigned_abs, cond, get_or, int_lt};
ghost use Rattle.std.specs.Prelude.{length};
ghost use Rattle.std.specs.List.{All};
ghost use Rattle.gd_base.specs.Limits.{COORDINATE, TOLERANCE};
ghost use Rattle.gd_base.specs.Scales.{ONE};
ghost use Rattle.gd_dir.specs.Boxes.{IsBox};
ghost use Rattle.gd_dir.specs.Directions.{first_other, second_other};
ghost use Rattle.gd_flat.specs.FlatTests.{highs, lows, scale_hi, scale_lo};
ghost use Rattle.gd_flat.specs.PointRows.{rows_in};
ghost use Rattle.gd_flat.specs.Leading.{IsAxis, LeadsByOne, coordinates};
ghost use Rattle.gd_flat.specs.Sizes.{PRODUCT_SIZE, VALUE_SIZE};

use crate::points::Points;
use crate::products::{short, sum, times};
use gd_dir::DirBox;

/// The entry of each direction along the leading axis: 1, in 2^-30.
const LEAD: i32 = 1 << 30;

// The coordinates of the points along an axis, in units.
#[derive(Clone, Copy)]
pub struct Coordinates<'a> {
    values: &'a [i32],
    ghost within: { All (λ value. unsigned_abs value ≤ COORDINATE) values.now },
}

// The same, and the ends of the directions' entry along the axis, in 2^-30.
#[derive(Clone, Copy)]
pub struct Axis<'a> {
    along: Coordinates<'a>,
    lo: i32,
    hi: i32,
    ghost order: { lo ≤ℤ hi },
    ghost lo_size: { unsigned_abs lo ≤ ONE },
    ghost hi_size: { unsigned_abs hi ≤ ONE },
}

/// A box of directions and the points. Along its leading axis every direction is 1, so one product gives both ends of a
/// value.
#[derive(Clone, Copy)]
pub struct Face<'a> {
    pub directions: DirBox,
    pub points: Points<'a>,
    lead: Coordinates<'a>,
    first: Axis<'a>,
    second: Axis<'a>,
    ghost is_box: { IsBox directions },
    ghost leads: { LeadsByOne directions },
    ghost lead_is: { lead.values.now ≡ coordinates directions.lead (rows_in points) },
    ghost first_is: { IsAxis (first_other directions.lead) directions
        (rows_in points) first.along.values.now first.lo first.hi },
    ghost second_is: { IsAxis (second_other directions.lead) directions
        (rows_in points) second.along.values.now second.lo second.hi },
}

// The least and the greatest of some values, in units and 2^-30.
#[derive(Clone, Copy)]
pub struct Span {
    pub lo: i64,
    pub hi: i64,
    ghost lo_size: { unsigned_abs lo ≤ VALUE_SIZE },
    ghost hi_size: { unsigned_abs hi ≤ VALUE_SIZE },
}

// The coordinates of the points along an axis.
fn coordinates_of(values: &[i32]) -> Coordinates<'_>
    requires { All (λ value. unsigned_abs value ≤ COORDINATE) values.now }
    ensures { result.values.now ≡ values.now }
{
    Coordinates { values }
}

// An axis other than the leading one.
fn axis_of(along: Coordinates<'_>, lo: i64, hi: i64) -> Axis<'_>
    requires order { lo ≤ℤ hi }
    requires lo { unsigned_abs lo ≤ ONE }
    requires hi { unsigned_abs hi ≤ ONE }
    ensures along { result.along.values.now ≡ along.entry.values.now }
    ensures lo { result.lo ≡ lo }
    ensures hi { result.hi ≡ hi }
{
    Axis {
        along,
        lo: short(lo),
        hi: short(hi),
    }
}

// The face of a box and the points, by their coordinates in the order of its axes.
fn face_with<'a>(
    directions: &DirBox,
    points: &Points<'a>,
    lead: Coordinates<'a>,
    first: Axis<'a>,
    second: Axis<'a>,
) -> Face<'a>
    requires is_box { IsBox directions.now }
    requires leads { LeadsByOne directions.now }
    requires lead { lead.values.now ≡ coordinates directions.now.lead (rows_in points.now) }
    requires first { IsAxis (first_other directions.now.lead) directions.now (rows_in points.now)
        first.along.values.now first.lo first.hi }
    requires second { IsAxis (second_other directions.now.lead) directions.now (rows_in points.now)
        second.along.values.now second.lo second.hi }
    ensures directions { result.directions ≡ directions.now }
    ensures rows { rows_in result.points ≡ rows_in points.now }
{
    Face {
        directions: *directions,
        points: *points,
        lead,
        first,
        second,
    }
}

/// The face of a box and the points.
pub fn face_of<'a>(directions: &DirBox, points: &Points<'a>) -> Face<'a>
    requires is_box { IsBox directions.now }
    requires leads { LeadsByOne directions.now }
    ensures directions { result.directions ≡ directions.now }
    ensures rows { rows_in result.points ≡ rows_in points.now }
{
    let x = coordinates_of(points.columns.x);
    let y = coordinates_of(points.columns.y);
    let z = coordinates_of(points.columns.z);
    let DirBox { lo, hi, .. } = directions;
    match directions.lead {
        1 => face_with(
            directions,
            points,
            x,
            axis_of(y, lo.y, hi.y),
            axis_of(z, lo.z, hi.z),
        ),
        2 => face_with(
            directions,
            points,
            y,
            axis_of(x, lo.x, hi.x),
            axis_of(z, lo.z, hi.z),
        ),
        _ => face_with(
            directions,
            points,
            z,
            axis_of(x, lo.x, hi.x),
            axis_of(y, lo.y, hi.y),
        ),
    }
}

// How far the point at a place lies from the first point along an axis, in units.
#[inline(always)]
fn apart(along: &Coordinates<'_>, at: usize) -> i32
    requires { at < length along.now.values.now }
    ensures value { result ≡ get_or along.now.values.now at (pos 0) -ℤ get_or along.now.values.now 0 (pos 0) }
    ensures size { unsigned_abs result ≤ TOLERANCE }
{
    along.values[at] - along.values[0]
}

// One of two entries, by the sign of a difference of coordinates.
#[inline(always)]
fn end_by_sign(plus: i32, minus: i32, by: i32) -> i32
    requires plus { unsigned_abs plus ≤ ONE }
    requires minus { unsigned_abs minus ≤ ONE }
    ensures value { result ≡ cond (int_lt by (pos 0)) minus plus }
    ensures size { unsigned_abs result ≤ ONE }
{
    if by < 0 { minus } else { plus }
}

// The least product of an entry and a difference of coordinates. A negative difference turns the ends round.
#[inline(always)]
fn least_product(axis: &Axis<'_>, by: i32) -> i64
    requires { unsigned_abs by ≤ TOLERANCE }
    ensures value { result ≡ scale_lo axis.now.lo axis.now.hi by }
    ensures size { unsigned_abs result ≤ PRODUCT_SIZE }
{
    times(end_by_sign(axis.lo, axis.hi, by), by)
}

// The greatest product.
#[inline(always)]
fn greatest_product(axis: &Axis<'_>, by: i32) -> i64
    requires { unsigned_abs by ≤ TOLERANCE }
    ensures value { result ≡ scale_hi axis.now.lo axis.now.hi by }
    ensures size { unsigned_abs result ≤ PRODUCT_SIZE }
{
    times(end_by_sign(axis.hi, axis.lo, by), by)
}

// The least and the greatest value of the point at a place, taken from the first point.
#[inline(always)]
pub fn span_at(face: &Face<'_>, at: usize) -> Span
    requires { at < length (rows_in face.now.points) }
    ensures lo { result.lo ≡ get_or (lows face.now.directions (rows_in face.now.points)) at (pos 0) }
    ensures hi { result.hi ≡ get_or (highs face.now.directions (rows_in face.now.points)) at (pos 0) }
{
    let lead = times(LEAD, apart(&face.lead, at));
    let first = apart(&face.first.along, at);
    let second = apart(&face.second.along, at);
    Span {
        lo: sum(
            lead,
            least_product(&face.first, first),
            least_product(&face.second, second),
        ),
        hi: sum(
            lead,
            greatest_product(&face.first, first),
            greatest_product(&face.second, second),
        ),
    }
}
