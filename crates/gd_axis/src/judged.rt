// The points that a form about an axis judges.
ghost use Rattle.std.specs.Prelude.{◌≡◌, ◌<◌, ◌≤◌, ◌-◌, get_or, length, nat_eq, true, false, IfSome, None, []};
ghost use Rattle.std.specs.List.{All, list_any};
ghost use Rattle.std.specs.List.Sorted.{IsNonDecreasingBy};
ghost use Rattle.gd_axis.specs.AxisTests.{is_judged};
ghost use Rattle.gd_axis.specs.Sizes.{POINT_SIZE};
ghost use Rattle.gd_flat.specs.FlatTests.{point_at};
ghost use Rattle.gd_flat.specs.Judged.{numbers_of};
ghost use Rattle.gd_vec.specs.Vector.{IsWithin};

use crate::points::{Points, place_at};
use gd_points::PointIndex;
use gd_vec::V3;

/// The points of a table that a form judges, at least one, by their places in it, from 0, which ascend.
#[derive(Clone, Copy)]
pub struct Judged<'a> {
    pub points: Points<'a>,
    pub numbers: &'a [u32],
    ghost named: { 0 < length numbers.now },
    ghost below: { All (λ number. number < length points.table.now.rows) numbers.now },
    ghost ascending: { IsNonDecreasingBy (λ number. number) numbers.now },
}

impl<'a> Judged<'a> {
    /// The points of a feature, or of a group of it, found without a look at the whole table. `None` where there is
    /// none.
    pub fn of(index: &'a PointIndex<'a>, feature: u32, group: Option<u32>) -> Option<Judged<'a>>
        ensures numbers { IfSome result (λ judged. judged.numbers.now ≡ numbers_of feature group
            index.now.table.now.rows) }
        ensures none { result ≡ None → numbers_of feature group index.now.table.now.rows ≡ [] }
        ensures table { IfSome result (λ judged. judged.points.table.now.rows ≡ index.now.table.now.rows) }
    {
        let numbers = numbers_of(index, feature, group);
        if numbers.is_empty() {
            return None;
        }
        let table = index.table();
        Some(Judged {
            points: Points {
                table,
                columns: table.columns(),
            },
            numbers,
        })
    }
}

// The places of the rows of a feature, or of a group of it.
fn numbers_of<'a>(index: &'a PointIndex<'a>, feature: u32, group: Option<u32>) -> &'a [u32]
    ensures all { result.now ≡ numbers_of feature group index.now.table.now.rows }
    ensures below { All (λ number. number < length index.now.table.now.rows) result.now }
    ensures ascending { IsNonDecreasingBy (λ number. number) result.now }
{
    match group {
        None => index.rows_of(feature),
        Some(group) => index.rows_of_group(feature, group),
    }
}

// The point at a place in the table, from 0, in units.
#[inline(always)]
pub fn point_of(points: &Points<'_>, at: usize) -> V3
    requires { at < length points.now.table.now.rows }
    ensures value { result ≡ point_at points.now.table.now.rows at }
    ensures size { IsWithin POINT_SIZE result }
{
    let place = place_at(points, at);
    V3 {
        x: i64::from(place.x),
        y: i64::from(place.y),
        z: i64::from(place.z),
    }
}

// The place in the table of a judged point, by its place among them.
#[inline(always)]
pub fn number_at(judged: &Judged<'_>, at: usize) -> usize
    requires { at < length judged.now.numbers.now }
    ensures value { result ≡ get_or judged.now.numbers.now at 0 }
    ensures inside { result < length judged.now.points.table.now.rows }
{
    judged.numbers[at] as usize
}

// Whether this is the number of a judged point, from 1.
pub fn is_judged(judged: &Judged<'_>, number: u32) -> bool
    ensures value { result ≡ is_judged judged.now.numbers.now number }
    ensures inside { result ≡ true → number - 1 < length judged.now.points.table.now.rows }
{
    1 <= number && is_among(judged.numbers, number - 1)
}

// Whether a number is one of some that ascend.
fn is_among(numbers: &[u32], number: u32) -> bool
    requires { IsNonDecreasingBy (λ n. n) numbers.now }
    ensures { result ≡ list_any (λ n. nat_eq n number) numbers.now }
{
    let at = numbers.partition_point(|n| *n < number);
    stands_at(numbers, at, number)
}

// Whether a number stands at a place.
fn stands_at(numbers: &[u32], at: usize, number: u32) -> bool
    ensures inside { at < length numbers.now → result ≡ nat_eq (get_or numbers.now at 0) number }
    ensures past { length numbers.now ≤ at → result ≡ false }
{
    match numbers.get(at) {
        None => false,
        Some(n) => *n == number,
    }
}
