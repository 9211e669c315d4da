// Flatness of the points of a feature as a task over the cells of three faces.
ghost use Rattle.std.specs.Prelude.{◌≡◌, ◌<◌, ◌≤◌, ◌-◌, Some, false, get_or, length, nat_eq, option_map};
ghost use Rattle.std.specs.List.{All, position_or_len};
ghost use Rattle.std.specs.List.Sorted.{IsNonDecreasingBy};
ghost use Rattle.gd_base.specs.Limits.{COORDINATE, POINTS, TOLERANCE};
ghost use Rattle.gd_flat.specs.FlatFeature.{by_numbers, by_places, feature_questions, number_of, place_in};
ghost use Rattle.gd_flat.specs.FlatTask.{IsFeasible, IsInside, assignment_of, direction_at};
ghost use Rattle.gd_flat.specs.Judged.{judged_rows, numbers_of};
ghost use Rattle.gd_flat.specs.Laws.Feature.{feature_laws};
ghost use Rattle.gd_points.specs.Columns.{AreColumns};
ghost use Rattle.gd_vec.specs.Vector.{IsWithin};

use crate::flat::{first_evidence_in, is_refuted_at};
use crate::points::Points;
use crate::task::{holds_at, is_in_range};
use gd_cells::{Cell, Evidence, Task, Witness, split_cell, witness_of};
use gd_dir::{centre_of, face_box};
use gd_points::{PointIndex, PointList};

/// The flatness of the points of a feature, or of a group of it, to a tolerance in units of 0.1 micrometre (ASME
/// Y14.5M-1994, 6.4.2). `numbers` are the places of the points in the table, from 0, which ascend; evidence names
/// points by their numbers in the table, from 1. A witness is a face and two ratios in 2^-30.
#[derive(Clone, Copy)]
pub struct FeatureTask<'a> {
    pub points: Points<'a>,
    pub numbers: &'a [u32],
    pub tolerance: u32,
    ghost tolerable: { tolerance ≤ TOLERANCE },
    ghost listed: { option_map (λ n. n.now) points.numbers ≡ Some numbers.now },
    ghost some: { 0 < length numbers.now },
    ghost few: { length points.table.now.rows ≤ POINTS },
    ghost short: { length numbers.now ≤ POINTS },
    ghost below: { All (λ number. number < length points.table.now.rows) numbers.now },
    ghost ascending: { IsNonDecreasingBy (λ number. number) numbers.now },
}

/// The task of flatness of a feature, or of a group of it, to a tolerance in units. It takes no memory.
pub fn feature_task<'a>(
    index: &'a PointIndex<'a>,
    feature: u32,
    group: Option<u32>,
    tolerance: u32,
) -> FeatureTask<'a>
    requires some { 0 < length (numbers_of feature group index.now.table.now.rows) }
    requires tolerance { tolerance ≤ TOLERANCE }
    ensures rows { result.points.table.now.rows ≡ index.now.table.now.rows }
    ensures numbers { result.numbers.now ≡ numbers_of feature group index.now.table.now.rows }
    ensures tolerance { result.tolerance ≡ tolerance }
{
    let list = points_of(index, feature, group);
    let table = index.table();
    let _count = table.len();
    FeatureTask {
        points: Points {
            table,
            numbers: Some(list.numbers),
            columns: list.columns,
        },
        numbers: list.numbers,
        tolerance,
    }
}

impl<'a> Task for FeatureTask<'a> {
    ghost questions = { λ s. feature_questions s.points.table.now.rows s.numbers.now s.tolerance };

    ghost feasible = { λ s a. IsFeasible (judged_rows s.points.table.now.rows s.numbers.now) s.tolerance a };

    ghost inside = { λ s a c. IsInside a c };

    ghost assignment = { λ s w. assignment_of w.root (direction_at w) };

    fn roots(&self) -> u32 {
        3
    }

    fn dims(&self) -> u32 {
        2
    }

    fn numbers(&self) -> u32 {
        2
    }

    fn finest_level(&self) -> u32 {
        60
    }

    fn points(&self) -> usize {
        self.numbers.len()
    }

    fn split(&self, cell: &Cell) -> (Cell, Cell) {
        split_cell(cell, cell.level as usize % 2)
    }

    fn refutes(&self, cell: &Cell) -> Option<Evidence> {
        let first = first_evidence_in(&face_box(cell), &self.points, self.tolerance);
        numbered(self.numbers, first)
    }

    fn refutes_at(&self, cell: &Cell, evidence: &Evidence) -> bool {
        let places = by_places(self.numbers, evidence);
        is_refuted_at(&face_box(cell), &self.points, self.tolerance, &places)
    }

    fn centre(&self, cell: &Cell) -> Witness {
        let (first, second) = centre_of(cell);
        witness_of(cell.root, &[first, second])
    }

    fn in_range(&self, witness: &Witness) -> bool {
        is_in_range(witness)
    }

    fn holds(&self, witness: &Witness) -> bool {
        holds_at(&self.points, self.tolerance, witness)
    }

    ghost laws = { λ t. feature_laws t.points.table.now.rows t.numbers.now t.tolerance t.some t.short t.below t.few };
}

// Evidence by the numbers of its points in the table, from that by their places among the judged ones.
fn numbered(numbers: &[u32], first: Option<Evidence>) -> Option<Evidence>
    requires { All (λ number. number < POINTS) numbers.now }
    ensures { result ≡ option_map (by_numbers numbers.now) first }
{
    match first {
        None => None,
        Some(e) => Some(by_numbers(numbers, &e)),
    }
}

// The same of one piece of evidence.
fn by_numbers(numbers: &[u32], e: &Evidence) -> Evidence
    requires { All (λ number. number < POINTS) numbers.now }
    ensures { result ≡ by_numbers numbers.now e.now }
{
    Evidence {
        condition: e.condition,
        a: number_of(numbers, e.a),
        b: number_of(numbers, e.b),
    }
}

// Evidence by the places of its points among the judged ones, from that by their numbers in the table.
fn by_places(numbers: &[u32], e: &Evidence) -> Evidence
    requires up { IsNonDecreasingBy (λ n. n) numbers.now }
    requires few { length numbers.now ≤ POINTS }
    ensures { result ≡ by_places numbers.now e.now }
{
    Evidence {
        condition: e.condition,
        a: place_in(numbers, e.a),
        b: place_in(numbers, e.b),
    }
}

// The points of a feature, or of a group of it.
fn points_of<'a>(index: &'a PointIndex<'a>, feature: u32, group: Option<u32>) -> PointList<'a>
    ensures all { result.numbers.now ≡ numbers_of feature group index.now.table.now.rows }
    ensures below { All (λ number. number < length index.now.table.now.rows) result.numbers.now }
    ensures ascending { IsNonDecreasingBy (λ number. number) result.numbers.now }
    ensures columns { AreColumns result.columns.x.now result.columns.y.now result.columns.z.now
        (judged_rows index.now.table.now.rows result.numbers.now) }
    ensures within { All (λ row. IsWithin COORDINATE row.at)
        (judged_rows index.now.table.now.rows result.numbers.now) }
    ensures few { length result.numbers.now ≤ POINTS }
{
    match group {
        None => index.points_of(feature),
        Some(group) => index.points_of_group(feature, group),
    }
}

// The place among the judged points, from 1, of the point with a number in the table, from 1: none is 0 or past the
// last.
fn place_in(numbers: &[u32], number: u32) -> u32
    requires up { IsNonDecreasingBy (λ n. n) numbers.now }
    requires few { length numbers.now ≤ POINTS }
    ensures { result ≡ place_in numbers.now number }
{
    if number == 0 {
        return 0;
    }
    first_of(numbers, number - 1) as u32 + 1
}

// The first place of a number among some that ascend, and past the last where it isn't one of them.
fn first_of(numbers: &[u32], number: u32) -> usize
    requires { IsNonDecreasingBy (λ n. n) numbers.now }
    ensures first { result ≡ position_or_len (nat_eq number) numbers.now }
    ensures most { result ≤ length numbers.now }
{
    let at = numbers.partition_point(|n| *n < number);
    if stands_at(numbers, at, number) {
        at
    } else {
        numbers.len()
    }
}

// Whether a number stands at a place.
fn stands_at(numbers: &[u32], at: usize, number: u32) -> bool
    ensures inside { at < length numbers.now → result ≡ nat_eq (get_or numbers.now at 0) number }
    ensures past { length numbers.now ≤ at → result ≡ false }
{
    match numbers.get(at) {
        None => false,
        Some(n) => *n == number,
    }
}

// The number in the table, from 1, of the judged point at a place among them, from 1.
fn number_of(numbers: &[u32], place: u32) -> u32
    requires { All (λ number. number < POINTS) numbers.now }
    ensures { result ≡ number_of numbers.now place }
{
    match numbers.get((place as usize).saturating_sub(1)) {
        None => 1,
        Some(number) => *number + 1,
    }
}
