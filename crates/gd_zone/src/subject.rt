// A condition beside its points.
ghost use Rattle.std.specs.Prelude.{◌≡◌, ◌<◌, ◌≤◌, length, unsigned_abs};
ghost use Rattle.std.specs.List.{All};
ghost use Rattle.gd_base.specs.Limits.{COORDINATE, POINTS};
ghost use Rattle.gd_points.specs.Columns.{AreColumns};
ghost use Rattle.gd_points.specs.Index.{numbers_where, row_at};
ghost use Rattle.gd_vec.specs.Vector.{IsWithin};
ghost use Rattle.gd_zone.specs.Conditions.{belongs, is_of_feature};

use crate::condition::Condition;
use gd_points::{Columns, PointIndex};

/// A condition beside the points that it speaks of: those of its feature, and of its group where it has one. They are
/// found once. A point's number is the place of its row in the table, from 0.
#[derive(Clone, Copy)]
pub struct Subject<'a> {
    pub condition: Condition,
    pub index: &'a PointIndex<'a>,
    points: &'a [u32],
    feature: &'a [u32],
    columns: Columns<'a>,
    ghost own: { points.now ≡ numbers_where (belongs condition) index.now.table.now.rows },
    ghost own_below: { All (λ number. number < length index.now.table.now.rows) points.now },
    ghost whole: { feature.now ≡ numbers_where (is_of_feature condition) index.now.table.now.rows },
    ghost whole_below: { All (λ number. number < length index.now.table.now.rows) feature.now },
    ghost few: { length index.now.table.now.rows ≤ POINTS },
    ghost within: { All (λ row. IsWithin COORDINATE row.at) index.now.table.now.rows },
    ghost same: { AreColumns columns.x.now columns.y.now columns.z.now index.now.table.now.rows },
}

// The coordinates of a point, in units.
#[derive(Clone, Copy)]
pub(crate) struct Place {
    pub x: i32,
    pub y: i32,
    pub z: i32,
}

// The numbers of a condition's points.
#[tactic(auto, using(crate::proofs::Numbers::points_of_feature, crate::proofs::Numbers::points_of_group))]
fn points_of<'a>(condition: &Condition, index: &'a PointIndex<'a>) -> &'a [u32]
    ensures all { result.now ≡ numbers_where (belongs condition.now) index.now.table.now.rows }
    ensures below { All (λ number. number < length index.now.table.now.rows) result.now }
{
    match condition.group {
        None => index.rows_of(condition.feature),
        Some(group) => index.rows_of_group(condition.feature, group),
    }
}

// The numbers of the points of a condition's feature.
fn feature_of<'a>(condition: &Condition, index: &'a PointIndex<'a>) -> &'a [u32]
    ensures all { result.now ≡ numbers_where (is_of_feature condition.now) index.now.table.now.rows }
    ensures below { All (λ number. number < length index.now.table.now.rows) result.now }
{
    index.rows_of(condition.feature)
}

impl<'a> Subject<'a> {
    /// The condition with its points, which the index finds.
    pub fn of(condition: &Condition, index: &'a PointIndex<'a>) -> Subject<'a>
        ensures condition { result.condition ≡ condition.now }
        ensures index { result.index.now.table.now.rows ≡ index.now.table.now.rows }
    {
        Subject {
            condition: *condition,
            index,
            points: points_of(condition, index),
            feature: feature_of(condition, index),
            columns: index.table().columns(),
        }
    }

    /// The numbers of the condition's points, ascending: those of its feature, and of its group where it has one.
    pub fn points(&self) -> &'a [u32]
        ensures all { result.now ≡ numbers_where (belongs self.now.condition) self.now.index.now.table.now.rows }
        ensures below { All (λ number. number < length self.now.index.now.table.now.rows) result.now }
    {
        self.points
    }

    /// The numbers of all points of the condition's feature, ascending.
    pub fn feature(&self) -> &'a [u32]
        ensures all { result.now
            ≡ numbers_where (is_of_feature self.now.condition) self.now.index.now.table.now.rows }
        ensures below { All (λ number. number < length self.now.index.now.table.now.rows) result.now }
    {
        self.feature
    }

    // The place of a point, in units.
    #[inline]
    pub(crate) fn place(&self, at: usize) -> Place
        requires { at < length self.now.index.now.table.now.rows }
        ensures value { record { x = result.x; y = result.y; z = result.z }
            ≡ (row_at self.now.index.now.table.now.rows at).at }
        ensures x { unsigned_abs result.x ≤ COORDINATE }
        ensures y { unsigned_abs result.y ≤ COORDINATE }
        ensures z { unsigned_abs result.z ≤ COORDINATE }
    {
        self.read(at)
    }

    // The coordinates of a point, from the columns.
    #[inline]
    fn read(&self, at: usize) -> Place
        requires { at < length self.now.index.now.table.now.rows }
        ensures value { record { x = result.x; y = result.y; z = result.z }
            ≡ (row_at self.now.index.now.table.now.rows at).at }
        ensures size { IsWithin COORDINATE (row_at self.now.index.now.table.now.rows at).at }
    {
        Place {
            x: self.columns.x[at],
            y: self.columns.y[at],
            z: self.columns.z[at],
        }
    }
}
