// The points of a table, and their coordinates axis by axis.
ghost use Rattle.std.specs.Prelude.{◌≡◌, ◌<◌, ◌≤◌, ◌*◌, ◌^◌, length};
ghost use Rattle.std.specs.List.{All};
ghost use Rattle.gd_base.specs.Limits.{COORDINATE, POINTS};
ghost use Rattle.gd_flat.specs.FlatTests.{point_at};
ghost use Rattle.gd_points.specs.Columns.{AreColumns};
ghost use Rattle.gd_vec.specs.Vector.{IsWithin};

use gd_points::{Columns, PointTable};

/// The points of a table, at least one, and beside it their coordinates axis by axis.
#[derive(Clone, Copy)]
pub struct Points<'a> {
    pub table: &'a PointTable,
    pub columns: Columns<'a>,
    ghost some: { 0 < length table.now.rows },
    ghost few: { length table.now.rows ≤ POINTS },
    ghost within: { All (λ row. IsWithin COORDINATE row.at) table.now.rows },
    ghost same: { AreColumns columns.x.now columns.y.now columns.z.now table.now.rows },
}

// The coordinates of a point, in units.
#[derive(Clone, Copy)]
pub struct Place {
    pub x: i32,
    pub y: i32,
    pub z: i32,
}

// The point at a place, from 0.
#[inline(always)]
pub fn place_at(points: &Points<'_>, at: usize) -> Place
    requires { at < length points.now.table.now.rows }
    ensures value { record { x = result.x; y = result.y; z = result.z } ≡ point_at points.now.table.now.rows at }
    ensures size { IsWithin COORDINATE (point_at points.now.table.now.rows at) }
{
    Place {
        x: points.columns.x[at],
        y: points.columns.y[at],
        z: points.columns.z[at],
    }
}
