// The points of a task: their table, and beside it their coordinates axis by axis.
ghost use Rattle.std.specs.Prelude.{◌≡◌, ◌<◌, ◌≤◌, ◌*◌, ◌^◌, length, option_map};
ghost use Rattle.std.specs.List.{All};
ghost use Rattle.gd_base.specs.Limits.{COORDINATE, POINTS};
ghost use Rattle.gd_flat.specs.FlatTests.{point_at};
ghost use Rattle.gd_flat.specs.Judged.{chosen_rows};
ghost use Rattle.gd_points.specs.Columns.{AreColumns};
ghost use Rattle.gd_vec.specs.Vector.{IsWithin};

use gd_points::{Columns, PointTable};

/// The points that a task judges, at least one: all of a table, or those at some places of it, from 0, where `numbers`
/// names them. Its loops over them read the columns, which are of these points alone.
#[derive(Clone, Copy)]
pub struct Points<'a> {
    pub table: &'a PointTable,
    pub numbers: Option<&'a [u32]>,
    pub columns: Columns<'a>,
    ghost some: { 0 < length (chosen_rows table.now.rows (option_map (λ n. n.now) numbers)) },
    ghost few: { length (chosen_rows table.now.rows (option_map (λ n. n.now) numbers)) ≤ POINTS },
    ghost within: { All (λ row. IsWithin COORDINATE row.at)
        (chosen_rows table.now.rows (option_map (λ n. n.now) numbers)) },
    ghost same: { AreColumns columns.x.now columns.y.now columns.z.now
        (chosen_rows table.now.rows (option_map (λ n. n.now) numbers)) },
}

// The coordinates of a point, in units.
#[derive(Clone, Copy)]
pub struct Place {
    pub x: i32,
    pub y: i32,
    pub z: i32,
}

// How many points there are.
#[inline]
pub fn count_of(points: &Points<'_>) -> usize
    ensures count { result ≡ length (chosen_rows points.now.table.now.rows
        (option_map (λ n. n.now) points.now.numbers)) }
    ensures few { result ≤ POINTS }
{
    points.columns.x.len()
}

// The point at a place, from 0.
#[inline(always)]
pub fn place_at(points: &Points<'_>, at: usize) -> Place
    requires { at < length (chosen_rows points.now.table.now.rows (option_map (λ n. n.now) points.now.numbers)) }
    ensures value { record { x = result.x; y = result.y; z = result.z } ≡ point_at
        (chosen_rows points.now.table.now.rows (option_map (λ n. n.now) points.now.numbers)) at }
    ensures size { IsWithin COORDINATE (point_at (chosen_rows points.now.table.now.rows
        (option_map (λ n. n.now) points.now.numbers)) at) }
{
    Place {
        x: points.columns.x[at],
        y: points.columns.y[at],
        z: points.columns.z[at],
    }
}

/// Points are looked at in blocks of so many. A block is long enough that its start costs nothing beside it.
const BLOCK: usize = 512;

// Where the block ends that begins at a place.
#[inline]
pub fn block_end(from: usize, count: usize) -> usize
    requires from { from < count }
    requires count { count ≤ POINTS }
    ensures more { from < result }
    ensures most { result ≤ count }
{
    count.min(from + BLOCK)
}
