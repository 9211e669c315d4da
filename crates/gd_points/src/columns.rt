// The coordinates of points, axis by axis.
ghost use Rattle.std.specs.Prelude.{◌≡◌, ◌≤◌, ◌<◌, ◌++◌, [], ◌∷◌, OnOk, vec_capacity, vec_len, unsigned_abs, get_or};
ghost use Rattle.std.specs.Prelude.{pos, length};
ghost use Rattle.std.specs.List.{All};
ghost use Rattle.gd_base.specs.Limits.{COORDINATE, POINTS};
ghost use Rattle.gd_vec.specs.Vector.{IsWithin};

use gd_vec::V3;
use std::alloc::{AllocError, Global};

/// The coordinates of some points in order, axis by axis, in units of 0.1 micrometre: 12 bytes a point.
#[derive(Clone, Copy)]
pub struct Columns<'a> {
    /// Their first coordinates.
    pub x: &'a [i32],
    /// Their second coordinates.
    pub y: &'a [i32],
    /// Their third coordinates.
    pub z: &'a [i32],
}

/// The points of a feature, or of a group of it: their numbers, ascending, and their coordinates in that order. A
/// number is the place of a point's row in the table, from 0.
#[derive(Clone, Copy)]
pub struct PointList<'a> {
    /// The numbers of the points.
    pub numbers: &'a [u32],
    /// Their coordinates, each within 8,000,000 units.
    pub columns: Columns<'a>,
    ghost few: { length numbers.now ≤ POINTS },
    ghost x: { length columns.x.now ≡ length numbers.now },
    ghost y: { length columns.y.now ≡ length numbers.now },
    ghost z: { length columns.z.now ≡ length numbers.now },
    ghost x_within: { All (λ x. unsigned_abs x ≤ COORDINATE) columns.x.now },
    ghost y_within: { All (λ y. unsigned_abs y ≤ COORDINATE) columns.y.now },
    ghost z_within: { All (λ z. unsigned_abs z ≤ COORDINATE) columns.z.now },
}

/// The lists that columns borrow.
#[derive(Drop)]
pub struct ColumnLists {
    pub x: Vec<i32>,
    pub y: Vec<i32>,
    pub z: Vec<i32>,
}

// A coordinate in 32 bits.
#[inline]
fn short(coordinate: i64) -> i32
    requires { unsigned_abs coordinate ≤ COORDINATE }
    ensures { result ≡ coordinate }
{
    coordinate as i32
}

impl ColumnLists {
    /// No points.
    pub fn new(alloc: Global) -> ColumnLists
        ensures x { result.x.items ≡ [] }
        ensures y { result.y.items ≡ [] }
        ensures z { result.z.items ≡ [] }
    {
        ColumnLists {
            x: Vec::new(alloc),
            y: Vec::new(alloc),
            z: Vec::new(alloc),
        }
    }

    /// Makes room for one more point.
    pub fn reserve(&mut self) -> Result<(), AllocError>
        ensures x { self.new.x.items ≡ self.old.x.items }
        ensures y { self.new.y.items ≡ self.old.y.items }
        ensures z { self.new.z.items ≡ self.old.z.items }
        ensures x_room { OnOk result (vec_len self.new.x < vec_capacity self.new.x) }
        ensures y_room { OnOk result (vec_len self.new.y < vec_capacity self.new.y) }
        ensures z_room { OnOk result (vec_len self.new.z < vec_capacity self.new.z) }
    {
        self.x.reserve(1)?;
        self.y.reserve(1)?;
        self.z.reserve(1)?;
        Ok(())
    }

    /// Adds a point after the others.
    pub fn push_reserved(&mut self, at: &V3)
        requires x_room { vec_len self.old.x < vec_capacity self.old.x }
        requires y_room { vec_len self.old.y < vec_capacity self.old.y }
        requires z_room { vec_len self.old.z < vec_capacity self.old.z }
        requires within { IsWithin COORDINATE at.now }
        ensures x { self.new.x.items ≡ self.old.x.items ++ at.now.x ∷ [] }
        ensures y { self.new.y.items ≡ self.old.y.items ++ at.now.y ∷ [] }
        ensures z { self.new.z.items ≡ self.old.z.items ++ at.now.z ∷ [] }
    {
        self.x.push_reserved(short(at.x));
        self.y.push_reserved(short(at.y));
        self.z.push_reserved(short(at.z));
    }

    /// The coordinates of a point.
    pub fn at(&self, at: usize) -> V3
        requires x { at < vec_len self.now.x }
        requires y { at < vec_len self.now.y }
        requires z { at < vec_len self.now.z }
        ensures { result ≡ record {
          x = get_or self.now.x.items at (pos 0);
          y = get_or self.now.y.items at (pos 0);
          z = get_or self.now.z.items at (pos 0);
        } }
    {
        V3 {
            x: i64::from(self.x[at]),
            y: i64::from(self.y[at]),
            z: i64::from(self.z[at]),
        }
    }
}
