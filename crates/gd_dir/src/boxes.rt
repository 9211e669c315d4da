// The boxes of the cells of three faces.
ghost use Rattle.std.specs.Prelude.{◌≡◌, ◌≤◌, ◌∷◌, replicate, unsigned_abs, ◌-◌};
ghost use Rattle.gd_base.specs.Scales.{ONE};
ghost use Rattle.gd_dir.specs.Boxes.{Encloses, IsAsWideAs, IsBox, box_of, direction_of};
ghost use Rattle.gd_dir.specs.Directions.{LeadsAlong};
ghost use Rattle.gd_dir.specs.Faces.{IsFaceCell, middle};
ghost use Rattle.gd_vec.specs.Vector.{IsWithin};

use crate::ratio::{ratio_box, ratio_middle};
use crate::shape::DirBox;
use gd_base::scales;
use gd_cells::Cell;
use gd_vec::V3;

/// The direction of two ratios in 2^-30 on the face of a root: 1 along the root's axis, and the ratios along the others
/// in ascending order.
#[inline]
pub fn direction(root: u32, first: i64, second: i64) -> V3
    requires first_root { 1 ≤ root }
    requires last_root { root ≤ 3 }
    requires first { unsigned_abs first ≤ ONE }
    requires second { unsigned_abs second ≤ ONE }
    ensures value { result ≡ direction_of root first second }
    ensures size { IsWithin ONE result }
    ensures leads { LeadsAlong root result }
{
    match root {
        1 => V3 {
            x: scales::ONE,
            y: first,
            z: second,
        },
        2 => V3 {
            x: first,
            y: scales::ONE,
            z: second,
        },
        _ => V3 {
            x: first,
            y: second,
            z: scales::ONE,
        },
    }
}

/// No offset.
pub const ORIGIN: V3 = V3 { x: 0, y: 0, z: 0 };

/// The directions of a cell of two ratios, in 2^-30, with no offset.
pub fn face_box(c: &Cell) -> DirBox
    requires cell { IsFaceCell c.now }
    ensures ends { result ≡ box_of c.now }
    ensures fits { IsBox result }
    ensures encloses { Encloses result c.now }
    ensures widths { IsAsWideAs result c.now }
{
    box_at(c)
}

// The box of a cell of two ratios.
fn box_at(c: &Cell) -> DirBox
    requires { IsFaceCell c.now }
    ensures { result ≡ box_of c.now }
{
    let first = ratio_box(0, c);
    let second = ratio_box(1, c);
    DirBox {
        lead: c.root,
        lo: direction(c.root, first.lo, second.lo),
        hi: direction(c.root, first.hi, second.hi),
        offset_lo: ORIGIN,
        offset_hi: ORIGIN,
    }
}

/// The two ratios at the centre of a cell, in 2^-30.
pub fn centre_of(c: &Cell) -> (i64, i64)
    requires cell { IsFaceCell c.now }
    ensures first { result.0 ≡ middle 0 c.now }
    ensures second { result.1 ≡ middle 1 c.now }
    ensures first_size { unsigned_abs result.0 ≤ ONE }
    ensures second_size { unsigned_abs result.1 ≤ ONE }
{
    (ratio_middle(0, c), ratio_middle(1, c))
}
