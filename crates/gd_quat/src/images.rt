// Where the points of a part go.
ghost use Rattle.std.specs.Prelude.{◌≡◌, ◌+◌, ◌*◌, ◌^◌, ◌≤◌, ℕ, unsigned_abs};
ghost use Rattle.gd_base.specs.Scales.{ONE};
ghost use Rattle.gd_quat.specs.Boxes.{EnclosesMoved, EnclosesTurned, Fits, HoldsImage, HoldsVector, HoldsRotation};
ghost use Rattle.gd_quat.specs.Boxes.{IsRotationBox, MatrixFits, MatrixWidth, TurnedWidth, VectorFits};
ghost use Rattle.gd_quat.specs.Boxes.{ENTRY_SIZE, IMAGE_SIZE, MATRIX_SIZE, VECTOR_SIZE};
ghost use Rattle.gd_quat.specs.Formulas.{alone, ends, grid_ends, grid_image_formula, leading_ends, matrix_ends, moved_formula};
ghost use Rattle.gd_quat.specs.Formulas.{multiple, point_ends, rotation_ends, row_formula, row_sum_formula, sum};
ghost use Rattle.gd_quat.specs.Formulas.{turned_formula, vector_ends};
ghost use Rattle.gd_quat.specs.Placements.{IsOnGrid, placement_of, rotation_at};
ghost use Rattle.gd_vec.specs.Vector.{IsWithin};

use crate::matrices::matrix;
use crate::shape::{Assignment, MatrixBox, RotationBox, VecBox};
use gd_base::scales;
use gd_interval::{Iv, add, narrow, point, scale};
use gd_vec::V3;

/// The boxes of both, added entry by entry, in the unit of both: images in fine units and a translation or an offset.
#[inline]
pub fn moved(a: &VecBox, by: &VecBox) -> VecBox
    requires a { VectorFits IMAGE_SIZE a.now }
    requires by { VectorFits IMAGE_SIZE by.now }
    ensures ends { vector_ends result ≡ moved_formula (vector_ends a.now) (vector_ends by.now) }
    ensures encloses { EnclosesMoved a.now by.now result }
{
    shifted(a, by)
}

// The sums, entry by entry.
#[inline]
fn shifted(a: &VecBox, by: &VecBox) -> VecBox
    requires a { VectorFits IMAGE_SIZE a.now }
    requires by { VectorFits IMAGE_SIZE by.now }
    ensures { vector_ends result ≡ moved_formula (vector_ends a.now) (vector_ends by.now) }
{
    VecBox {
        x: entry_sum(a.x, by.x),
        y: entry_sum(a.y, by.y),
        z: entry_sum(a.z, by.z),
    }
}

// The sum of two entries.
#[inline]
fn entry_sum(a: Iv, b: Iv) -> Iv
    requires a { Fits IMAGE_SIZE a }
    requires b { Fits IMAGE_SIZE b }
    ensures { ends result ≡ sum (ends a) (ends b) }
{
    add(a, b)
}

/// The box of the exact image of a point at a placement of the grid, in fine units of 2^-16 unit. `v` is the point less
/// the part's first point, in units. Offsets of features are left out.
pub fn image_box(a: &Assignment, v: &V3) -> VecBox
    requires a { IsOnGrid a.now }
    requires v { IsWithin VECTOR_SIZE v.now }
    ensures ends { vector_ends result ≡ grid_image_formula a.now v.now }
    ensures encloses { HoldsImage result (placement_of a.now) v.now }
{
    let m = matrix(&grid_box(a));
    moved(&turned(&m, v), &point_box(&a.shift))
}

/// The box that holds the rotation of a placement of the grid alone, in 2^-30.
#[inline]
pub fn grid_box(a: &Assignment) -> RotationBox
    requires { IsOnGrid a.now }
    ensures ends { rotation_ends result ≡ grid_ends a.now.face a.now.ratios }
    ensures fits { IsRotationBox result }
    ensures holds { HoldsRotation result (rotation_at a.now.face a.now.ratios) }
{
    box_at(a)
}

/// The box that holds one vector alone, in its unit.
#[inline]
pub fn point_box(v: &V3) -> VecBox
    ensures ends { vector_ends result ≡ point_ends v.now }
    ensures size { VectorFits (2 ^ 63) result }
{
    VecBox {
        x: coordinate(v.x),
        y: coordinate(v.y),
        z: coordinate(v.z),
    }
}

// One coordinate alone.
#[inline]
fn coordinate(z: i64) -> Iv
    ensures ends { ends result ≡ alone z }
    ensures size { Fits (2 ^ 63) result }
{
    point(i128::from(z))
}

/// The vector `v`, in units, turned by every matrix of a box in 2^-30: in fine units of 2^-16 unit.
/// The products of a row are added exactly, and the sum loses 14 bits, outward.
#[inline]
pub fn turned(m: &MatrixBox, v: &V3) -> VecBox
    requires m { MatrixFits MATRIX_SIZE m.now }
    requires v { IsWithin VECTOR_SIZE v.now }
    ensures ends { vector_ends result ≡ turned_formula (matrix_ends m.now) v.now }
    ensures size { VectorFits (2 ^ 62) result }
    ensures encloses { EnclosesTurned m.now v.now result }
    ensures width { (w : ℕ) → MatrixWidth w m.now → TurnedWidth w v.now result }
    ensures small { (n : ℕ) → MatrixFits ENTRY_SIZE m.now → IsWithin n v.now → VectorFits (3 * 2 ^ 18 * n) result }
{
    rows(m, v)
}

// The three rows times the vector.
#[inline]
fn rows(m: &MatrixBox, v: &V3) -> VecBox
    requires m { MatrixFits MATRIX_SIZE m.now }
    requires v { IsWithin VECTOR_SIZE v.now }
    ensures ends { vector_ends result ≡ turned_formula (matrix_ends m.now) v.now }
    ensures size { VectorFits (2 ^ 62) result }
{
    VecBox {
        x: row(&m.x, v),
        y: row(&m.y, v),
        z: row(&m.z, v),
    }
}

// One row times the vector.
#[inline]
fn row(m: &VecBox, v: &V3) -> Iv
    requires m { VectorFits MATRIX_SIZE m.now }
    requires v { IsWithin VECTOR_SIZE v.now }
    ensures ends { ends result ≡ row_formula (vector_ends m.now) v.now }
    ensures size { Fits (2 ^ 62) result }
{
    narrow(row_sum(m, v), 14)
}

// The sum of the products of a row and the vector.
#[inline]
fn row_sum(m: &VecBox, v: &V3) -> Iv
    requires m { VectorFits MATRIX_SIZE m.now }
    requires v { IsWithin VECTOR_SIZE v.now }
    ensures ends { ends result ≡ row_sum_formula (vector_ends m.now) v.now }
    ensures size { Fits (3 * 2 ^ 74) result }
{
    add(add(scaled(m.x, v.x), scaled(m.y, v.y)), scaled(m.z, v.z))
}

// The product of an entry and a coordinate.
#[inline]
fn scaled(a: Iv, factor: i64) -> Iv
    requires a { Fits MATRIX_SIZE a }
    requires factor { unsigned_abs factor ≤ VECTOR_SIZE }
    ensures ends { ends result ≡ multiple (ends a) factor }
    ensures size { Fits (2 ^ 74) result }
{
    scale(a, i128::from(factor))
}

// One number alone.
#[inline]
fn ratio(z: i64) -> Iv
    requires { unsigned_abs z ≤ ONE }
    ensures ends { ends result ≡ alone z }
    ensures size { Fits ONE result }
{
    coordinate(z)
}

// The leading component is 1, and the others are the ratios.
#[inline]
fn box_at(a: &Assignment) -> RotationBox
    requires { IsOnGrid a.now }
    ensures ends { rotation_ends result ≡ grid_ends a.now.face a.now.ratios }
    ensures fits { IsRotationBox result }
{
    leading_at(
        a.face,
        ratio(a.ratios.first),
        ratio(a.ratios.second),
        ratio(a.ratios.third),
    )
}

/// The rotations with 1 at a component, by its number from 0, and three intervals at the others, in ascending order. The
/// ratios are in 2^-30.
#[inline]
pub fn leading_at(face: u32, first: Iv, second: Iv, third: Iv) -> RotationBox
    ensures ends { rotation_ends result ≡ leading_ends face (ends first) (ends second) (ends third) }
    ensures fits { Fits ONE first → Fits ONE second → Fits ONE third → IsRotationBox result }
{
    let one = point(i128::from(scales::ONE));
    match face {
        0 => RotationBox {
            q0: one,
            q1: first,
            q2: second,
            q3: third,
        },
        1 => RotationBox {
            q0: first,
            q1: one,
            q2: second,
            q3: third,
        },
        2 => RotationBox {
            q0: first,
            q1: second,
            q2: one,
            q3: third,
        },
        _ => RotationBox {
            q0: first,
            q1: second,
            q2: third,
            q3: one,
        },
    }
}
