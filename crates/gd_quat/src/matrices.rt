// The matrix of a box of rotations.
ghost use Rattle.std.specs.Prelude.{◌≡◌, ◌+◌, ◌*◌, ◌^◌, ◌≤ℤ◌, ℕ, pos};
ghost use Rattle.gd_quat.specs.Boxes.{EnclosesMatrix, Fits, IsNarrow, IsRotationBox, MatrixFits, MatrixWidth};
ghost use Rattle.gd_quat.specs.Boxes.{ENTRY_SIZE};
ghost use Rattle.gd_quat.specs.Formulas.{ends, matrix_ends, matrix_formula, norm_ends, rotation_ends};

use crate::entries::{
    balance_of, difference_of, entry, multiplied, squared, sum_of, total_of, twice,
};
use crate::shape::{MatrixBox, RotationBox, VecBox};
use gd_interval::Iv;

/// The matrices of the rotations of a box, in 2^-30: each entry is its numerator over the sum of the four squares.
/// One component of the box is 1 exactly, and none is larger. An entry is at most 2 wider than 12 times the widest
/// component.
pub fn matrix(q: &RotationBox) -> MatrixBox
    requires { IsRotationBox q.now }
    ensures ends { matrix_ends result ≡ matrix_formula (rotation_ends q.now) }
    ensures size { MatrixFits ENTRY_SIZE result }
    ensures encloses { EnclosesMatrix q.now result }
    ensures width { (w : ℕ) → IsNarrow w q.now → MatrixWidth (12 * w + 2) result }
{
    entries(q)
}

// The nine entries.
#[inline]
fn entries(q: &RotationBox) -> MatrixBox
    requires { IsRotationBox q.now }
    ensures ends { matrix_ends result ≡ matrix_formula (rotation_ends q.now) }
    ensures size { MatrixFits ENTRY_SIZE result }
{
    let norm = norm(q);
    let (s0, s1, s2, s3) = (squared(q.q0), squared(q.q1), squared(q.q2), squared(q.q3));
    let (p01, p02, p03) = (
        multiplied(q.q0, q.q1),
        multiplied(q.q0, q.q2),
        multiplied(q.q0, q.q3),
    );
    let (p12, p13, p23) = (
        multiplied(q.q1, q.q2),
        multiplied(q.q1, q.q3),
        multiplied(q.q2, q.q3),
    );
    MatrixBox {
        x: VecBox {
            x: entry(balance_of(s0, s1, s2, s3), norm),
            y: entry(twice(difference_of(p12, p03)), norm),
            z: entry(twice(sum_of(p13, p02)), norm),
        },
        y: VecBox {
            x: entry(twice(sum_of(p12, p03)), norm),
            y: entry(balance_of(s0, s2, s1, s3), norm),
            z: entry(twice(difference_of(p23, p01)), norm),
        },
        z: VecBox {
            x: entry(twice(difference_of(p13, p02)), norm),
            y: entry(twice(sum_of(p23, p01)), norm),
            z: entry(balance_of(s0, s3, s1, s2), norm),
        },
    }
}

// The sum of the squares of the components, in 2^-60. It is at least 1, as one component is.
#[inline]
fn norm(q: &RotationBox) -> Iv
    requires { IsRotationBox q.now }
    ensures ends { ends result ≡ norm_ends (rotation_ends q.now) }
    ensures size { Fits (2 ^ 62) result }
    ensures large { pos (2 ^ 60) ≤ℤ result.lo }
{
    total_of(squared(q.q0), squared(q.q1), squared(q.q2), squared(q.q3))
}
