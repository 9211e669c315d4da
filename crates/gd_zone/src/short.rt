// Intervals in 64 bits, for the values of points: only squares need more.
ghost use Rattle.std.specs.Prelude.{◌≡◌, ◌*◌, ◌<◌, ◌≤◌, ◌^◌, ◌≤ℤ◌, ◌+ℤ◌, ◌-ℤ◌, ◌*ℤ◌, ℕ, pos, unsigned_abs};
ghost use Rattle.std.specs.Int.{int_max, int_min};
ghost use Rattle.gd_int.specs.Division.{ceil_of, floor_of};
ghost use Rattle.gd_interval.specs.Formulas.{narrow_hi, narrow_lo, scale_hi, scale_lo};
ghost use Rattle.gd_quat.specs.Boxes.{Fits, MatrixFits, VectorFits};
ghost use Rattle.gd_quat.specs.Formulas.{difference, ends, matrix_ends, moved_formula, multiple, row_formula};
ghost use Rattle.gd_quat.specs.Formulas.{row_sum_formula, sum, turned_formula, vector_ends};
ghost use Rattle.gd_vec.specs.Vector.{IsWithin};
ghost use Rattle.gd_zone.specs.Shorts.{ShortFits, ShortMatrixFits, ShortVectorFits, short_ends, short_matrix};
ghost use Rattle.gd_zone.specs.Shorts.{short_vector};

use crate::shape::{Short, ShortMatrix, ShortVec};
use gd_interval::{Iv, between};
use gd_quat::{MatrixBox, VecBox};
use gd_vec::V3;

#[inline(always)]
fn both(lo: i64, hi: i64) -> Short
    requires { lo ≤ℤ hi }
    ensures lo { result.lo ≡ lo }
    ensures hi { result.hi ≡ hi }
{
    Short { lo, hi }
}

// An end in 64 bits.
#[inline(always)]
fn cut(a: i128) -> i64
    requires { unsigned_abs a ≤ 2 ^ 47 }
    ensures { result ≡ a }
{
    a as i64
}

// The same interval, of fine units.
#[inline(always)]
fn shortened(a: Iv) -> Short
    requires { Fits (2 ^ 47) a }
    ensures ends { short_ends result ≡ ends a }
    ensures size { ShortFits (2 ^ 47) result }
{
    both(cut(a.lo), cut(a.hi))
}

// The same interval, of an entry of a matrix.
#[inline(always)]
fn short_entry(a: Iv) -> Short
    requires { Fits (2 ^ 32) a }
    ensures ends { short_ends result ≡ ends a }
    ensures size { ShortFits (2 ^ 32) result }
{
    both(cut(a.lo), cut(a.hi))
}

/// The same vectors.
#[inline]
pub fn short_vec(v: &VecBox) -> ShortVec
    requires { VectorFits (2 ^ 47) v.now }
    ensures ends { short_vector result ≡ vector_ends v.now }
    ensures size { ShortVectorFits (2 ^ 47) result }
{
    ShortVec {
        x: shortened(v.x),
        y: shortened(v.y),
        z: shortened(v.z),
    }
}

// The same row.
#[inline]
fn short_row(v: &VecBox) -> ShortVec
    requires { VectorFits (2 ^ 32) v.now }
    ensures ends { short_vector result ≡ vector_ends v.now }
    ensures size { ShortVectorFits (2 ^ 32) result }
{
    ShortVec {
        x: short_entry(v.x),
        y: short_entry(v.y),
        z: short_entry(v.z),
    }
}

/// The same matrices.
#[inline]
pub fn short_matrix(m: &MatrixBox) -> ShortMatrix
    requires { MatrixFits (2 ^ 32) m.now }
    ensures ends { short_matrix result ≡ matrix_ends m.now }
    ensures size { ShortMatrixFits (2 ^ 32) result }
{
    ShortMatrix {
        x: short_row(&m.x),
        y: short_row(&m.y),
        z: short_row(&m.z),
    }
}

/// The same interval in 128 bits.
#[inline(always)]
pub fn widened(a: Short) -> Iv
    ensures ends { ends result ≡ short_ends a }
    ensures size { (n : ℕ) → ShortFits n a → Fits n result }
{
    between(i128::from(a.lo), i128::from(a.hi))
}

// ---- one operation each
#[inline(always)]
fn times(a: i64, b: i64) -> i64
    requires { unsigned_abs a * unsigned_abs b < 2 ^ 62 }
    ensures { result ≡ a *ℤ b }
{
    a * b
}

#[inline(always)]
fn plus(a: i64, b: i64) -> i64
    requires { unsigned_abs (a +ℤ b) < 2 ^ 62 }
    ensures { result ≡ a +ℤ b }
{
    a + b
}

#[inline(always)]
fn minus(a: i64, b: i64) -> i64
    requires { unsigned_abs (a -ℤ b) < 2 ^ 62 }
    ensures { result ≡ a -ℤ b }
{
    a - b
}

#[inline(always)]
fn least(a: i64, b: i64) -> i64
    ensures { result ≡ int_min a b }
{
    a.min(b)
}

#[inline(always)]
fn greatest(a: i64, b: i64) -> i64
    ensures { result ≡ int_max a b }
{
    a.max(b)
}

#[inline(always)]
fn shifted(a: i64) -> i64
    ensures { result ≡ floor_of a (pos (2 ^ 14)) }
{
    a >> 14
}

#[inline(always)]
fn shifted_up(a: i64) -> i64
    requires { unsigned_abs a ≤ 2 ^ 61 }
    ensures { result ≡ ceil_of a (pos (2 ^ 14)) }
{
    -shifted(-a)
}

// ---- intervals
// The product with a number.
#[inline(always)]
fn scale(a: Short, factor: i64) -> Short
    requires lo { unsigned_abs a.lo * unsigned_abs factor < 2 ^ 62 }
    requires hi { unsigned_abs a.hi * unsigned_abs factor < 2 ^ 62 }
    ensures lo { result.lo ≡ scale_lo a.lo a.hi factor }
    ensures hi { result.hi ≡ scale_hi a.lo a.hi factor }
{
    let lower = times(a.lo, factor);
    let upper = times(a.hi, factor);
    both(least(lower, upper), greatest(lower, upper))
}

#[inline(always)]
fn add(a: Short, b: Short) -> Short
    requires lo { unsigned_abs (a.lo +ℤ b.lo) < 2 ^ 62 }
    requires hi { unsigned_abs (a.hi +ℤ b.hi) < 2 ^ 62 }
    ensures lo { result.lo ≡ a.lo +ℤ b.lo }
    ensures hi { result.hi ≡ a.hi +ℤ b.hi }
{
    both(plus(a.lo, b.lo), plus(a.hi, b.hi))
}

#[inline(always)]
fn sub(a: Short, b: Short) -> Short
    requires lo { unsigned_abs (a.lo -ℤ b.hi) < 2 ^ 62 }
    requires hi { unsigned_abs (a.hi -ℤ b.lo) < 2 ^ 62 }
    ensures lo { result.lo ≡ a.lo -ℤ b.hi }
    ensures hi { result.hi ≡ a.hi -ℤ b.lo }
{
    both(minus(a.lo, b.hi), minus(a.hi, b.lo))
}

// ---- with their sizes
// An entry of a matrix times a coordinate.
#[inline(always)]
fn entry(a: Short, factor: i64) -> Short
    requires a { ShortFits (2 ^ 32) a }
    requires factor { unsigned_abs factor ≤ 2 ^ 27 }
    ensures ends { short_ends result ≡ multiple (short_ends a) factor }
    ensures size { ShortFits (2 ^ 59) result }
{
    scale(a, factor)
}

// An entry of a vector times one of a direction.
#[inline(always)]
pub fn scaled(a: Short, factor: i64) -> Short
    requires a { ShortFits (2 ^ 48) a }
    requires factor { unsigned_abs factor ≤ 2 ^ 10 }
    ensures ends { short_ends result ≡ multiple (short_ends a) factor }
    ensures size { ShortFits (2 ^ 58) result }
{
    scale(a, factor)
}

// The sum of three products.
#[inline(always)]
pub fn total(a: Short, b: Short, c: Short) -> Short
    requires a { ShortFits (2 ^ 59) a }
    requires b { ShortFits (2 ^ 59) b }
    requires c { ShortFits (2 ^ 59) c }
    ensures ends { short_ends result ≡ sum (sum (short_ends a) (short_ends b)) (short_ends c) }
    ensures size { ShortFits (2 ^ 61) result }
    ensures small { ShortFits (2 ^ 58) a → ShortFits (2 ^ 58) b → ShortFits (2 ^ 58) c → ShortFits (2 ^ 60) result }
{
    add(pair(a, b), c)
}

// The sum of two.
#[inline(always)]
fn pair(a: Short, b: Short) -> Short
    requires a { ShortFits (2 ^ 59) a }
    requires b { ShortFits (2 ^ 59) b }
    ensures ends { short_ends result ≡ sum (short_ends a) (short_ends b) }
    ensures size { ShortFits (2 ^ 60) result }
    ensures small { ShortFits (2 ^ 58) a → ShortFits (2 ^ 58) b → ShortFits (2 ^ 59) result }
{
    add(a, b)
}

// The difference of two.
#[inline(always)]
pub fn apart(a: Short, b: Short) -> Short
    requires a { ShortFits (2 ^ 58) a }
    requires b { ShortFits (2 ^ 58) b }
    ensures ends { short_ends result ≡ difference (short_ends a) (short_ends b) }
    ensures size { ShortFits (2 ^ 59) result }
{
    sub(a, b)
}

// With 14 bits fewer.
#[inline(always)]
fn narrowed(a: Short) -> Short
    requires { ShortFits (2 ^ 61) a }
    ensures lo { result.lo ≡ narrow_lo a.lo 14 }
    ensures hi { result.hi ≡ narrow_hi a.hi 14 }
    ensures size { ShortFits (2 ^ 47) result }
{
    both(shifted(a.lo), shifted_up(a.hi))
}

// A row times a vector.
#[inline(always)]
fn row(m: &ShortVec, v: &V3) -> Short
    requires m { ShortVectorFits (2 ^ 32) m.now }
    requires v { IsWithin (2 ^ 27) v.now }
    ensures ends { short_ends result ≡ row_formula (short_vector m.now) v.now }
    ensures size { ShortFits (2 ^ 47) result }
{
    narrowed(row_sum(m, v))
}

#[inline(always)]
fn row_sum(m: &ShortVec, v: &V3) -> Short
    requires m { ShortVectorFits (2 ^ 32) m.now }
    requires v { IsWithin (2 ^ 27) v.now }
    ensures ends { short_ends result ≡ row_sum_formula (short_vector m.now) v.now }
    ensures size { ShortFits (2 ^ 61) result }
{
    total(entry(m.x, v.x), entry(m.y, v.y), entry(m.z, v.z))
}

/// A vector in units, turned: in fine units.
#[inline(always)]
pub fn turned(m: &ShortMatrix, v: &V3) -> ShortVec
    requires m { ShortMatrixFits (2 ^ 32) m.now }
    requires v { IsWithin (2 ^ 27) v.now }
    ensures ends { short_vector result ≡ turned_formula (short_matrix m.now) v.now }
    ensures size { ShortVectorFits (2 ^ 47) result }
{
    ShortVec {
        x: row(&m.x, v),
        y: row(&m.y, v),
        z: row(&m.z, v),
    }
}

// The sum of two entries.
#[inline(always)]
fn entry_sum(a: Short, b: Short) -> Short
    requires a { ShortFits (2 ^ 47) a }
    requires b { ShortFits (2 ^ 47) b }
    ensures ends { short_ends result ≡ sum (short_ends a) (short_ends b) }
    ensures size { ShortFits (2 ^ 48) result }
{
    add(a, b)
}

/// The sum, entry by entry.
#[inline(always)]
pub fn moved(a: &ShortVec, by: &ShortVec) -> ShortVec
    requires a { ShortVectorFits (2 ^ 47) a.now }
    requires by { ShortVectorFits (2 ^ 47) by.now }
    ensures ends { short_vector result ≡ moved_formula (short_vector a.now) (short_vector by.now) }
    ensures size { ShortVectorFits (2 ^ 48) result }
{
    ShortVec {
        x: entry_sum(a.x, by.x),
        y: entry_sum(a.y, by.y),
        z: entry_sum(a.z, by.z),
    }
}
