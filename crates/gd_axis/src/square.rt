// The sums of squares of intervals in 64 bits: squares alone need 128.
ghost use Rattle.std.specs.Prelude.{◌≡◌, ◌*◌, ◌≤◌, ℕ, ◌*ℤ◌, ◌≤ℤ◌, neg_ℤ, pos, unsigned_abs};
ghost use Rattle.std.specs.Int.{int_max};
ghost use Rattle.gd_axis.specs.Shorts.{ShortFits, ShortVectorFits, short_ends, short_vector};
ghost use Rattle.gd_axis.specs.Sizes.{ACROSS_SIZE, SQUARE_SIZE};
ghost use Rattle.gd_interval.specs.Formulas.{square_hi, square_lo};
ghost use Rattle.gd_quat.specs.Boxes.{Fits};
ghost use Rattle.gd_quat.specs.Formulas.{ends, square, sum};
ghost use Rattle.gd_zone.specs.Values.{squares_of};

use crate::product::greater;
use crate::short::{Short, ShortVec};
use gd_interval::{Iv, add, between, times};

// A number with the other sign.
#[inline(always)]
fn opposite(a: i64) -> i64
    requires { unsigned_abs a ≤ ACROSS_SIZE }
    ensures value { result ≡ neg_ℤ a }
    ensures size { unsigned_abs result ≤ ACROSS_SIZE }
{
    -a
}

// How far the number that is nearest to 0 is from it.
#[inline(always)]
fn nearest(a: Short) -> i64
    requires { ShortFits ACROSS_SIZE a }
    ensures value { result ≡ int_max (int_max a.lo (neg_ℤ a.hi)) (pos 0) }
    ensures size { unsigned_abs result ≤ ACROSS_SIZE }
{
    greater(greater(a.lo, opposite(a.hi)), 0)
}

// How far the number that is farthest from 0 is from it.
#[inline(always)]
fn farthest(a: Short) -> i64
    requires { ShortFits ACROSS_SIZE a }
    ensures value { result ≡ int_max (neg_ℤ a.lo) a.hi }
    ensures size { unsigned_abs result ≤ ACROSS_SIZE }
{
    greater(opposite(a.lo), a.hi)
}

// The square of a number.
#[inline(always)]
fn by_itself(a: i64) -> i128
    requires { unsigned_abs a ≤ ACROSS_SIZE }
    ensures { result ≡ a *ℤ a }
{
    let a = i128::from(a);
    times(a, a)
}

// The square of an entry, by its ends.
#[inline(always)]
fn square_by_ends(a: Short) -> Iv
    requires { ShortFits ACROSS_SIZE a }
    ensures lo { result.lo ≡ square_lo a.lo a.hi }
    ensures hi { result.hi ≡ square_hi a.lo a.hi }
{
    between(by_itself(nearest(a)), by_itself(farthest(a)))
}

// The square of an entry.
#[inline(always)]
fn square_of(a: Short) -> Iv
    requires { ShortFits ACROSS_SIZE a }
    ensures ends { ends result ≡ square (short_ends a) }
    ensures small { (m : ℕ) → ShortFits m a → Fits (m * m) result }
    ensures not_negative { pos 0 ≤ℤ result.lo }
{
    square_by_ends(a)
}

// The sum of two squares.
#[inline(always)]
fn pair_of(a: Iv, b: Iv) -> Iv
    requires a { Fits SQUARE_SIZE a }
    requires b { Fits SQUARE_SIZE b }
    ensures ends { ends result ≡ sum (ends a) (ends b) }
    ensures small { (m : ℕ) → Fits m a → Fits m b → Fits (2 * m) result }
{
    add(a, b)
}

// The sum of three squares.
#[inline(always)]
fn sum_of(a: Iv, b: Iv, c: Iv) -> Iv
    requires a { Fits SQUARE_SIZE a }
    requires b { Fits SQUARE_SIZE b }
    requires c { Fits SQUARE_SIZE c }
    ensures ends { ends result ≡ sum (sum (ends a) (ends b)) (ends c) }
    ensures small { (m : ℕ) → Fits m a → Fits m b → Fits m c → Fits (3 * m) result }
{
    add(pair_of(a, b), c)
}

// The sum of the squares of a vector's entries.
#[inline(always)]
pub fn squared(y: &ShortVec) -> Iv
    requires { ShortVectorFits ACROSS_SIZE y.now }
    ensures ends { ends result ≡ squares_of (short_vector y.now) }
    ensures small { (m : ℕ) → ShortVectorFits m y.now → Fits (3 * (m * m)) result }
    ensures not_negative { pos 0 ≤ℤ result.lo }
{
    sum_of(square_of(y.x), square_of(y.y), square_of(y.z))
}
