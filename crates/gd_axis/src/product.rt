// Products of intervals in 64 bits: each end is one product, which the signs pick.
ghost use Rattle.std.specs.Prelude.{◌≡◌, ◌*◌, ◌^◌, ◌≤◌, ◌<◌, ◌*ℤ◌, ◌≤ℤ◌, ℕ, pos, unsigned_abs, cond, int_le};
ghost use Rattle.std.specs.Int.{int_max, int_min};
ghost use Rattle.gd_axis.specs.Shorts.{ShortFits, short_ends};
ghost use Rattle.gd_axis.specs.Sizes.{DIRECTION_SIZE, FROM_SIZE};
ghost use Rattle.gd_base.specs.Scales.{ONE};
ghost use Rattle.gd_interval.specs.Formulas.{mul_hi, mul_lo};
ghost use Rattle.gd_quat.specs.Boxes.{Fits};
ghost use Rattle.gd_quat.specs.Formulas.{ends, product};

use crate::short::Short;
use gd_interval::{Iv, between, greatest, least, times};

// The interval of two ends.
#[inline(always)]
pub fn span(lo: i64, hi: i64) -> Short
    requires { lo ≤ℤ hi }
    ensures lo { result.lo ≡ lo }
    ensures hi { result.hi ≡ hi }
{
    Short { lo, hi }
}

// The lesser of two numbers.
#[inline(always)]
fn lesser(a: i64, b: i64) -> i64
    ensures { result ≡ int_min a b }
{
    a.min(b)
}

// The greater of two numbers.
#[inline(always)]
pub fn greater(a: i64, b: i64) -> i64
    ensures value { result ≡ int_max a b }
    ensures size { (m : ℕ) → unsigned_abs a ≤ m → unsigned_abs b ≤ m → unsigned_abs result ≤ m }
{
    a.max(b)
}

// The one of two numbers that a sign picks.
#[inline(always)]
fn by_sign(sign: i64, yes: i64, no: i64) -> i64
    ensures value { result ≡ cond (int_le (pos 0) sign) yes no }
    ensures size { (m : ℕ) → unsigned_abs yes ≤ m → unsigned_abs no ≤ m → unsigned_abs result ≤ m }
{
    if 0 <= sign { yes } else { no }
}

// The product of two numbers.
#[inline(always)]
fn wide(n: i64, y: i64) -> i128
    requires n { unsigned_abs n ≤ ONE }
    requires y { unsigned_abs y ≤ FROM_SIZE }
    ensures { result ≡ n *ℤ y }
{
    times(i128::from(n), i128::from(y))
}

// A number times the one of two that its sign picks.
#[inline(always)]
fn end(y: i64, yes: i64, no: i64) -> i128
    requires y { unsigned_abs y ≤ FROM_SIZE }
    requires yes { unsigned_abs yes ≤ ONE }
    requires no { unsigned_abs no ≤ ONE }
    ensures { result ≡ cond (int_le (pos 0) y) yes no *ℤ y }
{
    wide(by_sign(y, yes, no), y)
}

// The product, where no number of `n` is below 0.
#[inline(always)]
fn product_above(n: Short, y: Short) -> Iv
    requires n { ShortFits ONE n }
    requires y { ShortFits FROM_SIZE y }
    requires sign { pos 0 ≤ℤ n.lo }
    ensures lo { result.lo ≡ mul_lo n.lo n.hi y.lo y.hi }
    ensures hi { result.hi ≡ mul_hi n.lo n.hi y.lo y.hi }
{
    between(end(y.lo, n.lo, n.hi), end(y.hi, n.hi, n.lo))
}

// The product, where no number of `n` is above 0.
#[inline(always)]
fn product_below(n: Short, y: Short) -> Iv
    requires n { ShortFits ONE n }
    requires y { ShortFits FROM_SIZE y }
    requires sign { n.hi ≤ℤ pos 0 }
    ensures lo { result.lo ≡ mul_lo n.lo n.hi y.lo y.hi }
    ensures hi { result.hi ≡ mul_hi n.lo n.hi y.lo y.hi }
{
    between(end(y.hi, n.lo, n.hi), end(y.lo, n.hi, n.lo))
}

// The product, where `n` holds 0.
#[inline(always)]
fn product_through(n: Short, y: Short) -> Iv
    requires n { ShortFits ONE n }
    requires y { ShortFits FROM_SIZE y }
    requires below { n.lo ≤ℤ pos 0 }
    requires above { pos 0 ≤ℤ n.hi }
    ensures lo { result.lo ≡ mul_lo n.lo n.hi y.lo y.hi }
    ensures hi { result.hi ≡ mul_hi n.lo n.hi y.lo y.hi }
{
    between(
        least(wide(n.lo, y.hi), wide(n.hi, y.lo)),
        greatest(wide(n.lo, y.lo), wide(n.hi, y.hi)),
    )
}

// The product of an entry of a direction and one of a vector, by its ends.
#[inline(always)]
fn product_by_sign(n: Short, y: Short) -> Iv
    requires n { ShortFits ONE n }
    requires y { ShortFits FROM_SIZE y }
    ensures lo { result.lo ≡ mul_lo n.lo n.hi y.lo y.hi }
    ensures hi { result.hi ≡ mul_hi n.lo n.hi y.lo y.hi }
{
    if 0 <= n.lo {
        product_above(n, y)
    } else if n.hi <= 0 {
        product_below(n, y)
    } else {
        product_through(n, y)
    }
}

// The product of an entry of a direction and one of a vector.
#[inline(always)]
pub fn product(n: Short, y: Short) -> Iv
    requires n { ShortFits ONE n }
    requires y { ShortFits FROM_SIZE y }
    ensures ends { ends result ≡ product (short_ends n) (short_ends y) }
    ensures small { (m : ℕ) → ShortFits m n → Fits (m * FROM_SIZE) result }
{
    product_by_sign(n, y)
}

// The product of two numbers, in 64 bits.
#[inline(always)]
pub fn short_times(y: i64, n: i64) -> i64
    requires { unsigned_abs y * unsigned_abs n < 2 ^ 62 }
    ensures { result ≡ y *ℤ n }
{
    y * n
}

// The product of a single whole number and an entry of a vector, by its ends.
#[inline(always)]
fn single_by_ends(n: Short, y: Short) -> Short
    requires n { ShortFits DIRECTION_SIZE n }
    requires single { n.lo ≡ n.hi }
    requires y { ShortFits FROM_SIZE y }
    ensures lo { result.lo ≡ mul_lo n.lo n.hi y.lo y.hi }
    ensures hi { result.hi ≡ mul_hi n.lo n.hi y.lo y.hi }
{
    let lower = short_times(y.lo, n.lo);
    let upper = short_times(y.hi, n.lo);
    span(lesser(lower, upper), greater(lower, upper))
}

// The product of a single whole number and an entry of a vector.
#[inline(always)]
pub fn single_product(n: Short, y: Short) -> Short
    requires n { ShortFits DIRECTION_SIZE n }
    requires single { n.lo ≡ n.hi }
    requires y { ShortFits FROM_SIZE y }
    ensures ends { short_ends result ≡ product (short_ends n) (short_ends y) }
    ensures size { ShortFits (2 ^ 55) result }
    ensures small { (m : ℕ) → ShortFits m y → ShortFits (2 ^ 10 * m) result }
{
    single_by_ends(n, y)
}
