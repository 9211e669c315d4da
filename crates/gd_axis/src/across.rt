// Cross products of directions and vectors, in 64 bits.
ghost use Rattle.std.specs.Prelude.{◌≡◌, ◌*◌, ◌^◌, ◌≤◌, ℕ, ◌-ℤ◌, true, unsigned_abs};
ghost use Rattle.gd_axis.specs.Shorts.{ShortFits, ShortVectorFits, short_ends, short_vector};
ghost use Rattle.gd_axis.specs.AxisTests.{across, minor};
ghost use Rattle.gd_axis.specs.Sizes.{ACROSS_SIZE, DIRECTION_SIZE, FROM_SIZE};
ghost use Rattle.gd_base.specs.Scales.{ONE};
ghost use Rattle.gd_quat.specs.Boxes.{Fits};
ghost use Rattle.gd_quat.specs.Formulas.{difference, ends};

use crate::product::{product, single_product, span};
use crate::short::{Short, ShortVec};
use gd_interval::{Iv, narrow, sub};

// The difference of two products.
#[inline(always)]
fn apart(a: Iv, b: Iv) -> Iv
    requires a { Fits (2 ^ 75) a }
    requires b { Fits (2 ^ 75) b }
    ensures ends { ends result ≡ difference (ends a) (ends b) }
    ensures small { (m : ℕ) → Fits m a → Fits m b → Fits (2 * m) result }
{
    sub(a, b)
}

// An end in 64 bits.
#[inline(always)]
fn cut(a: i128) -> i64
    requires { unsigned_abs a ≤ ACROSS_SIZE }
    ensures { result ≡ a }
{
    a as i64
}

// The same interval in 64 bits.
#[inline(always)]
fn shortened(a: Iv) -> Short
    requires { Fits ACROSS_SIZE a }
    ensures ends { short_ends result ≡ ends a }
    ensures size { ShortFits ACROSS_SIZE result }
{
    span(cut(a.lo), cut(a.hi))
}

// An entry of a cross product with a direction in 2^-30.
#[inline(always)]
fn ratio_minor(n: Short, y: Short, m: Short, z: Short) -> Short
    requires n { ShortFits ONE n }
    requires y { ShortFits FROM_SIZE y }
    requires m { ShortFits ONE m }
    requires z { ShortFits FROM_SIZE z }
    ensures ends { short_ends result ≡ minor 30 (short_ends n) (short_ends y) (short_ends m) (short_ends z) }
    ensures size { ShortFits ACROSS_SIZE result }
{
    shortened(narrow(apart(product(n, y), product(m, z)), 30))
}

// An entry of a cross product with a direction of whole entries.
#[inline(always)]
fn whole_minor(n: Short, y: Short, m: Short, z: Short) -> Short
    requires n { ShortFits DIRECTION_SIZE n }
    requires y { ShortFits FROM_SIZE y }
    requires m { ShortFits DIRECTION_SIZE m }
    requires z { ShortFits FROM_SIZE z }
    ensures ends { short_ends result ≡ minor 0 (short_ends n) (short_ends y) (short_ends m) (short_ends z) }
    ensures size { ShortFits ACROSS_SIZE result }
{
    shortened(narrow(apart(product(n, y), product(m, z)), 0))
}

// The cross product with a direction in 2^-30.
#[inline(always)]
pub fn across_ratios(n: &ShortVec, y: &ShortVec) -> ShortVec
    requires n { ShortVectorFits ONE n.now }
    requires y { ShortVectorFits FROM_SIZE y.now }
    ensures ends { short_vector result ≡ across 30 (short_vector n.now) (short_vector y.now) }
    ensures size { ShortVectorFits ACROSS_SIZE result }
{
    ShortVec {
        x: ratio_minor(n.y, y.z, n.z, y.y),
        y: ratio_minor(n.z, y.x, n.x, y.z),
        z: ratio_minor(n.x, y.y, n.y, y.x),
    }
}

// The difference of two ends.
#[inline(always)]
fn less(a: i64, b: i64) -> i64
    requires a { unsigned_abs a ≤ 2 ^ 55 }
    requires b { unsigned_abs b ≤ 2 ^ 55 }
    ensures value { result ≡ a -ℤ b }
    ensures size { unsigned_abs result ≤ ACROSS_SIZE }
    ensures small { unsigned_abs a ≤ 2 ^ 54 → unsigned_abs b ≤ 2 ^ 54 → unsigned_abs result ≤ 2 ^ 55 }
{
    a - b
}

// The difference of two products, in 64 bits.
#[inline(always)]
fn short_apart(a: Short, b: Short) -> Short
    requires a { ShortFits (2 ^ 55) a }
    requires b { ShortFits (2 ^ 55) b }
    ensures ends { short_ends result ≡ difference (short_ends a) (short_ends b) }
    ensures size { ShortFits ACROSS_SIZE result }
    ensures small { ShortFits (2 ^ 54) a → ShortFits (2 ^ 54) b → ShortFits (2 ^ 55) result }
{
    span(less(a.lo, b.hi), less(a.hi, b.lo))
}

// An entry of a cross product with a single direction of whole entries.
#[inline(always)]
fn single_minor(n: Short, y: Short, m: Short, z: Short) -> Short
    requires n { ShortFits DIRECTION_SIZE n }
    requires n_single { n.lo ≡ n.hi }
    requires y { ShortFits FROM_SIZE y }
    requires m { ShortFits DIRECTION_SIZE m }
    requires m_single { m.lo ≡ m.hi }
    requires z { ShortFits FROM_SIZE z }
    ensures ends { short_ends result ≡ minor 0 (short_ends n) (short_ends y) (short_ends m) (short_ends z) }
    ensures size { ShortFits ACROSS_SIZE result }
    ensures small { ShortFits (2 ^ 44) y → ShortFits (2 ^ 44) z → ShortFits (2 ^ 55) result }
{
    short_apart(single_product(n, y), single_product(m, z))
}

// The cross product with a single direction of whole entries.
#[inline(always)]
pub fn across_single(n: &ShortVec, y: &ShortVec) -> ShortVec
    requires n { ShortVectorFits DIRECTION_SIZE n.now }
    requires x_single { n.now.x.lo ≡ n.now.x.hi }
    requires y_single { n.now.y.lo ≡ n.now.y.hi }
    requires z_single { n.now.z.lo ≡ n.now.z.hi }
    requires y { ShortVectorFits FROM_SIZE y.now }
    ensures ends { short_vector result ≡ across 0 (short_vector n.now) (short_vector y.now) }
    ensures size { ShortVectorFits ACROSS_SIZE result }
    ensures small { ShortVectorFits (2 ^ 44) y.now → ShortVectorFits (2 ^ 55) result }
{
    ShortVec {
        x: single_minor(n.y, y.z, n.z, y.y),
        y: single_minor(n.z, y.x, n.x, y.z),
        z: single_minor(n.x, y.y, n.y, y.x),
    }
}

// Whether some directions are a single one.
#[inline(always)]
pub fn is_single(n: &ShortVec) -> bool
    ensures x { result ≡ true → n.now.x.lo ≡ n.now.x.hi }
    ensures y { result ≡ true → n.now.y.lo ≡ n.now.y.hi }
    ensures z { result ≡ true → n.now.z.lo ≡ n.now.z.hi }
{
    n.x.lo == n.x.hi && n.y.lo == n.y.hi && n.z.lo == n.z.hi
}

// The cross product with directions of whole entries: those of a circle's box are a single one.
#[inline(always)]
pub fn across_whole(n: &ShortVec, y: &ShortVec) -> ShortVec
    requires n { ShortVectorFits DIRECTION_SIZE n.now }
    requires y { ShortVectorFits FROM_SIZE y.now }
    ensures ends { short_vector result ≡ across 0 (short_vector n.now) (short_vector y.now) }
    ensures size { ShortVectorFits ACROSS_SIZE result }
{
    if is_single(n) {
        across_single(n, y)
    } else {
        across_wholes(n, y)
    }
}

// The cross product with directions of whole entries.
#[inline(always)]
fn across_wholes(n: &ShortVec, y: &ShortVec) -> ShortVec
    requires n { ShortVectorFits DIRECTION_SIZE n.now }
    requires y { ShortVectorFits FROM_SIZE y.now }
    ensures ends { short_vector result ≡ across 0 (short_vector n.now) (short_vector y.now) }
    ensures size { ShortVectorFits ACROSS_SIZE result }
{
    ShortVec {
        x: whole_minor(n.y, y.z, n.z, y.y),
        y: whole_minor(n.z, y.x, n.x, y.z),
        z: whole_minor(n.x, y.y, n.y, y.x),
    }
}
